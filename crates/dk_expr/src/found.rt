// What is found of an instance in a text.
ghost use Rattle.std.specs.Prelude.{◌≡◌, ◌+◌, ◌<◌, ◌^◌, drop, if◌then◌else◌, length};
ghost use Rattle.dk_expr.specs.Following.{past, start, with_factor, with_var};

use dk_base::VarId;

/// What is found of an instance in the front of a text: its variables, and the numbers that its parts tell. What isn't found yet is 0.
#[derive(Clone, Copy)]
pub(crate) struct Parsed {
    /// How many bytes are read.
    pub(crate) at: usize,
    /// The variables, by role.
    pub(crate) first: VarId,
    pub(crate) second: VarId,
    pub(crate) third: VarId,
    /// The factors of the variables, by role.
    pub(crate) first_factor: i128,
    pub(crate) second_factor: i128,
    pub(crate) third_factor: i128,
    /// The least or the greatest number.
    pub(crate) bound: i128,
    /// The remainder of a modulus, and the modulus.
    pub(crate) remainder: i128,
    pub(crate) modulus: i128,
    /// The constant that the text adds or takes away.
    pub(crate) offset: i128,
    /// The constant of a line or a plane.
    pub(crate) constant: i128,
    /// Where the values begin, and where what is said of a hash code does.
    pub(crate) values: usize,
    pub(crate) code: usize,
}

// The new value, or the old one.
fn chosen<T: Copy>(is_new: bool, new: T, old: T) -> T
    ensures { result ≡ (if is_new then new else old) }
{
    if is_new { new } else { old }
}

impl Parsed {
    /// Nothing is found yet.
    pub(crate) fn start() -> Parsed
        ensures { result ≡ start }
    {
        Parsed {
            at: 0,
            first: VarId(0),
            second: VarId(0),
            third: VarId(0),
            first_factor: 0,
            second_factor: 0,
            third_factor: 0,
            bound: 0,
            remainder: 0,
            modulus: 0,
            offset: 0,
            constant: 0,
            values: 0,
            code: 0,
        }
    }

    /// With so many more bytes read.
    pub(crate) fn past(self, len: usize) -> Parsed
        requires { self.at + len < 2 ^ 64 }
        ensures { result ≡ past len self }
    {
        Parsed {
            at: self.at + len,
            ..self
        }
    }

    /// With the variable at this role.
    pub(crate) fn with_var(self, role: usize, v: VarId) -> Parsed
        ensures { result ≡ with_var role v self }
    {
        Parsed {
            first: chosen(role == 0, v, self.first),
            second: chosen(role == 1, v, self.second),
            third: chosen(role == 2, v, self.third),
            ..self
        }
    }

    /// With the factor of the variable at this role.
    pub(crate) fn with_factor(self, role: usize, factor: i128) -> Parsed
        ensures { result ≡ with_factor role factor self }
    {
        Parsed {
            first_factor: chosen(role == 0, factor, self.first_factor),
            second_factor: chosen(role == 1, factor, self.second_factor),
            third_factor: chosen(role == 2, factor, self.third_factor),
            ..self
        }
    }

    /// With all bytes of the text read.
    pub(crate) fn at_end(self, text: &[u8]) -> Parsed
        ensures { result ≡ past (length (drop self.at text.now)) self }
    {
        self.past(self.rest(text).len())
    }

    /// The bytes of the text that are left.
    pub(crate) fn rest(self, text: &[u8]) -> &[u8]
        ensures { result.now ≡ drop self.at text.now }
    {
        &text[self.at.min(text.len())..]
    }
}
