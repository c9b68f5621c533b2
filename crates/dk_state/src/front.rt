// What is left of a state file while it is read.
ghost use Rattle.std.specs.Prelude.{◌≡◌, ◌++◌, ◌-◌, ◌<◌, ◌≤◌, ◌^◌, [], ℕ, ℤ, IfOk, IfSome, IsTrue, List, Some, length, nat_eq, take, drop, unsigned_abs, unwrap_or};
ghost use Rattle.std.specs.List.{position_or_len, starts_with};
ghost use Rattle.std.specs.Fmt.{decimal, signed_decimal};
ghost use Rattle.dk_base.specs.Names.{escaped};
ghost use Rattle.dk_base.specs.Numbers.{fits_i64};
ghost use Rattle.dk_base.specs.Values.{IsOfKind, value_of_text};
ghost use Rattle.dk_base.specs.Values.Spelling.{IsWritten, spelling};
ghost use Rattle.dk_state.specs.Lines.{behind_blank};
ghost use Rattle.dk_state.specs.Reading.{BeginsWith, HasNone, begins_number, ends_field, ends_line};

use dk_base::{
    Arena, Kind, NoMemory, Text, Value, ValueFault, in_i64, in_u64, parse_integer, parse_value,
    parse_wide, unescape,
};
use std::alloc::Global;
use std::marker::Model;

/// The bytes of a state file that are left to be read. Bytes of another form than the one that is awaited end the reading: then nothing is
/// left. Contracts see the bytes.
#[derive(Drop)]
pub(crate) struct Front<'a> {
    left: &'a [u8],
}

impl<'a> Model for Front<'a> {
    ghost use Rattle.std.specs.Prelude.{ℕ, List};

    ghost Value = { List ℕ };

    ghost view = { λ f. f.left.now };
}

// How many bytes stand in front of the first blank or LF.
fn field_len(bytes: &[u8]) -> usize
    ensures value { result ≡ position_or_len ends_field bytes.now }
    ensures within { result ≤ length bytes.now }
{
    for (i, byte) in bytes.iter().enumerate() {
        if *byte == b' ' || *byte == b'\n' {
            return i;
        }
    }
    bytes.len()
}

// How many bytes stand in front of the first LF.
fn line_len(bytes: &[u8]) -> usize
    ensures value { result ≡ position_or_len ends_line bytes.now }
    ensures within { result ≤ length bytes.now }
{
    for (i, byte) in bytes.iter().enumerate() {
        if *byte == b'\n' {
            return i;
        }
    }
    bytes.len()
}

// The number, if it is one of 32 bits.
fn in_u32(number: u64) -> Option<u32>
    ensures { number < 2 ^ 32 → result ≡ Some number }
{
    u32::try_from(number).ok()
}

// The whole number that a text writes, mostly one of 64 bits.
fn wide_in(text: &[u8]) -> Option<i128>
    ensures read { (z : ℤ) → unsigned_abs z < 2 ^ 127 → text.now ≡ signed_decimal z → result ≡ Some z }
    ensures within { IfSome result (λ z. unsigned_abs z < 2 ^ 127) }
{
    match parse_integer(text) {
        Some(number) => Some(i128::from(number)),
        None => parse_wide(text),
    }
}

// The value that a text writes.
fn value_in(alloc: Global, kind: Kind, text: &[u8]) -> Result<Option<Value>, NoMemory>
    ensures { IfOk result (λ value. value ≡ value_of_text kind text.now) }
{
    let arena = Arena::new(alloc);
    match parse_value(&arena, kind, text) {
        Ok(view) => Ok(Some(Value::keep(alloc, view)?)),
        Err(ValueFault::Bad) => Ok(None),
        Err(ValueFault::NoMemory) => Err(NoMemory),
    }
}

impl<'a> Front<'a> {
    /// All bytes of a file.
    pub(crate) fn of(bytes: &'a [u8]) -> Front<'a>
        ensures { result ≡ bytes.now }
    {
        Front { left: bytes }
    }

    /// Whether these bytes come next.
    pub(crate) fn is_at(&self, bytes: &[u8]) -> bool
        ensures begins { result ≡ starts_with nat_eq self.now bytes.now }
        ensures long { IsTrue result → length bytes.now ≤ length self.now }
    {
        self.left.starts_with(bytes)
    }

    /// Whether a field comes next that begins with a digit.
    pub(crate) fn is_at_number(&self) -> bool
        ensures begins { result ≡ begins_number self.now }
        ensures some { IsTrue result → 0 < length self.now }
    {
        match self.left {
            [b' ', b'0'..=b'9', ..] => true,
            _ => false,
        }
    }

    /// The same bytes, to look ahead.
    pub(crate) fn ahead(&self) -> Front<'a>
        ensures { result ≡ self.now }
    {
        Front { left: self.left }
    }

    /// Leaves nothing to be read.
    pub(crate) fn give_up(&mut self)
        ensures { self.new ≡ [] }
    {
        self.left = &[];
    }

    /// Passes these bytes, which are awaited next.
    pub(crate) fn pass(&mut self, bytes: &[u8])
        requires { 0 < length bytes.now }
        ensures read { (rest : List ℕ) → self.old ≡ bytes.now ++ rest → self.new ≡ rest }
        ensures shorter { length self.new ≤ length self.old - 1 }
    {
        match self.left.strip_prefix(bytes) {
            Some(rest) => self.left = rest,
            None => self.left = &[],
        }
    }

    // The bytes in front of this place, which are passed.
    fn take(&mut self, len: usize) -> &'a [u8]
        requires { len ≤ length self.old }
        ensures front { result.now ≡ take len self.old }
        ensures rest { self.new ≡ drop len self.old }
    {
        let (front, rest) = self.left.split_at(len);
        self.left = rest;
        front
    }

    /// The next field: what stands behind a blank and in front of the next blank or the line's end.
    pub(crate) fn field(&mut self) -> &'a [u8]
        ensures read { (field rest : List ℕ) → HasNone ends_field field → BeginsWith ends_field rest → self.old ≡ behind_blank field ++ rest → (result.now ≡ field) × (self.new ≡ rest) }
        ensures shorter { length self.new ≤ length self.old - 1 }
    {
        self.pass(b" ");
        self.take(field_len(self.left))
    }

    /// The last field of the line: what stands behind a blank and in front of the line's end.
    pub(crate) fn last_field(&mut self) -> &'a [u8]
        ensures read { (field rest : List ℕ) → HasNone ends_line field → BeginsWith ends_line rest → self.old ≡ behind_blank field ++ rest → (result.now ≡ field) × (self.new ≡ rest) }
        ensures shorter { length self.new ≤ length self.old - 1 }
    {
        self.pass(b" ");
        self.take(line_len(self.left))
    }

    // What was found, or else this, where the reading ends.
    fn or_give_up<T: Drop>(&mut self, found: Option<T>, otherwise: T) -> T
        ensures read { (x : T) → found ≡ Some x → (result ≡ x) × (self.new ≡ self.old) }
        ensures value { result ≡ unwrap_or found otherwise }
        ensures shorter { length self.new ≤ length self.old }
    {
        match found {
            Some(x) => x,
            None => {
                self.give_up();
                otherwise
            }
        }
    }

    /// A whole number as a field.
    pub(crate) fn wide(&mut self) -> i128
        ensures read { (z : ℤ) (rest : List ℕ) → unsigned_abs z < 2 ^ 127 → BeginsWith ends_field rest → self.old ≡ behind_blank (signed_decimal z) ++ rest → (result ≡ z) × (self.new ≡ rest) }
        ensures within { unsigned_abs result < 2 ^ 127 }
        ensures shorter { length self.new ≤ length self.old - 1 }
    {
        let number = wide_in(self.field());
        self.or_give_up(number, 0)
    }

    /// A whole number of 64 bits with its sign, as a field.
    pub(crate) fn integer(&mut self) -> i64
        ensures read { (z : ℤ) (rest : List ℕ) → IsTrue (fits_i64 z) → BeginsWith ends_field rest → self.old ≡ behind_blank (signed_decimal z) ++ rest → (result ≡ z) × (self.new ≡ rest) }
        ensures within { IsTrue (fits_i64 result) }
        ensures shorter { length self.new ≤ length self.old - 1 }
    {
        let number = in_i64(self.wide());
        self.or_give_up(number, 0)
    }

    /// A whole number of 64 bits without a sign, as a field.
    pub(crate) fn natural(&mut self) -> u64
        ensures read { (n : ℕ) (rest : List ℕ) → n < 2 ^ 64 → BeginsWith ends_field rest → self.old ≡ behind_blank (decimal n) ++ rest → (result ≡ n) × (self.new ≡ rest) }
        ensures within { result < 2 ^ 64 }
        ensures shorter { length self.new ≤ length self.old - 1 }
    {
        let number = in_u64(self.wide());
        self.or_give_up(number, 0)
    }

    /// A whole number of 32 bits without a sign, as a field.
    pub(crate) fn place(&mut self) -> u32
        ensures read { (n : ℕ) (rest : List ℕ) → n < 2 ^ 32 → BeginsWith ends_field rest → self.old ≡ behind_blank (decimal n) ++ rest → (result ≡ n) × (self.new ≡ rest) }
        ensures within { result < 2 ^ 32 }
        ensures shorter { length self.new ≤ length self.old - 1 }
    {
        let number = in_u32(self.natural());
        self.or_give_up(number, 0)
    }

    /// A name as a field.
    pub(crate) fn name(&mut self, alloc: Global) -> Result<Text, NoMemory>
        ensures read { (name rest : List ℕ) → HasNone ends_line name → BeginsWith ends_field rest → self.old ≡ behind_blank (escaped name) ++ rest → IfOk result (λ own. (own ≡ name) × (self.new ≡ rest)) }
        ensures shorter { length self.new ≤ length self.old - 1 }
    {
        unescape(alloc, self.field())
    }

    /// A value of this kind as the last field of its line.
    pub(crate) fn value(&mut self, alloc: Global, kind: Kind) -> Result<Value, NoMemory>
        ensures read { (v : Value) (rest : List ℕ) → IsOfKind kind v → IsWritten v → BeginsWith ends_line rest → self.old ≡ behind_blank (spelling v) ++ rest → IfOk result (λ own. (own ≡ v) × (self.new ≡ rest)) }
        ensures within { IfOk result (λ own. IsOfKind kind own × IsWritten own) }
        ensures shorter { length self.new ≤ length self.old - 1 }
    {
        let text = self.last_field();
        self.parse_value(alloc, kind, text)
    }

    /// The value that a text writes.
    pub(crate) fn parse_value(
        &mut self,
        alloc: Global,
        kind: Kind,
        text: &[u8],
    ) -> Result<Value, NoMemory>
        ensures read { (v : Value) → IsOfKind kind v → IsWritten v → text.now ≡ spelling v → IfOk result (λ own. (own ≡ v) × (self.new ≡ self.old)) }
        ensures within { IfOk result (λ own. IsOfKind kind own × IsWritten own) }
        ensures shorter { length self.new ≤ length self.old }
    {
        let value = value_in(alloc, kind, text)?;
        Ok(self.or_give_up(value, Value::Missing))
    }
}
