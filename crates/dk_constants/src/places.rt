// Places of variables in a list of known values.
ghost use Rattle.std.specs.Prelude.{◌≡◌, IfErr, IfOk, None, option_copied};
ghost use Rattle.dk_constants.specs.Known.{EntriesAscend, IsAt, IsGapFor, known_at};

use dk_base::{Value, VarId};

/// Where the variable stands, or where it would go.
pub(crate) fn search(known: &[(VarId, Value)], v: VarId) -> Result<usize, usize>
    requires { EntriesAscend known.now }
    ensures found { IfOk result (IsAt known.now v) }
    ensures absent { IfErr result (IsGapFor known.now v) }
{
    known.binary_search_by_key(&v.0, |entry| entry.0.0)
}

/// The value that is known of the variable.
pub(crate) fn find(known: &[(VarId, Value)], v: VarId) -> Option<&Value>
    requires { EntriesAscend known.now }
    ensures { option_copied result ≡ known_at known.now v }
{
    match search(known, v) {
        Ok(place) => Some(&known[place].1),
        Err(_) => None,
    }
}
