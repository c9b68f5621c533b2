// Bare names: a line that is such a name spells it.
ghost use Rattle.std.specs.Prelude.{◌≡◌};
ghost use Rattle.std.specs.List.{list_all};
ghost use Rattle.dk_points.specs.Bare.{have_bare_names, is_bare_byte, is_bare_name};

use dk_decl::VarDecl;

fn are_bare(bytes: &[u8]) -> bool
    ensures { result ≡ list_all is_bare_byte bytes.now }
{
    bytes.iter().all(|byte| *byte > b' ' && *byte != b'\\')
}

fn is_bare_name(name: &[u8]) -> bool
    ensures { result ≡ is_bare_name name.now }
{
    !name.is_empty() && are_bare(name)
}

// Whether each variable has a bare name.
pub(crate) fn have_bare_names(vars: &[VarDecl]) -> bool
    ensures { result ≡ have_bare_names vars.now }
{
    vars.iter().all(|var| is_bare_name(var.name.as_slice()))
}
