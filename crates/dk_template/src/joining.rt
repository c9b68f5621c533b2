// What two states say together.
ghost use Rattle.std.specs.Prelude.{◌≡◌, IfOk, OnErr};
ghost use Rattle.dk_template.specs.Joins.{joined};
ghost use Rattle.dk_template.specs.Proper.{IsProper};

use crate::{State, StateForm};
use dk_base::NoMemory;
use dk_forms::{
    join_code, join_greatest, join_ints, join_least, join_line, join_modulus, join_offset,
    join_plain, join_plane, join_texts, join_truth,
};
use std::alloc::Global;

fn joined_by(form: StateForm, alloc: Global, a: State, b: &State) -> Result<State, NoMemory>
    requires a { IsProper form a }
    requires b { IsProper form b.now }
    ensures state { IfOk result (λ state. state ≡ joined form a b.now) }
    ensures err { OnErr result (form ≡ StateForm.Texts) }
{
    Ok(match form {
        StateForm::Plain => join_plain(a, b),
        StateForm::Least => join_least(a, b),
        StateForm::Greatest => join_greatest(a, b),
        StateForm::Ints => join_ints(alloc, a, b),
        StateForm::Truth => join_truth(a, b),
        StateForm::Code => join_code(a, b),
        StateForm::Texts => return join_texts(alloc, a, b),
        StateForm::Modulus => join_modulus(a, b),
        StateForm::Line => join_line(a, b),
        StateForm::Plane => join_plane(a, b),
        StateForm::Offset => join_offset(a, b),
    })
}

/// The state of two lists together, of two states of the form. Only texts want memory.
pub fn join_states(form: StateForm, alloc: Global, a: State, b: &State) -> Result<State, NoMemory>
    requires a { IsProper form a }
    requires b { IsProper form b.now }
    ensures state { IfOk result (λ state. state ≡ joined form a b.now) }
    ensures proper { IfOk result (λ state. IsProper form state) }
    ensures err { OnErr result (form ≡ StateForm.Texts) }
{
    joined_by(form, alloc, a, b)
}
