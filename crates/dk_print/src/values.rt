// The values that a state knows.
ghost use Rattle.std.specs.Prelude.{◌≡◌, ◌++◌, ℕ, List, OnOk, codes, flat_map};
ghost use Rattle.std.specs.Fmt.{signed_decimal};
ghost use Rattle.dk_base.specs.Values.Spelling.{bool_text};
ghost use Rattle.dk_print.specs.Parts.{known_text, values_text};

use dk_base::{NoMemory, Text};
use dk_template::State;

/// What has a text as a value.
trait Printed {
    ghost text_of: { Self → List ℕ };

    fn push_to(&self, text: &mut Text) -> Result<(), NoMemory>
        ensures { OnOk result (text.new ≡ text.old ++ text_of self.now) };
}

impl Printed for i64 {
    ghost text_of = { signed_decimal };

    fn push_to(&self, text: &mut Text) -> Result<(), NoMemory> {
        text.append_number(*self)
    }
}

impl Printed for bool {
    ghost text_of = { bool_text };

    fn push_to(&self, text: &mut Text) -> Result<(), NoMemory> {
        if *self {
            text.append(b"true")
        } else {
            text.append(b"false")
        }
    }
}

impl Printed for Text {
    ghost text_of = { λ text. text };

    fn push_to(&self, text: &mut Text) -> Result<(), NoMemory> {
        text.append(self.as_slice())
    }
}

// The value, behind a comma.
fn push_next<T: Printed>(text: &mut Text, value: &T) -> Result<(), NoMemory>
    ensures { OnOk result (text.new ≡ text.old ++ (codes ", " ++ T.text_of value.now)) }
{
    text.append(b", ")?;
    value.push_to(text)
}

// The values, each behind a comma.
fn push_rest<T: Printed>(text: &mut Text, values: &[T]) -> Result<(), NoMemory>
    ensures { OnOk result (text.new ≡ text.old ++ flat_map (λ x. codes ", " ++ T.text_of x) values.now) }
{
    for value in values {
        push_next(text, value)?;
    }
    Ok(())
}

// What a state says that knows these values: ` == A`, or ` one of { A, B }`.
fn push_values<T: Printed>(text: &mut Text, values: &[T]) -> Result<(), NoMemory>
    ensures { OnOk result (text.new ≡ text.old ++ values_text T.text_of values.now) }
{
    match values {
        [] => Ok(()),
        [value] => {
            text.append(b" == ")?;
            value.push_to(text)
        }
        [first, rest @ ..] => {
            text.append(b" one of { ")?;
            first.push_to(text)?;
            push_rest(text, rest)?;
            text.append(b" }")
        }
    }
}

/// The values that the state knows, behind the text: nothing where it is of another form.
pub(crate) fn push_known(text: &mut Text, state: &State) -> Result<(), NoMemory>
    ensures { OnOk result (text.new ≡ text.old ++ known_text state.now) }
{
    match state {
        State::Ints(numbers) => push_values(text, numbers.as_slice()),
        State::Truth(truth) => push_values(text, &[*truth]),
        State::Texts(texts) => push_values(text, texts.as_slice()),
        _ => Ok(()),
    }
}
