// Terms of lines and planes.
ghost use Rattle.std.specs.Prelude.{◌≡◌, ◌++◌, OnOk};
ghost use Rattle.dk_print.specs.Parts.{constant_term_text, sign_text, step_text, term_text, times_text};

use dk_base::{NoMemory, Text};

// ` - ` for a number below 0, and else ` + `.
fn push_sign(text: &mut Text, number: i128) -> Result<(), NoMemory>
    ensures { OnOk result (text.new ≡ text.old ++ sign_text number) }
{
    if number < 0 {
        text.append(b" - ")
    } else {
        text.append(b" + ")
    }
}

/// The number's sign and its absolute value, behind the text.
pub(crate) fn push_step(text: &mut Text, number: i128) -> Result<(), NoMemory>
    ensures { OnOk result (text.new ≡ text.old ++ step_text number) }
{
    push_sign(text, number)?;
    text.append_number(number.unsigned_abs())
}

/// The constant with its sign, behind the text; nothing where it is 0.
pub(crate) fn push_constant(text: &mut Text, constant: i128) -> Result<(), NoMemory>
    ensures { OnOk result (text.new ≡ text.old ++ constant_term_text constant) }
{
    if constant == 0 {
        return Ok(());
    }
    push_step(text, constant)
}

/// The variable's name times the factor, which is left out where it is 1, behind the text.
pub(crate) fn push_times(text: &mut Text, factor: u128, name: &[u8]) -> Result<(), NoMemory>
    ensures { OnOk result (text.new ≡ text.old ++ times_text factor name.now) }
{
    if factor == 1 {
        return text.append(name);
    }
    text.append_number(factor)?;
    text.append(b" * ")?;
    text.append(name)
}

/// A further term, with its sign, behind the text.
pub(crate) fn push_term(text: &mut Text, factor: i128, name: &[u8]) -> Result<(), NoMemory>
    ensures { OnOk result (text.new ≡ text.old ++ term_text factor name.now) }
{
    push_sign(text, factor)?;
    push_times(text, factor.unsigned_abs(), name)
}
