// The lines of a sample record.
ghost use Rattle.std.specs.Prelude.{◌≡◌, ◌++◌, ◌∷◌, [], OnOk, codes, flat_map};
ghost use Rattle.std.specs.Fmt.{signed_decimal};
ghost use Rattle.std.specs.List.{zip};
ghost use Rattle.dk_base.specs.Names.{escaped};
ghost use Rattle.dk_base.specs.Values.{value_of, values_of};
ghost use Rattle.dk_lines.specs.Passing.{joined};
ghost use Rattle.dk_write.specs.Records.{Recorded, nonce_lines, record_lines, told_lines};

use crate::names::push_escaped;
use crate::values::{mark_text, value_text};
use dk_base::{NoMemory, Text, View};
use dk_decl::{PointDecl, VarDecl};
use std::alloc::Global;

fn push_name_line(text: &mut Text, name: &[u8]) -> Result<(), NoMemory>
    ensures { OnOk result (text.new ≡ text.old ++ joined (escaped name.now ∷ [])) }
{
    push_escaped(text, name)?;
    text.append(b"\n")
}

fn push_line(text: &mut Text, line: &[u8]) -> Result<(), NoMemory>
    ensures { OnOk result (text.new ≡ text.old ++ joined (line.now ∷ [])) }
{
    text.append(line)?;
    text.append(b"\n")
}

fn push_number_line(text: &mut Text, number: i64) -> Result<(), NoMemory>
    ensures { OnOk result (text.new ≡ text.old ++ joined (signed_decimal number ∷ [])) }
{
    text.append_number(number)?;
    text.append(b"\n")
}

// The lines of a nonce: the line in front of it, and the number.
fn push_nonce_lines(text: &mut Text, number: i64) -> Result<(), NoMemory>
    ensures { OnOk result (text.new ≡ text.old ++ joined (codes "this_invocation_nonce" ∷ signed_decimal number ∷ [])) }
{
    push_line(text, b"this_invocation_nonce")?;
    push_number_line(text, number)
}

fn push_nonce(text: &mut Text, nonce: Option<i64>) -> Result<(), NoMemory>
    ensures { OnOk result (text.new ≡ text.old ++ joined (nonce_lines nonce)) }
{
    match nonce {
        None => Ok(()),
        Some(number) => push_nonce_lines(text, number),
    }
}

// The three lines of a variable, or none if it has a constant.
fn push_told(alloc: Global, text: &mut Text, var: &VarDecl, view: View<'_>) -> Result<(), NoMemory>
    ensures { OnOk result (text.new ≡ text.old ++ joined (told_lines (var.now, value_of view.entry))) }
{
    if var.constant_line {
        return Ok(());
    }
    let value = value_text(alloc, view)?;
    push_name_line(text, var.name.as_slice())?;
    push_line(text, value.as_slice())?;
    push_line(text, mark_text(view))
}

fn push_all_told(
    alloc: Global,
    text: &mut Text,
    vars: &[VarDecl],
    values: &[View<'_>],
) -> Result<(), NoMemory>
    ensures { OnOk result (text.new ≡ text.old ++ joined (flat_map told_lines (zip vars.now (values_of values.now)))) }
{
    for i in 0..vars.len().min(values.len()) {
        push_told(alloc, text, &vars[i], values[i])?;
    }
    Ok(())
}

/// The lines of a sample record, behind the text: the point's name, the nonce, if there is one, and for each variable without a constant its
/// name, its value and the mark, which is 2 of a missing value and else 1. The values are those of the declared variables in order. No blank
/// line stands behind them. After an error the text may hold a part of it.
pub fn push_record(
    alloc: Global,
    text: &mut Text,
    decl: &PointDecl,
    nonce: Option<i64>,
    values: &[View<'_>],
) -> Result<(), NoMemory>
    ensures { let recorded : Recorded = record { decl = decl.now; nonce = nonce; values = values_of values.now } in OnOk result (text.new ≡ text.old ++ joined (record_lines recorded)) }
{
    push_name_line(text, decl.name.as_slice())?;
    push_nonce(text, nonce)?;
    push_all_told(alloc, text, decl.vars.as_slice(), values)
}
