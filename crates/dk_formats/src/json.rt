// Lines as objects of JSON.
ghost use Rattle.std.specs.Prelude.{◌≡◌, ◌++◌, ◌<◌, ◌^◌, IfOk, OnOk, length};
ghost use Rattle.dk_expr.specs.Naming.{AreUnderNames};
ghost use Rattle.dk_formats.specs.Steps.{AddsJson, AddsSection};
ghost use Rattle.dk_formats.specs.Telling.{json_line, says_fields};
ghost use Rattle.dk_json.specs.Lines.{claimed_fields, object_of, written};

use crate::formats::Sectioned;
use dk_base::{NoMemory, Text, VarInfo};
use dk_claims::{ReportLine, Section};
use dk_expr::{Assertion, VarNames, read_by};
use dk_json::{Claimed, Instance, line};
use std::alloc::Global;

// The object of a line that claims this.
fn object(
    alloc: Global,
    vars: &[VarInfo],
    claimed: Claimed<'_>,
    says: &Option<Assertion>,
) -> Result<Vec<u8>, NoMemory>
    ensures { IfOk result (λ bytes. bytes.items ≡ written (object_of (claimed_fields claimed.entry) (says_fields vars.now says.now))) }
{
    match says {
        Some(assertion) => {
            let instance = Instance {
                row: assertion.row,
                infos: vars,
                vars: assertion.vars.as_slice(),
                state: &assertion.state,
            };
            line(alloc, claimed, Some(instance))
        }
        None => line(alloc, claimed, None),
    }
}

// The object of a line, behind the text.
fn push_object(
    alloc: Global,
    text: &mut Text,
    vars: &[VarInfo],
    point: &[u8],
    told: &ReportLine,
    says: &Option<Assertion>,
) -> Result<(), NoMemory>
    ensures { OnOk result (text.new ≡ text.old ++ json_line vars.now point.now (record { line = told.now; says = says.now })) }
{
    let claimed = Claimed {
        point,
        text: told.text.as_slice(),
        samples: told.samples,
    };
    let bytes = object(alloc, vars, claimed, says)?;
    text.append(bytes.as_slice())?;
    text.push(b'\n')
}

// The objects of the lines, behind the text.
fn push_lines(
    alloc: Global,
    text: &mut Text,
    vars: &[VarInfo],
    names: &VarNames,
    point: &[u8],
    lines: &[ReportLine],
) -> Result<(), NoMemory>
    requires { AreUnderNames vars.now names.now }
    ensures { OnOk result (AddsJson vars.now point.now lines.now text.old text.new) }
{
    for told in lines {
        let says = read_by(alloc, vars, names, told.text.as_slice())?;
        push_object(alloc, text, vars, point, told, &says)?;
    }
    Ok(())
}

/// The lines of a section as objects of JSON, one a line, behind the text. The variables are those of the section's point.
pub(crate) fn push_json(
    alloc: Global,
    text: &mut Text,
    vars: &[VarInfo],
    section: &Section,
) -> Result<(), NoMemory>
    requires { length vars.now < 2 ^ 32 }
    ensures { OnOk result (AddsSection Sectioned.Json vars.now section.now text.old text.new) }
{
    let names = VarNames::of(alloc, vars)?;
    push_lines(
        alloc,
        text,
        vars,
        &names,
        section.point.as_slice(),
        section.lines.as_slice(),
    )
}
