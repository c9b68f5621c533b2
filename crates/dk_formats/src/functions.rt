// The lines of a section as a function.
ghost use Rattle.std.specs.Prelude.{◌≡◌, ◌++◌, ◌<◌, ◌^◌, IfOk, OnOk, length};
ghost use Rattle.dk_expr.specs.Naming.{AreUnderNames};
ghost use Rattle.dk_functions.specs.Functions.{assertion_if, comment_if};
ghost use Rattle.dk_languages.specs.Bases.{bases};
ghost use Rattle.dk_formats.specs.Steps.{AddsSection, AreParts};
ghost use Rattle.dk_formats.specs.Telling.{expression_of};

use crate::formats::Sectioned;
use dk_base::{NoMemory, Text, VarInfo};
use dk_claims::{ReportLine, Section};
use dk_expr::{Assertion, VarNames, read_by};
use dk_functions::{push_assertion, push_closing, push_comment, push_opening};
use dk_languages::{Base, Language, bases, telling};
use std::alloc::Global;

// What a line says as an expression, if the language can say it.
fn expression_of(
    alloc: Global,
    language: Language,
    vars: &[VarInfo],
    told: &[Base],
    says: &Option<Assertion>,
) -> Result<Option<Text>, NoMemory>
    requires { told.now ≡ bases language vars.now }
    ensures { IfOk result (λ expression. expression ≡ expression_of language vars.now says.now) }
{
    match says {
        Some(assertion) => telling(
            alloc,
            language,
            vars,
            told,
            assertion.row,
            assertion.vars.as_slice(),
            &assertion.state,
        ),
        None => Ok(None),
    }
}

// The text of a function, and what stands in front of it.
#[derive(Drop)]
pub(crate) struct Parts {
    pub(crate) comments: Text,
    pub(crate) assertions: Text,
}

impl Parts {
    // A line, in one of the two.
    fn push(
        &mut self,
        language: Language,
        said: &[u8],
        expression: &Option<Text>,
    ) -> Result<(), NoMemory>
        ensures comments { OnOk result (self.new.comments ≡ self.old.comments ++ comment_if language said.now expression.now) }
        ensures assertions { OnOk result (self.new.assertions ≡ self.old.assertions ++ assertion_if language said.now expression.now) }
    {
        match expression {
            Some(expression) => push_assertion(
                &mut self.assertions,
                language,
                said,
                expression.as_slice(),
            ),
            None => push_comment(&mut self.comments, language, said),
        }
    }
}

// What stands for the lines in front of the function, and in it.
fn parts_of(
    alloc: Global,
    language: Language,
    vars: &[VarInfo],
    names: &VarNames,
    lines: &[ReportLine],
) -> Result<Parts, NoMemory>
    requires { AreUnderNames vars.now names.now }
    ensures { IfOk result (AreParts language vars.now lines.now) }
{
    let told = bases(alloc, language, vars)?;
    let mut parts = Parts {
        comments: Text::new(alloc),
        assertions: Text::new(alloc),
    };
    for line in lines {
        let says = read_by(alloc, vars, names, line.text.as_slice())?;
        let expression = expression_of(alloc, language, vars, told.as_slice(), &says)?;
        parts.push(language, line.text.as_slice(), &expression)?;
    }
    Ok(parts)
}

/// The lines of a section that the language can't say, and the function of its point with the others, behind the text. The variables are
/// those of the point.
pub(crate) fn push_function(
    alloc: Global,
    text: &mut Text,
    language: Language,
    vars: &[VarInfo],
    section: &Section,
) -> Result<(), NoMemory>
    requires { length vars.now < 2 ^ 32 }
    ensures { OnOk result (AddsSection (Sectioned.In language) vars.now section.now text.old text.new) }
{
    let names = VarNames::of(alloc, vars)?;
    let parts = parts_of(alloc, language, vars, &names, section.lines.as_slice())?;
    text.append(parts.comments.as_slice())?;
    push_opening(alloc, text, language, vars, section.point.as_slice())?;
    text.append(parts.assertions.as_slice())?;
    push_closing(text, language)
}
