// Reports in a format.
ghost use Rattle.std.specs.Prelude.{◌≡◌, ◌<◌, IfOk, OnOk, length};
ghost use Rattle.dk_derive.specs.Laws.{all_vars_of};
ghost use Rattle.dk_formats.specs.Saying.{vars_under};
ghost use Rattle.dk_formats.specs.Steps.{AddsSection, AreTold};
ghost use Rattle.dk_formats.specs.Telling.{IsTold, front_text};

use crate::Format;
use crate::formats::Sectioned;
use crate::pages::page_report;
use crate::sections::push_section;
use dk_base::{NoMemory, PointId, Text};
use dk_claims::Section;
use dk_derive::derive;
use dk_functions::preamble;
use dk_points::Points;
use std::alloc::Global;

// What stands in front of all sections.
fn front_text(format: Sectioned) -> &'static str
    ensures { result.now ≡ front_text format }
{
    match format {
        Sectioned::Json => "",
        Sectioned::In(language) => preamble(language),
    }
}

// The section of a point that is known, behind the text.
fn push_known(
    alloc: Global,
    text: &mut Text,
    format: Sectioned,
    points: &Points,
    point: PointId,
    section: &Section,
) -> Result<(), NoMemory>
    requires { point.0 < length points.now }
    ensures { OnOk result (AddsSection format (all_vars_of points.now point.0) section.now text.old text.new) }
{
    let vars = derive(alloc, points.vars(point))?;
    push_section(alloc, text, format, vars.as_slice(), section)
}

// A section, behind the text.
fn push_section_of(
    alloc: Global,
    text: &mut Text,
    format: Sectioned,
    points: &Points,
    section: &Section,
) -> Result<(), NoMemory>
    ensures { OnOk result (AddsSection format (vars_under points.now section.now.point) section.now text.old text.new) }
{
    match points.find(section.point.as_slice()) {
        Some(point) => push_known(alloc, text, format, points, point, section),
        None => push_section(alloc, text, format, &[], section),
    }
}

// The sections of a report, one after another.
fn sections_told(
    alloc: Global,
    format: Sectioned,
    points: &Points,
    sections: &[Section],
) -> Result<Text, NoMemory>
    ensures { IfOk result (AreTold format sections.now points.now) }
{
    let mut text = Text::from_slice(alloc, front_text(format).as_bytes())?;
    for section in sections {
        push_section_of(alloc, &mut text, format, points, section)?;
    }
    Ok(text)
}

/// The sections of a report in a format. A text is read as the first instance of the point's variables, derived ones included, that has
/// it; the points are those of the table, and a section whose point isn't there says nothing.
pub fn report(
    alloc: Global,
    format: Format,
    points: &Points,
    sections: &[Section],
) -> Result<Text, NoMemory>
    ensures { IfOk result (IsTold format sections.now points.now) }
{
    match format {
        Format::Json => sections_told(alloc, Sectioned::Json, points, sections),
        Format::In(language) => sections_told(alloc, Sectioned::In(language), points, sections),
        Format::Html => page_report(alloc, points, sections),
    }
}
