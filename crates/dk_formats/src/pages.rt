// A report as a page.
ghost use Rattle.std.specs.Prelude.{◌≡◌, ◌<◌, ◌^◌, IfOk, OnOk, length};
ghost use Rattle.dk_derive.specs.Laws.{all_vars_of};
ghost use Rattle.dk_expr.specs.Naming.{AreUnderNames};
ghost use Rattle.dk_formats.specs.Saying.{vars_under};
ghost use Rattle.dk_formats.specs.Steps.{AddsPageSection, ArePageLines};
ghost use Rattle.dk_formats.specs.Telling.{IsTold, page_line, row_of};

use crate::Format;
use dk_base::{List, NoMemory, PointId, Text, VarInfo};
use dk_claims::{ReportLine, Section};
use dk_derive::derive;
use dk_expr::{Assertion, VarNames, read_by};
use dk_page::{Headings, PageLine, PageSection, group_of, page};
use dk_points::Points;
use dk_template::RowId;
use std::alloc::Global;

// ---- lines

fn row_of(says: &Option<Assertion>) -> Option<RowId>
    ensures { result ≡ row_of says.now }
{
    match says {
        Some(assertion) => Some(assertion.row),
        None => None,
    }
}

fn page_line(
    alloc: Global,
    told: &ReportLine,
    says: &Option<Assertion>,
) -> Result<PageLine, NoMemory>
    ensures { IfOk result (λ line. line ≡ page_line (record { line = told.now; says = says.now })) }
{
    let text = Text::from_slice(alloc, told.text.as_slice())?;
    Ok(PageLine {
        text,
        samples: told.samples,
        group: group_of(row_of(says), told.text.as_slice()),
    })
}

fn page_lines(
    alloc: Global,
    vars: &[VarInfo],
    names: &VarNames,
    lines: &[ReportLine],
) -> Result<List<PageLine>, NoMemory>
    requires { AreUnderNames vars.now names.now }
    ensures { IfOk result (ArePageLines vars.now lines.now) }
{
    let mut found = List::new(alloc);
    for told in lines {
        let says = read_by(alloc, vars, names, told.text.as_slice())?;
        found.push(page_line(alloc, told, &says)?)?;
    }
    Ok(found)
}

// ---- sections

// The lines of a section, whose point has these variables.
fn lines_over(
    alloc: Global,
    vars: &[VarInfo],
    section: &Section,
) -> Result<List<PageLine>, NoMemory>
    requires { length vars.now < 2 ^ 32 }
    ensures { IfOk result (ArePageLines vars.now section.now.lines) }
{
    let names = VarNames::of(alloc, vars)?;
    page_lines(alloc, vars, &names, section.lines.as_slice())
}

// Those of a section whose point is known.
fn lines_at(
    alloc: Global,
    points: &Points,
    point: PointId,
    section: &Section,
) -> Result<List<PageLine>, NoMemory>
    requires { point.0 < length points.now }
    ensures { IfOk result (ArePageLines (all_vars_of points.now point.0) section.now.lines) }
{
    let vars = derive(alloc, points.vars(point))?;
    lines_over(alloc, vars.as_slice(), section)
}

fn lines_of(alloc: Global, points: &Points, section: &Section) -> Result<List<PageLine>, NoMemory>
    ensures { IfOk result (ArePageLines (vars_under points.now section.now.point) section.now.lines) }
{
    match points.find(section.point.as_slice()) {
        Some(point) => lines_at(alloc, points, point, section),
        None => lines_over(alloc, &[], section),
    }
}

// The section, behind the others.
fn push_page_section(
    alloc: Global,
    headings: &mut Headings,
    found: &mut List<PageSection>,
    points: &Points,
    section: &Section,
) -> Result<(), NoMemory>
    ensures { OnOk result (AddsPageSection points.now section.now headings.old found.old headings.new found.new) }
{
    let id = headings.next(section.point.as_slice())?;
    let point = Text::from_slice(alloc, section.point.as_slice())?;
    let lines = lines_of(alloc, points, section)?;
    found.push(PageSection {
        id,
        point,
        samples: section.samples,
        lines,
    })
}

/// The sections of a report as a page.
pub(crate) fn page_report(
    alloc: Global,
    points: &Points,
    sections: &[Section],
) -> Result<Text, NoMemory>
    ensures { IfOk result (IsTold Format.Html sections.now points.now) }
{
    let mut headings = Headings::new(alloc);
    let mut found = List::new(alloc);
    for section in sections {
        push_page_section(alloc, &mut headings, &mut found, points, section)?;
    }
    page(alloc, found.as_slice())
}
