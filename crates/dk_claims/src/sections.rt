// Headings and the lines below them, line by line.
ghost use Rattle.std.specs.Prelude.{◌≡◌, ◌∷◌, [], ◌++◌, ℕ, List, IfOk, OnOk, false, true};
ghost use Rattle.dk_claims.specs.Claims.{is_ruler};
ghost use Rattle.dk_claims.specs.Sections.{front_section, is_nothing, report_line, section_at, sections_of};
ghost use Rattle.dk_claims.specs.Standing.{IsBehind, StandsFor};

use crate::counts::{last_count, without_count};
use crate::marks::{is_blank_line, is_remark, is_ruler};
use dk_base::{List, NoMemory, Text};
use std::alloc::Global;
use std::mem::replace;

/// A line of a report: what it says, and of how many samples.
#[derive(Debug, Drop)]
pub struct ReportLine {
    /// The line without a last count.
    pub text: Text,
    /// The number that the count tells; none where there is no count, or 64 bits don't hold the number.
    pub samples: Option<u64>,
}

/// A heading of a report, and the lines below it.
#[derive(Debug, Drop)]
pub struct Section {
    /// The heading without a last count: the name of a point. It is empty above the first heading.
    pub point: Text,
    /// The number that the count tells; none where there is no count, or 64 bits don't hold the number.
    pub samples: Option<u64>,
    /// The lines, in their order.
    pub lines: List<ReportLine>,
}

fn report_line(alloc: Global, line: &[u8]) -> Result<ReportLine, NoMemory>
    ensures { IfOk result (λ told. told ≡ report_line line.now) }
{
    let text = Text::from_slice(alloc, without_count(line))?;
    Ok(ReportLine {
        text,
        samples: last_count(line),
    })
}

// The section in front of the first heading.
fn front_section(alloc: Global) -> Section
    ensures { result ≡ front_section }
{
    Section {
        point: Text::new(alloc),
        samples: None,
        lines: List::new(alloc),
    }
}

// The section that a heading begins.
fn section_at(alloc: Global, heading: &[u8]) -> Result<Section, NoMemory>
    ensures { IfOk result (λ section. section ≡ section_at heading.now) }
{
    let point = Text::from_slice(alloc, without_count(heading))?;
    Ok(Section {
        point,
        samples: last_count(heading),
        lines: List::new(alloc),
    })
}

// Whether the section has no name, no number and no line.
fn is_nothing(section: &Section) -> bool
    ensures { result ≡ is_nothing section.now }
{
    section.point.is_empty() && section.samples.is_none() && section.lines.is_empty()
}

/// Takes the lines of an assertion file, one after another, without their LF and one CR in front of it:
///
/// - a blank line is nothing, and a line of `=` alone is passed over;
/// - the next line behind one of `=` that isn't one is a heading, whatever it says: the name of a point, without a last count;
/// - other lines that begin with `--- ` or `stats ` are passed over;
/// - every other line says something of the point of the last heading: its text is the line without a last count.
///
/// A count is two blanks and a number in brackets, such as `  [12]`. Lines aren't trimmed, and names aren't unescaped.
#[derive(Drop)]
pub struct Sections {
    alloc: Global,
    closed: List<Section>,
    // The section of the last heading, to which more lines may come.
    current: Section,
    behind_ruler: bool,
}

impl Sections {
    /// No line was taken. It takes no memory.
    pub fn new(alloc: Global) -> Sections
        ensures { StandsFor result [] }
    {
        Sections {
            alloc,
            closed: List::new(alloc),
            current: front_section(alloc),
            behind_ruler: false,
        }
    }

    /// Takes the next line. After want of memory nothing is said of the sections.
    pub fn line(&mut self, line: &[u8]) -> Result<(), NoMemory>
        ensures { OnOk result ((lines : List (List ℕ)) → StandsFor self.old lines → StandsFor self.new (lines ++ line.now ∷ [])) }
    {
        if is_blank_line(line) {
            return Ok(());
        }
        if is_ruler(line) {
            self.behind_ruler = true;
            return Ok(());
        }
        self.words(line)
    }

    // Takes a line that isn't one of `=`: a heading, a remark, or one that says something.
    fn words(&mut self, line: &[u8]) -> Result<(), NoMemory>
        requires { is_ruler line.now ≡ false }
        ensures { OnOk result (IsBehind self.old line.now self.new) }
    {
        if self.behind_ruler {
            return self.begin(line);
        }
        if is_remark(line) {
            return Ok(());
        }
        self.current.lines.push(report_line(self.alloc, line)?)
    }

    // Takes a heading, which ends the current section.
    fn begin(&mut self, heading: &[u8]) -> Result<(), NoMemory>
        requires ruler { self.old.behind_ruler ≡ true }
        requires words { is_ruler heading.now ≡ false }
        ensures { OnOk result (IsBehind self.old heading.now self.new) }
    {
        let section = section_at(self.alloc, heading)?;
        let last = replace(&mut self.current, section);
        self.behind_ruler = false;
        if is_nothing(&last) {
            return Ok(());
        }
        self.closed.push(last)
    }

    /// The sections, in the order of their headings. Where no line stands in front of the first heading, no section does.
    pub fn into_list(self) -> Result<List<Section>, NoMemory>
        ensures { IfOk result (λ sections. (lines : List (List ℕ)) → StandsFor self lines → sections ≡ sections_of lines) }
    {
        let Sections {
            closed,
            current,
            ..
        } = self;
        if is_nothing(&current) {
            return Ok(closed);
        }
        let mut sections = closed;
        sections.push(current)?;
        Ok(sections)
    }
}
