// Where a run differs from what its case wants.
use crate::case::Case;
use crate::running::Outcome;
use std::io;

// The line that differs first: its number from 1, and what it is in both.
#[derive(Clone, Copy)]
struct Line<'a> {
    number: usize,
    found: Option<&'a [u8]>,
    wanted: Option<&'a [u8]>,
}

fn first_difference<'a>(found: &'a [u8], wanted: &'a [u8]) -> Line<'a> {
    let mut lines = wanted.split(|byte| *byte == b'\n');
    let mut number = 1usize;
    for line in found.split(|byte| *byte == b'\n') {
        let other = lines.next();
        if other != Some(line) {
            return Line {
                number,
                found: Some(line),
                wanted: other,
            };
        }
        number = number.saturating_add(1);
    }
    Line {
        number,
        found: None,
        wanted: lines.next(),
    }
}

// A line as it is shown.
fn shown(line: Option<&[u8]>) -> &str {
    match line {
        Some(line) => str::from_utf8(line).unwrap_or("bytes that are no text"),
        None => "no line",
    }
}

// Tells of a stream where it differs.
fn tell_stream(rt: &impl Print, name: &str, found: &[u8], wanted: &[u8]) -> io::Result<()> {
    if found == wanted {
        return Ok(());
    }
    let line = first_difference(found, wanted);
    let number = line.number;
    let is = shown(line.found);
    let was = shown(line.wanted);
    print!(rt; "; {name}, line {number}: `{is}` in place of `{was}`")
}

/// Whether the run comes to what the case wants.
pub fn is_as_wanted(case: &Case, outcome: &Outcome) -> bool {
    outcome.status == case.status
        && outcome.report.as_slice() == case.wanted_report()
        && outcome.messages.as_slice() == case.messages.as_slice()
        && outcome.state.as_slice() == case.state.as_slice()
}

/// Prints the line of a case that differs in pieces of this size.
pub fn tell_difference(
    rt: &impl Print,
    path: &str,
    case: &Case,
    outcome: &Outcome,
    piece: usize,
) -> io::Result<()> {
    let name = shown(Some(case.name.as_slice()));
    let status = outcome.status;
    let wanted = case.status;
    print!(rt; "{path}: {name}: in pieces of {piece}: status {status} in place of {wanted}")?;
    tell_stream(
        rt,
        "report",
        outcome.report.as_slice(),
        case.wanted_report(),
    )?;
    tell_stream(
        rt,
        "messages",
        outcome.messages.as_slice(),
        case.messages.as_slice(),
    )?;
    tell_stream(rt, "state", outcome.state.as_slice(), case.state.as_slice())?;
    println!(rt; "")
}
