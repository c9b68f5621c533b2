// Writing reports, a section after another: each is written before the next is made.
ghost use Rattle.std.specs.Prelude.{◌≡◌, ◌<◌, ◌++◌, ℕ, List, [], length, if◌then◌else◌, flat_map};
ghost use Rattle.std.specs.List.{enumerate_from};
ghost use Rattle.std.specs.Option.{option_map_or};
ghost use Rattle.dk_blocks.specs.History.{History};
ghost use Rattle.dk_core.specs.Sections.{all_stats_of, has_samples, have_samples, report_of, section_of, stats_of};
ghost use Rattle.dk_core.specs.Selecting.{SelectsBy};
ghost use Rattle.dk_core.specs.Standing.{SessionStandsFor, blocks_of, engines_of, points_of, select_of};
ghost use Rattle.dk_hierarchy.specs.Shortcuts.{AreShortcuts};
ghost use Rattle.dk_run.specs.Commands.{is_selected, report_options};
ghost use Rattle.dk_print.specs.Sections.{after_blocks_line as blocks_text, end_line as end_text};
ghost use Rattle.dk_program.specs.Telling.{WritesText};
ghost use Rattle.dk_run.specs.Reports.{is_due, whole_report};
ghost use Rattle.dk_run.specs.Telling.{ReportsBy, StateTells, TellsOutcome};

use crate::messages::{after_blocks_line, end_line};
use dk_base::{PointId, Text};
use dk_command_line::Command;
use dk_core::{Session, Shortcut};
use dk_io::{Sinks, Stream};
use dk_program::{Halt, write};
use std::alloc::Global;

// Writes the section of a point, where it has samples.
fn tell_section<F: Fn(&[u8]) -> bool + Drop, S: Sinks>(
    alloc: Global,
    command: &Command,
    session: &Session<F>,
    shortcuts: &[Shortcut],
    has: bool,
    p: u32,
    sinks: &mut S,
) -> Result<(), Halt>
    requires within { p < length (points_of session.now) }
    requires shortcuts { AreShortcuts (points_of session.now) (engines_of session.now) shortcuts.now }
    requires has { (h : History) → SessionStandsFor session.now h → has ≡ has_samples h p }
    requires reports { ReportsBy command.now session.now }
    requires callable { F.IsAlwaysCallable (select_of session.now) }
    requires selects { SelectsBy (F.post (select_of session.now)) (is_selected command.now) }
    ensures { TellsOutcome (SessionStandsFor session.now) (λ h. section_of (report_options command.now) (is_selected command.now) h p) (S.written sinks.old) (S.written sinks.new) (S.faults sinks.old) (S.faults sinks.new) result }
{
    let _command = command;
    if !has {
        return Ok(());
    }
    let mut text = Text::new(alloc);
    match session.push_section_by(&mut text, shortcuts, PointId(p)) {
        Ok(_) => write(sinks, Stream::Report, text.as_slice()),
        Err(_) => Err(Halt::NoMemory),
    }
}

// Writes the sections of all points, of which these have samples.
fn tell_marked<F: Fn(&[u8]) -> bool + Drop, S: Sinks>(
    alloc: Global,
    command: &Command,
    session: &Session<F>,
    shortcuts: &[Shortcut],
    marks: &[bool],
    sinks: &mut S,
) -> Result<(), Halt>
    requires shortcuts { AreShortcuts (points_of session.now) (engines_of session.now) shortcuts.now }
    requires long { length marks.now ≡ length (points_of session.now) }
    requires marks { (h : History) → SessionStandsFor session.now h → marks.now ≡ have_samples h }
    requires reports { ReportsBy command.now session.now }
    requires callable { F.IsAlwaysCallable (select_of session.now) }
    requires selects { SelectsBy (F.post (select_of session.now)) (is_selected command.now) }
    ensures { TellsOutcome (SessionStandsFor session.now) (λ h. report_of (report_options command.now) (is_selected command.now) h) (S.written sinks.old) (S.written sinks.new) (S.faults sinks.old) (S.faults sinks.new) result }
{
    let points = session.points();
    for p in 0..points.len() {
        tell_section(
            alloc,
            command,
            session,
            shortcuts,
            marks[p as usize],
            p,
            sinks,
        )?;
    }
    Ok(())
}

// Writes them by shortcuts, which are found for all points at once.
fn tell_by_shortcuts<F: Fn(&[u8]) -> bool + Drop, S: Sinks>(
    alloc: Global,
    command: &Command,
    session: &Session<F>,
    marks: &[bool],
    sinks: &mut S,
) -> Result<(), Halt>
    requires long { length marks.now ≡ length (points_of session.now) }
    requires marks { (h : History) → SessionStandsFor session.now h → marks.now ≡ have_samples h }
    requires reports { ReportsBy command.now session.now }
    requires callable { F.IsAlwaysCallable (select_of session.now) }
    requires selects { SelectsBy (F.post (select_of session.now)) (is_selected command.now) }
    ensures { TellsOutcome (SessionStandsFor session.now) (λ h. report_of (report_options command.now) (is_selected command.now) h) (S.written sinks.old) (S.written sinks.new) (S.faults sinks.old) (S.faults sinks.new) result }
{
    match session.shortcuts() {
        Ok(shortcuts) => tell_marked(alloc, command, session, shortcuts.as_slice(), marks, sinks),
        Err(_) => Err(Halt::NoMemory),
    }
}

// Writes the sections of all points. Which have samples is found for all at once, since a section goes down from its point.
fn tell_sections<F: Fn(&[u8]) -> bool + Drop, S: Sinks>(
    alloc: Global,
    command: &Command,
    session: &Session<F>,
    sinks: &mut S,
) -> Result<(), Halt>
    requires reports { ReportsBy command.now session.now }
    requires callable { F.IsAlwaysCallable (select_of session.now) }
    requires selects { SelectsBy (F.post (select_of session.now)) (is_selected command.now) }
    ensures { TellsOutcome (SessionStandsFor session.now) (λ h. report_of (report_options command.now) (is_selected command.now) h) (S.written sinks.old) (S.written sinks.new) (S.faults sinks.old) (S.faults sinks.new) result }
{
    match session.have_samples() {
        Ok(marks) => tell_by_shortcuts(alloc, command, session, marks.as_slice(), sinks),
        Err(_) => Err(Halt::NoMemory),
    }
}

// Writes the sizes of a point.
fn tell_stats<F: Fn(&[u8]) -> bool + Drop, S: Sinks>(
    alloc: Global,
    command: &Command,
    session: &Session<F>,
    p: u32,
    sinks: &mut S,
) -> Result<(), Halt>
    requires within { p < length (points_of session.now) }
    requires reports { ReportsBy command.now session.now }
    ensures { TellsOutcome (SessionStandsFor session.now) (λ h. stats_of h p) (S.written sinks.old) (S.written sinks.new) (S.faults sinks.old) (S.faults sinks.new) result }
{
    let _command = command;
    let mut text = Text::new(alloc);
    match session.push_stats(&mut text, PointId(p)) {
        Ok(_) => write(sinks, Stream::Report, text.as_slice()),
        Err(_) => Err(Halt::NoMemory),
    }
}

// Writes the sizes of all points.
fn tell_all_stats<F: Fn(&[u8]) -> bool + Drop, S: Sinks>(
    alloc: Global,
    command: &Command,
    session: &Session<F>,
    sinks: &mut S,
) -> Result<(), Halt>
    requires { ReportsBy command.now session.now }
    ensures { TellsOutcome (SessionStandsFor session.now) (λ h. all_stats_of h) (S.written sinks.old) (S.written sinks.new) (S.faults sinks.old) (S.faults sinks.new) result }
{
    let points = session.points();
    for p in 0..points.len() {
        tell_stats(alloc, command, session, p, sinks)?;
    }
    Ok(())
}

// Writes the sizes, where the command asks for them.
fn tell_sizes<F: Fn(&[u8]) -> bool + Drop, S: Sinks>(
    alloc: Global,
    command: &Command,
    session: &Session<F>,
    sinks: &mut S,
) -> Result<(), Halt>
    requires { ReportsBy command.now session.now }
    ensures { TellsOutcome (SessionStandsFor session.now) (λ h. (if command.now.stats then all_stats_of h else [])) (S.written sinks.old) (S.written sinks.new) (S.faults sinks.old) (S.faults sinks.new) result }
{
    if command.stats {
        tell_all_stats(alloc, command, session, sinks)
    } else {
        Ok(())
    }
}

// Writes a whole report: the sections, and then the sizes.
fn tell_report<F: Fn(&[u8]) -> bool + Drop, S: Sinks>(
    alloc: Global,
    command: &Command,
    session: &Session<F>,
    sinks: &mut S,
) -> Result<(), Halt>
    requires reports { ReportsBy command.now session.now }
    requires callable { F.IsAlwaysCallable (select_of session.now) }
    requires selects { SelectsBy (F.post (select_of session.now)) (is_selected command.now) }
    ensures { TellsOutcome (SessionStandsFor session.now) (λ h. whole_report command.now h) (S.written sinks.old) (S.written sinks.new) (S.faults sinks.old) (S.faults sinks.new) result }
{
    tell_sections(alloc, command, session, sinks)?;
    tell_sizes(alloc, command, session, sinks)
}

// Writes the line in front of a report by the way.
fn tell_blocks<S: Sinks>(alloc: Global, blocks: u64, sinks: &mut S) -> Result<(), Halt>
    ensures { WritesText Stream.Report (blocks_text blocks) (S.written sinks.old) (S.written sinks.new) (S.faults sinks.old) (S.faults sinks.new) result }
{
    match after_blocks_line(alloc, blocks) {
        Ok(line) => write(sinks, Stream::Report, line.as_bytes()),
        Err(_) => Err(Halt::NoMemory),
    }
}

// Writes the line in front of the last report, where there are reports by the way.
fn tell_end<S: Sinks>(
    alloc: Global,
    command: &Command,
    blocks: u64,
    sinks: &mut S,
) -> Result<(), Halt>
    ensures { WritesText Stream.Report (option_map_or (λ every. end_text blocks) command.now.every []) (S.written sinks.old) (S.written sinks.new) (S.faults sinks.old) (S.faults sinks.new) result }
{
    if command.every.is_none() {
        return Ok(());
    }
    match end_line(alloc, blocks) {
        Ok(line) => write(sinks, Stream::Report, line.as_bytes()),
        Err(_) => Err(Halt::NoMemory),
    }
}

// Whether a report is due after so many blocks, where one is due after each of a multiple of `every`.
fn is_due(every: u64, blocks: u64) -> bool
    ensures { result ≡ is_due every blocks }
{
    every > 0 && blocks % every == 0
}

// Writes a report by the way, behind its line.
fn tell_due<F: Fn(&[u8]) -> bool + Drop, S: Sinks>(
    alloc: Global,
    command: &Command,
    session: &Session<F>,
    sinks: &mut S,
) -> Result<(), Halt>
    requires reports { ReportsBy command.now session.now }
    requires callable { F.IsAlwaysCallable (select_of session.now) }
    requires selects { SelectsBy (F.post (select_of session.now)) (is_selected command.now) }
    ensures { TellsOutcome (SessionStandsFor session.now) (λ h. blocks_text (blocks_of session.now) ++ whole_report command.now h) (S.written sinks.old) (S.written sinks.new) (S.faults sinks.old) (S.faults sinks.new) result }
{
    tell_blocks(alloc, session.blocks(), sinks)?;
    tell_report(alloc, command, session, sinks)
}

/// Writes the report by the way, if one is due after the last block.
pub(crate) fn tell_by_the_way<F: Fn(&[u8]) -> bool + Drop, S: Sinks>(
    alloc: Global,
    command: &Command,
    session: &Session<F>,
    sinks: &mut S,
) -> Result<(), Halt>
    requires reports { ReportsBy command.now session.now }
    requires callable { F.IsAlwaysCallable (select_of session.now) }
    requires selects { SelectsBy (F.post (select_of session.now)) (is_selected command.now) }
    ensures { TellsOutcome (SessionStandsFor session.now)
        (λ h. option_map_or (λ every. (if is_due every (blocks_of session.now) then blocks_text (blocks_of session.now) ++ whole_report command.now h else [])) command.now.every [])
        (S.written sinks.old) (S.written sinks.new) (S.faults sinks.old) (S.faults sinks.new) result }
{
    match command.every {
        Some(every) if is_due(every, session.blocks()) => tell_due(alloc, command, session, sinks),
        _ => Ok(()),
    }
}

/// Writes the state, where the command asks for it.
pub(crate) fn tell_state<F: Fn(&[u8]) -> bool + Drop, S: Sinks>(
    alloc: Global,
    command: &Command,
    session: &Session<F>,
    sinks: &mut S,
) -> Result<(), Halt>
    ensures { StateTells command.now (SessionStandsFor session.now) (S.written sinks.old) (S.written sinks.new) (S.faults sinks.old) (S.faults sinks.new) result }
{
    if !command.save {
        return Ok(());
    }
    let mut text = Text::new(alloc);
    match session.push_state(&mut text) {
        Ok(()) => write(sinks, Stream::State, text.as_slice()),
        Err(_) => Err(Halt::NoMemory),
    }
}

/// Writes the last report. Where there are reports by the way, it stands behind a line.
pub(crate) fn tell_last<F: Fn(&[u8]) -> bool + Drop, S: Sinks>(
    alloc: Global,
    command: &Command,
    session: &Session<F>,
    sinks: &mut S,
) -> Result<(), Halt>
    requires reports { ReportsBy command.now session.now }
    requires callable { F.IsAlwaysCallable (select_of session.now) }
    requires selects { SelectsBy (F.post (select_of session.now)) (is_selected command.now) }
    ensures { TellsOutcome (SessionStandsFor session.now) (λ h. option_map_or (λ every. end_text (blocks_of session.now)) command.now.every [] ++ whole_report command.now h)
        (S.written sinks.old) (S.written sinks.new) (S.faults sinks.old) (S.faults sinks.new) result }
{
    tell_end(alloc, command, session.blocks(), sinks)?;
    tell_report(alloc, command, session, sinks)
}
