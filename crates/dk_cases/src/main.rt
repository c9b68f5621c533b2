//! A program that runs stored cases of the top calls over files in memory: it prints a line for each case that comes to something else
//! than is wanted, and how many there are. The cases are the files `*.cases` in the folders of the current folder, or of the one that is
//! named; `docs/CASES.md` says how they are written.
#![tactic(auto)]

mod case;
mod comparing;
mod escapes;
mod reading;
mod running;
mod trouble;

use case::{Case, Program};
use comparing::{is_as_wanted, tell_difference};
use dk_base::NoMemory;
use reading::{Begin, Reader, begin_of};
use running::outcome_of;
use std::alloc::Global;
use std::rt::Files;
use std::{env, fs};
use trouble::CasesFault;

// How many bytes a call moves where the case doesn't say it.
static PIECES: [usize; 3] = [1, 7, 65_536];

// The same of programs whose cases are all small.
static SMALL_PIECES: [usize; 3] = [1, 7, 64];

/// How many cases there were, and how many differ or cannot be read.
#[derive(Clone, Copy)]
struct Count {
    cases: u32,
    differ: u32,
}

// Runs a case in pieces of this size. Whether it comes to what is wanted.
fn is_met<R: Print + AllocGlobal>(
    rt: &R,
    path: &str,
    case: &Case,
    piece: usize,
) -> Result<bool, CasesFault> {
    if piece == 0 {
        return Ok(false);
    }
    let outcome = outcome_of(rt.alloc(), case, piece)?;
    if is_as_wanted(case, &outcome) {
        return Ok(true);
    }
    tell_difference(rt, path, case, &outcome, piece)?;
    Ok(false)
}

// The pieces in which a case of the program is run where it doesn't say them.
fn pieces_of(program: Program) -> &'static [usize] {
    match program {
        Program::Table | Program::Tell => &SMALL_PIECES,
        _ => &PIECES,
    }
}

// Runs a case in pieces of each size, up to the first in which it differs.
fn is_met_in_all<R: Print + AllocGlobal>(
    rt: &R,
    path: &str,
    case: &Case,
) -> Result<bool, CasesFault> {
    if let Some(piece) = case.piece {
        return is_met(rt, path, case, piece);
    }
    for piece in pieces_of(case.program) {
        if !is_met(rt, path, case, *piece)? {
            return Ok(false);
        }
    }
    Ok(true)
}

// Runs the case that was read, if there is one.
fn run_read<R: Print + AllocGlobal>(
    rt: &R,
    path: &str,
    reader: &mut Reader,
    count: &mut Count,
) -> Result<(), CasesFault> {
    if let Some(case) = reader.ended()? {
        count.cases = count.cases.saturating_add(1);
        if !is_met_in_all(rt, path, case)? {
            count.differ = count.differ.saturating_add(1);
        }
    }
    Ok(())
}

// Takes a line of a file of cases.
fn take_line<R: Print + AllocGlobal>(
    rt: &R,
    path: &str,
    reader: &mut Reader,
    count: &mut Count,
    line: &str,
) -> Result<(), CasesFault> {
    match begin_of(line) {
        Begin::Fresh(name) => {
            run_read(rt, path, reader, count)?;
            reader.begin(name, true)?;
        }
        Begin::Again(name) => {
            run_read(rt, path, reader, count)?;
            reader.begin(name, false)?;
        }
        Begin::No => {
            if !reader.take(line)? {
                println!(rt; "{path}: `{line}` cannot be read")?;
                count.differ = count.differ.saturating_add(1);
            }
        }
    }
    Ok(())
}

// Runs the cases of a file.
fn run_file<R: Files + Print + AllocGlobal>(
    rt: &R,
    path: &str,
    count: &mut Count,
) -> Result<(), CasesFault> {
    let text = fs::read_to_string(rt, path)?;
    let mut reader = Reader::new(rt.alloc());
    for line in text.as_str().split('\n') {
        take_line(rt, path, &mut reader, count, line)?;
    }
    run_read(rt, path, &mut reader, count)
}

fn push_path(alloc: Global, paths: &mut Vec<String>, path: &str) -> Result<(), NoMemory> {
    paths.push(String::from_str(alloc, path)?)?;
    Ok(())
}

// The paths of what lies in a folder whose names end so, in order.
fn paths_in<R: Files + AllocGlobal + Clone + Drop>(
    rt: &R,
    folder: &str,
    end: &str,
) -> Result<Vec<String>, CasesFault> {
    let mut paths = Vec::new(rt.alloc());
    for entry in fs::read_dir(rt, folder)? {
        let entry = entry?;
        if entry.file_name().ends_with(end) {
            push_path(rt.alloc(), &mut paths, entry.path().as_str())?;
        }
    }
    paths.sort()?;
    Ok(paths)
}

// Runs the cases of the files in a folder.
fn run_folder<R: Files + Print + AllocGlobal + Clone + Drop>(
    rt: &R,
    folder: &str,
    count: &mut Count,
) -> Result<(), CasesFault> {
    for path in &paths_in(rt, folder, ".cases")? {
        run_file(rt, path.as_str(), count)?;
    }
    Ok(())
}

fn run_folders<R: Files + Print + AllocGlobal + Clone + Drop>(
    rt: &R,
    folder: &str,
) -> Result<(), CasesFault> {
    let mut count = Count {
        cases: 0,
        differ: 0,
    };
    for path in &paths_in(rt, folder, "")? {
        run_folder(rt, path.as_str(), &mut count)?;
    }
    let cases = count.cases;
    let differ = count.differ;
    println!(rt; "{cases} cases, {differ} differ")?;
    Ok(())
}

fn main(rt: HostRuntime) -> Result<(), CasesFault> {
    match env::args(&rt)?.nth(1) {
        Some(folder) => run_folders(&rt, folder.as_str()),
        None => run_folders(&rt, "."),
    }
}
