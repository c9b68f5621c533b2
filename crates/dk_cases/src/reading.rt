// Cases read line by line.
use crate::case::{Case, Program};
use crate::escapes::{push_repeated, push_unescaped};
use dk_base::{List, NoMemory, Text};
use std::alloc::Global;
use std::mem;

// What the lines of bytes belong to.
#[derive(Clone, Copy)]
enum Part {
    Nothing,
    File,
    Report,
    Messages,
    State,
}

/// The case whose lines are read.
#[derive(Drop)]
pub struct Reader {
    alloc: Global,
    case: Case,
    is_open: bool,
    part: Part,
    /// The name of the file whose bytes are read, and the bytes of the part.
    file: Text,
    bytes: Text,
}

/// Whether a line begins a case, and how.
#[derive(Clone, Copy)]
pub enum Begin<'a> {
    /// A case of its own, of this name.
    Fresh(&'a str),
    /// A case that has all of the one above it but what it says itself.
    Again(&'a str),
    No,
}

/// How a line begins a case.
pub fn begin_of(line: &str) -> Begin<'_> {
    if let Some(name) = line.strip_prefix("case ") {
        return Begin::Fresh(name);
    }
    if let Some(name) = line.strip_prefix("again ") {
        return Begin::Again(name);
    }
    Begin::No
}

fn program_of(word: &str) -> Option<Program> {
    match word {
        "daikon" => Some(Program::Daikon),
        "dk_split" => Some(Program::Split),
        "dk_check" => Some(Program::Check),
        "dk_merge" => Some(Program::Merge),
        "dk_table" => Some(Program::Table),
        "dk_tell" => Some(Program::Tell),
        "turns" => Some(Program::Turns),
        _ => None,
    }
}

// The words between blanks.
fn words_of(alloc: Global, text: &str) -> Result<Vec<String>, NoMemory> {
    let mut words = Vec::new(alloc);
    for word in text.split(' ') {
        if !word.is_empty() {
            words.push(String::from_str(alloc, word)?)?;
        }
    }
    Ok(words)
}

// The numbers between blanks, or none where a word is no number.
fn numbers_of(alloc: Global, text: &str) -> Result<Option<List<u64>>, NoMemory> {
    let mut numbers = List::new(alloc);
    for word in text.split(' ') {
        if word.is_empty() {
            continue;
        }
        match word.parse::<u64>() {
            Ok(number) => numbers.push(number)?,
            Err(_) => return Ok(None),
        }
    }
    Ok(Some(numbers))
}

// A number and what stands behind the blank behind it.
fn number_and_rest(text: &str) -> Option<(u64, &str)> {
    let (number, rest) = text.split_once(' ')?;
    match number.parse::<u64>() {
        Ok(number) => Some((number, rest)),
        Err(_) => None,
    }
}

// What stands behind the blank that follows the first character, if one does.
fn behind_mark(line: &str) -> &str {
    match line.split_once(' ') {
        Some((_, rest)) => rest,
        None => "",
    }
}

impl Reader {
    /// No case is open.
    pub fn new(alloc: Global) -> Reader {
        Reader {
            alloc,
            case: Case::new(alloc),
            is_open: false,
            part: Part::Nothing,
            file: Text::new(alloc),
            bytes: Text::new(alloc),
        }
    }

    /// The case that is open, with all its parts, if one is.
    pub fn ended(&mut self) -> Result<Option<&Case>, NoMemory> {
        self.close()?;
        if self.is_open {
            Ok(Some(&self.case))
        } else {
            Ok(None)
        }
    }

    /// Opens a case of this name.
    pub fn begin(&mut self, name: &str, is_fresh: bool) -> Result<(), NoMemory> {
        if is_fresh {
            self.case = Case::new(self.alloc);
        }
        self.case.name = Text::from_slice(self.alloc, name.as_bytes())?;
        self.is_open = true;
        Ok(())
    }

    // Puts the bytes that were read into their place.
    fn close(&mut self) -> Result<(), NoMemory> {
        let part = self.part;
        let bytes = mem::replace(&mut self.bytes, Text::new(self.alloc));
        self.part = Part::Nothing;
        match part {
            Part::Nothing => {}
            Part::File => {
                let name = mem::replace(&mut self.file, Text::new(self.alloc));
                self.case.files.push((name, bytes))?;
            }
            Part::Report => self.case.report = bytes,
            Part::Messages => self.case.messages = bytes,
            Part::State => self.case.state = bytes,
        }
        Ok(())
    }

    /// Takes a line that begins no case. Whether it can be read.
    pub fn take(&mut self, line: &str) -> Result<bool, NoMemory> {
        if line.is_empty() || line.starts_with('#') {
            return Ok(true);
        }
        if line.starts_with('|') {
            self.bytes.append(behind_mark(line).as_bytes())?;
            self.bytes.push(b'\n')?;
            return Ok(true);
        }
        if line.starts_with(':') {
            push_unescaped(self.alloc, &mut self.bytes, behind_mark(line), 0)?;
            return Ok(true);
        }
        if line.starts_with('*') {
            return self.take_repeated(behind_mark(line));
        }
        self.close()?;
        match line.split_once(' ') {
            Some((key, rest)) => self.take_key(key, rest),
            None => self.take_key(line, ""),
        }
    }

    fn take_repeated(&mut self, text: &str) -> Result<bool, NoMemory> {
        match number_and_rest(text) {
            Some((count, text)) => {
                push_repeated(self.alloc, &mut self.bytes, text, count)?;
                Ok(true)
            }
            None => Ok(false),
        }
    }

    // Takes what a line says by its first word.
    fn take_key(&mut self, key: &str, rest: &str) -> Result<bool, NoMemory> {
        match key {
            "report" => self.part = Part::Report,
            "messages" => self.part = Part::Messages,
            "state" => self.part = Part::State,
            "file" => {
                self.part = Part::File;
                self.file = Text::from_slice(self.alloc, rest.as_bytes())?;
            }
            "words" => self.case.words = words_of(self.alloc, rest)?,
            "word" => {
                let word = String::from_str(self.alloc, rest)?;
                self.case.words.push(word)?;
            }
            "failing-reads" => return self.take_failing(rest, true),
            "failing-writes" => return self.take_failing(rest, false),
            "first-lines" => return self.take_cut(rest),
            _ => return Ok(self.take_small(key, rest)),
        }
        Ok(true)
    }

    fn take_failing(&mut self, text: &str, is_read: bool) -> Result<bool, NoMemory> {
        match numbers_of(self.alloc, text)? {
            Some(numbers) if is_read => self.case.failing_reads = numbers,
            Some(numbers) => self.case.failing_writes = numbers,
            None => return Ok(false),
        }
        Ok(true)
    }

    fn take_cut(&mut self, text: &str) -> Result<bool, NoMemory> {
        match number_and_rest(text) {
            Some((count, name)) => {
                let name = Text::from_slice(self.alloc, name.as_bytes())?;
                self.case.cut = Some((name, count as usize));
                Ok(true)
            }
            None => Ok(false),
        }
    }

    // Takes what takes no memory.
    fn take_small(&mut self, key: &str, rest: &str) -> bool {
        match key {
            "program" => match program_of(rest) {
                Some(program) => self.case.program = program,
                None => return false,
            },
            "status" => match rest.parse::<u8>() {
                Ok(status) => self.case.status = status,
                Err(_) => return false,
            },
            "piece" => match rest.parse::<usize>() {
                Ok(piece) => self.case.piece = Some(piece),
                Err(_) => return false,
            },
            "report-bytes" => match rest.parse::<usize>() {
                Ok(count) => self.case.report_bytes = Some(count),
                Err(_) => return false,
            },
            _ => return false,
        }
        true
    }
}
