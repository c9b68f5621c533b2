// A stored case.
use dk_base::{List, NoMemory, Text};
use std::alloc::Global;

/// The calls of which there are cases.
#[derive(Clone, Copy)]
pub enum Program {
    Daikon,
    Split,
    Check,
    Merge,
    Table,
    Tell,
    /// `turns` of dk_turns: its files are written as one, and the number of blocks in a turn is the only word.
    Turns,
}

/// A run over files in memory, and what it is to come to.
#[derive(Drop)]
pub struct Case {
    pub name: Text,
    pub program: Program,
    pub words: Vec<String>,
    /// Of two files of one name the last counts.
    pub files: Vec<(Text, Text)>,
    /// Of the file of this name only so many lines are there.
    pub cut: Option<(Text, usize)>,
    /// How many bytes a call moves; where it isn't said, several sizes are tried.
    pub piece: Option<usize>,
    pub failing_reads: List<u64>,
    pub failing_writes: List<u64>,
    pub status: u8,
    pub report: Text,
    /// Of the report only so many bytes are written.
    pub report_bytes: Option<usize>,
    pub messages: Text,
    pub state: Text,
}

impl Case {
    /// A run of daikon without words and files, which comes to nothing.
    pub fn new(alloc: Global) -> Case {
        Case {
            name: Text::new(alloc),
            program: Program::Daikon,
            words: Vec::new(alloc),
            files: Vec::new(alloc),
            cut: None,
            piece: None,
            failing_reads: List::new(alloc),
            failing_writes: List::new(alloc),
            status: 0,
            report: Text::new(alloc),
            report_bytes: None,
            messages: Text::new(alloc),
            state: Text::new(alloc),
        }
    }

    /// The report that is wanted.
    pub fn wanted_report(&self) -> &[u8] {
        let report = self.report.as_slice();
        match self.report_bytes {
            Some(count) => &report[..count.min(report.len())],
            None => report,
        }
    }

    // The bytes of a file that are there.
    fn kept<'a>(&self, name: &Text, bytes: &'a Text) -> &'a [u8] {
        match &self.cut {
            Some((cut, lines)) if cut.as_slice() == name.as_slice() => first_lines(
                bytes.as_slice(),
                *lines,
            ),
            _ => bytes.as_slice(),
        }
    }

    /// Copies of the files, the last one first.
    pub fn copied_files(&self, alloc: Global) -> Result<List<(Text, Text)>, NoMemory> {
        let mut files = List::new(alloc);
        for (name, bytes) in self.files.iter().rev() {
            let copy = Text::from_slice(alloc, name.as_slice())?;
            files.push((copy, Text::from_slice(alloc, self.kept(name, bytes))?))?;
        }
        Ok(files)
    }

    /// Copies of the files' bytes, the first one first.
    pub fn texts(&self, alloc: Global) -> Result<List<Text>, NoMemory> {
        let mut texts = List::new(alloc);
        for (name, bytes) in &self.files {
            texts.push(Text::from_slice(alloc, self.kept(name, bytes))?)?;
        }
        Ok(texts)
    }
}

// So many lines of the bytes, or all.
fn first_lines(bytes: &[u8], count: usize) -> &[u8] {
    let mut left = count;
    for (place, byte) in bytes.iter().enumerate() {
        if left == 0 {
            return &bytes[..place];
        }
        if *byte == b'\n' {
            left -= 1;
        }
    }
    bytes
}
