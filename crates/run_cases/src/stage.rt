//! Where a case is played: its files, which calls fail, and what the last run came to.

use crate::steps::Lay;
use maxband_run::run_program;
use narrow_fraction::Memory;
use outer_edge::{MemFiles, MemSink};
use std::alloc::Global;
use std::process::ExitCode;

/// The name of what the last run wrote.
const OUT: &str = "out";

/// The greatest status: words that the system doesn't give as text.
const GREATEST_STATUS: u8 = 12;

/// The first of the system's words, which the program leaves out.
const NAME: &str = "maxband";

/// A file before the first run, as its lines with their ends.
#[derive(Drop)]
struct Draft {
    name: String,
    lines: Vec<Vec<u8>>,
}

/// Where a case is played.
#[derive(Drop)]
pub struct CaseStage {
    alloc: Global,
    drafts: Vec<Draft>,
    failing_calls: Vec<u64>,
    failing_writes: Vec<u64>,
    piece: usize,
    /// The files, from the first run on.
    files: Option<MemFiles>,
    number: Option<u8>,
    out: Vec<u8>,
}

/// The lines of a text with their ends.
fn lines_of(alloc: Global, text: &[u8]) -> Result<Vec<Vec<u8>>, Memory> {
    let mut lines = Vec::new(alloc);
    let mut line = Vec::new(alloc);
    for byte in text {
        line.push(*byte)?;
        if *byte == b'\n' {
            lines.push(line)?;
            line = Vec::new(alloc);
        }
    }
    lines.push(line)?;
    Ok(lines)
}

/// Adds the words of a line: apart by blanks, but for those between apostrophes.
fn add_words(alloc: Global, words: &mut Vec<String>, line: &str) -> Result<(), Memory> {
    for (place, part) in line.split('\'').enumerate() {
        if place % 2 == 1 {
            words.push(String::from_str(alloc, part)?)?;
        } else {
            for word in part.split_whitespace() {
                words.push(String::from_str(alloc, word)?)?;
            }
        }
    }
    Ok(())
}

/// The numbers of a line. What is none counts as 0, which no call has.
fn numbers_of(alloc: Global, line: &str) -> Result<Vec<u64>, Memory> {
    let mut numbers = Vec::new(alloc);
    for word in line.split_whitespace() {
        numbers.push(word.parse().unwrap_or(0))?;
    }
    Ok(numbers)
}

/// The number of an exit status, which has no other way out.
fn number_of(code: ExitCode) -> u8 {
    for number in 0..GREATEST_STATUS {
        if code == ExitCode::from(number) {
            return number;
        }
    }
    GREATEST_STATUS
}

/// A run of the whole program by these words, the first of which is its own name. What it promises ends here: it says nothing of
/// a case.
fn played(alloc: Global, words: Vec<String>, files: &mut MemFiles, out: &mut MemSink) -> u8 {
    number_of(run_program(alloc, Ok(words.into_iter()), files, out))
}

impl CaseStage {
    /// No files, and no call fails.
    pub fn new(alloc: Global) -> CaseStage {
        CaseStage {
            alloc,
            drafts: Vec::new(alloc),
            failing_calls: Vec::new(alloc),
            failing_writes: Vec::new(alloc),
            piece: usize::MAX,
            files: None,
            number: None,
            out: Vec::new(alloc),
        }
    }

    fn draft(&mut self, name: &str) -> Option<&mut Draft> {
        for draft in self.drafts.iter_mut() {
            if draft.name.as_str() == name {
                return Some(draft);
            }
        }
        None
    }

    /// Lays out a file, or what fails. Whether that is done: not after the first run, nor at a file or line that isn't there.
    pub fn lay(&mut self, lay: Lay<'_>, text: &[u8], rows: &[u8]) -> Result<bool, Memory> {
        if self.files.is_some() {
            return Ok(false);
        }
        let alloc = self.alloc;
        match lay {
            Lay::File { name, .. } => self.add(name, text, rows)?,
            Lay::Line { name, number } => return self.replace(name, number, rows),
            Lay::Cut { name, lines } => {
                let Some(draft) = self.draft(name) else {
                    return Ok(false);
                };
                draft.lines.truncate(lines);
            }
            Lay::Fill { name, byte, length } => return self.fill(name, byte, length, rows),
            Lay::FailingCalls(numbers) => self.failing_calls = numbers_of(alloc, numbers)?,
            Lay::FailingWrites(numbers) => self.failing_writes = numbers_of(alloc, numbers)?,
            Lay::Piece(piece) => self.piece = piece,
        }
        Ok(true)
    }

    fn add(&mut self, name: &str, text: &[u8], rows: &[u8]) -> Result<(), Memory> {
        let mut bytes = Vec::from_slice(self.alloc, text)?;
        bytes.extend_from_slice(rows)?;
        let name = String::from_str(self.alloc, name)?;
        let lines = lines_of(self.alloc, bytes.as_slice())?;
        self.drafts.push(Draft { name, lines })?;
        Ok(())
    }

    fn replace(&mut self, name: &str, number: usize, rows: &[u8]) -> Result<bool, Memory> {
        let rows = Vec::from_slice(self.alloc, rows)?;
        let Some(draft) = self.draft(name) else {
            return Ok(false);
        };
        match draft.lines.get_mut(number.wrapping_sub(1)) {
            Some(line) => {
                *line = rows;
                Ok(true)
            }
            None => Ok(false),
        }
    }

    fn fill(&mut self, name: &str, byte: u8, length: usize, rows: &[u8]) -> Result<bool, Memory> {
        let mut filled = Vec::new(self.alloc);
        let Some(draft) = self.draft(name) else {
            return Ok(false);
        };
        for line in draft.lines.iter() {
            filled.extend_from_slice(line.as_slice())?;
        }
        for _ in filled.len()..length {
            filled.push(byte)?;
        }
        filled.extend_from_slice(rows)?;
        draft.lines.clear();
        draft.lines.push(filled)?;
        Ok(true)
    }

    /// The files as they are laid out.
    fn laid_out(&self) -> Result<MemFiles, Memory> {
        let failing = Vec::from_slice(self.alloc, self.failing_calls.as_slice())?;
        let mut files = MemFiles::new(self.alloc, failing);
        for draft in self.drafts.iter() {
            let mut bytes = Vec::new(self.alloc);
            for line in draft.lines.iter() {
                bytes.extend_from_slice(line.as_slice())?;
            }
            files.add(draft.name.as_str(), bytes.as_slice())?;
        }
        Ok(files)
    }

    /// A run by the words of a line, and those of the rows.
    pub fn run(&mut self, line: &str, rows: &[u8]) -> Result<(), Memory> {
        let alloc = self.alloc;
        let mut words = Vec::new(alloc);
        words.push(String::from_str(alloc, NAME)?)?;
        add_words(alloc, &mut words, line)?;
        add_words(alloc, &mut words, std::str::from_utf8(rows).unwrap_or(""))?;
        let mut files = match self.files.take() {
            Some(files) => files,
            None => self.laid_out()?,
        };
        let failing = Vec::from_slice(alloc, self.failing_writes.as_slice())?;
        let mut out = MemSink::new(alloc, self.piece.max(1), failing);
        self.number = Some(played(alloc, words, &mut files, &mut out));
        self.out = Vec::from_slice(alloc, out.bytes())?;
        self.files = Some(files);
        Ok(())
    }

    /// What a file is after the last run.
    pub fn bytes(&self, name: &str) -> Option<&[u8]> {
        let files = self.files.as_ref()?;
        if name == OUT {
            return Some(self.out.as_slice());
        }
        files.bytes(name)
    }

    /// The number of the last run's status.
    pub fn number(&self) -> Option<u8> {
        self.number
    }

    /// The file `to` becomes what `from` is. Whether that is there.
    pub fn copy(&mut self, from: &str, to: &str) -> Result<bool, Memory> {
        let copy = match self.bytes(from) {
            Some(bytes) => Vec::from_slice(self.alloc, bytes)?,
            None => return Ok(false),
        };
        match &mut self.files {
            Some(files) => {
                files.add(to, copy.as_slice())?;
                Ok(true)
            }
            None => Ok(false),
        }
    }
}
