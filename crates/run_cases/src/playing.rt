//! The cases of one file, played one after the other.

use crate::parts::Part;
use crate::stage::CaseStage;
use crate::steps::{CaseStep, Expected, Lay, step_of};
use narrow_fraction::Memory;
use std::alloc::Global;
use std::io;

/// A name with bytes: a named text, or the head of a part with its rows.
#[derive(Drop)]
struct NamedText {
    name: String,
    bytes: Vec<u8>,
}

/// How a part ends.
#[derive(Clone, Copy)]
enum PartEnd {
    Done,
    AsExpected,
    Differs,
    /// It isn't understood, or what it names isn't there.
    Unknown,
}

/// How many cases and values of a file came so far.
#[derive(Clone, Copy)]
struct Tally {
    cases: u32,
    as_expected: u32,
    differing: u32,
}

const NOTHING: Tally = Tally {
    cases: 0,
    as_expected: 0,
    differing: 0,
};

/// A play, up to some part of a file.
#[derive(Drop)]
pub struct Play {
    alloc: Global,
    texts: Vec<NamedText>,
    /// What each case of the table begins with.
    table: Vec<NamedText>,
    is_in_table: bool,
    stage: CaseStage,
    case: String,
    tally: Tally,
}

fn done(is_done: bool) -> PartEnd {
    if is_done {
        PartEnd::Done
    } else {
        PartEnd::Unknown
    }
}

fn with_name(alloc: Global, name: &str, bytes: &[u8]) -> Result<NamedText, Memory> {
    Ok(NamedText {
        name: String::from_str(alloc, name)?,
        bytes: Vec::from_slice(alloc, bytes)?,
    })
}

/// The text of a name, which is empty for no name, or nothing where there is none.
fn text_of<'a>(texts: &'a [NamedText], name: &str) -> Option<&'a [u8]> {
    if name.is_empty() {
        return Some(&[]);
    }
    for text in texts {
        if text.name.as_str() == name {
            return Some(text.bytes.as_slice());
        }
    }
    None
}

/// Lays something out on the stage. Whether that is done.
fn lay_out(
    stage: &mut CaseStage,
    texts: &[NamedText],
    lay: Lay<'_>,
    rows: &[u8],
) -> Result<bool, Memory> {
    let name = match lay {
        Lay::File { text, .. } => text,
        _ => "",
    };
    match text_of(texts, name) {
        Some(text) => stage.lay(lay, text, rows),
        None => Ok(false),
    }
}

/// Whether the stage is as expected, or nothing where something that is named isn't there.
fn is_as_expected(
    stage: &CaseStage,
    texts: &[NamedText],
    expected: Expected<'_>,
    rows: &[u8],
) -> Option<bool> {
    let is = match expected {
        Expected::Status(number) => stage.number()? == number,
        Expected::Holds { name, text } => {
            let text = text_of(texts, text)?;
            stage.bytes(name)?.strip_prefix(text) == Some(rows)
        }
        Expected::Begins(name) => stage.bytes(name)?.starts_with(rows),
        Expected::Ends(name) => stage.bytes(name)?.ends_with(rows),
        Expected::Front { name, text, length } => {
            let text = text_of(texts, text)?;
            stage.bytes(name)? == text.get(..length)?
        }
        Expected::Same(name, other) => stage.bytes(name)? == stage.bytes(other)?,
        Expected::Size { name, length } => stage.bytes(name)?.len() == length,
        Expected::There(name) => stage.bytes(name).is_some(),
        Expected::Absent(name) => stage.bytes(name).is_none(),
    };
    Some(is)
}

impl Play {
    /// No texts, and nothing on the stage.
    pub fn new(alloc: Global) -> Play {
        Play {
            alloc,
            texts: Vec::new(alloc),
            table: Vec::new(alloc),
            is_in_table: false,
            stage: CaseStage::new(alloc),
            case: String::new(alloc),
            tally: NOTHING,
        }
    }

    /// Begins a case, with what the table has.
    fn begin(&mut self, name: &str) -> Result<PartEnd, Memory> {
        self.stage = CaseStage::new(self.alloc);
        self.case = String::from_str(self.alloc, name)?;
        self.tally.cases = self.tally.cases.saturating_add(1);
        self.is_in_table = false;
        let mut all = true;
        for part in self.table.iter() {
            if let Some(CaseStep::Lay(lay)) = step_of(part.name.as_str()) {
                let texts = self.texts.as_slice();
                all &= lay_out(&mut self.stage, texts, lay, part.bytes.as_slice())?;
            }
        }
        Ok(done(all))
    }

    fn expect(&self, expected: Expected<'_>, rows: &[u8]) -> PartEnd {
        match is_as_expected(&self.stage, self.texts.as_slice(), expected, rows) {
            Some(true) => PartEnd::AsExpected,
            Some(false) => PartEnd::Differs,
            None => PartEnd::Unknown,
        }
    }

    fn play(&mut self, part: &Part) -> Result<PartEnd, Memory> {
        let rows = part.rows.as_slice();
        match step_of(part.head.as_str()) {
            Some(CaseStep::Text(name)) => {
                self.texts.push(with_name(self.alloc, name, rows)?)?;
                Ok(PartEnd::Done)
            }
            Some(CaseStep::Table) => {
                self.table.clear();
                self.is_in_table = true;
                Ok(PartEnd::Done)
            }
            Some(CaseStep::Case(name)) => self.begin(name),
            Some(CaseStep::Lay(_)) if self.is_in_table => {
                self.table
                    .push(with_name(self.alloc, part.head.as_str(), rows)?)?;
                Ok(PartEnd::Done)
            }
            Some(CaseStep::Lay(lay)) => {
                let texts = self.texts.as_slice();
                Ok(done(lay_out(&mut self.stage, texts, lay, rows)?))
            }
            Some(CaseStep::Run(line)) => {
                self.stage.run(line, rows)?;
                Ok(PartEnd::Done)
            }
            Some(CaseStep::Copy(from, to)) => Ok(done(self.stage.copy(from, to)?)),
            Some(CaseStep::Expect(expected)) => Ok(self.expect(expected, rows)),
            None => Ok(PartEnd::Unknown),
        }
    }

    /// Counts how a part ended. Whether that is as it should be.
    fn count(&mut self, end: PartEnd) -> bool {
        match end {
            PartEnd::Done => true,
            PartEnd::AsExpected => {
                self.tally.as_expected = self.tally.as_expected.saturating_add(1);
                true
            }
            PartEnd::Differs | PartEnd::Unknown => {
                self.tally.differing = self.tally.differing.saturating_add(1);
                false
            }
        }
    }
}

/// Says where a value differs or a part isn't understood.
fn tell<R: Print>(rt: &R, file: &str, play: &Play, part: &Part) -> io::Result<()> {
    let line = part.number;
    let case = play.case.as_str();
    let head = part.head.as_str();
    println!(rt; "{file} line {line}: {case}: {head}")?;
    let number = play.stage.number().unwrap_or(u8::MAX);
    let out = play.stage.bytes("out").unwrap_or(&[]);
    let out = std::str::from_utf8(out).unwrap_or("");
    println!(rt; "status {number}, out\n{out}")
}

/// Plays the cases of a file. Whether all came as expected.
pub fn play_file<R: Print>(
    rt: &R,
    play: &mut Play,
    file: &str,
    parts: &[Part],
) -> io::Result<bool> {
    play.table.clear();
    play.tally = NOTHING;
    for part in parts {
        let Ok(end) = play.play(part) else {
            println!(rt; "{file}: out of memory")?;
            return Ok(false);
        };
        if !play.count(end) {
            tell(rt, file, play, part)?;
        }
    }
    let Tally {
        cases,
        as_expected,
        differing,
    } = play.tally;
    println!(rt; "{file}: {cases} cases, {as_expected} values as expected, {differing} not")?;
    Ok(differing == 0)
}
