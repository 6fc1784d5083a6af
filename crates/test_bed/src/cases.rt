//! Tables of cases, and the first that is answered otherwise.

use crate::changed::{push_line, with_changes};
use std::alloc::{AllocError, Global};
use std::test::Fail;

/// Whether a certificate of no timing, whose tree is a leaf without rows, is written so behind its first line.
#[macro_export]
macro_rules! written_without_timing {
    ($kind:ident, $write:path, $alloc:expr, $first:expr) => {{
        let multipliers = Vec::new($alloc);
        let certificate = $kind {
            claim: Claim::NoTiming,
            timing: None,
            nodes: vec![in $alloc; CertNode::Leaf(Leaf { multipliers })]?,
        };
        let text = $write($alloc, &certificate).ok().ok_or("no memory")?;
        let expected = format!(in $alloc; "{}\nverdict none\ntree\nleaf 0\nend\n", $first)?;
        if text.as_slice() == expected.as_bytes() {
            Ok(())
        } else {
            Err(Fail::from("another text"))
        }
    }};
}

/// Who answers for a text in a line.
pub trait TextReader {
    fn answer(&self, alloc: Global, text: &[u8]) -> Result<String, Fail>;
}

/// The answer for a text that was read: `read` where it is written again as it was.
pub fn told_again(
    alloc: Global,
    text: &[u8],
    written: Option<Vec<u8>>,
) -> Result<String, AllocError> {
    match written {
        Some(written) if written.as_slice() == text => String::from_str(alloc, "read"),
        Some(_) => String::from_str(alloc, "written otherwise"),
        None => String::from_str(alloc, "not written"),
    }
}

/// Fails where the answer for a text is another than that of its case.
fn told<R: TextReader>(alloc: Global, reader: &R, text: &str, case: &str) -> Result<(), Fail> {
    let (_, want) = parts(case);
    let got = reader.answer(alloc, text.as_bytes())?;
    if got.as_str() == want {
        return Ok(());
    }
    Err(Fail::new(format_args!("{case}, not {}", got.as_str())))
}

/// A case as what stands before the arrow and what behind it.
fn parts(case: &str) -> (&str, &str) {
    case.split_once(" -> ").unwrap_or((case, ""))
}

/// Fails at the first of these cases of a text that is answered otherwise.
pub fn all_told<R: TextReader>(
    alloc: Global,
    reader: &R,
    base: &str,
    cases: &[&str],
) -> Result<(), Fail> {
    for case in cases {
        let (changes, _) = parts(case);
        let text = with_changes(alloc, base, changes)?;
        told(alloc, reader, text.as_str(), case)?;
    }
    Ok(())
}

/// The same of cases that give their whole texts.
pub fn all_texts_told<R: TextReader>(
    alloc: Global,
    reader: &R,
    cases: &[&str],
) -> Result<(), Fail> {
    for case in cases {
        let (text, _) = parts(case);
        told(alloc, reader, text, case)?;
    }
    Ok(())
}

/// The case of a fault with the changes of the one at this place, where there is one.
fn with_fault(
    alloc: Global,
    fault: &str,
    faults: &[&str],
    place: usize,
) -> Result<String, AllocError> {
    let (changes, want) = parts(fault);
    let (others, _) = parts(faults.get(place).copied().unwrap_or(""));
    format!(in alloc; "{changes}|{others} -> {want}")
}

/// Cases of faults in the order in which they are looked for: each is told though the next one is there too.
pub fn each_with_next(alloc: Global, faults: &[&str]) -> Result<Vec<String>, AllocError> {
    let mut cases = Vec::new(alloc);
    for (index, fault) in faults.iter().enumerate() {
        cases.push(with_fault(alloc, fault, faults, index.saturating_add(1))?)?;
    }
    Ok(cases)
}

/// Fails where this text isn't refused for its end at the line after so many.
fn told_ended<R: TextReader>(
    alloc: Global,
    reader: &R,
    text: &str,
    lines: usize,
) -> Result<(), Fail> {
    let next = lines.saturating_add(1);
    let case = format!(in alloc; "{lines} lines -> {next} Ended")?;
    told(alloc, reader, text, case.as_str())
}

/// The same of this text with the first bytes of a line after it.
fn told_open<R: TextReader>(
    alloc: Global,
    reader: &R,
    text: &str,
    lines: usize,
) -> Result<(), Fail> {
    let open = format!(in alloc; "{text}end")?;
    told_ended(alloc, reader, open.as_str(), lines)
}

/// Fails where the first lines of a text, so many or fewer, aren't refused at the next line for their end, with the first bytes of a
/// line after them or without.
pub fn all_ends_told<R: TextReader>(alloc: Global, reader: &R, base: &str) -> Result<(), Fail> {
    let mut kept = String::new(alloc);
    for (index, line) in base.lines().enumerate() {
        told_ended(alloc, reader, kept.as_str(), index)?;
        told_open(alloc, reader, kept.as_str(), index)?;
        push_line(&mut kept, line)?;
    }
    Ok(())
}
