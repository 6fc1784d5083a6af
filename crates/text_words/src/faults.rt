//! A text that is refused.

ghost use Rattle.std.specs.Prelude.{◌≡◌, ◌++◌, OnOk};
ghost use Rattle.text_words.specs.Faults.{line_words, end_want, meant, bad_want, wanted_line, bad_text_words};
ghost use Rattle.text_words.specs.Grammar.{signals_in};

use crate::grammar::{signals_in, wanted_at};
use crate::lines::{is_text, line_of_text, push_shown};
use crate::sentences::{fault_line, push_wanted};
use crate::wants::{TreeLine, Wanted};
use narrow_fraction::Memory;
use plan_text::{BadText, TextFault};
use quantity_text::{push_number, push_text};

#[tactic(auto, unfolding(crate::specs::Faults::line_words))]
fn push_line(out: &mut Vec<u8>, bytes: &[u8], line: u64) -> Result<(), Memory>
    ensures { OnOk result (out.new.items ≡ out.old.items ++ line_words bytes.now line) }
{
    push_text(out, "line ")?;
    push_number(out, u128::from(line))?;
    push_text(out, " is: ")?;
    push_shown(out, line_of_text(bytes, line))
}

/// What is wanted where the line `end` is; where that line is refused, other rows before the tree.
fn end_want(line: &[u8]) -> Wanted
    ensures { result ≡ end_want line.now }
{
    if is_text(line, b"end") {
        Wanted::Tree(TreeLine::OwnRows)
    } else {
        Wanted::End
    }
}

/// What is wanted at a line with this fault.
fn meant(fault: TextFault, line: &[u8], wanted: Wanted) -> Wanted
    ensures { result ≡ meant fault line.now wanted }
{
    match (fault, wanted) {
        (TextFault::Shape, Wanted::End) => end_want(line),
        _ => wanted,
    }
}

fn bad_want(bytes: &[u8], bad: BadText) -> Wanted
    ensures { result ≡ bad_want bytes.now bad }
{
    meant(
        bad.kind,
        line_of_text(bytes, bad.line),
        wanted_at(bytes, bad.line),
    )
}

/// Writes what is wanted at the line.
fn push_want(out: &mut Vec<u8>, bytes: &[u8], wanted: Wanted) -> Result<(), Memory>
    ensures { OnOk result (out.new.items ≡ out.old.items ++ wanted_line (signals_in bytes.now) wanted) }
{
    push_wanted(out, signals_in(bytes), wanted)
}

/// Writes of a text that is refused its first bad line, of which at most 200 bytes are shown, what is wrong with it, and what the grammar wants
/// there: three lines. The error is want of memory.
#[tactic(auto, unfolding(crate::specs::Faults::bad_text_words))]
pub fn push_bad_text(out: &mut Vec<u8>, bytes: &[u8], bad: BadText) -> Result<(), Memory>
    ensures { OnOk result (out.new.items ≡ out.old.items ++ bad_text_words bytes.now bad) }
{
    let wanted = bad_want(bytes, bad);
    push_line(out, bytes, bad.line)?;
    push_text(out, fault_line(bad.kind, wanted))?;
    push_want(out, bytes, wanted)
}
