//! The words and numbers of a record.

ghost use Rattle.std.specs.Prelude.{◌≡◌, ◌++◌, IfOk, OnOk};
ghost use Rattle.cycle_sweep.specs.Table.{verdict_text, cause_text, number_text, bound_of, stop_text};

use branch_tree::{Stop, Verdict};
use narrow_fraction::{Frac, Memory};
use quantity_text::{push_exact, push_text};
use std::alloc::Global;

/// The verdict's word: `best`, `none` or `open`.
pub fn verdict_word(verdict: &Verdict) -> &'static str
    ensures { result.now ≡ verdict_text verdict.now }
{
    match verdict {
        Verdict::Best => "best",
        Verdict::NoTiming => "none",
        Verdict::Stopped(_) => "open",
    }
}

fn stop_word(stop: &Stop) -> &'static str
    ensures { result.now ≡ stop_text stop.now }
{
    match stop {
        Stop::Work { .. } => "work",
        Stop::Wide(_) => "wide",
    }
}

/// Why the search stopped: `work` or `wide`, and `-` where it didn't.
pub fn cause_word(verdict: &Verdict) -> &'static str
    ensures { result.now ≡ cause_text verdict.now }
{
    match verdict {
        Verdict::Best => "-",
        Verdict::NoTiming => "-",
        Verdict::Stopped(stop) => stop_word(stop),
    }
}

/// What no weighted band exceeds: the value of a best timing, or the bound of a search that stopped.
pub fn bound_of(verdict: &Verdict, bound: Frac, value: Option<Frac>) -> Option<Frac>
    ensures { result ≡ bound_of verdict.now bound value }
{
    match verdict {
        Verdict::Best => value,
        Verdict::NoTiming => None,
        Verdict::Stopped(_) => Some(bound),
    }
}

/// Writes the exact text of a number, and `-` where there is none.
fn push_value(out: &mut Vec<u8>, number: Option<Frac>) -> Result<(), Memory>
    ensures { OnOk result (out.new.items ≡ out.old.items ++ number_text number) }
{
    match number {
        Some(number) => push_exact(out, number),
        None => push_text(out, "-"),
    }
}

/// The exact text of a number, and `-` where there is none. The error is want of memory.
pub fn number_text(alloc: Global, number: Option<Frac>) -> Result<Vec<u8>, Memory>
    ensures { IfOk result (λ text. text.items ≡ number_text number) }
{
    let mut text = Vec::new(alloc);
    push_value(&mut text, number)?;
    Ok(text)
}
