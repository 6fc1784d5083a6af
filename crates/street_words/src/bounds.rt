//! What bounds a band before any search.

ghost use Rattle.std.specs.Prelude.{◌≡◌, ◌≤◌, ◌++◌, OnOk};
ghost use Rattle.progression.specs.Street.{count};
ghost use Rattle.street_words.specs.Bounds.{tightest, wider_words, bound_line, bound_lines};

use crate::signals::green_parts;
use crate::words::push_name;
use artery_model::{Artery, Dir};
use narrow_fraction::Memory;
use quantity_text::{push_number, push_text};
use timing_words::dir_word;

/// The first signal at which a direction's green is least.
fn tightest(artery: &Artery, dir: Dir) -> u32
    ensures value { result ≡ tightest artery.now dir }
    ensures first { 1 ≤ result }
    ensures last { result ≤ count artery.now }
{
    let mut found = 1;
    for signal in 2..artery.count() + 1 {
        if artery.red(dir, found) < artery.red(dir, signal) {
            found = signal;
        }
    }
    found
}

#[tactic(auto, unfolding(crate::specs::Bounds::wider_words))]
fn push_wider(out: &mut Vec<u8>, artery: &Artery, dir: Dir) -> Result<(), Memory>
    ensures { OnOk result (out.new.items ≡ out.old.items ++ wider_words artery.now dir) }
{
    push_text(out, "no ")?;
    push_text(out, dir_word(dir))?;
    push_text(out, " band is wider than ")?;
    let parts = green_parts(artery, dir, tightest(artery, dir));
    push_number(out, u128::from(parts))
}

#[tactic(auto, unfolding(crate::specs::Bounds::bound_line))]
fn push_bound(out: &mut Vec<u8>, artery: &Artery, dir: Dir) -> Result<(), Memory>
    ensures { OnOk result (out.new.items ≡ out.old.items ++ bound_line artery.now dir) }
{
    push_wider(out, artery, dir)?;
    push_text(out, " of ")?;
    push_number(out, u128::from(artery.parts()))?;
    push_text(out, " parts: ")?;
    push_name(out, artery, tightest(artery, dir))?;
    push_text(out, "\n")
}

/// Writes what bounds each direction's band before any search: its least green, and the first signal that has it. The error is want of memory.
#[tactic(auto, unfolding(crate::specs::Bounds::bound_lines))]
pub fn push_bounds(out: &mut Vec<u8>, artery: &Artery) -> Result<(), Memory>
    ensures { OnOk result (out.new.items ≡ out.old.items ++ bound_lines artery.now) }
{
    push_bound(out, artery, Dir::Outbound)?;
    push_bound(out, artery, Dir::Inbound)
}
