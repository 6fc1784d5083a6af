//! The lines of a signal.

ghost use Rattle.std.specs.Prelude.{◌≡◌, ◌-◌, ◌≤◌, ◌++◌, OnOk};
ghost use Rattle.progression.specs.Street.{HasSignal};
ghost use Rattle.artery_model.specs.Bounds.{most_parts};
ghost use Rattle.street_words.specs.Numbers.{parts_span};
ghost use Rattle.street_words.specs.Streets.{left_text, green_parts, greens_text, red_text, signal_line};
ghost use Rattle.street_words.specs.Streets.{pattern_item, pattern_items, patterns_line, has_left, patterns_lines, signal_lines};

use crate::numbers::push_parts;
use crate::pattern::{push_pattern_words, turn_name};
use crate::words::push_name;
use artery_model::{Artery, Dir};
use narrow_fraction::Memory;
use quantity_text::{push_number, push_text};

/// Writes the time of the left turn against a direction, where there is one.
#[tactic(auto, unfolding(crate::specs::Streets::left_text))]
fn push_left(out: &mut Vec<u8>, artery: &Artery, dir: Dir, signal: u32) -> Result<(), Memory>
    requires signal { HasSignal artery.now signal }
    ensures { OnOk result (out.new.items ≡ out.old.items ++ left_text artery.now dir signal) }
{
    let parts = artery.left_against(dir, signal);
    if parts == 0 {
        return Ok(());
    }
    push_text(out, ", left ")?;
    push_text(out, turn_name(dir))?;
    push_parts(out, artery, parts)?;
    push_text(out, " s")
}

/// How many parts a direction's green takes.
pub fn green_parts(artery: &Artery, dir: Dir, signal: u32) -> u32
    requires signal { HasSignal artery.now signal }
    ensures value { result ≡ green_parts artery.now dir signal }
    ensures most { result ≤ most_parts }
{
    let red = artery.red(dir, signal);
    artery.parts() - red
}

/// Writes a direction's green.
fn push_green(out: &mut Vec<u8>, artery: &Artery, dir: Dir, signal: u32) -> Result<(), Memory>
    requires signal { HasSignal artery.now signal }
    ensures { OnOk result (out.new.items ≡ out.old.items ++ parts_span artery.now (green_parts artery.now dir signal)) }
{
    push_parts(out, artery, green_parts(artery, dir, signal))
}

#[tactic(auto, unfolding(crate::specs::Streets::greens_text))]
fn push_greens(out: &mut Vec<u8>, artery: &Artery, signal: u32) -> Result<(), Memory>
    requires signal { HasSignal artery.now signal }
    ensures { OnOk result (out.new.items ≡ out.old.items ++ greens_text artery.now signal) }
{
    push_text(out, ", green out ")?;
    push_green(out, artery, Dir::Outbound, signal)?;
    push_text(out, " s, in ")?;
    push_green(out, artery, Dir::Inbound, signal)?;
    push_text(out, " s\n")
}

#[tactic(auto, unfolding(crate::specs::Streets::red_text))]
fn push_red(out: &mut Vec<u8>, artery: &Artery, signal: u32) -> Result<(), Memory>
    requires signal { HasSignal artery.now signal }
    ensures { OnOk result (out.new.items ≡ out.old.items ++ red_text artery.now signal) }
{
    push_text(out, "signal ")?;
    push_number(out, u128::from(signal))?;
    push_text(out, ", ")?;
    push_name(out, artery, signal)?;
    push_text(out, ": red ")?;
    push_parts(out, artery, artery.common_red(signal))?;
    push_text(out, " s")
}

#[tactic(auto, unfolding(crate::specs::Streets::signal_line))]
fn push_signal_line(out: &mut Vec<u8>, artery: &Artery, signal: u32) -> Result<(), Memory>
    requires signal { HasSignal artery.now signal }
    ensures { OnOk result (out.new.items ≡ out.old.items ++ signal_line artery.now signal) }
{
    push_red(out, artery, signal)?;
    push_left(out, artery, Dir::Inbound, signal)?;
    push_left(out, artery, Dir::Outbound, signal)?;
    push_greens(out, artery, signal)
}

/// Writes a pattern in words, where it is allowed.
#[tactic(auto, unfolding(crate::specs::Streets::pattern_item))]
fn push_item(out: &mut Vec<u8>, artery: &Artery, signal: u32, pattern: u32) -> Result<(), Memory>
    requires signal { HasSignal artery.now signal }
    ensures { OnOk result (out.new.items ≡ out.old.items ++ pattern_item artery.now signal pattern) }
{
    if !artery.allows(signal, pattern) {
        return Ok(());
    }
    push_text(out, ", pattern ")?;
    push_number(out, u128::from(pattern))?;
    push_text(out, ": ")?;
    push_pattern_words(out, artery, signal, pattern)
}

#[tactic(auto, unfolding(crate::specs::Streets::pattern_items))]
fn push_items(out: &mut Vec<u8>, artery: &Artery, signal: u32) -> Result<(), Memory>
    requires signal { HasSignal artery.now signal }
    ensures { OnOk result (out.new.items ≡ out.old.items ++ pattern_items artery.now signal) }
{
    push_item(out, artery, signal, 1)?;
    push_item(out, artery, signal, 2)?;
    push_item(out, artery, signal, 3)?;
    push_item(out, artery, signal, 4)
}

#[tactic(auto, unfolding(crate::specs::Streets::patterns_line))]
fn push_patterns_line(out: &mut Vec<u8>, artery: &Artery, signal: u32) -> Result<(), Memory>
    requires signal { HasSignal artery.now signal }
    ensures { OnOk result (out.new.items ≡ out.old.items ++ patterns_line artery.now signal) }
{
    push_text(out, "left turns of signal ")?;
    push_number(out, u128::from(signal))?;
    push_items(out, artery, signal)?;
    push_text(out, "\n")
}

fn has_left(artery: &Artery, signal: u32) -> bool
    requires signal { HasSignal artery.now signal }
    ensures { result ≡ has_left artery.now signal }
{
    artery.left_against(Dir::Inbound, signal) != 0
        || artery.left_against(Dir::Outbound, signal) != 0
}

fn push_patterns(out: &mut Vec<u8>, artery: &Artery, signal: u32) -> Result<(), Memory>
    requires signal { HasSignal artery.now signal }
    ensures { OnOk result (out.new.items ≡ out.old.items ++ patterns_lines artery.now signal) }
{
    if has_left(artery, signal) {
        push_patterns_line(out, artery, signal)
    } else {
        Ok(())
    }
}

/// Writes the lines of a signal.
#[tactic(auto, unfolding(crate::specs::Streets::signal_lines))]
pub fn push_signal(out: &mut Vec<u8>, artery: &Artery, signal: u32) -> Result<(), Memory>
    requires signal { HasSignal artery.now signal }
    ensures { OnOk result (out.new.items ≡ out.old.items ++ signal_lines artery.now signal) }
{
    push_signal_line(out, artery, signal)?;
    push_patterns(out, artery, signal)
}
