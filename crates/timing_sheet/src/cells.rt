//! Fields of a record.

ghost use Rattle.std.specs.{Prelude.{◌≡◌, ◌<◌, ◌*◌, ◌^◌, ◌++◌, ◌∷◌, [], OnOk}, Fmt.{decimal}};
ghost use Rattle.progression.specs.Street.{HasLink, HasSignal};
ghost use Rattle.timing_measures.specs.Measures.{seconds};
ghost use Rattle.timing_words.specs.Numbers.{seconds_text, moment_text};
ghost use Rattle.timing_sheet.specs.{Records.{parts_text, pattern_text, green_text, speed_text}};
ghost use Rattle.time_space.specs.Timing.{IsFor};

use crate::pattern::push_pattern;
use artery_model::{Artery, Dir};
use narrow_fraction::Memory;
use quantity_text::push_number;
use std::alloc::Global;
use table_text::Record;
use time_space::Base;
use timing_measures::{seconds, some_speed};
use timing_words::{push_moment, push_seconds, push_tenths};

/// Adds an empty field.
pub fn push_empty(record: &mut Record) -> Result<(), Memory>
    ensures { OnOk result (record.new ≡ record.old ++ [] ∷ []) }
{
    record.push(b"")
}

/// Adds a whole number.
pub fn push_whole(alloc: Global, record: &mut Record, number: u32) -> Result<(), Memory>
    ensures { OnOk result (record.new ≡ record.old ++ decimal number ∷ []) }
{
    let mut cell = Vec::new(alloc);
    push_number(&mut cell, number as u128)?;
    record.push(cell.as_slice())
}

/// Adds ticks as seconds.
pub fn push_ticks(
    alloc: Global,
    record: &mut Record,
    base: &Base,
    ticks: u128,
) -> Result<(), Memory>
    requires { ticks < 2 ^ 126 }
    ensures { OnOk result (record.new ≡ record.old ++ seconds_text base.now ticks ∷ []) }
{
    let mut cell = Vec::new(alloc);
    push_seconds(&mut cell, base, ticks)?;
    record.push(cell.as_slice())
}

/// Adds parts of the cycle as seconds.
pub fn push_parts(alloc: Global, record: &mut Record, base: &Base, parts: u32) -> Result<(), Memory>
    ensures { OnOk result (record.new ≡ record.old ++ parts_text base.now parts ∷ []) }
{
    push_ticks(alloc, record, base, parts as u128 * base.unit())
}

/// Adds a moment within the cycle, as seconds.
pub fn push_moment_cell(
    alloc: Global,
    record: &mut Record,
    artery: &Artery,
    base: &Base,
    ticks: u128,
) -> Result<(), Memory>
    requires { ticks < 2 ^ 92 }
    ensures { OnOk result (record.new ≡ record.old ++ moment_text artery.now base.now (seconds base.now ticks) ∷ []) }
{
    let mut cell = Vec::new(alloc);
    push_moment(&mut cell, artery, base, seconds(base, ticks))?;
    record.push(cell.as_slice())
}

/// Adds the words of a signal's pattern.
pub fn push_pattern_cell(
    alloc: Global,
    record: &mut Record,
    artery: &Artery,
    base: &Base,
    signal: u32,
) -> Result<(), Memory>
    requires shape { IsFor artery.now base.now }
    requires signal { HasSignal artery.now signal }
    ensures { OnOk result (record.new ≡ record.old ++ pattern_text artery.now base.now signal ∷ []) }
{
    let mut cell = Vec::new(alloc);
    push_pattern(&mut cell, artery, base, signal)?;
    record.push(cell.as_slice())
}

/// Adds a direction's green.
pub fn push_green(
    alloc: Global,
    record: &mut Record,
    artery: &Artery,
    base: &Base,
    dir: Dir,
    signal: u32,
) -> Result<(), Memory>
    requires signal { HasSignal artery.now signal }
    ensures { OnOk result (record.new ≡ record.old ++ green_text artery.now base.now dir signal ∷ []) }
{
    let red = base.red_ticks(artery, dir, signal);
    push_ticks(alloc, record, base, base.cycle(artery) - red)
}

/// Adds the speed of a direction's band on a link, or an empty field where the run takes no time.
pub fn push_speed(
    alloc: Global,
    record: &mut Record,
    artery: &Artery,
    base: &Base,
    dir: Dir,
    link: u32,
) -> Result<(), Memory>
    requires shape { IsFor artery.now base.now }
    requires link { HasLink artery.now link }
    ensures { OnOk result (record.new ≡ record.old ++ speed_text artery.now base.now dir link ∷ []) }
{
    let mut cell = Vec::new(alloc);
    push_some_speed(&mut cell, artery, base, dir, link)?;
    record.push(cell.as_slice())
}

/// Writes the speed of a direction's band on a link, or nothing where the run takes no time.
fn push_some_speed(
    out: &mut Vec<u8>,
    artery: &Artery,
    base: &Base,
    dir: Dir,
    link: u32,
) -> Result<(), Memory>
    requires shape { IsFor artery.now base.now }
    requires link { HasLink artery.now link }
    ensures { OnOk result (out.new.items ≡ out.old.items ++ speed_text artery.now base.now dir link) }
{
    match some_speed(artery, base, dir, link) {
        Some(speed) => push_tenths(out, speed),
        None => Ok(()),
    }
}
