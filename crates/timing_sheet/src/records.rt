//! The record of a signal.

ghost use Rattle.std.specs.Prelude.{◌≡◌, ◌<◌, ◌++◌, IfOk, OnOk};
ghost use Rattle.progression.specs.Street.{count, HasLink, HasSignal};
ghost use Rattle.timing_sheet.specs.Records.{name_fields, time_fields, turn_fields, green_fields, window_fields, way_fields, no_way_fields, link_fields};
ghost use Rattle.timing_sheet.specs.Records.{signal_fields, band_fields, record_of};
ghost use Rattle.time_space.specs.Timing.{IsFor};
ghost use Rattle.progression.specs.TimingRecord.{base};

use crate::cells::{
    push_empty, push_green, push_moment_cell, push_parts, push_pattern_cell, push_speed,
    push_ticks, push_whole,
};
use crate::moments::{first_ticks, last_ticks, offset_ticks};
use artery_model::{Artery, Dir};
use description_reader::Reference;
use narrow_fraction::Memory;
use std::alloc::Global;
use table_text::Record;
use time_space::{Base, Timing};
use timing_measures::signal_name;
use timing_words::has_band;

/// Adds the number of a signal, its name and its pattern.
#[tactic(auto, unfolding(crate::specs::Records::name_fields))]
fn push_names(
    alloc: Global,
    record: &mut Record,
    artery: &Artery,
    base: &Base,
    signal: u32,
) -> Result<(), Memory>
    requires shape { IsFor artery.now base.now }
    requires signal { HasSignal artery.now signal }
    ensures { OnOk result (record.new ≡ record.old ++ name_fields artery.now base.now signal) }
{
    push_whole(alloc, record, signal)?;
    record.push_name(alloc, signal_name(artery, signal).as_bytes())?;
    push_pattern_cell(alloc, record, artery, base, signal)
}

/// Adds its offset and its common red.
#[tactic(auto, unfolding(crate::specs::Records::time_fields))]
fn push_times(
    alloc: Global,
    record: &mut Record,
    artery: &Artery,
    base: &Base,
    reference: Reference,
    signal: u32,
) -> Result<(), Memory>
    requires shape { IsFor artery.now base.now }
    requires signal { HasSignal artery.now signal }
    ensures { OnOk result (record.new ≡ record.old ++ time_fields artery.now base.now reference signal) }
{
    let offset = offset_ticks(artery, base, reference, signal);
    push_moment_cell(alloc, record, artery, base, offset)?;
    push_parts(alloc, record, base, artery.common_red(signal))
}

/// Adds its left turns.
#[tactic(auto, unfolding(crate::specs::Records::turn_fields))]
fn push_turns(
    alloc: Global,
    record: &mut Record,
    artery: &Artery,
    base: &Base,
    signal: u32,
) -> Result<(), Memory>
    requires signal { HasSignal artery.now signal }
    ensures { OnOk result (record.new ≡ record.old ++ turn_fields artery.now base.now signal) }
{
    let outbound = artery.left_against(Dir::Inbound, signal);
    push_parts(alloc, record, base, outbound)?;
    let inbound = artery.left_against(Dir::Outbound, signal);
    push_parts(alloc, record, base, inbound)
}

/// Adds the green of each direction.
#[tactic(auto, unfolding(crate::specs::Records::green_fields))]
fn push_greens(
    alloc: Global,
    record: &mut Record,
    artery: &Artery,
    base: &Base,
    signal: u32,
) -> Result<(), Memory>
    requires signal { HasSignal artery.now signal }
    ensures { OnOk result (record.new ≡ record.old ++ green_fields artery.now base.now signal) }
{
    push_green(alloc, record, artery, base, Dir::Outbound, signal)?;
    push_green(alloc, record, artery, base, Dir::Inbound, signal)
}

/// Adds what the base tells of a signal.
#[tactic(auto, unfolding(crate::specs::Records::signal_fields))]
fn push_signal(
    alloc: Global,
    record: &mut Record,
    artery: &Artery,
    base: &Base,
    reference: Reference,
    signal: u32,
) -> Result<(), Memory>
    requires shape { IsFor artery.now base.now }
    requires signal { HasSignal artery.now signal }
    ensures { OnOk result (record.new ≡ record.old ++ signal_fields artery.now base.now reference signal) }
{
    push_names(alloc, record, artery, base, signal)?;
    push_times(alloc, record, artery, base, reference, signal)?;
    push_turns(alloc, record, artery, base, signal)?;
    push_greens(alloc, record, artery, base, signal)
}

/// Adds when a direction's band begins and ends at a signal, or empty fields where there is none.
#[tactic(auto, unfolding(crate::specs::Records::window_fields))]
fn push_window(
    alloc: Global,
    record: &mut Record,
    artery: &Artery,
    timing: &Timing,
    reference: Reference,
    dir: Dir,
    signal: u32,
) -> Result<(), Memory>
    requires shape { IsFor artery.now (base timing.now) }
    requires signal { HasSignal artery.now signal }
    ensures { OnOk result (record.new ≡ record.old ++ window_fields artery.now timing.now reference dir signal) }
{
    if !has_band(artery, timing, dir) {
        push_empty(record)?;
        return push_empty(record);
    }
    let first = first_ticks(artery, timing, reference, dir, signal);
    push_moment_cell(alloc, record, artery, timing.base(), first)?;
    let last = last_ticks(artery, timing, reference, dir, signal);
    push_moment_cell(alloc, record, artery, timing.base(), last)
}

/// Adds the windows of both bands.
#[tactic(auto, unfolding(crate::specs::Records::band_fields))]
fn push_windows(
    alloc: Global,
    record: &mut Record,
    artery: &Artery,
    timing: &Timing,
    reference: Reference,
    signal: u32,
) -> Result<(), Memory>
    requires shape { IsFor artery.now (base timing.now) }
    requires signal { HasSignal artery.now signal }
    ensures { OnOk result (record.new ≡ record.old ++ band_fields artery.now timing.now reference signal) }
{
    push_window(
        alloc,
        record,
        artery,
        timing,
        reference,
        Dir::Outbound,
        signal,
    )?;
    push_window(
        alloc,
        record,
        artery,
        timing,
        reference,
        Dir::Inbound,
        signal,
    )
}

/// Adds the length of a link in a direction, the time of travel and the speed.
#[tactic(auto, unfolding(crate::specs::Records::way_fields))]
fn push_way(
    alloc: Global,
    record: &mut Record,
    artery: &Artery,
    base: &Base,
    dir: Dir,
    link: u32,
) -> Result<(), Memory>
    requires shape { IsFor artery.now base.now }
    requires link { HasLink artery.now link }
    ensures { OnOk result (record.new ≡ record.old ++ way_fields artery.now base.now dir link) }
{
    push_whole(alloc, record, artery.distance(dir, link))?;
    push_ticks(alloc, record, base, base.run(dir, link))?;
    push_speed(alloc, record, artery, base, dir, link)
}

/// Adds the fields of a link in a direction, all empty.
fn push_no_way(record: &mut Record) -> Result<(), Memory>
    ensures { OnOk result (record.new ≡ record.old ++ no_way_fields) }
{
    push_empty(record)?;
    push_empty(record)?;
    push_empty(record)
}

/// Adds the fields of a link, all empty.
fn push_no_link(record: &mut Record) -> Result<(), Memory>
    ensures { OnOk result (record.new ≡ record.old ++ (no_way_fields ++ no_way_fields)) }
{
    push_no_way(record)?;
    push_no_way(record)
}

/// Adds the link to the next signal, or empty fields at the last one.
#[tactic(auto, unfolding(crate::specs::Records::link_fields))]
fn push_link(
    alloc: Global,
    record: &mut Record,
    artery: &Artery,
    base: &Base,
    signal: u32,
) -> Result<(), Memory>
    requires shape { IsFor artery.now base.now }
    requires signal { HasSignal artery.now signal }
    ensures { OnOk result (record.new ≡ record.old ++ link_fields artery.now base.now signal) }
{
    if signal < artery.count() {
        push_way(alloc, record, artery, base, Dir::Outbound, signal)?;
        push_way(alloc, record, artery, base, Dir::Inbound, signal)
    } else {
        push_no_link(record)
    }
}

/// The record of a signal.
#[tactic(auto, unfolding(crate::specs::Records::record_of))]
pub fn record_of(
    alloc: Global,
    artery: &Artery,
    timing: &Timing,
    reference: Reference,
    signal: u32,
) -> Result<Record, Memory>
    requires shape { IsFor artery.now (base timing.now) }
    requires signal { HasSignal artery.now signal }
    ensures { IfOk result (λ made. made ≡ record_of artery.now timing.now reference signal) }
{
    let mut record = Record::new(alloc);
    push_signal(alloc, &mut record, artery, timing.base(), reference, signal)?;
    push_windows(alloc, &mut record, artery, timing, reference, signal)?;
    push_link(alloc, &mut record, artery, timing.base(), signal)?;
    Ok(record)
}
