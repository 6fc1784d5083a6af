//! The table.

ghost use Rattle.std.specs.{Prelude.{◌≡◌, ◌++◌, IfOk, OnOk}, List.{flat_map, range_with_len}};
ghost use Rattle.progression.specs.Street.{count, HasSignal};
ghost use Rattle.timing_sheet.specs.Records.{signal_heads, link_heads, head_text, record_text, sheet_text};
ghost use Rattle.time_space.specs.Timing.{IsFor};
ghost use Rattle.progression.specs.TimingRecord.{base};

use crate::records::record_of;
use artery_model::{Artery, Units};
use description_reader::Reference;
use narrow_fraction::Memory;
use quantity_text::push_text;
use std::alloc::Global;
use table_text::push_record;
use time_space::Timing;

/// The head of the fields of a signal.
#[tactic(auto, unfolding(crate::specs::Records::signal_heads))]
fn signal_heads() -> &'static str
    ensures { result.now ≡ signal_heads }
{
    "signal,name,pattern,offset_s,red_s,left_out_s,left_in_s,green_out_s,green_in_s,out_from_s,out_to_s,in_from_s,in_to_s,"
}

/// That of the fields of a link.
#[tactic(auto, unfolding(crate::specs::Records::link_heads))]
fn link_heads(units: Units) -> &'static str
    ensures { result.now ≡ link_heads units }
{
    match units {
        Units::Metric => {
            "length_out_m,travel_out_s,speed_out_kmh,length_in_m,travel_in_s,speed_in_kmh\n"
        }
        Units::English => {
            "length_out_ft,travel_out_s,speed_out_mph,length_in_ft,travel_in_s,speed_in_mph\n"
        }
    }
}

/// Writes the head.
fn push_head(out: &mut Vec<u8>, units: Units) -> Result<(), Memory>
    ensures { OnOk result (out.new.items ≡ out.old.items ++ head_text units) }
{
    push_text(out, signal_heads())?;
    push_text(out, link_heads(units))
}

/// Writes the record of a signal.
fn push_signal_record(
    alloc: Global,
    out: &mut Vec<u8>,
    artery: &Artery,
    timing: &Timing,
    reference: Reference,
    signal: u32,
) -> Result<(), Memory>
    requires shape { IsFor artery.now (base timing.now) }
    requires signal { HasSignal artery.now signal }
    ensures { OnOk result (out.new.items ≡ out.old.items ++ record_text artery.now timing.now reference signal) }
{
    let record = record_of(alloc, artery, timing, reference, signal)?;
    push_record(out, &record)
}

/// Writes the record of each signal.
fn push_records(
    alloc: Global,
    out: &mut Vec<u8>,
    artery: &Artery,
    timing: &Timing,
    reference: Reference,
) -> Result<(), Memory>
    requires { IsFor artery.now (base timing.now) }
    ensures { OnOk result (out.new.items ≡ out.old.items ++ flat_map (record_text artery.now timing.now reference) (range_with_len 1 (count artery.now))) }
{
    for signal in 1..artery.count() + 1 {
        push_signal_record(alloc, out, artery, timing, reference, signal)?;
    }
    Ok(())
}

/// The table of a timing, good or not, that has the artery's number of signals: a head and a record for each signal, of 19 fields, ended by a
/// line feed each, with quotes where a name needs them.
///
/// Offsets and the windows of the bands count from the moment of signal 1 that the reference names, within a cycle; where a direction's
/// band meets a red, its windows are empty. Times are in seconds and speeds in km/h or mph, to the nearest tenth, lengths in metres or
/// feet; the fields of the link to the next signal are empty at the last one. The error is want of memory.
#[tactic(auto, unfolding(crate::specs::Records::sheet_text))]
pub fn sheet(
    alloc: Global,
    artery: &Artery,
    timing: &Timing,
    reference: Reference,
) -> Result<Vec<u8>, Memory>
    requires { IsFor artery.now (base timing.now) }
    ensures { IfOk result (λ table. table.items ≡ sheet_text artery.now timing.now reference) }
{
    let mut table = Vec::new(alloc);
    push_head(&mut table, artery.head().units)?;
    push_records(alloc, &mut table, artery, timing, reference)?;
    Ok(table)
}
