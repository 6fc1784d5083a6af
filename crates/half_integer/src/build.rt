//! The timing of the best band.

ghost use Rattle.std.specs.Prelude.{◌≡◌, ◌+◌, ◌*◌, ◌<◌, ◌≤◌, ◌^◌, pos, All, length, IfOk, OnOk, MatchOption, unsigned_abs, ◌+ℤ◌};
ghost use Rattle.progression.specs.{Street.{count, HasSignal}, BaseRecord.{cycle}, Green.{ahead, red_ticks}, TimingRecord.{base}};
ghost use Rattle.progression.specs.declared.parts.Dir.TheVariants.{Outbound};
ghost use Rattle.artery_model.specs.Bounds.{most_signals};
ghost use Rattle.time_space.specs.Sizes.{IsWithin};
ghost use Rattle.mirror_theory.specs.{EqualBands.{IsEven, HasNone, IsHalfCycleBest}, Runs.{far}, Built.{phase_at}};
ghost use Rattle.half_integer.specs.HalfPlan.{red_tick, first_out_tick, first_in_tick, half_plan};
ghost use Rattle.half_integer.specs.Fitting.{FitsTwice, IsListTo, twice_at};
ghost use Rattle.time_space.specs.Timing.{IsFor};

use crate::search::{OutboundBand, best_band, line_beyond, next_line, wait_in_phase};
use artery_model::Artery;
use narrow_fraction::{Memory, copied, push};
use progression::Dir;
use std::alloc::Global;
use time_space::{Base, Timing, cycle, red_start, red_ticks, since_start};

/// How many ticks the outbound red of a signal begins before the common red.
fn ahead(artery: &Artery, timing: &Timing, signal: u32) -> i128
    requires signal { HasSignal artery.now signal }
    requires shape { IsFor artery.now (base timing.now) }
    ensures value { result ≡ pos (ahead artery.now (base timing.now) Outbound signal) }
    ensures small { unsigned_abs result < 2 ^ 94 }
{
    timing.common_red(signal) - red_start(artery, timing, Dir::Outbound, signal)
}

/// The better phase of a signal for the line that crosses it here: 0, or half a cycle.
fn phase(artery: &Artery, timing: &Timing, line: i128, signal: u32) -> u128
    requires signal { HasSignal artery.now signal }
    requires near { IsWithin line }
    ensures value { result ≡ phase_at artery.now timing.now line signal }
    ensures small { result < 2 ^ 92 }
{
    let half = cycle(artery, timing);
    if wait_in_phase(artery, timing, line, signal, 0)
        <= wait_in_phase(artery, timing, line, signal, half)
    {
        0
    } else {
        half
    }
}

/// The tick half of the outbound red after the common red begins, where the outbound red is centred in its better phase.
fn centred_tick(artery: &Artery, timing: &Timing, line: i128, signal: u32) -> i128
    requires signal { HasSignal artery.now signal }
    requires shape { IsFor artery.now (base timing.now) }
    requires near { IsWithin line }
    ensures value { result ≡ pos (phase_at artery.now timing.now line signal + ahead artery.now (base timing.now) Outbound signal * 2) }
    ensures small { IsWithin result }
{
    let ahead = ahead(artery, timing, signal);
    phase(artery, timing, line, signal) as i128 + ahead + ahead
}

/// Where the common red of a signal begins, so that the red is centred in its better phase.
fn red_tick(artery: &Artery, timing: &Timing, first: i128, line: i128, signal: u32) -> u128
    requires signal { HasSignal artery.now signal }
    requires shape { IsFor artery.now (base timing.now) }
    requires here { line ≡ first +ℤ far artery.now timing.now signal }
    requires near { IsWithin line }
    ensures value { result ≡ red_tick artery.now timing.now first signal }
    ensures small { result < cycle artery.now (base timing.now) + cycle artery.now (base timing.now) }
{
    let half = cycle(artery, timing);
    let red = red_ticks(artery, timing, Dir::Outbound, signal);
    let tick = centred_tick(artery, timing, line, signal);
    since_start(half + half, red as i128, tick)
}

/// One more red.
#[tactic(auto, using(crate::proofs::Lists::list_next))]
fn push_red(
    reds: &mut Vec<u128>,
    artery: &Artery,
    timing: &Timing,
    first: i128,
    line: i128,
    place: u32,
) -> Result<(), Memory>
    requires last { place < count artery.now }
    requires many { place < most_signals }
    requires shape { IsFor artery.now (base timing.now) }
    requires here { line ≡ first +ℤ far artery.now timing.now (place + 1) }
    requires near { IsWithin line }
    requires fits { cycle artery.now (base timing.now) * 2 < 2 ^ 80 }
    requires before { IsListTo (red_tick artery.now timing.now first) 1 place reds.old.items }
    ensures { OnOk result (IsListTo (red_tick artery.now timing.now first) 1 (place + 1) reds.new.items) }
{
    let item = red_tick(artery, timing, first, line, place + 1);
    push(reds, item)?;
    Ok(())
}

/// Where each signal's common red begins.
#[tactic(auto, using(crate::proofs::Lists::list_none))]
fn reds(alloc: Global, artery: &Artery, timing: &Timing, first: i128) -> Result<Vec<u128>, Memory>
    requires shape { IsFor artery.now (base timing.now) }
    requires near { unsigned_abs first ≤ 2 ^ 99 }
    requires fits { cycle artery.now (base timing.now) * 2 < 2 ^ 80 }
    ensures { IfOk result (λ reds. IsListTo (red_tick artery.now timing.now first) 1 (count artery.now) reds.items) }
{
    let mut reds = Vec::new(alloc);
    let mut line = first;
    for place in 0..artery.count() {
        push_red(&mut reds, artery, timing, first, line, place)?;
        line = line_beyond(artery, timing, first, line, place + 1);
    }
    Ok(reds)
}

/// Where a line crosses the last signal.
fn last_line(artery: &Artery, timing: &Timing, first: i128) -> i128
    requires shape { IsFor artery.now (base timing.now) }
    requires near { unsigned_abs first ≤ 2 ^ 99 }
    ensures value { result ≡ first +ℤ far artery.now timing.now (count artery.now) }
    ensures near { unsigned_abs result ≤ 2 ^ 99 + 25 * 2 ^ 94 }
{
    let mut line = first;
    for signal in 1..artery.count() {
        line = next_line(artery, timing, first, line, signal);
    }
    line
}

/// Where the mirrored line begins at the last signal.
fn first_in(artery: &Artery, timing: &Timing, band: OutboundBand) -> u128
    requires shape { IsFor artery.now (base timing.now) }
    requires near { unsigned_abs band.first ≤ 2 ^ 99 }
    requires width { band.width < 2 ^ 94 }
    ensures value { result ≡ first_in_tick artery.now timing.now band.first band.width }
    ensures small { result < cycle artery.now (base timing.now) + cycle artery.now (base timing.now) }
{
    let half = cycle(artery, timing);
    let end = last_line(artery, timing, band.first) + band.width as i128;
    since_start(half + half, end, 0)
}

/// Where the outbound line begins.
fn first_out(artery: &Artery, timing: &Timing, band: OutboundBand) -> u128
    requires near { unsigned_abs band.first ≤ 2 ^ 99 }
    ensures value { result ≡ first_out_tick artery.now timing.now band.first }
    ensures small { result < cycle artery.now (base timing.now) + cycle artery.now (base timing.now) }
{
    let half = cycle(artery, timing);
    since_start(half + half, 0, band.first)
}

/// One more number, twice as large.
#[tactic(auto, using(crate::proofs::Lists::list_next))]
fn push_twice(twice: &mut Vec<u128>, numbers: &[u128], place: usize) -> Result<(), Memory>
    requires last { place < length numbers.now }
    requires fits { All (λ n. n * 2 < 2 ^ 80) numbers.now }
    requires before { IsListTo (twice_at numbers.now) 0 place twice.old.items }
    ensures { OnOk result (IsListTo (twice_at numbers.now) 0 (place + 1) twice.new.items) }
{
    let item = numbers[place] * 2;
    push(twice, item)?;
    Ok(())
}

/// Each number twice as large.
#[tactic(auto, using(crate::proofs::Lists::list_none))]
fn doubled(alloc: Global, numbers: &[u128]) -> Result<Vec<u128>, Memory>
    requires fits { All (λ n. n * 2 < 2 ^ 80) numbers.now }
    ensures { IfOk result (λ twice. IsListTo (twice_at numbers.now) 0 (length numbers.now) twice.items) }
{
    let mut twice = Vec::new(alloc);
    for place in 0..numbers.len() {
        push_twice(&mut twice, numbers, place)?;
    }
    Ok(twice)
}

/// The timing of a band, with each red centred in its better phase.
fn built(
    alloc: Global,
    artery: &Artery,
    timing: &Timing,
    band: OutboundBand,
) -> Result<Timing, Memory>
    requires shape { IsFor artery.now (base timing.now) }
    requires fits { FitsTwice artery.now timing.now }
    requires near { unsigned_abs band.first ≤ 2 ^ 99 }
    requires width { band.width < 2 ^ 80 }
    ensures { IfOk result (λ s. s ≡ half_plan artery.now timing.now band.first band.width) }
{
    let patterns = copied(alloc, timing.patterns())?;
    let reds = reds(alloc, artery, timing, band.first)?;
    let run_out = doubled(alloc, timing.run_out())?;
    let run_in = doubled(alloc, timing.run_in())?;
    let first_out = first_out(artery, timing, band);
    let first_in = first_in(artery, timing, band);
    match Base::new(
        timing.grid() * 2,
        timing.unit() * 2,
        patterns,
        reds,
        run_out,
        run_in,
    ) {
        Some(base) => Ok(base.banded(first_out, band.width, first_in, band.width)),
        None => unreachable!(),
    }
}

/// The timing with the widest equal bands over all offsets on all grids, or None where there are none.
pub fn half_plan(alloc: Global, artery: &Artery, timing: &Timing) -> Result<Option<Timing>, Memory>
    requires shape { IsFor artery.now (base timing.now) }
    requires even { IsEven artery.now timing.now }
    requires fits { FitsTwice artery.now timing.now }
    ensures { IfOk result (λ found. MatchOption found (HasNone artery.now timing.now) (λ s. IsHalfCycleBest artery.now timing.now s)) }
{
    let head = artery.head();
    let unit = timing.unit();
    match best_band(artery, timing) {
        None => Ok(None),
        Some(band) => Ok(Some(built(alloc, artery, timing, band)?)),
    }
}
