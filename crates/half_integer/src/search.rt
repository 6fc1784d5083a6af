//! The widest band over all lines on the doubled grid, each signal in its better phase.

ghost use Rattle.std.specs.Prelude.{◌≡◌, ◌+◌, ◌-◌, ◌*◌, ◌<◌, ◌≤◌, ◌^◌, ℕ, ℤ, pos, min, max, MatchOption, unsigned_abs, ◌+ℤ◌};
ghost use Rattle.progression.specs.{Street.{count, HasLink, HasSignal}, BaseRecord.{cycle}, Green.{red_ticks}, TimingRecord.{base}};
ghost use Rattle.progression.specs.declared.parts.Dir.TheVariants.{Outbound};
ghost use Rattle.artery_model.specs.Bounds.{most_signals};
ghost use Rattle.time_space.specs.Sizes.{IsWithin};
ghost use Rattle.mirror_theory.specs.{EqualBands.{travel}, Runs.{phase_wait, far, wait_in_phase, taken, Runs, candidate}};
ghost use Rattle.half_integer.specs.Bands.{fullest, IsWidthOn, reach, IsTried, IsTriedTo, IsRun, IsBandWithin, IsBestBand};
ghost use Rattle.time_space.specs.Timing.{IsFor};

use artery_model::Artery;
use progression::Dir;
use time_space::{Timing, advance, cycle, red_ticks, since_start};

/// An outbound band: where its line crosses signal 1, in ticks of the doubled grid, and how wide it is.
#[derive(Clone, Copy)]
pub struct OutboundBand {
    pub first: i128,
    pub width: u128,
}

/// A direction's run on a link, less the clearance at its end.
pub fn travel(artery: &Artery, timing: &Timing, dir: Dir, link: u32) -> i128
    requires link { HasLink artery.now link }
    requires shape { IsFor artery.now (base timing.now) }
    ensures value { result ≡ travel artery.now timing.now dir link }
    ensures small { unsigned_abs result ≤ 2 ^ 93 }
{
    let count = artery.count();
    prove!(link < count);
    let place = match dir {
        Dir::Outbound => link - 1,
        Dir::Inbound => count - 1 - link,
    };
    advance(artery, timing, dir, place)
}

/// The wait of a line at a signal whose red is centred at 0 or half a cycle later.
pub fn wait_in_phase(artery: &Artery, timing: &Timing, line: i128, signal: u32, phase: u128) -> u128
    requires signal { HasSignal artery.now signal }
    requires phase { phase ≤ cycle artery.now (base timing.now) }
    requires near { IsWithin line }
    ensures value { result ≡ phase_wait (cycle artery.now (base timing.now)) (red_ticks artery.now (base timing.now) Outbound signal) line phase }
    ensures below { result < cycle artery.now (base timing.now) + cycle artery.now (base timing.now) }
{
    let half = cycle(artery, timing);
    let end = phase + red_ticks(artery, timing, Dir::Outbound, signal);
    since_start(half + half, end as i128, line)
}

/// What a line and the signal's red take of the cycle in the better phase.
fn taken(artery: &Artery, timing: &Timing, first: i128, line: i128, signal: u32) -> u128
    requires signal { HasSignal artery.now signal }
    requires here { line ≡ first +ℤ far artery.now timing.now signal }
    requires near { IsWithin line }
    ensures value { result ≡ taken artery.now timing.now first signal }
    ensures small { result < 2 ^ 95 }
{
    let in_phase = wait_in_phase(artery, timing, line, signal, 0);
    let half_later = wait_in_phase(artery, timing, line, signal, cycle(artery, timing));
    let red = red_ticks(artery, timing, Dir::Outbound, signal);
    in_phase.min(half_later) + red + red
}

/// Twice the outbound travel on a link.
fn step(artery: &Artery, timing: &Timing, link: u32) -> i128
    requires link { HasLink artery.now link }
    requires shape { IsFor artery.now (base timing.now) }
    ensures value { result ≡ travel artery.now timing.now Outbound link +ℤ travel artery.now timing.now Outbound link }
    ensures small { unsigned_abs result ≤ 2 ^ 94 }
{
    let once = travel(artery, timing, Dir::Outbound, link);
    once + once
}

/// Where a line crosses the next signal.
pub fn next_line(artery: &Artery, timing: &Timing, first: i128, line: i128, signal: u32) -> i128
    requires signal { HasLink artery.now signal }
    requires shape { IsFor artery.now (base timing.now) }
    requires here { line ≡ first +ℤ far artery.now timing.now signal }
    requires start { unsigned_abs first ≤ 2 ^ 99 }
    requires near { unsigned_abs line ≤ unsigned_abs first + signal * 2 ^ 94 }
    requires many { signal ≤ most_signals }
    ensures here { result ≡ first +ℤ far artery.now timing.now (signal + 1) }
    ensures near { unsigned_abs result ≤ unsigned_abs first + (signal + 1) * 2 ^ 94 }
{
    line + step(artery, timing, signal)
}

/// Where a line crosses the next signal, where there is one.
pub fn line_beyond(artery: &Artery, timing: &Timing, first: i128, line: i128, signal: u32) -> i128
    requires signal { HasSignal artery.now signal }
    requires shape { IsFor artery.now (base timing.now) }
    requires here { line ≡ first +ℤ far artery.now timing.now signal }
    requires start { unsigned_abs first ≤ 2 ^ 99 }
    requires near { unsigned_abs line ≤ unsigned_abs first + signal * 2 ^ 94 }
    ensures here { signal < count artery.now → result ≡ first +ℤ far artery.now timing.now (signal + 1) }
    ensures near { unsigned_abs result ≤ unsigned_abs first + (signal + 1) * 2 ^ 94 }
{
    if signal < artery.count() {
        next_line(artery, timing, first, line, signal)
    } else {
        line
    }
}

/// What the fullest signal takes.
fn fullest(artery: &Artery, timing: &Timing, first: i128) -> u128
    requires shape { IsFor artery.now (base timing.now) }
    requires near { unsigned_abs first ≤ 2 ^ 99 }
    ensures value { result ≡ fullest artery.now timing.now first (count artery.now) }
    ensures some { 1 ≤ count artery.now }
    ensures small { result < 2 ^ 95 }
{
    let mut most = 0;
    let mut line = first;
    for place in 0..artery.count() {
        most = taken(artery, timing, first, line, place + 1).max(most);
        line = line_beyond(artery, timing, first, line, place + 1);
    }
    most
}

/// The widest band that begins on a line.
fn width_on(artery: &Artery, timing: &Timing, first: i128) -> Option<u128>
    requires shape { IsFor artery.now (base timing.now) }
    requires near { unsigned_abs first ≤ 2 ^ 99 }
    ensures { MatchOption result ((band : ℕ) → ¬ Runs artery.now timing.now first band) (λ b. IsWidthOn artery.now timing.now first b) }
{
    let half = cycle(artery, timing);
    let most = fullest(artery, timing, first);
    if most <= half + half {
        Some(half + half - most)
    } else {
        None
    }
}

/// The better of a band and the widest one on another line; of two that are as wide the first.
fn better(
    artery: &Artery,
    timing: &Timing,
    best: Option<OutboundBand>,
    first: i128,
) -> Option<OutboundBand>
    requires shape { IsFor artery.now (base timing.now) }
    requires near { unsigned_abs first ≤ 26 * 2 ^ 94 }
    requires runs { IsRun artery.now timing.now best }
    requires within { IsBandWithin best }
    ensures runs { IsRun artery.now timing.now result }
    ensures kept { reach best ≤ reach result }
    ensures first { reach result ≡ reach best → result ≡ best }
    ensures tried { IsTried artery.now timing.now result first }
    ensures within { IsBandWithin result }
{
    let Some(width) = width_on(artery, timing, first) else {
        return best;
    };
    match best {
        Some(band) if band.width >= width => best,
        _ => Some(OutboundBand { first, width }),
    }
}

/// Where the red of a signal ends in a phase.
fn red_end(artery: &Artery, timing: &Timing, signal: u32, phase: u128) -> i128
    requires signal { HasSignal artery.now signal }
    requires phase { phase < 2 ^ 92 }
    ensures value { result ≡ pos (phase + red_ticks artery.now (base timing.now) Outbound signal) }
    ensures small { unsigned_abs result ≤ 2 ^ 94 }
{
    let end = phase + red_ticks(artery, timing, Dir::Outbound, signal);
    end as i128
}

/// The line that crosses a signal at the end of its red in a phase.
fn candidate(artery: &Artery, timing: &Timing, line: i128, signal: u32, phase: u128) -> i128
    requires signal { HasSignal artery.now signal }
    requires many { signal ≤ most_signals }
    requires here { line ≡ pos 0 +ℤ far artery.now timing.now signal }
    requires near { unsigned_abs line ≤ signal * 2 ^ 94 }
    requires phase { phase < 2 ^ 92 }
    ensures value { result ≡ candidate artery.now timing.now signal phase }
    ensures near { unsigned_abs result ≤ 26 * 2 ^ 94 }
{
    red_end(artery, timing, signal, phase) - line
}

/// The best band, after the two candidates at the next signal: the lines that cross it at the end of its red in either phase.
fn tried_next(
    artery: &Artery,
    timing: &Timing,
    best: Option<OutboundBand>,
    line: i128,
    place: u32,
) -> Option<OutboundBand>
    requires last { place < count artery.now }
    requires many { place < most_signals }
    requires shape { IsFor artery.now (base timing.now) }
    requires here { line ≡ pos 0 +ℤ far artery.now timing.now (place + 1) }
    requires near { unsigned_abs line ≤ (place + 1) * 2 ^ 94 }
    requires runs { IsRun artery.now timing.now best }
    requires within { IsBandWithin best }
    requires tried { IsTriedTo artery.now timing.now best place }
    ensures runs { IsRun artery.now timing.now result }
    ensures within { IsBandWithin result }
    ensures tried { IsTriedTo artery.now timing.now result (place + 1) }
{
    let in_phase = candidate(artery, timing, line, place + 1, 0);
    let half_later = candidate(artery, timing, line, place + 1, cycle(artery, timing));
    let found = better(artery, timing, best, in_phase);
    better(artery, timing, found, half_later)
}

/// The best band on all candidates.
#[tactic(auto, using(crate::proofs::LineWidths::none_tried))]
fn best_candidate(artery: &Artery, timing: &Timing) -> Option<OutboundBand>
    requires shape { IsFor artery.now (base timing.now) }
    ensures runs { IsRun artery.now timing.now result }
    ensures within { IsBandWithin result }
    ensures tried { IsTriedTo artery.now timing.now result (count artery.now) }
    ensures some { 1 ≤ count artery.now }
{
    let mut best = None;
    let mut line = 0;
    for place in 0..artery.count() {
        best = tried_next(artery, timing, best, line, place);
        line = line_beyond(artery, timing, 0, line, place + 1);
    }
    best
}

/// Half a cycle of the doubled grid.
fn half_cycle(artery: &Artery, timing: &Timing) -> i128
    ensures value { result ≡ pos (cycle artery.now (base timing.now)) }
    ensures small { unsigned_abs result < 2 ^ 92 }
    ensures whole { 0 < cycle artery.now (base timing.now) }
{
    cycle(artery, timing) as i128
}

/// The same band, half a cycle later where that puts signal 1 in phase.
fn upright(artery: &Artery, timing: &Timing, band: OutboundBand) -> OutboundBand
    requires some { 1 ≤ count artery.now }
    requires near { unsigned_abs band.first ≤ 26 * 2 ^ 94 }
    requires runs { Runs artery.now timing.now band.first band.width }
    ensures runs { Runs artery.now timing.now result.first result.width }
    ensures same { result.width ≡ band.width }
    ensures near { unsigned_abs result.first ≤ 2 ^ 99 }
    ensures upright { wait_in_phase artery.now timing.now result.first 1 0 ≤ wait_in_phase artery.now timing.now result.first 1 (cycle artery.now (base timing.now)) }
{
    let half = cycle(artery, timing);
    let in_phase = wait_in_phase(artery, timing, band.first, 1, 0);
    let half_later = wait_in_phase(artery, timing, band.first, 1, half);
    if half_later < in_phase {
        OutboundBand {
            first: band.first + half_cycle(artery, timing),
            width: band.width,
        }
    } else {
        band
    }
}

/// The band that is widest of all, or None where none runs.
pub fn best_band(artery: &Artery, timing: &Timing) -> Option<OutboundBand>
    requires shape { IsFor artery.now (base timing.now) }
    ensures { MatchOption result ((x : ℤ) → ¬ Runs artery.now timing.now x 0) (λ band. IsBestBand artery.now timing.now band) }
{
    let half = cycle(artery, timing);
    prove!(0 < half);
    match best_candidate(artery, timing) {
        None => None,
        Some(band) => Some(upright(artery, timing, band)),
    }
}
