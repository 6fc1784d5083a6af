//! The lines of an artery's bands, signal by signal in travel order.

ghost use Rattle.std.specs.Prelude.{◌≡◌, ◌+◌, ◌*◌, ◌<◌, ◌≤◌, ◌^◌, ◌+ℤ◌, MatchOption, IfSome, unsigned_abs};
ghost use Rattle.progression.specs.{Street.{count, HasSignal}, BaseRecord.{cycle}, TimingRecord.{base}, Green.{red_start, red_ticks}};
ghost use Rattle.progression.specs.Lines.{advance, crossing, IsGreenAt, IsGreenWay};
ghost use Rattle.time_space.specs.{Sizes.{IsWithin}, Blocked.{IsBlockedAt, IsBlocked, IsFirstBlocked}, Timing.{IsFor}};

use crate::base::Base;
use crate::reds::stop;
use crate::ticks::first_red;
use crate::timing::Timing;
use artery_model::Artery;
use progression::Dir;

/// The cycle in ticks.
pub fn cycle(artery: &Artery, timing: &Timing) -> u128
    ensures value { result ≡ cycle artery.now (base timing.now) }
    ensures least { 4 ≤ result }
    ensures most { result < 2 ^ 92 }
{
    timing.base().cycle(artery)
}

/// The tick at which the red of a direction begins at a signal.
pub fn red_start(artery: &Artery, timing: &Timing, dir: Dir, signal: u32) -> i128
    requires signal { HasSignal artery.now signal }
    requires shape { IsFor artery.now (base timing.now) }
    ensures value { result ≡ red_start artery.now (base timing.now) dir signal }
    ensures small { IsWithin result }
    ensures near { unsigned_abs result < 2 ^ 93 }
{
    timing.base().red_start(artery, dir, signal)
}

/// How many ticks long the red of a direction is at a signal.
pub fn red_ticks(artery: &Artery, timing: &Timing, dir: Dir, signal: u32) -> u128
    requires signal { HasSignal artery.now signal }
    ensures value { result ≡ red_ticks artery.now (base timing.now) dir signal }
    ensures least { 2 ≤ result }
    ensures green { result < cycle artery.now (base timing.now) }
    ensures small { result < 2 ^ 92 }
{
    timing.base().red_ticks(artery, dir, signal)
}

/// How many ticks after its first line the band first meets a red at a place in travel order.
fn blocked_after(artery: &Artery, timing: &Timing, dir: Dir, place: u32, line: i128) -> Option<u128>
    requires on_way { place < count artery.now }
    requires shape { IsFor artery.now (base timing.now) }
    requires here { line ≡ crossing artery.now timing.now dir place }
    requires near { IsWithin line }
    ensures found { MatchOption result (IsGreenAt artery.now timing.now dir place)
        (λ after. IsBlockedAt artery.now timing.now dir place after) }
    ensures small { IfSome result (λ after. after < 2 ^ 80) }
{
    let signal = stop(dir, artery.count(), place);
    let start = red_start(artery, timing, dir, signal);
    let red = red_ticks(artery, timing, dir, signal);
    first_red(cycle(artery, timing), start, red, line, timing.band(dir))
}

/// How much later than at a place in travel order a line crosses the next signal: the run to it, less the clearance there.
pub fn advance(artery: &Artery, timing: &Timing, dir: Dir, place: u32) -> i128
    requires on_way { place + 1 < count artery.now }
    requires shape { IsFor artery.now (base timing.now) }
    ensures value { result ≡ advance artery.now (base timing.now) dir place }
    ensures small { unsigned_abs result ≤ 2 ^ 93 }
{
    timing.base().advance(artery, dir, place)
}

/// The tick at which a line crosses the next signal, from the tick at which it crosses this one.
pub(crate) fn next_line(artery: &Artery, base: &Base, dir: Dir, place: u32, line: i128) -> i128
    requires on_way { place + 1 < count artery.now }
    requires shape { IsFor artery.now base.now }
    requires near { unsigned_abs line ≤ (place + 1) * 2 ^ 93 }
    ensures value { result ≡ line +ℤ advance artery.now base.now dir place }
    ensures near { unsigned_abs result ≤ (place + 2) * 2 ^ 93 }
{
    line + base.advance(artery, dir, place)
}

/// The signal at a place in travel order and the first tick of the band there that isn't green.
fn blocked_at(
    artery: &Artery,
    timing: &Timing,
    dir: Dir,
    place: u32,
    line: i128,
) -> Option<(u32, i128)>
    requires on_way { place < count artery.now }
    requires shape { IsFor artery.now (base timing.now) }
    requires here { line ≡ crossing artery.now timing.now dir place }
    requires near { IsWithin line }
    ensures { MatchOption result (IsGreenAt artery.now timing.now dir place)
        (λ at. IsBlocked artery.now timing.now dir place at.0 at.1) }
{
    let after = blocked_after(artery, timing, dir, place, line)?;
    Some((stop(dir, artery.count(), place), line + after as i128))
}

/// The tick at which the line crosses the signal after a place, where there is one.
fn line_beyond(artery: &Artery, timing: &Timing, dir: Dir, place: u32, line: i128) -> i128
    requires on_way { place < count artery.now }
    requires shape { IsFor artery.now (base timing.now) }
    requires here { line ≡ crossing artery.now timing.now dir place }
    requires near { unsigned_abs line ≤ (place + 1) * 2 ^ 93 }
    ensures here { place + 1 < count artery.now → result ≡ crossing artery.now timing.now dir (place + 1) }
    ensures near { unsigned_abs result ≤ (place + 2) * 2 ^ 93 }
{
    let count = artery.count();
    if place + 1 < count {
        next_line(artery, timing.base(), dir, place, line)
    } else {
        line
    }
}

/// The first signal in travel order where a direction's band isn't green, and the first tick there that isn't.
pub fn first_blocked(artery: &Artery, timing: &Timing, dir: Dir) -> Option<(u32, i128)>
    requires shape { IsFor artery.now (base timing.now) }
    ensures { MatchOption result (IsGreenWay artery.now timing.now dir)
        (λ at. IsFirstBlocked artery.now timing.now dir at.0 at.1) }
{
    let mut line = timing.first(dir);
    for place in 0..artery.count() {
        if let Some(at) = blocked_at(artery, timing, dir, place, line) {
            return Some(at);
        }
        line = line_beyond(artery, timing, dir, place, line);
    }
    None
}
