//! How wide a band is that begins at a line: at one signal, and at all.

ghost use Rattle.std.specs.Prelude.{◌≡◌, ◌+◌, ◌-◌, ◌<◌, ◌≤◌, ◌^◌, ℕ, pos, ◌+ℤ◌, unsigned_abs, MatchOption};
ghost use Rattle.progression.specs.{Street.{count}, Green.{BandIsGreen}, Lines.{IsGreenFrom, RunsOn}};
ghost use Rattle.time_space.specs.Sizes.{IsWithin};
ghost use Rattle.band_measure.specs.{Edges.{way}, Widths.{IsWidestGreen, IsWidestAt, IsWidestFrom}};
ghost use Rattle.time_space.specs.Timing.{IsFor};

use crate::ways::way_beyond;
use artery_model::Artery;
use progression::Dir;
use time_space::{Base, since_start, stop};

/// The widest band at one signal whose first line crosses it at this tick.
fn widest_green(cycle: u128, start: i128, red: u128, line: i128) -> Option<u128>
    requires red { 2 ≤ red }
    requires cycle { red < cycle }
    requires size { cycle < 2 ^ 100 }
    requires start { IsWithin start }
    requires line { IsWithin line }
    ensures { MatchOption result ((b : ℕ) → ¬ BandIsGreen cycle start red line b) (λ w. IsWidestGreen cycle start red line w) }
{
    let since = since_start(cycle, start, line);
    if since == 0 {
        Some(0)
    } else if since < red {
        None
    } else {
        Some(cycle - since)
    }
}

/// The tick at which the line that crosses the first signal at `first` crosses one that is so much later.
fn line(first: u128, later: i128) -> i128
    requires first { first < 2 ^ 92 }
    requires near { unsigned_abs later < 2 ^ 98 }
    ensures value { result ≡ pos first +ℤ later }
    ensures small { IsWithin result }
{
    first as i128 + later
}

/// The widest band at a place in travel order whose first line crosses the first signal at `first`.
fn widest_at(
    artery: &Artery,
    base: &Base,
    dir: Dir,
    place: u32,
    first: u128,
    later: i128,
) -> Option<u128>
    requires on_way { place < count artery.now }
    requires shape { IsFor artery.now base.now }
    requires first { first < 2 ^ 92 }
    requires here { later ≡ way artery.now base.now dir place }
    requires near { unsigned_abs later < 2 ^ 98 }
    ensures { MatchOption result ((b : ℕ) → ¬ IsGreenFrom artery.now base.now dir (pos first) b place)
        (λ w. IsWidestAt artery.now base.now dir (pos first) place w) }
{
    let signal = stop(dir, artery.count(), place);
    let start = base.red_start(artery, dir, signal);
    let red = base.red_ticks(artery, dir, signal);
    let crossed = line(first, later);
    widest_green(base.cycle(artery), start, red, crossed)
}

/// The lesser of two widths.
fn lesser(one: u128, other: u128) -> u128
    ensures one { result ≤ one }
    ensures other { result ≤ other }
    ensures most { (b : ℕ) → b ≤ one → b ≤ other → b ≤ result }
{
    if one < other { one } else { other }
}

/// The widest band whose first line crosses the first signal of its way at `first`, or None where some signal is red then.
pub fn band_from(artery: &Artery, base: &Base, dir: Dir, first: u128) -> Option<u128>
    requires shape { IsFor artery.now base.now }
    requires first { first < 2 ^ 92 }
    ensures { MatchOption result ((b : ℕ) → ¬ RunsOn artery.now base.now dir (pos first) b)
        (λ w. IsWidestFrom artery.now base.now dir (pos first) w) }
{
    artery.known_valid();
    prove!(2 <= base.unit());
    let mut band = base.cycle(artery);
    let mut later = 0;
    for place in 0..artery.count() {
        let Some(width) = widest_at(artery, base, dir, place, first, later) else {
            return None;
        };
        band = lesser(band, width);
        later = way_beyond(artery, base, dir, place, later);
    }
    Some(band)
}
