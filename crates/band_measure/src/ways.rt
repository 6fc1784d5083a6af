//! Where a line crosses the signals, counted from its first crossing, and the firsts at which it leaves a red.

ghost use Rattle.std.specs.Prelude.{◌≡◌, ◌+◌, ◌*◌, ◌<◌, ◌≤◌, ◌^◌, unsigned_abs};
ghost use Rattle.progression.specs.{Street.{count}, BaseRecord.{cycle}};
ghost use Rattle.time_space.specs.Sizes.{IsWithin};
ghost use Rattle.band_measure.specs.Edges.{way, red_end, edge};
ghost use Rattle.time_space.specs.Timing.{IsFor};

use artery_model::Artery;
use progression::Dir;
use time_space::{Base, since_start, stop};

/// The way to the next signal.
#[tactic(auto, using(crate::proofs::Lines::way_next))]
fn next_way(artery: &Artery, base: &Base, dir: Dir, place: u32, later: i128) -> i128
    requires on_way { place + 1 < count artery.now }
    requires shape { IsFor artery.now base.now }
    requires here { later ≡ way artery.now base.now dir place }
    requires near { unsigned_abs later ≤ place * 2 ^ 93 }
    ensures here { result ≡ way artery.now base.now dir (place + 1) }
    ensures near { unsigned_abs result ≤ (place + 1) * 2 ^ 93 }
{
    later + base.advance(artery, dir, place)
}

/// The way to the signal after a place, where there is one.
pub fn way_beyond(artery: &Artery, base: &Base, dir: Dir, place: u32, later: i128) -> i128
    requires on_way { place < count artery.now }
    requires shape { IsFor artery.now base.now }
    requires here { later ≡ way artery.now base.now dir place }
    requires near { unsigned_abs later ≤ place * 2 ^ 93 }
    ensures here { place + 1 < count artery.now → result ≡ way artery.now base.now dir (place + 1) }
    ensures near { unsigned_abs result ≤ (place + 1) * 2 ^ 93 }
{
    let count = artery.count();
    if place + 1 < count {
        next_way(artery, base, dir, place, later)
    } else {
        later
    }
}

/// The tick at which the red at a place in travel order ends.
fn red_end(artery: &Artery, base: &Base, dir: Dir, place: u32) -> i128
    requires on_way { place < count artery.now }
    requires shape { IsFor artery.now base.now }
    ensures value { result ≡ red_end artery.now base.now dir place }
    ensures small { IsWithin result }
{
    let signal = stop(dir, artery.count(), place);
    base.red_start(artery, dir, signal) + base.red_ticks(artery, dir, signal) as i128
}

/// The first, from 0 to the cycle less 1, with which a line crosses the signal at a place as its red ends.
pub fn edge(artery: &Artery, base: &Base, dir: Dir, place: u32, later: i128) -> u128
    requires on_way { place < count artery.now }
    requires shape { IsFor artery.now base.now }
    requires here { later ≡ way artery.now base.now dir place }
    requires near { IsWithin later }
    ensures value { result ≡ edge artery.now base.now dir place }
    ensures below { result < cycle artery.now base.now }
    ensures small { result < 2 ^ 92 }
{
    let end = red_end(artery, base, dir, place);
    since_start(base.cycle(artery), later, end)
}
