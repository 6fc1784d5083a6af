//! The signals and links of a direction, and its widest band.

ghost use Rattle.std.specs.Prelude.{◌≡◌, ◌+◌, ◌-◌, ◌*◌, ◌<◌, ◌≤◌, ℕ, MatchOption, IfSome};
ghost use Rattle.progression.specs.{Street.{count, clearance}, BaseRecord.{cycle}, Lines.{leg, stop}};
ghost use Rattle.artery_model.specs.Bounds.{most_signals};
ghost use Rattle.free_band.specs.Way.{signal_of, link_of};
ghost use Rattle.free_runs.specs.{Street.{IsStop, IsLeg, IsWayOf}, Free.{NoneFree, IsFree, AreWholeLimits, NoneFreeFiner, IsWidestFree}};
ghost use Rattle.time_space.specs.Timing.{IsFor};

use crate::limits::run_limits;
use artery_model::Artery;
use free_band::{FreeBand, WayLink, WaySignal, is_way, widest_free};
use progression::Dir;
use time_space::{Base, stop};

/// The link after a place in travel order.
fn leg(dir: Dir, count: u32, place: u32) -> u32
    requires on_way { place + 1 < count }
    requires many { count ≤ most_signals }
    ensures value { result ≡ leg dir count place }
    ensures first { 1 ≤ result }
    ensures last { result < count }
{
    match dir {
        Dir::Outbound => place + 1,
        Dir::Inbound => count - 1 - place,
    }
}

/// The reds of the signal at a place in travel order.
fn signal_on(artery: &Artery, base: &Base, dir: Dir, place: u32) -> WaySignal
    requires on_way { place < count artery.now }
    requires shape { IsFor artery.now base.now }
    ensures { IsStop artery.now base.now dir place result }
{
    let signal = stop(dir, artery.count(), place);
    WaySignal {
        start: base.red_start(artery, dir, signal),
        red: base.red_ticks(artery, dir, signal),
    }
}

/// The clearance at the signal after a place, in ticks.
fn clearance(artery: &Artery, base: &Base, dir: Dir, place: u32) -> u128
    requires on_way { place + 1 < count artery.now }
    ensures { result ≡ clearance artery.now dir (stop dir (count artery.now) (place + 1)) * base.now.unit }
{
    artery.clearance(dir, stop(dir, artery.count(), place + 1)) as u128 * base.unit()
}

/// The limits of the link after a place in travel order, and the clearance after it.
fn link_on(artery: &Artery, base: &Base, dir: Dir, place: u32) -> WayLink
    requires on_way { place + 1 < count artery.now }
    ensures { IsLeg artery.now base.now dir place result }
{
    let limits = run_limits(artery, base, dir, leg(dir, artery.count(), place));
    WayLink {
        least: limits.least,
        most: limits.most,
        clear: clearance(artery, base, dir, place),
    }
}

/// The signals in travel order.
fn signals_on(artery: &Artery, base: &Base, dir: Dir) -> [WaySignal; 24]
    requires shape { IsFor artery.now base.now }
    ensures { (j : ℕ) → j < count artery.now → IsStop artery.now base.now dir j (signal_of result j) }
{
    let mut signals = [WaySignal { start: 0, red: 2 }; 24];
    for place in 0..artery.count() {
        signals[place as usize] = signal_on(artery, base, dir, place);
    }
    signals
}

/// The links in travel order.
fn links_on(artery: &Artery, base: &Base, dir: Dir) -> [WayLink; 24]
    ensures { (j : ℕ) → j + 1 < count artery.now → IsLeg artery.now base.now dir j (link_of result j) }
{
    let none = WayLink {
        least: 0,
        most: 0,
        clear: 0,
    };
    let mut links = [none; 24];
    for place in 0..artery.count() - 1 {
        links[place as usize] = link_on(artery, base, dir, place);
    }
    links
}

/// The widest band of signals and links.
fn band_on(
    artery: &Artery,
    base: &Base,
    dir: Dir,
    signals: &[WaySignal],
    links: &[WayLink],
) -> Option<FreeBand>
    requires { IsWayOf artery.now base.now dir signals.now links.now }
    ensures widest { MatchOption result (NoneFree artery.now base.now dir) (λ f. IsFree artery.now base.now dir f) }
    ensures finer { AreWholeLimits artery.now base.now dir → MatchOption result (NoneFreeFiner artery.now base.now dir)
        (λ f. IsWidestFree artery.now base.now dir f.band) }
    ensures first { IfSome result (λ f. f.first < cycle artery.now base.now) }
    ensures band { IfSome result (λ f. f.band < cycle artery.now base.now) }
{
    artery.known_valid();
    let cycle = base.cycle(artery);
    if is_way(cycle, signals, links) {
        widest_free(cycle, signals, links)
    } else {
        None
    }
}

/// The widest band of a direction on the offsets of a base, with runs that have it, over all first lines and all runs that keep
/// the limits of speed; or None where with no such runs any line is green all the way.
///
/// The base's own runs play no part, and changes of pace aren't limited. Where the times that links take at
/// their limits of speed are whole ticks, no finer grid has a wider band.
pub fn widest_band(artery: &Artery, base: &Base, dir: Dir) -> Option<FreeBand>
    requires shape { IsFor artery.now base.now }
    ensures widest { MatchOption result (NoneFree artery.now base.now dir) (λ f. IsFree artery.now base.now dir f) }
    ensures finer { AreWholeLimits artery.now base.now dir → MatchOption result (NoneFreeFiner artery.now base.now dir)
        (λ f. IsWidestFree artery.now base.now dir f.band) }
    ensures first { IfSome result (λ f. f.first < cycle artery.now base.now) }
    ensures band { IfSome result (λ f. f.band < cycle artery.now base.now) }
{
    let signals = signals_on(artery, base, dir);
    let links = links_on(artery, base, dir);
    let count = artery.count() as usize;
    band_on(artery, base, dir, &signals[..count], &links[..count - 1])
}
