//! The numbers.

ghost use Rattle.std.specs.Prelude.{◌≡◌, ◌<◌, ◌≤◌, ◌^◌, pos, ◌≤ℤ◌, length, unsigned_abs, IfNone, IfSome};
ghost use Rattle.rational_theory.specs.Rational.{over};
ghost use Rattle.progression.specs.{Street.{count, signal_of, HasLink, HasSignal}, BaseRecord.{cycle, run}, Good.{IsBase}};
ghost use Rattle.timing_measures.specs.Measures.{band_share, seconds, cycle_seconds, after_start, offset, speed_of, link_speed};
ghost use Rattle.time_space.specs.Timing.{IsFor};

use artery_model::{Artery, Dir, Units};
use narrow_fraction::Frac;
use time_space::{Base, Timing, since_start};

/// The quotient of two whole numbers. Never below 0.
#[tactic(auto, using(crate::proofs::Sizes::over_least))]
pub fn quotient(top: u128, bottom: u128) -> Frac
    requires top { top < 2 ^ 126 }
    requires some { 1 ≤ bottom }
    requires bottom { bottom ≤ 2 ^ 120 }
    ensures value { result ≡ over (pos top) bottom }
    ensures least { pos 0 ≤ℤ result.num }
    ensures denominator { result.den ≤ 2 ^ 120 }
{
    Frac::reduced(top as i128, bottom)
}

/// A direction's band as a fraction of the cycle.
pub fn band_share(artery: &Artery, timing: &Timing, dir: Dir) -> Frac
    ensures value { result ≡ band_share artery.now timing.now dir }
    ensures least { pos 0 ≤ℤ result.num }
    ensures denominator { result.den ≤ 2 ^ 120 }
{
    quotient(timing.band(dir), timing.base().cycle(artery))
}

/// So many ticks of a base in seconds.
pub fn seconds(base: &Base, ticks: u128) -> Frac
    requires { ticks < 2 ^ 126 }
    ensures value { result ≡ seconds base.now ticks }
    ensures least { pos 0 ≤ℤ result.num }
    ensures denominator { result.den ≤ 2 ^ 120 }
{
    quotient(ticks, base.grid())
}

/// The cycle in seconds.
pub fn cycle_seconds(artery: &Artery, base: &Base) -> Frac
    ensures value { result ≡ cycle_seconds artery.now base.now }
    ensures least { pos 0 ≤ℤ result.num }
    ensures denominator { result.den ≤ 2 ^ 120 }
{
    seconds(base, base.cycle(artery))
}

/// How many ticks a tick comes after the last start of the common red of signal 1.
pub fn after_start(artery: &Artery, base: &Base, tick: i128) -> u128
    requires { unsigned_abs tick < 2 ^ 100 }
    ensures value { result ≡ after_start artery.now base.now tick }
    ensures small { result < 2 ^ 92 }
    ensures below { result < cycle artery.now base.now }
{
    // a base has a first signal
    let _ = base.count();
    since_start(base.cycle(artery), base.common_red(1), tick)
}

/// How many seconds after the common red of signal 1 that of a signal starts: less than a cycle.
pub fn offset(artery: &Artery, base: &Base, signal: u32) -> Frac
    requires first { 1 ≤ signal }
    requires last { signal ≤ length base.now.patterns }
    ensures value { result ≡ offset artery.now base.now signal }
    ensures least { pos 0 ≤ℤ result.num }
    ensures denominator { result.den ≤ 2 ^ 120 }
{
    let ticks = after_start(artery, base, base.common_red(signal));
    seconds(base, ticks)
}

/// The ticks that a direction's band takes on a link. There are some, since no speed limit allows none.
fn run_ticks(artery: &Artery, base: &Base, dir: Dir, link: u32) -> u128
    requires base { IsBase artery.now base.now }
    requires link { HasLink artery.now link }
    ensures value { result ≡ run base.now dir link }
    ensures least { 1 ≤ result }
    ensures most { result < 2 ^ 80 }
{
    // at the greatest speed the link takes some time
    prove!(1 <= artery.run_low(dir, link).num());
    base.run(dir, link)
}

/// The speed at which a distance takes so many ticks, with `grid` ticks in a second: in km/h where it is in metres, in mph where in feet.
fn speed_of(units: Units, distance: u128, grid: u128, ticks: u128) -> Frac
    requires distance { distance ≤ 30000 }
    requires grid { grid < 2 ^ 80 }
    requires some { 1 ≤ ticks }
    requires ticks { ticks < 2 ^ 80 }
    ensures value { result ≡ speed_of units distance grid ticks }
    ensures least { pos 0 ≤ℤ result.num }
    ensures denominator { result.den ≤ 2 ^ 120 }
{
    match units {
        Units::Metric => quotient(18 * distance * grid, 5 * ticks),
        Units::English => quotient(15 * distance * grid, 22 * ticks),
    }
}

/// The speed of a direction's band on a link where so many ticks are its run, which are some.
fn speed_over(artery: &Artery, base: &Base, dir: Dir, link: u32, ticks: u128) -> Frac
    requires link { HasLink artery.now link }
    requires run { ticks ≡ run base.now dir link }
    requires some { 1 ≤ ticks }
    requires small { ticks < 2 ^ 80 }
    ensures value { result ≡ link_speed artery.now base.now dir link }
    ensures least { pos 0 ≤ℤ result.num }
    ensures denominator { result.den ≤ 2 ^ 120 }
{
    let distance = u128::from(artery.distance(dir, link));
    speed_of(artery.head().units, distance, base.grid(), ticks)
}

/// The speed of a direction's band on a link, in km/h or mph, as the description's units are. The base keeps its rules.
pub fn link_speed(artery: &Artery, base: &Base, dir: Dir, link: u32) -> Frac
    requires base { IsBase artery.now base.now }
    requires link { HasLink artery.now link }
    ensures value { result ≡ link_speed artery.now base.now dir link }
    ensures least { pos 0 ≤ℤ result.num }
    ensures denominator { result.den ≤ 2 ^ 120 }
{
    let ticks = run_ticks(artery, base, dir, link);
    speed_over(artery, base, dir, link, ticks)
}

/// The same in any base, or None where the run takes no tick.
pub fn some_speed(artery: &Artery, base: &Base, dir: Dir, link: u32) -> Option<Frac>
    requires shape { IsFor artery.now base.now }
    requires link { HasLink artery.now link }
    ensures none { IfNone result (run base.now dir link ≡ 0) }
    ensures some { IfSome result (λ speed. 1 ≤ run base.now dir link) }
    ensures value { IfSome result (λ speed. speed ≡ link_speed artery.now base.now dir link) }
    ensures least { IfSome result (λ speed. pos 0 ≤ℤ speed.num) }
    ensures denominator { IfSome result (λ speed. speed.den ≤ 2 ^ 120) }
{
    let ticks = base.run(dir, link);
    if ticks == 0 {
        return None;
    }
    Some(speed_over(artery, base, dir, link, ticks))
}

/// The name of a signal.
pub fn signal_name(artery: &Artery, signal: u32) -> &str
    requires signal { HasSignal artery.now signal }
    ensures { result.now ≡ (signal_of artery.now signal).name }
{
    artery.signals()[signal as usize - 1].name.as_str()
}
