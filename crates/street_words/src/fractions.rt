//! Whether the times of travel have a short grid.

ghost use Rattle.std.specs.Prelude.{◌≡◌, ◌≤◌, SomeIff};
ghost use Rattle.rational_theory.specs.Gcd.{lcm};
ghost use Rattle.progression.specs.Street.{count, HasLink};
ghost use Rattle.street_words.specs.Warnings.{most_ticks, most_run_denominator, with_runs, has_long_fractions};

use artery_model::{Artery, Dir};
use narrow_fraction::{Frac, common_multiple};

/// The most ticks a second of a short grid.
pub const MOST_TICKS: u128 = 1 << 20;

/// The least common multiple of a number and a denominator, where it is short.
fn with_denominator(ticks: u128, run: Frac) -> Option<u128>
    requires above { 1 ≤ ticks }
    requires short { ticks ≤ most_ticks }
    requires den { run.den ≤ most_run_denominator }
    ensures { SomeIff result (lcm ticks run.den ≤ most_ticks) (lcm ticks run.den) }
{
    match common_multiple(ticks, run.den().unsigned_abs()) {
        Some(multiple) if multiple <= MOST_TICKS => Some(multiple),
        _ => None,
    }
}

/// The same with a direction's runs at both limits of speed.
fn with_runs(artery: &Artery, ticks: u128, dir: Dir, link: u32) -> Option<u128>
    requires above { 1 ≤ ticks }
    requires short { ticks ≤ most_ticks }
    requires link { HasLink artery.now link }
    ensures { SomeIff result (with_runs artery.now ticks dir link ≤ most_ticks) (with_runs artery.now ticks dir link) }
{
    match with_denominator(ticks, artery.run_low(dir, link)) {
        Some(ticks) => with_denominator(ticks, artery.run_high(dir, link)),
        None => None,
    }
}

/// The same with both directions.
fn with_link(artery: &Artery, ticks: u128, link: u32) -> Option<u128>
    requires above { 1 ≤ ticks }
    requires short { ticks ≤ most_ticks }
    requires link { HasLink artery.now link }
    ensures { let more = with_runs artery.now (with_runs artery.now ticks Dir.Outbound link) Dir.Inbound link in SomeIff result (more ≤ most_ticks) more }
{
    match with_runs(artery, ticks, Dir::Outbound, link) {
        Some(ticks) => with_runs(artery, ticks, Dir::Inbound, link),
        None => None,
    }
}

/// Whether the times of travel at the limits of speed have no grid of up to so many ticks a second.
pub fn has_long_fractions(artery: &Artery) -> bool
    ensures { result ≡ has_long_fractions artery.now }
{
    let mut ticks = 1;
    for link in 1..artery.count() {
        match with_link(artery, ticks, link) {
            Some(more) => ticks = more,
            None => return true,
        }
    }
    false
}
