//! The limits of a run in ticks.

ghost use Rattle.std.specs.Prelude.{◌≡◌, ◌+◌, ◌*◌, ◌<◌, ◌≤◌, ◌^◌, ◌↔◌, ℕ, pos, ◌*ℤ◌, ◌≤ℤ◌, unsigned_abs};
ghost use Rattle.rational_theory.specs.Rational.{◌*ℚ◌, ◌≤ℚ◌};
ghost use Rattle.progression.specs.{Street.{HasLink}, Speeds.{number}};
ghost use Rattle.free_runs.specs.Street.{AreLimits};

use crate::fractions::{denominator, numerator};
use artery_model::Artery;
use narrow_fraction::Frac;
use progression::Dir;
use time_space::Base;

/// The limits of the run on a link, in whole ticks: every run from `least` to `most` is within the limits of speed.
///
/// Where no whole tick lies between the limits `least` is above `most`, and no run is.
#[derive(Clone, Copy)]
pub struct RunLimits {
    /// The least number of ticks that isn't below the run at the greatest speed.
    pub least: u128,
    /// The greatest number of ticks that isn't above the run at the least speed.
    pub most: u128,
}

/// The greatest number of which so many are at most another.
fn most_of(top: u128, bottom: u128) -> u128
    requires { 0 < bottom }
    ensures { (n : ℕ) → (bottom * n ≤ top) ↔ (n ≤ result) }
{
    top / bottom
}

/// The least number of which so many are at least another.
fn least_of(top: u128, bottom: u128) -> u128
    requires some { 0 < bottom }
    requires top { top < 2 ^ 120 }
    requires bottom { bottom < 2 ^ 30 }
    ensures { (n : ℕ) → (top ≤ bottom * n) ↔ (result ≤ n) }
{
    (top + (bottom - 1)) / bottom
}

/// The numerator of a limit, times the grid.
fn top_of(limit: Frac, grid: u128) -> u128
    requires positive { pos 1 ≤ℤ limit.num }
    requires num { unsigned_abs limit.num < 2 ^ 30 }
    requires grid { grid < 2 ^ 80 }
    ensures value { pos result ≡ limit.num *ℤ pos grid }
    ensures small { result < 2 ^ 120 }
{
    numerator(limit) * grid
}

/// The least number of ticks that is at least so many seconds.
fn least_ticks(limit: Frac, grid: u128) -> u128
    requires positive { pos 1 ≤ℤ limit.num }
    requires num { unsigned_abs limit.num < 2 ^ 30 }
    requires den { limit.den < 2 ^ 30 }
    requires grid { grid < 2 ^ 80 }
    ensures { (n : ℕ) → ((limit *ℚ number grid) ≤ℚ number n) ↔ (result ≤ n) }
{
    let top = top_of(limit, grid);
    let bottom = denominator(limit);
    least_of(top, bottom)
}

/// The greatest number of ticks that is at most so many seconds.
fn most_ticks(limit: Frac, grid: u128) -> u128
    requires positive { pos 1 ≤ℤ limit.num }
    requires num { unsigned_abs limit.num < 2 ^ 30 }
    requires grid { grid < 2 ^ 80 }
    ensures { (n : ℕ) → (number n ≤ℚ (limit *ℚ number grid)) ↔ (n ≤ result) }
{
    let top = top_of(limit, grid);
    let bottom = denominator(limit);
    most_of(top, bottom)
}

/// The limits of the run on a link from 1 to the last, on the base's grid. On a coarse grid `least` may be above `most`.
pub fn run_limits(artery: &Artery, base: &Base, dir: Dir, link: u32) -> RunLimits
    requires link { HasLink artery.now link }
    ensures { AreLimits artery.now dir base.now.grid link result.least result.most }
{
    let grid = base.grid();
    RunLimits {
        least: least_ticks(artery.run_low(dir, link), grid),
        most: most_ticks(artery.run_high(dir, link), grid),
    }
}
