//! Comparisons of ticks with limits that are fractions, exactly and within 128 bits.
#![tactic(auto)]

ghost use Rattle.std.specs.Prelude.{◌≡◌, ◌↔◌, IsTrue, ◌*◌, ◌<◌, ◌≤◌, ◌^◌, pos, ◌*ℤ◌, ◌-ℤ◌, unsigned_abs};
ghost use Rattle.rational_theory.specs.Rational.{◌*ℚ◌, ◌≤ℚ◌};
ghost use Rattle.progression.specs.{Speeds.{number}, Good.{RatioHolds}};
ghost use Rattle.time_space.specs.Limits.{paces_apart};
ghost use Rattle.artery_model.specs.Bounds.{most_denominator, most_distance, most_numerator};

use narrow_fraction::Frac;

/// A number of a limit times a number of ticks.
fn product(number: i128, count: u128) -> i128
    requires number { unsigned_abs number < 2 ^ 34 }
    requires count { count < 2 ^ 92 }
    ensures { result ≡ number *ℤ pos count }
{
    number * count as i128
}

/// Whether so many ticks are at least `limit` seconds, or at least the fraction `limit` of so many other ticks.
pub fn is_at_least(ticks: u128, limit: Frac, grid: u128) -> bool
    requires ticks { ticks < 2 ^ 92 }
    requires num { unsigned_abs limit.num < 2 ^ 30 }
    requires den { limit.den < 2 ^ 30 }
    requires grid { grid < 2 ^ 92 }
    ensures { IsTrue result ↔ ((limit *ℚ number grid) ≤ℚ number ticks) }
{
    product(limit.num(), grid) <= product(limit.den(), ticks)
}

/// Whether so many ticks are at most `limit` seconds.
pub fn is_at_most(ticks: u128, limit: Frac, grid: u128) -> bool
    requires ticks { ticks < 2 ^ 92 }
    requires num { unsigned_abs limit.num < 2 ^ 30 }
    requires den { limit.den < 2 ^ 30 }
    requires grid { grid < 2 ^ 80 }
    ensures { IsTrue result ↔ (number ticks ≤ℚ (limit *ℚ number grid)) }
{
    product(limit.den(), ticks) <= product(limit.num(), grid)
}

/// The numerator of a limit on changes of pace, times the grid and both distances. The largest of these products is
/// just below `2^127`, so that no other factor may join it.
fn limit_product(number: i128, factor: u128) -> i128
    requires number { unsigned_abs number ≤ most_numerator }
    requires factor { factor < 2 ^ 110 }
    ensures { result ≡ number *ℤ pos factor }
{
    number * factor as i128
}

/// Two runs and the distances that they take.
#[derive(Clone, Copy)]
pub struct Paces {
    pub run: u128,
    pub distance: u32,
    pub next_run: u128,
    pub next_distance: u32,
    ghost run_small: { run < 2 ^ 80 },
    ghost next_run_small: { next_run < 2 ^ 80 },
    ghost some: { 1 ≤ distance },
    ghost small: { distance ≤ most_distance },
    ghost next_some: { 1 ≤ next_distance },
    ghost next_small: { next_distance ≤ most_distance },
}

/// The grid times both distances.
fn grid_and_lengths(grid: u128, paces: Paces) -> u128
    requires grid { grid < 2 ^ 80 }
    ensures value { result ≡ grid * (paces.distance * paces.next_distance) }
    ensures most { result < 2 ^ 110 }
{
    grid * (paces.distance as u128 * paces.next_distance as u128)
}

/// The change of pace times both distances.
fn change_of(paces: Paces) -> i128
    ensures value { result ≡ pos (paces.next_run * paces.distance) -ℤ pos (paces.run * paces.next_distance) }
    ensures small { unsigned_abs result < 2 ^ 95 }
{
    (paces.next_run * paces.distance as u128) as i128
        - (paces.run * paces.next_distance as u128) as i128
}

/// The change of pace times both distances and the denominator of its limit.
fn scaled(change: i128, den: u128) -> i128
    requires change { unsigned_abs change < 2 ^ 95 }
    requires den { den ≤ 5280000 }
    ensures { result ≡ change *ℤ pos den }
{
    change * den as i128
}

/// Whether the pace changes by at least `limit`.
pub fn is_change_at_least(paces: Paces, limit: Frac, grid: u128) -> bool
    requires num { unsigned_abs limit.num ≤ most_numerator }
    requires den { limit.den ≤ 5280000 }
    requires grid { grid < 2 ^ 80 }
    ensures { IsTrue result ↔ ((limit *ℚ number grid) ≤ℚ paces_apart paces.run paces.distance paces.next_run paces.next_distance) }
{
    let bound = limit_product(limit.num(), grid_and_lengths(grid, paces));
    bound <= scaled(change_of(paces), limit.den() as u128)
}

/// Whether the pace changes by at most `limit`.
pub fn is_change_at_most(paces: Paces, limit: Frac, grid: u128) -> bool
    requires num { unsigned_abs limit.num ≤ most_numerator }
    requires den { limit.den ≤ 5280000 }
    requires grid { grid < 2 ^ 80 }
    ensures { IsTrue result ↔ (paces_apart paces.run paces.distance paces.next_run paces.next_distance ≤ℚ (limit *ℚ number grid)) }
{
    let bound = limit_product(limit.num(), grid_and_lengths(grid, paces));
    scaled(change_of(paces), limit.den() as u128) <= bound
}

/// A product of two numbers of a ratio.
fn ratio_product(rest: i128, number: i128) -> i128
    requires rest { unsigned_abs rest < 2 ^ 17 }
    requires number { unsigned_abs number < 2 ^ 17 }
    ensures value { result ≡ rest *ℤ number }
    ensures small { unsigned_abs result < 2 ^ 34 }
{
    rest * number
}

/// One less the ratio, times the ratio's denominator.
fn rest(ratio: Frac) -> i128
    requires num { unsigned_abs ratio.num ≤ most_numerator }
    requires den { ratio.den ≤ most_denominator }
    ensures value { result ≡ pos ratio.den -ℤ ratio.num }
    ensures small { unsigned_abs result < 2 ^ 17 }
{
    ratio.den() - ratio.num()
}

/// One less the ratio, times a number of the ratio and a band.
fn rest_times_band(ratio: Frac, number: i128, band: u128) -> i128
    requires num { unsigned_abs ratio.num ≤ most_numerator }
    requires den { ratio.den ≤ most_denominator }
    requires number { unsigned_abs number < 2 ^ 17 }
    requires band { band < 2 ^ 80 }
    ensures { result ≡ ((pos ratio.den -ℤ ratio.num) *ℤ number) *ℤ pos band }
{
    product(ratio_product(rest(ratio), number), band)
}

/// Whether two bands keep the ratio.
pub fn is_in_ratio(ratio: Frac, band_out: u128, band_in: u128) -> bool
    requires num { unsigned_abs ratio.num ≤ most_numerator }
    requires den { ratio.den ≤ most_denominator }
    requires band_out { band_out < 2 ^ 80 }
    requires band_in { band_in < 2 ^ 80 }
    ensures { IsTrue result ↔ RatioHolds ratio band_out band_in }
{
    rest_times_band(ratio, ratio.num(), band_out) <= rest_times_band(ratio, ratio.den(), band_in)
}
