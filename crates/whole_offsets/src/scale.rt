//! The grid of a plan, and the first of its numbers that no timing holds.

ghost use Rattle.std.specs.Prelude.{◌≡◌, ◌+◌, ◌-◌, ◌*◌, ◌<◌, ◌≤◌, ◌^◌, if◌then◌else◌, false, true, None, Some, IfOk, IfErr};
ghost use Rattle.rational_theory.specs.Gcd.{lcm};
ghost use Rattle.progression.specs.Street.{count, HasLink};
ghost use Rattle.whole_offsets.specs.Scale.{limits_pace, most_run, has_whole_run, growth, is_large, grown, multiple};
ghost use Rattle.whole_offsets.specs.Scale.{large, large_run, free_large, too_large, IsScale};

use artery_model::Artery;
use free_runs::{denominator, numerator};
use narrow_fraction::common_multiple;
use progression::Dir;
use second_plan::too_fine;
use time_space::{Base, LIMIT};

/// How fine the ticks of a plan are.
#[derive(Clone, Copy)]
pub struct TickScale {
    /// The ticks in a second.
    pub grid: u128,
    /// The ticks in a part.
    pub unit: u128,
}

/// A plan's grid has at least so many ticks in a second for each part of the cycle.
const LEAST_MULTIPLE: u128 = 1000;

/// Whether some link has limits of the change of pace.
pub fn limits_pace(artery: &Artery) -> bool
    ensures { result ≡ limits_pace artery.now }
{
    artery.links().iter().any(|link| link.change_out.is_some() || link.change_in.is_some())
}

/// The greatest run on a link in whole ticks.
fn most_run(artery: &Artery, grid: u128, dir: Dir, link: u32) -> u128
    requires link { HasLink artery.now link }
    requires grid { grid < 2 ^ 80 }
    ensures value { result ≡ most_run artery.now grid dir link }
    ensures small { result ≤ grid * 540000000 }
{
    let limit = artery.run_high(dir, link);
    grid * numerator(limit) / denominator(limit)
}

/// Whether it isn't below the least run.
fn has_whole_run(artery: &Artery, grid: u128, dir: Dir, link: u32) -> bool
    requires link { HasLink artery.now link }
    requires grid { grid < 2 ^ 40 }
    ensures { result ≡ has_whole_run artery.now grid dir link }
{
    let low = artery.run_low(dir, link);
    let most = most_run(artery, grid, dir, link);
    numerator(low) * grid <= most * denominator(low)
}

/// By how much the grid has to grow for a link.
fn growth(artery: &Artery, dir: Dir, link: u32) -> u128
    requires link { HasLink artery.now link }
    ensures value { result ≡ growth artery.now dir link }
    ensures some { 1 ≤ result }
    ensures small { result < 2 ^ 22 }
{
    let grid = u128::from(artery.parts()) * LEAST_MULTIPLE;
    if has_whole_run(artery, grid, dir, link) {
        1
    } else {
        denominator(artery.run_low(dir, link))
    }
}

/// The least common multiple, of numbers that aren't large.
fn common(left: u128, right: u128) -> u128
    requires left { left < 2 ^ 80 }
    requires right { right < 2 ^ 22 }
    requires some_left { 1 ≤ left }
    requires some_right { 1 ≤ right }
    ensures value { result ≡ lcm left right }
    ensures some { 1 ≤ result }
    ensures small { result < 2 ^ 102 }
{
    match common_multiple(left, right) {
        Some(multiple) => multiple,
        None => unreachable!(),
    }
}

/// What the multiple is after one more link.
fn grown_once(artery: &Artery, dir: Dir, link: u32, before: u128) -> u128
    requires link { HasLink artery.now link }
    requires some { 1 ≤ before }
    requires small { before < 2 ^ 102 }
    ensures value { result ≡ (if is_large (artery.now.head.parts * before) then before else lcm before (growth artery.now dir link)) }
    ensures some { 1 ≤ result }
    ensures small { result < 2 ^ 102 }
{
    if LIMIT <= u128::from(artery.parts()) * before {
        before
    } else {
        common(before, growth(artery, dir, link))
    }
}

/// What the multiple is after all links of a direction.
fn grown(artery: &Artery, dir: Dir, before: u128) -> u128
    requires some { 1 ≤ before }
    requires small { before < 2 ^ 102 }
    ensures value { result ≡ grown artery.now dir before (count artery.now - 1) }
    ensures some { 1 ≤ result }
    ensures small { result < 2 ^ 102 }
{
    let mut multiple = before;
    for place in 0..artery.count() - 1 {
        multiple = grown_once(artery, dir, place + 1, multiple);
    }
    multiple
}

/// How many ticks a second has for each part of the cycle.
fn multiple(artery: &Artery) -> u128
    ensures value { result ≡ multiple artery.now }
    ensures some { 1 ≤ result }
    ensures small { result < 2 ^ 102 }
{
    grown(
        artery,
        Dir::Inbound,
        grown(artery, Dir::Outbound, LEAST_MULTIPLE),
    )
}

/// The number, where no timing can hold it.
fn large(ticks: u128) -> Option<u128>
    ensures { result ≡ large ticks }
{
    if LIMIT <= ticks { Some(ticks) } else { None }
}

/// The first greatest run of a direction that no timing can hold.
fn large_run(artery: &Artery, dir: Dir, grid: u128) -> Option<u128>
    requires grid { grid < 2 ^ 80 }
    ensures { result ≡ large_run artery.now dir grid (count artery.now - 1) }
{
    for place in 0..artery.count() - 1 {
        let ticks = most_run(artery, grid, dir, place + 1);
        if LIMIT <= ticks {
            return Some(ticks);
        }
    }
    None
}

/// The first number of a plan with free runs that no timing can hold.
fn free_large(artery: &Artery, grid: u128, seconds: u64) -> Option<u128>
    requires grid { grid < 2 ^ 114 }
    requires seconds { seconds ≤ 3600 }
    ensures { result ≡ free_large artery.now grid seconds }
{
    if LIMIT <= grid {
        return Some(grid);
    }
    large_run(artery, Dir::Outbound, grid)
        .or(large_run(artery, Dir::Inbound, grid))
        .or(large(grid * u128::from(seconds)))
}

/// The scale of a plan with free runs, or the first of its numbers that no timing can hold.
fn free_scale(artery: &Artery, base: &Base, seconds: u64) -> Result<TickScale, u128>
    requires free { limits_pace artery.now ≡ false }
    requires some { 1 ≤ seconds }
    requires small { seconds ≤ 3600 }
    ensures scale { IfOk result (λ s. IsScale artery.now base.now seconds s.grid s.unit) }
    ensures large { IfErr result (λ n. too_large artery.now base.now seconds ≡ Some n) }
{
    let multiple = multiple(artery);
    let grid = u128::from(artery.parts()) * multiple;
    match free_large(artery, grid, seconds) {
        Some(ticks) => Err(ticks),
        None => Ok(TickScale {
            grid,
            unit: u128::from(seconds) * multiple,
        }),
    }
}

/// The scale of a plan whose runs are those of the base, or the first of its numbers that no timing can hold.
fn pace_scale(artery: &Artery, base: &Base, seconds: u64) -> Result<TickScale, u128>
    requires limited { limits_pace artery.now ≡ true }
    requires some { 1 ≤ seconds }
    requires small { seconds ≤ 3600 }
    ensures scale { IfOk result (λ s. IsScale artery.now base.now seconds s.grid s.unit) }
    ensures large { IfErr result (λ n. too_large artery.now base.now seconds ≡ Some n) }
{
    match too_fine(artery, base, seconds) {
        Some(ticks) => Err(ticks),
        None => Ok(TickScale {
            grid: base.grid() * (2 * u128::from(artery.parts())),
            unit: 2 * u128::from(seconds) * base.grid(),
        }),
    }
}

/// The scale of a plan, or the first of its numbers that no timing can hold.
pub fn scale_of(artery: &Artery, base: &Base, seconds: u64) -> Result<TickScale, u128>
    requires some { 1 ≤ seconds }
    requires small { seconds ≤ 3600 }
    ensures scale { IfOk result (λ s. IsScale artery.now base.now seconds s.grid s.unit) }
    ensures large { IfErr result (λ n. too_large artery.now base.now seconds ≡ Some n) }
{
    if limits_pace(artery) {
        pace_scale(artery, base, seconds)
    } else {
        free_scale(artery, base, seconds)
    }
}
