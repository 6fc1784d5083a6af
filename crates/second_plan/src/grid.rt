//! The plan's base: whether a timing can hold its numbers, and the base of these numbers.

ghost use Rattle.std.specs.Prelude.{◌≡◌, ◌<◌, ◌≤◌, ◌*◌, ◌^◌, length, map, find, nat_le, [], ◌∷◌, All, None, IfOk};
ghost use Rattle.progression.specs.{Street.{count}, BaseRecord.{cycle}};
ghost use Rattle.second_plan.specs.{Grid.{fineness, plan_grid, plan_unit, in_seconds, too_fine}, Seconds.{IsRounded}};
ghost use Rattle.time_space.specs.Timing.{IsFor};

use crate::seconds::Rounded;
use artery_model::Artery;
use narrow_fraction::Memory;
use std::alloc::Global;
use time_space::{Base, LIMIT};

/// How many ticks of the plan a tick of the timing has.
fn fineness(artery: &Artery) -> u128
    ensures value { result ≡ fineness artery.now }
    ensures small { result ≤ 7200 }
{
    2 * u128::from(artery.parts())
}

/// The plan's ticks in a second.
fn grid(artery: &Artery, base: &Base) -> u128
    ensures value { result ≡ plan_grid artery.now base.now }
    ensures small { result < 2 ^ 93 }
{
    base.grid() * fineness(artery)
}

/// The plan's ticks in a part.
fn unit(base: &Base, seconds: u64) -> u128
    requires small { seconds ≤ 3600 }
    ensures value { result ≡ plan_unit base.now seconds }
    ensures small { result < 2 ^ 93 }
{
    2 * u128::from(seconds) * base.grid()
}

/// The number, where a timing can't hold it.
fn large(ticks: u128) -> Option<u128>
    ensures { result ≡ find (λ n. nat_le (2 ^ 80) n) (ticks ∷ []) }
{
    if LIMIT <= ticks { Some(ticks) } else { None }
}

/// The first of the runs on the plan's grid that a timing can't hold.
fn large_run(runs: &[u128], fineness: u128) -> Option<u128>
    requires runs { All (λ n. n < 2 ^ 80) runs.now }
    requires fineness { fineness ≤ 7200 }
    ensures { result ≡ find (λ n. nat_le (2 ^ 80) n) (map (λ n. n * fineness) runs.now) }
{
    runs.iter()
        .map(|run| *run * fineness)
        .find(|ticks| LIMIT <= *ticks)
}

/// The plan's cycle in ticks, where a timing can't hold it.
fn large_cycle(artery: &Artery, base: &Base, seconds: u64) -> Option<u128>
    requires small { seconds ≤ 3600 }
    ensures { result ≡ find (λ n. nat_le (2 ^ 80) n) (cycle artery.now (in_seconds artery.now base.now seconds []) ∷ []) }
{
    large(u128::from(artery.parts()) * unit(base, seconds))
}

/// The first number of the plan that a timing can't hold.
pub fn too_fine(artery: &Artery, base: &Base, seconds: u64) -> Option<u128>
    requires small { seconds ≤ 3600 }
    ensures { result ≡ too_fine artery.now base.now seconds }
{
    let fineness = fineness(artery);
    large(grid(artery, base))
        .or(large_run(base.run_out(), fineness))
        .or(large_run(base.run_in(), fineness))
        .or(large_cycle(artery, base, seconds))
}

/// Each of the numbers so many times.
fn multiples(alloc: Global, numbers: &[u128], by: u128) -> Result<Vec<u128>, Memory>
    requires numbers { All (λ n. n < 2 ^ 80) numbers.now }
    requires by { by ≤ 7200 }
    ensures { IfOk result (λ made. made.items ≡ map (λ n. n * by) numbers.now) }
{
    let mut made = Vec::with_capacity(alloc, numbers.len())?;
    made.extend(numbers.iter().map(|number| *number * by))?;
    Ok(made)
}

/// The starts of reds at offsets in whole seconds, in ticks of a grid.
pub fn reds(alloc: Global, offsets: &[u64], grid: u128) -> Result<Vec<u128>, Memory>
    requires offsets { All (λ n. n < 3600) offsets.now }
    requires grid { grid < 2 ^ 93 }
    ensures { IfOk result (λ made. made.items ≡ map (λ offset. offset * grid) offsets.now) }
{
    let mut made = Vec::with_capacity(alloc, offsets.len())?;
    made.extend(offsets.iter().map(|offset| u128::from(*offset) * grid))?;
    Ok(made)
}

/// The base of the plan.
pub fn in_seconds(
    alloc: Global,
    artery: &Artery,
    base: &Base,
    rounded: &Rounded,
) -> Result<Base, Memory>
    requires rounded { IsRounded rounded.now.seconds rounded.now.offsets.items }
    requires fine { too_fine artery.now base.now rounded.now.seconds ≡ None }
    requires shape { IsFor artery.now base.now }
    requires offsets { length rounded.now.offsets.items ≡ count artery.now }
    ensures { IfOk result (λ made. made ≡ in_seconds artery.now base.now rounded.now.seconds rounded.now.offsets.items) }
{
    artery.known_valid();
    // its contract says what a base's lists are
    let _ = base.count();
    let fineness = fineness(artery);
    let grid = grid(artery, base);
    let unit = unit(base, rounded.seconds);
    let patterns = Vec::from_slice(alloc, base.patterns())?;
    let reds = reds(alloc, rounded.offsets.as_slice(), grid)?;
    let run_out = multiples(alloc, base.run_out(), fineness)?;
    let run_in = multiples(alloc, base.run_in(), fineness)?;
    match Base::new(grid, unit, patterns, reds, run_out, run_in) {
        Some(made) => Ok(made),
        None => unreachable!(),
    }
}
