//! The cycle and the offsets in whole seconds.

ghost use Rattle.std.specs.Prelude.{◌+◌, ◌<◌, ◌≤◌, ◌*◌, ◌-◌, ◌^◌, ◌↔◌, ℕ, pos, ◌≤ℤ◌, ◌*ℤ◌, All, IfOk, IfSome, MatchOption};
ghost use Rattle.rational_theory.specs.Rational.{◌≤ℚ◌};
ghost use Rattle.progression.specs.{Street.{count, HasSignal}, Speeds.{number}, BaseRecord.{cycle}};
ghost use Rattle.second_plan.specs.{Nearest.{IsNearest}, Seconds.{IsWholeCycle, IsSeconds, IsOffset, AreOffsets}};
ghost use Rattle.time_space.specs.Timing.{IsFor};

use crate::nearest::nearest;
use artery_model::Artery;
use narrow_fraction::{Frac, Memory};
use std::alloc::Global;
use time_space::{Base, since_start};

/// A cycle of so many whole seconds, and each signal's offset in it.
#[derive(Drop)]
pub struct Rounded {
    pub seconds: u64,
    pub offsets: Vec<u64>,
}

/// The greatest whole number that is not above a limit of the cycle.
#[tactic(auto, using(crate::proofs::Rounding::most_is))]
fn most_seconds(limit: Frac) -> u64
    requires above { pos 1 ≤ℤ limit.num }
    requires most { limit.num ≤ℤ (pos 3600 *ℤ pos limit.den) }
    ensures limit { (k : ℕ) → (number k ≤ℚ limit) ↔ (k ≤ result) }
    ensures small { result ≤ 3600 }
{
    let (top, bottom) = (limit.num() as u128, limit.den() as u128);
    (top / bottom) as u64
}

/// The least whole number that is not below a limit of the cycle.
#[tactic(auto, using(crate::proofs::Rounding::least_is))]
fn least_seconds(limit: Frac) -> u64
    requires above { pos 1 ≤ℤ limit.num }
    requires most { limit.num ≤ℤ (pos 3600 *ℤ pos limit.den) }
    ensures limit { (k : ℕ) → (limit ≤ℚ number k) ↔ (result ≤ k) }
    ensures some { 1 ≤ result }
    ensures small { result ≤ 3600 }
{
    let (top, bottom) = (limit.num() as u128, limit.den() as u128);
    ((top - 1) / bottom) as u64 + 1
}

/// The number, or the nearest from `least` to `most`.
#[tactic(auto, using(crate::proofs::Rounding::nearest_at, crate::proofs::Rounding::nearest_low, crate::proofs::Rounding::nearest_high))]
fn nearest_within(number: u128, by: u128, least: u64, most: u64) -> u64
    requires by { 0 < by }
    requires size { number < 2 ^ 126 }
    requires some { least ≤ most }
    ensures near { IsNearest (λ k. (least ≤ k) × (k ≤ most)) number by result }
{
    let rounded = nearest(number, by);
    if rounded < u128::from(least) {
        least
    } else if u128::from(most) < rounded {
        most
    } else {
        rounded as u64
    }
}

/// The whole number of seconds within the limits of the cycle that is nearest to the base's cycle, of two the lesser.
/// None comes exactly where there is none.
pub fn whole_cycle(artery: &Artery, base: &Base) -> Option<u64>
    ensures nearest { MatchOption result ((k : ℕ) → ¬ IsWholeCycle artery.now k) (λ k. IsSeconds artery.now base.now k) }
    ensures some { IfSome result (λ k. 1 ≤ k) }
    ensures small { IfSome result (λ k. k ≤ 3600) }
{
    let limits = artery.cycle();
    let least = least_seconds(limits.least);
    let most = most_seconds(limits.most);
    if most < least {
        return None;
    }
    Some(nearest_within(base.cycle(artery), base.grid(), least, most))
}

/// The offset of a signal in whole seconds, from 0 to `seconds - 1`.
fn offset(artery: &Artery, base: &Base, seconds: u64, signal: u32) -> u64
    requires some { 1 ≤ seconds }
    requires small { seconds ≤ 3600 }
    requires shape { IsFor artery.now base.now }
    requires signal { HasSignal artery.now signal }
    ensures value { IsOffset artery.now base.now seconds signal result }
    ensures below { result < seconds }
{
    let cycle = base.cycle(artery);
    let after = since_start(cycle, base.common_red(1), base.common_red(signal));
    let rounded = nearest(u128::from(seconds) * after, cycle);
    (rounded % u128::from(seconds)) as u64
}

/// Each signal's offset in whole seconds.
pub fn offsets(
    alloc: Global,
    artery: &Artery,
    base: &Base,
    seconds: u64,
) -> Result<Vec<u64>, Memory>
    requires some { 1 ≤ seconds }
    requires small { seconds ≤ 3600 }
    requires shape { IsFor artery.now base.now }
    ensures value { IfOk result (λ offsets. AreOffsets artery.now base.now seconds offsets.items) }
    ensures below { IfOk result (λ offsets. All (λ n. n < seconds) offsets.items) }
{
    let mut offsets = Vec::new(alloc);
    for place in 0..artery.count() {
        offsets.push(offset(artery, base, seconds, place + 1))?;
    }
    Ok(offsets)
}
