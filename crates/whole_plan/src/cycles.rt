//! Which cycles are tried.

ghost use Rattle.std.specs.{Prelude.{◌≡◌, ◌≤◌, ◌<◌, ◌^◌, All, filter, IfOk}};
ghost use Rattle.artery_model.specs.{Bounds.{least_cycle, most_cycle}, Valid.{IsPair}};
ghost use Rattle.progression.specs.Speeds.{number};
ghost use Rattle.second_plan.specs.Seconds.{IsWholeCycle};
ghost use Rattle.whole_plan.specs.Cycles.{is_whole_cycle, whole_cycles, middle, centre, is_nearer, is_near, is_named, tried_cycles};

use artery_model::bounds::MOST_CYCLE;
use artery_model::{Artery, Pair};
use narrow_fraction::{Frac, Memory};
use std::alloc::Global;
use time_space::Timing;

/// The most seconds that a cycle may have.
const MOST_SECONDS: u64 = MOST_CYCLE as u64;

/// How many cycles are tried at most where none are named.
const MOST_CYCLES: usize = 100;

/// A cycle of so many seconds, `num / den`, which need not be whole.
#[derive(Clone, Copy)]
pub(crate) struct Seconds {
    pub num: u128,
    pub den: u128,
}

/// The cycle of so many seconds.
pub(crate) fn whole_cycle(seconds: u64) -> Frac
    requires { seconds ≤ 3600 }
    ensures { result ≡ number seconds }
{
    Frac::whole(seconds as i64)
}

/// Whether the cycle of so many seconds is within the limits.
fn is_whole_cycle(artery: &Artery, seconds: u64) -> bool
    requires { seconds ≤ 3600 }
    ensures value { result ≡ is_whole_cycle artery.now seconds }
{
    let cycle = whole_cycle(seconds);
    let limits = artery.cycle();
    limits.least <= cycle && cycle <= limits.most
}

/// The whole seconds within the limits, from the least on.
#[tactic(auto, using(crate::proofs::Wholes::small_each), unfolding(crate::specs::Cycles::whole_cycles))]
fn whole_cycles(alloc: Global, artery: &Artery) -> Result<Vec<u64>, Memory>
    ensures cycles { IfOk result (λ cycles. cycles.items ≡ whole_cycles artery.now) }
    ensures small { IfOk result (λ cycles. All (λ n. n ≤ 3600) cycles.items) }
{
    let cycles = (1..MOST_SECONDS + 1)
        .filter(|seconds| is_whole_cycle(artery, *seconds))
        .collect(alloc)?;
    Ok(cycles)
}

/// Halfway between the limits.
fn middle(limits: Pair) -> Seconds
    requires { IsPair least_cycle most_cycle limits }
    ensures value { result ≡ middle limits }
    ensures num { result.num < 2 ^ 92 }
    ensures den { result.den < 2 ^ 80 }
{
    let (least, least_den) = (
        limits.least.num().unsigned_abs(),
        limits.least.den() as u128,
    );
    let (most, most_den) = (limits.most.num().unsigned_abs(), limits.most.den() as u128);
    Seconds {
        num: least * most_den + most * least_den,
        den: 2 * (least_den * most_den),
    }
}

/// The cycle of the timing, or where there is none halfway between the limits.
fn centre(artery: &Artery, given: &Option<Timing>) -> Seconds
    ensures value { result ≡ centre artery.now given.now }
    ensures num { result.num < 2 ^ 92 }
    ensures den { result.den < 2 ^ 80 }
{
    match given {
        Some(timing) => Seconds {
            num: timing.base().cycle(artery),
            den: timing.grid(),
        },
        None => middle(artery.cycle()),
    }
}

/// Whether a whole cycle is nearer than another, or as near and less.
fn is_nearer(centre: Seconds, one: u64, other: u64) -> bool
    requires num { centre.num < 2 ^ 92 }
    requires den { centre.den < 2 ^ 80 }
    requires one { one ≤ 3600 }
    requires other { other ≤ 3600 }
    ensures { result ≡ is_nearer centre one other }
{
    let near = (u128::from(one) * centre.den).abs_diff(centre.num);
    let far = (u128::from(other) * centre.den).abs_diff(centre.num);
    near < far || near == far && one < other
}

/// Whether fewer of the cycles are nearer than are tried.
fn is_near(centre: Seconds, cycles: &[u64], seconds: u64) -> bool
    requires num { centre.num < 2 ^ 92 }
    requires den { centre.den < 2 ^ 80 }
    requires cycles { All (λ n. n ≤ 3600) cycles.now }
    requires seconds { seconds ≤ 3600 }
    ensures { result ≡ is_near centre cycles.now seconds }
{
    let nearer = cycles
        .iter()
        .filter(|other| is_nearer(centre, **other, seconds))
        .count();
    nearer < MOST_CYCLES
}

/// Those of the cycles that are nearest.
fn nearest(alloc: Global, centre: Seconds, cycles: &[u64]) -> Result<Vec<u64>, Memory>
    requires num { centre.num < 2 ^ 92 }
    requires den { centre.den < 2 ^ 80 }
    requires cycles { All (λ n. n ≤ 3600) cycles.now }
    ensures { IfOk result (λ kept. kept.items ≡ filter (is_near centre cycles.now) cycles.now) }
{
    let kept = cycles
        .iter()
        .copied()
        .filter(|seconds| is_near(centre, cycles, *seconds))
        .collect(alloc)?;
    Ok(kept)
}

/// Whether the cycle is named.
fn is_named(named: &[u64], seconds: u64) -> bool
    ensures { result ≡ is_named named.now seconds }
{
    named.iter().any(|name| *name == seconds)
}

/// Those of the cycles that are named.
fn named_of(alloc: Global, cycles: &[u64], named: &[u64]) -> Result<Vec<u64>, Memory>
    ensures { IfOk result (λ kept. kept.items ≡ filter (is_named named.now) cycles.now) }
{
    let kept = cycles
        .iter()
        .copied()
        .filter(|seconds| is_named(named, *seconds))
        .collect(alloc)?;
    Ok(kept)
}

/// The cycles that are tried, from the least on: of the whole seconds within the artery's limits those that are named. Where none are it is
/// all, or the hundred that are nearest to the given timing's cycle, or to halfway between the limits where no timing is given; of two
/// equally near the lesser.
pub fn tried_cycles(
    alloc: Global,
    artery: &Artery,
    given: &Option<Timing>,
    named: &[u64],
) -> Result<Vec<u64>, Memory>
    ensures tried { IfOk result (λ cycles. cycles.items ≡ tried_cycles artery.now given.now named.now) }
    ensures whole { IfOk result (λ cycles. All (IsWholeCycle artery.now) cycles.items) }
{
    let cycles = whole_cycles(alloc, artery)?;
    if named.is_empty() {
        return nearest(alloc, centre(artery, given), cycles.as_slice());
    }
    named_of(alloc, cycles.as_slice(), named)
}
