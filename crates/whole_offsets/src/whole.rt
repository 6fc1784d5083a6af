//! The plan that no move makes better, and the comparison of such plans.

ghost use Rattle.std.specs.Prelude.{◌≡◌, ◌↔◌, IsTrue, IfOk, IfErr};
ghost use Rattle.progression.specs.Good.{Good, IsBase};
ghost use Rattle.second_plan.specs.Seconds.{IsWholeCycle};
ghost use Rattle.whole_offsets.specs.{Scale.{IsScale}, Offsets.{IsBestOfRuns}, Score.{IsScore, IsBetter}};
ghost use Rattle.whole_offsets.specs.Steady.{IsSteady, IsEndOf, IsSteadyFault, end_of};

use crate::answer::OffsetPlan;
use crate::plan::{Tried, try_offsets};
use crate::scale::{TickScale, scale_of};
use crate::score::beats;
use crate::search::settled;
use artery_model::Artery;
use narrow_fraction::Memory;
use progression::Dir;
use second_plan::{PlanEnd, PlanFault, Rounded, offsets};
use std::alloc::Global;
use time_space::{Base, Failing, Timing, holds};

/// Whether one plan is better than another, which may have another cycle.
pub fn is_better(one: &OffsetPlan, other: &OffsetPlan) -> bool
    ensures { IsTrue result ↔ IsBetter one.now.score other.now.score }
{
    beats(&one.score, &other.score)
}

/// The end that a failing rule makes.
fn end_of(failing: Failing) -> PlanEnd
    ensures { result ≡ end_of failing }
{
    match failing {
        Failing::Outbound { .. } => PlanEnd::NoLine { dir: Dir::Outbound },
        Failing::Inbound { .. } => PlanEnd::NoLine { dir: Dir::Inbound },
        other => PlanEnd::Fails(other),
    }
}

/// The first rule that a plan breaks, and none where it is good.
fn end(artery: &Artery, timing: &Timing) -> Option<PlanEnd>
    ensures { IsEndOf artery.now timing.now result }
{
    match holds(artery, timing) {
        Ok(()) => None,
        Err(failing) => Some(end_of(failing)),
    }
}

/// The plan of the offsets nearest to the base's, moved until no move is better.
fn from_nearest(
    alloc: Global,
    artery: &Artery,
    base: &Base,
    scale: TickScale,
    seconds: u64,
) -> Result<OffsetPlan, Memory>
    requires base { IsBase artery.now base.now }
    requires whole { IsWholeCycle artery.now seconds }
    requires scale { IsScale artery.now base.now seconds scale.grid scale.unit }
    ensures steady { IfOk result (λ p. IsSteady artery.now base.now seconds p.offsets.items p.timing) }
    ensures score { IfOk result (λ p. IsScore artery.now p.timing p.score) }
    ensures end { IfOk result (λ p. IsEndOf artery.now p.timing p.end) }
    ensures best { IfOk result (λ p. Good artery.now p.timing → IsBestOfRuns artery.now p.timing) }
{
    artery.known_valid();
    let offsets = offsets(alloc, artery, base, seconds)?;
    let first = try_offsets(alloc, artery, base, scale, Rounded { seconds, offsets })?;
    let Tried {
        rounded,
        timing,
        score,
    } = settled(alloc, artery, base, scale, first)?;
    let end = end(artery, &timing);
    Ok(OffsetPlan {
        offsets: rounded.offsets,
        timing,
        score,
        end,
    })
}

/// The plan of offsets in a cycle of so many seconds, begun from those nearest to a base's that keeps the rules, from which no move is better.
///
/// Its end is the first rule that it breaks, and none where it is good. The only fault but want of memory is `TooFine`: a number
/// that no timing holds.
pub fn steady(
    alloc: Global,
    artery: &Artery,
    base: &Base,
    seconds: u64,
) -> Result<OffsetPlan, PlanFault>
    requires base { IsBase artery.now base.now }
    requires whole { IsWholeCycle artery.now seconds }
    ensures steady { IfOk result (λ p. IsSteady artery.now base.now seconds p.offsets.items p.timing) }
    ensures score { IfOk result (λ p. IsScore artery.now p.timing p.score) }
    ensures end { IfOk result (λ p. IsEndOf artery.now p.timing p.end) }
    ensures best { IfOk result (λ p. Good artery.now p.timing → IsBestOfRuns artery.now p.timing) }
    ensures faults { IfErr result (λ f. IsSteadyFault artery.now base.now seconds f) }
{
    artery.known_valid();
    let scale = match scale_of(artery, base, seconds) {
        Ok(scale) => scale,
        Err(ticks) => return Err(PlanFault::End(PlanEnd::TooFine { ticks })),
    };
    match from_nearest(alloc, artery, base, scale, seconds) {
        Ok(plan) => Ok(plan),
        Err(Memory) => Err(PlanFault::Memory),
    }
}
