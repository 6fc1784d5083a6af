//! The set of offsets that comes of a cycle.

ghost use Rattle.std.specs.Prelude.{IfOk, IfSome};
ghost use Rattle.progression.specs.{Good.{Good}, TimingRecord.{base}};
ghost use Rattle.second_plan.specs.Seconds.{IsWholeCycle};
ghost use Rattle.whole_plan.specs.{Sought.{street_at, IsSought}, Sets.{IsOutcomeFrom, IsOutcome}};

use crate::searching::CycleFound;
use artery_model::Artery;
use narrow_fraction::Memory;
use second_plan::{PlanEnd, PlanFault};
use std::alloc::Global;
use time_space::Timing;
use whole_offsets::{OffsetPlan, steady};

/// What comes of a cycle.
#[derive(Drop)]
pub(crate) enum Outcome {
    /// Offsets from which no move is better, with their plan.
    OffsetSet(OffsetPlan),
    /// There are none, for this reason.
    Ended(PlanEnd),
}

/// What comes of a cycle from this timing.
fn outcome_from(
    alloc: Global,
    artery: &Artery,
    timing: &Timing,
    seconds: u64,
) -> Result<Outcome, Memory>
    requires good { Good artery.now timing.now }
    requires whole { IsWholeCycle artery.now seconds }
    ensures { IfOk result (λ outcome. IsOutcomeFrom artery.now (base timing.now) seconds outcome) }
{
    match steady(alloc, artery, timing.base(), seconds) {
        Ok(plan) => Ok(Outcome::OffsetSet(plan)),
        Err(PlanFault::End(end)) => Ok(Outcome::Ended(end)),
        Err(PlanFault::Memory) => Err(Memory),
    }
}

/// What comes of a cycle of which this was found; the given timing serves where none was.
pub(crate) fn outcome_at(
    alloc: Global,
    artery: &Artery,
    given: &Option<Timing>,
    sought: &CycleFound,
    seconds: u64,
) -> Result<Outcome, Memory>
    requires whole { IsWholeCycle artery.now seconds }
    requires sought { IsSought (street_at artery.now seconds) sought.now }
    requires found { IfSome sought.now.timing (λ timing. Good artery.now timing) }
    requires given { IfSome given.now (λ timing. Good artery.now timing) }
    ensures { IfOk result (λ outcome. IsOutcome artery.now given.now seconds outcome) }
{
    match &sought.timing {
        Some(timing) => outcome_from(alloc, artery, timing, seconds),
        None => match given {
            Some(timing) => outcome_from(alloc, artery, timing, seconds),
            None => Ok(Outcome::Ended(PlanEnd::NoTimingGiven)),
        },
    }
}
