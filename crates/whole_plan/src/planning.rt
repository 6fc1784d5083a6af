//! The widest plan that is found over several cycles.

ghost use Rattle.std.specs.Prelude.{ℕ, List, Option, All, IfOk, IfErr, IfSome};
ghost use Rattle.rational_theory.specs.Rational.{◌≤ℚ◌};
ghost use Rattle.progression.specs.{Speeds.{number}, TimingRecord.{TimingRecord}, Good.{Good}, Best.{Bounded}};
ghost use Rattle.second_plan.specs.Seconds.{IsWholeCycle};
ghost use Rattle.whole_offsets.specs.Offsets.{IsBestOfRuns};
ghost use Rattle.whole_plan.specs.{Choice.{IsSoFar, IsNext, IsChosen}, Planned.{IsWholePlan, Faults}};

use crate::choosing::{Candidate, SoFar, is_passed, with_outcome};
use crate::searching::sought_at;
use crate::setting::outcome_at;
use artery_model::Artery;
use narrow_fraction::{Frac, Memory};
use second_plan::{Plan, PlanEnd, PlanFault};
use std::alloc::Global;
use time_space::{Timing, value};
use whole_offsets::OffsetPlan;

/// With one more cycle.
fn with_cycle(
    alloc: Global,
    artery: &Artery,
    given: &Option<Timing>,
    so_far: SoFar,
    seconds: u64,
) -> Result<SoFar, Memory>
    requires given { IfSome given.now (λ timing. Good artery.now timing) }
    requires whole { IsWholeCycle artery.now seconds }
    ensures { IfOk result (λ next. IsNext artery.now given.now seconds so_far next) }
{
    let sought = sought_at(alloc, artery, seconds)?;
    if is_passed(&so_far, seconds, sought.bound) {
        return Ok(so_far);
    }
    let outcome = outcome_at(alloc, artery, given, &sought, seconds)?;
    Ok(with_outcome(so_far, seconds, outcome))
}

/// What comes of the cycles.
fn chosen(
    alloc: Global,
    artery: &Artery,
    given: &Option<Timing>,
    cycles: &[u64],
) -> Result<SoFar, Memory>
    requires given { IfSome given.now (λ timing. Good artery.now timing) }
    requires whole { All (IsWholeCycle artery.now) cycles.now }
    ensures { IfOk result (λ so_far. IsSoFar artery.now given.now cycles.now so_far) }
{
    let mut so_far = SoFar::Nothing;
    for seconds in cycles {
        so_far = with_cycle(alloc, artery, given, so_far, *seconds)?;
    }
    Ok(so_far)
}

/// The plan of the set that is chosen, with its loss.
fn with_loss(artery: &Artery, claim: Frac, best: Candidate) -> Result<Plan, PlanFault>
    ensures plan { IfOk result (λ p. (given : Option TimingRecord) (cycles : List ℕ) → IsChosen artery.now given cycles best.seconds best.plan → IsWholePlan artery.now claim given cycles p) }
    ensures fault { IfErr result (λ f. (given : Option TimingRecord) (cycles : List ℕ) → IsChosen artery.now given cycles best.seconds best.plan → Faults artery.now claim given cycles f) }
{
    let Candidate { seconds, plan } = best;
    let OffsetPlan {
        offsets,
        timing,
        score: _,
        end: _,
    } = plan;
    match claim.minus(value(artery, &timing)) {
        Ok(loss) => Ok(Plan {
            seconds,
            offsets,
            timing,
            loss,
        }),
        Err(wide) => Err(PlanFault::End(PlanEnd::Wide(wide))),
    }
}

/// The plan of what came of the cycles, or why there is none.
fn finished(artery: &Artery, claim: Frac, so_far: SoFar) -> Result<Plan, PlanFault>
    ensures plan { IfOk result (λ p. (given : Option TimingRecord) (cycles : List ℕ) → IsSoFar artery.now given cycles so_far → IsWholePlan artery.now claim given cycles p) }
    ensures fault { IfErr result (λ f. (given : Option TimingRecord) (cycles : List ℕ) → IsSoFar artery.now given cycles so_far → Faults artery.now claim given cycles f) }
{
    match so_far {
        SoFar::Chosen(best) => with_loss(artery, claim, best),
        SoFar::Broken { best: _best, end } => Err(PlanFault::End(end)),
        SoFar::Ended(end) => Err(PlanFault::End(end)),
        SoFar::Nothing => Err(PlanFault::End(PlanEnd::NoWholeCycle)),
    }
}

/// The widest plan in whole seconds that is found over several cycles.
///
/// Of each cycle the street with it alone is searched, and the offsets start from the timing that was found, or from the given one where
/// none was. A cycle whose search has a bound that isn't above the widest plan so far is passed over. Of the plans that are good that
/// of the greatest weighted band is answered, of equal ones that of the first cycle: the least where the cycles ascend, as those of
/// `tried_cycles` do. Where the claim bounds the artery its loss is at least 0.
///
/// Faults: `NoWholeCycle` of no cycles. Where no cycle has a plan, `NoTimingGiven` or `TooFine`, as it is at the first. Where no plan is
/// good, `NoLine` or `Fails`: the first rule that the best set of offsets breaks. `Wide` where the claim less the plan's weighted band
/// leaves 128 bits. Want of memory may come in place of any answer.
pub fn whole_plan(
    alloc: Global,
    artery: &Artery,
    given: &Option<Timing>,
    claim: Frac,
    cycles: &[u64],
) -> Result<Plan, PlanFault>
    requires given { IfSome given.now (λ timing. Good artery.now timing) }
    requires whole { All (IsWholeCycle artery.now) cycles.now }
    ensures plan { IfOk result (λ p. IsWholePlan artery.now claim given.now cycles.now p) }
    ensures good { IfOk result (λ p. Good artery.now p.timing) }
    ensures best { IfOk result (λ p. IsBestOfRuns artery.now p.timing) }
    ensures loss { IfOk result (λ p. Bounded artery.now claim → number 0 ≤ℚ p.loss) }
    ensures faults { IfErr result (λ f. Faults artery.now claim given.now cycles.now f) }
{
    match chosen(alloc, artery, given, cycles) {
        Ok(so_far) => finished(artery, claim, so_far),
        Err(Memory) => Err(PlanFault::Memory),
    }
}
