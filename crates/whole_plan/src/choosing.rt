//! The set that is chosen of several cycles.

ghost use Rattle.std.specs.Prelude.{◌≡◌, false, Option, Some, None, IsTrue, IfSome};
ghost use Rattle.rational_theory.specs.Rational.{◌≤ℚ◌, ◌<ℚ◌};
ghost use Rattle.progression.specs.{Street.{Street}, TimingRecord.{TimingRecord}};
ghost use Rattle.whole_plan.specs.{Sought.{street_at, IsCeiling}, Sets.{IsOffsetSet, HasNoOffsetSet, IsOutcome}, Choice.{IsNext}};

use crate::setting::Outcome;
use narrow_fraction::Frac;
use second_plan::PlanEnd;
use whole_offsets::{OffsetPlan, is_better};

/// The set of a cycle of so many seconds.
#[derive(Drop)]
pub(crate) struct Candidate {
    pub seconds: u64,
    pub plan: OffsetPlan,
}

/// What came of the cycles so far.
#[derive(Drop)]
pub(crate) enum SoFar {
    /// There was no cycle.
    Nothing,
    /// No cycle has a set, the first for this reason.
    Ended(PlanEnd),
    /// No cycle has a good plan: a best set, and the first rule that its plan breaks.
    Broken { best: Candidate, end: PlanEnd },
    /// The widest good plan.
    Chosen(Candidate),
}

/// Whether a set's plan is wider than another's.
fn is_wider(one: &Candidate, other: &Candidate) -> bool
    ensures wider { IsTrue result → other.now.plan.score.weighted <ℚ one.now.plan.score.weighted }
    ensures no_wider { result ≡ false → one.now.plan.score.weighted ≤ℚ other.now.plan.score.weighted }
{
    other.plan.score.weighted < one.plan.score.weighted
}

/// With a cycle whose plan is good: it takes the place of any that is less wide.
fn with_good(so_far: SoFar, next: Candidate) -> SoFar
    requires { next.plan.end ≡ None }
    ensures { (a : Street) (given : Option TimingRecord) → IsOffsetSet a given next.seconds next.plan → IsNext a given next.seconds so_far result }
{
    match so_far {
        SoFar::Chosen(best) => {
            if is_wider(&next, &best) {
                SoFar::Chosen(next)
            } else {
                SoFar::Chosen(best)
            }
        }
        SoFar::Nothing => SoFar::Chosen(next),
        SoFar::Ended(_) => SoFar::Chosen(next),
        SoFar::Broken { .. } => SoFar::Chosen(next),
    }
}

/// With a cycle whose plan breaks this rule first.
fn with_broken(so_far: SoFar, next: Candidate, end: PlanEnd) -> SoFar
    requires { next.plan.end ≡ Some end }
    ensures { (a : Street) (given : Option TimingRecord) → IsOffsetSet a given next.seconds next.plan → IsNext a given next.seconds so_far result }
{
    match so_far {
        SoFar::Chosen(best) => SoFar::Chosen(best),
        SoFar::Broken { best, end: first } => {
            if is_better(&next.plan, &best.plan) {
                SoFar::Broken { best: next, end }
            } else {
                SoFar::Broken { best, end: first }
            }
        }
        SoFar::Nothing => SoFar::Broken { best: next, end },
        SoFar::Ended(_) => SoFar::Broken { best: next, end },
    }
}

/// With a cycle that has no set.
fn with_end(so_far: SoFar, seconds: u64, end: PlanEnd) -> SoFar
    ensures { (a : Street) (given : Option TimingRecord) → HasNoOffsetSet a given seconds end → IsNext a given seconds so_far result }
{
    match so_far {
        SoFar::Nothing => SoFar::Ended(end),
        SoFar::Ended(first) => SoFar::Ended(first),
        SoFar::Broken { best, end: first } => SoFar::Broken { best, end: first },
        SoFar::Chosen(best) => SoFar::Chosen(best),
    }
}

/// With a cycle of which a set came.
fn with_offset_set(so_far: SoFar, seconds: u64, plan: OffsetPlan) -> SoFar
    ensures { (a : Street) (given : Option TimingRecord) → IsOffsetSet a given seconds plan → IsNext a given seconds so_far result }
{
    let end = plan.end;
    match end {
        None => with_good(so_far, Candidate { seconds, plan }),
        Some(end) => with_broken(so_far, Candidate { seconds, plan }, end),
    }
}

/// With what came of one more cycle.
pub(crate) fn with_outcome(so_far: SoFar, seconds: u64, outcome: Outcome) -> SoFar
    ensures { (a : Street) (given : Option TimingRecord) → IsOutcome a given seconds outcome → IsNext a given seconds so_far result }
{
    match outcome {
        Outcome::OffsetSet(plan) => with_offset_set(so_far, seconds, plan),
        Outcome::Ended(end) => with_end(so_far, seconds, end),
    }
}

/// Whether the bound isn't above a weighted band; where there is none no timing is good.
fn is_within(bound: Option<Frac>, weighted: Frac) -> bool
    ensures { IsTrue result → IfSome bound (λ x. x ≤ℚ weighted) }
{
    match bound {
        Some(bound) => bound <= weighted,
        None => true,
    }
}

/// Whether a cycle may be passed over: a good plan was found, and no timing of the cycle is wider.
pub(crate) fn is_passed(so_far: &SoFar, seconds: u64, bound: Option<Frac>) -> bool
    ensures { IsTrue result → (a : Street) (given : Option TimingRecord) → IsCeiling (street_at a seconds) bound → IsNext a given seconds so_far.now so_far.now }
{
    match so_far {
        SoFar::Chosen(best) => is_within(bound, best.plan.score.weighted),
        SoFar::Nothing => false,
        SoFar::Ended(_) => false,
        SoFar::Broken { .. } => false,
    }
}
