//! Laws over the definitions alone.

ghost use Rattle.speed_steps.specs.Laws.{NarrowIsWithin, WidenHoldsAll, RunsStayNear};

/// Every good timing of the narrowed street is good for the street.
#[tactic(auto, using(crate::proofs::Timings::narrow_is_within))]
pub fn law_narrow_is_within()
    ensures { NarrowIsWithin }
{}

/// Every good timing of the street is good for the widened street.
#[tactic(auto, using(crate::proofs::Timings::widen_holds_all))]
pub fn law_widen_holds_all()
    ensures { WidenHoldsAll }
{}

/// No limit of a run moves by as much as a step.
pub fn law_runs_stay_near()
    ensures { RunsStayNear }
{}
