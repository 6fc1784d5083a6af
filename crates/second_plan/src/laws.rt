//! Laws of the definitions.

ghost use Rattle.second_plan.specs.Ends.{OneEnd, PlanOrEnd, OnePlan};

/// Of a base that keeps the rules at most one end comes.
pub fn law_one_end()
    ensures { OneEnd }
{}

/// Where there is a plan no end comes.
pub fn law_plan_or_end()
    ensures { PlanOrEnd }
{}

/// The numbers of a plan are determined.
pub fn law_one_plan()
    ensures { OnePlan }
{}
