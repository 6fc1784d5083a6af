//! What a search of the street with one cycle alone finds.

ghost use Rattle.std.specs.Prelude.{◌≡◌, IfOk, IfSome};
ghost use Rattle.progression.specs.Good.{Good};
ghost use Rattle.second_plan.specs.Seconds.{IsWholeCycle};
ghost use Rattle.whole_plan.specs.Sought.{street_at, bound_by, IsCeiling, IsSought};

use crate::cycles::whole_cycle;
use artery_model::Artery;
use branch_tree::{Found, Verdict, search_and_check};
use cycle_sweep::artery_at;
use narrow_fraction::{Frac, Memory};
use std::alloc::Global;
use time_space::Timing;

/// How many units of work the search of a cycle may spend.
const SEARCH_UNITS: u64 = 10_000;

/// What was found of a cycle.
#[derive(Drop)]
pub(crate) struct CycleFound {
    /// A timing that is good at it.
    pub timing: Option<Timing>,
    /// What no weighted band at it exceeds, and none where no timing is good there.
    pub bound: Option<Frac>,
}

fn bound_by(verdict: &Verdict, bound: Frac) -> Option<Frac>
    ensures { result ≡ bound_by verdict.now bound }
{
    match verdict {
        Verdict::NoTiming => None,
        Verdict::Best => Some(bound),
        Verdict::Stopped(_) => Some(bound),
    }
}

/// What is kept of what a search found.
fn sought_of(found: Found) -> CycleFound
    ensures timing { result.timing ≡ found.timing }
    ensures bound { result.bound ≡ bound_by found.verdict found.bound }
{
    let bound = bound_by(&found.verdict, found.bound);
    CycleFound {
        timing: found.timing,
        bound,
    }
}

/// What a search of a street finds.
fn sought_in(alloc: Global, street: &Artery) -> Result<CycleFound, Memory>
    ensures sought { IfOk result (λ s. IsSought street.now s) }
    ensures ceiling { IfOk result (λ s. IsCeiling street.now s.bound) }
    ensures good { IfOk result (λ s. IfSome s.timing (λ timing. Good street.now timing)) }
{
    let searched = search_and_check(alloc, street, Some(SEARCH_UNITS))?;
    Ok(sought_of(searched.found))
}

/// What a search of the street with a cycle of so many seconds alone finds.
pub(crate) fn sought_at(alloc: Global, artery: &Artery, seconds: u64) -> Result<CycleFound, Memory>
    requires { IsWholeCycle artery.now seconds }
    ensures sought { IfOk result (λ s. IsSought (street_at artery.now seconds) s) }
    ensures ceiling { IfOk result (λ s. IsCeiling (street_at artery.now seconds) s.bound) }
    ensures good { IfOk result (λ s. IfSome s.timing (λ timing. Good artery.now timing)) }
{
    artery.known_valid();
    let cycle = whole_cycle(seconds);
    let street = artery_at(alloc, artery, cycle)?;
    sought_in(alloc, &street)
}
