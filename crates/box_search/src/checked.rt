//! A search together with the check of its own certificate: what is found is told only once the certificate of it was accepted,
//! which it always is.

ghost use Rattle.std.specs.Prelude.{◌≡◌, IfOk, IfSome};
ghost use Rattle.work_meter.specs.Work.{IsBelow};
ghost use Rattle.box_search.specs.{Certified.{warrant_by}, Kinds.{IsSearchedOf}, Told.{IsTimed}};

use crate::certifying::certificate_for;
use crate::found::FoundOf;
use crate::searching::search_sought;
use crate::sought::Sought;
use narrow_fraction::Memory;
use std::alloc::Global;

/// What a search for timings of a type found, and the certificate of it that was accepted.
#[derive(Drop)]
pub struct SearchedOf<T, C> {
    pub found: FoundOf<T>,
    pub certificate: C,
}

/// Searches for a best timing of what is sought, within the limit of units of work where there is one, and checks the certificate
/// of what is found. A limit is at least 1. The error is want of memory.
pub fn search_and_confirm<S: Sought>(
    alloc: Global,
    sought: &S,
    limit: Option<u64>,
) -> Result<SearchedOf<S::Timing, S::Certificate>, Memory>
    requires { IsBelow 0 limit }
    ensures searched { IfOk result (λ s. IsSearchedOf (S.kind sought.now) limit s.found) }
    ensures certificate { IfOk result (λ s. S.warrant s.certificate ≡ warrant_by (S.kind sought.now).objective.worth s.found) }
    ensures timed { IfOk result (λ s. IsTimed s.found.timing s.found.verdict) }
    ensures good { IfOk result (λ s. IfSome s.found.timing (λ timing. (S.kind sought.now).objective.IsGood timing)) }
{
    let found = search_sought(alloc, sought, limit)?;
    let certificate = certificate_for(alloc, sought, &found)?;
    sought.confirm(alloc, &certificate)?;
    Ok(SearchedOf { found, certificate })
}
