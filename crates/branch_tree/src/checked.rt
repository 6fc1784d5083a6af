//! A search of an artery together with the check of its own certificate: what is found is told only once the certificate of it
//! was accepted, which it always is.

ghost use Rattle.std.specs.Prelude.{◌≡◌, IfOk, IfSome};
ghost use Rattle.progression.specs.Good.{Good};
ghost use Rattle.work_meter.specs.Work.{IsBelow};
ghost use Rattle.box_search.specs.Told.{IsTimed};
ghost use Rattle.branch_tree.specs.{Certified.{warrant_of}, Searched.{IsSearched}};

use crate::artery::WholeBands;
use artery_model::Artery;
use box_search::{SearchedOf, search_and_confirm};
use certificate_model::Certificate;
use narrow_fraction::Memory;
use std::alloc::Global;
use time_space::Timing;

/// What a search found, and the certificate of it that was accepted.
pub type Searched = SearchedOf<Timing, Certificate>;

/// Searches for a best timing of the artery, within the limit of units of work where there is one, and checks the certificate
/// of what is found. A limit is at least 1. The error is want of memory.
pub fn search_and_check(
    alloc: Global,
    artery: &Artery,
    limit: Option<u64>,
) -> Result<Searched, Memory>
    requires { IsBelow 0 limit }
    ensures searched { IfOk result (λ s. IsSearched artery.now limit s.found) }
    ensures certificate { IfOk result (λ s. s.certificate ≡ warrant_of artery.now s.found) }
    ensures timed { IfOk result (λ s. IsTimed s.found.timing s.found.verdict) }
    ensures good { IfOk result (λ s. IfSome s.found.timing (λ t. Good artery.now t)) }
{
    search_and_confirm(alloc, &WholeBands { artery }, limit)
}
