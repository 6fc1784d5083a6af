//! The search of an artery's best timing.

ghost use Rattle.std.specs.Prelude.{IfOk, IfSome};
ghost use Rattle.progression.specs.Good.{Good};
ghost use Rattle.work_meter.specs.Work.{IsBelow};
ghost use Rattle.branch_tree.specs.{Searches.{IsSearch}, SiteNames.{HasSite}};
ghost use Rattle.branch_tree.specs.Told.{Tells, IsCertifiable};
ghost use Rattle.branch_tree.specs.Enough.{IsWithinEnough};

use crate::artery::WholeBands;
use crate::found::Found;
use artery_model::Artery;
use box_search::search_sought;
use narrow_fraction::Memory;
use std::alloc::Global;

/// Searches for the artery's best timing, the one with the greatest weighted band, as `search_sought` does. A limit of units of work,
/// where there is one, is at least 1; without a limit, or with one that is enough for the artery, no search stops by work. The error
/// is want of memory.
pub fn search(alloc: Global, artery: &Artery, limit: Option<u64>) -> Result<Found, Memory>
    requires limit { IsBelow 0 limit }
    ensures answer { IfOk result (λ found. IsSearch artery.now limit found) }
    ensures good { IfOk result (λ found. IfSome found.timing (λ t. Good artery.now t)) }
    ensures tells { IfOk result (λ found. Tells artery.now found.timing found.bound found.verdict) }
    ensures certifiable { IfOk result (λ found. IsCertifiable found) }
    ensures site { IfOk result (λ found. HasSite artery.now found.verdict) }
    ensures enough { IfOk result (λ found. IsWithinEnough artery.now limit found.verdict) }
{
    search_sought(alloc, &WholeBands { artery }, limit)
}
