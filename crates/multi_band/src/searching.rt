//! The search of an artery's best link timing.

ghost use Rattle.std.specs.Prelude.{IfOk, IfSome};
ghost use Rattle.link_theory.specs.GoodLinks.{GoodLinks};
ghost use Rattle.work_meter.specs.Work.{IsBelow};
ghost use Rattle.multi_band.specs.{LinkSearches.{IsLinkSearch}, LinkTold.{LinksTell, AreLinksCertifiable}, LinkSites.{HasLinkSite}};
ghost use Rattle.multi_band.specs.LinkEnough.{IsWithinLinkEnough};

use crate::found::LinkFound;
use crate::program::ArteryLinks;
use artery_model::Artery;
use box_search::search_sought;
use narrow_fraction::Memory;
use std::alloc::Global;

/// Searches for the artery's best link timing, the one with the greatest value, as `search_sought` of `box_search` does, each box
/// from its own opening on. A limit of units of work, where there is one, is at least 1; without a limit, or with one that is enough for
/// the artery's links, no search stops by work. The error is want of memory.
pub fn link_search(alloc: Global, artery: &Artery, limit: Option<u64>) -> Result<LinkFound, Memory>
    requires limit { IsBelow 0 limit }
    ensures answer { IfOk result (λ found. IsLinkSearch artery.now limit found) }
    ensures good { IfOk result (λ found. IfSome found.timing (λ timing. GoodLinks artery.now timing)) }
    ensures tells { IfOk result (λ found. LinksTell artery.now found.timing found.bound found.verdict) }
    ensures certifiable { IfOk result (λ found. AreLinksCertifiable found) }
    ensures site { IfOk result (λ found. HasLinkSite artery.now found.verdict) }
    ensures enough { IfOk result (λ found. IsWithinLinkEnough artery.now limit found.verdict) }
{
    search_sought(alloc, &ArteryLinks { artery }, limit)
}
