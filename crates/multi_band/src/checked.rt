//! A search of links together with the check of its own certificate: what is found is told only once the certificate of it was
//! accepted, which it always is.

ghost use Rattle.std.specs.Prelude.{◌≡◌, IfOk, IfSome};
ghost use Rattle.work_meter.specs.Work.{IsBelow};
ghost use Rattle.link_theory.specs.GoodLinks.{GoodLinks};
ghost use Rattle.box_search.specs.Told.{IsTimed};
ghost use Rattle.multi_band.specs.{LinkCertified.{link_warrant_of}, LinksSearched.{IsLinksSearched}};

use crate::program::ArteryLinks;
use artery_model::Artery;
use box_search::{SearchedOf, search_and_confirm};
use link_proof::LinkCertificate;
use link_space::LinkTiming;
use narrow_fraction::Memory;
use std::alloc::Global;

/// What a search of links found, and the certificate of it that was accepted.
pub type SearchedLinks = SearchedOf<LinkTiming, LinkCertificate>;

/// Searches for a best link timing of the artery, within the limit of units of work where there is one, and checks the
/// certificate of what is found. A limit is at least 1. The error is want of memory.
pub fn search_links_and_check(
    alloc: Global,
    artery: &Artery,
    limit: Option<u64>,
) -> Result<SearchedLinks, Memory>
    requires { IsBelow 0 limit }
    ensures searched { IfOk result (λ s. IsLinksSearched artery.now limit s.found) }
    ensures certificate { IfOk result (λ s. s.certificate ≡ link_warrant_of artery.now s.found) }
    ensures timed { IfOk result (λ s. IsTimed s.found.timing s.found.verdict) }
    ensures good { IfOk result (λ s. IfSome s.found.timing (λ timing. GoodLinks artery.now timing)) }
{
    search_and_confirm(alloc, &ArteryLinks { artery }, limit)
}
