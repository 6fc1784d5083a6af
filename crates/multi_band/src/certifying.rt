//! The certificate of what a search of links found.

ghost use Rattle.std.specs.Prelude.{◌≡◌, ℕ, Option, IfOk};
ghost use Rattle.link_proof.specs.LinkAccepted.{IsLinkAccepted};
ghost use Rattle.multi_band.specs.{LinkSearches.{IsLinkSearch}, LinkTold.{AreLinksCertifiable}, LinkCertified.{link_warrant_of}};

use crate::found::LinkFound;
use crate::program::ArteryLinks;
use artery_model::Artery;
use box_search::certificate_for;
use link_proof::LinkCertificate;
use narrow_fraction::Memory;
use std::alloc::Global;

/// The certificate of an answer: what it claims, its link timing, and its nodes without the vertices. The claimed value is the
/// link timing's. The certificate of an answer that a search gave is accepted. The error is want of memory.
pub fn link_certificate(
    alloc: Global,
    artery: &Artery,
    found: &LinkFound,
) -> Result<LinkCertificate, Memory>
    requires { AreLinksCertifiable found.now }
    ensures certificate { IfOk result (λ certificate. certificate ≡ link_warrant_of artery.now found.now) }
    ensures accepted { IfOk result (λ certificate. (limit : Option ℕ) → IsLinkSearch artery.now limit found.now → IsLinkAccepted artery.now certificate) }
{
    certificate_for(alloc, &ArteryLinks { artery }, found)
}
