//! Certificates of what is claimed of an artery's link timings.

use link_space::LinkTiming;
use plan_text::{CertNode, Claim};
use std::marker::Model;

/// A claim, its link timing and its tree, seen as a `LinkWarrant`.
///
/// A timing stands exactly where the claim has a value. The nodes are one whole tree in preorder. Links and signals of
/// splits are at least 1. A leaf has at most 10,000 multipliers, and its rows ascend by family and index: families are
/// those of an artery and those of links, and the index is 0 in those of one row and at least 1 in all others.
#[derive(Drop)]
pub struct LinkCertificate {
    pub claim: Claim,
    pub timing: Option<LinkTiming>,
    pub nodes: Vec<CertNode>,
}

impl Model for LinkCertificate {
    ghost use Rattle.certificate_model.specs.Warrants.{warrant_of};
    ghost use Rattle.link_proof.specs.LinkWarrants.{LinkWarrant, IsLinkCertificate};

    ghost Value = { LinkWarrant };

    ghost view = { λ c. warrant_of c.claim c.timing c.nodes.items };

    ghost invariant = { λ c. IsLinkCertificate (warrant_of c.claim c.timing c.nodes.items) };
}
