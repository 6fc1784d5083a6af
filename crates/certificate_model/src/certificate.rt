//! Certificates of what is claimed of an artery.

use named_row::Leaf;
use narrow_fraction::Frac;
use search_box::At;
use std::marker::Model;
use time_space::Timing;

/// What a certificate claims of the weighted bands of good timings.
#[derive(Clone, Copy, Debug, PartialEq, Eq)]
pub enum Claim {
    /// The certificate's timing is good and has this value, and no good timing has a greater one.
    Best { value: Frac },
    /// There is no good timing.
    NoTiming,
    /// No good timing has a value above the bound. Where there is a value, the certificate's timing is good and has it.
    Stopped { bound: Frac, value: Option<Frac> },
}

/// A node of a tree of boxes.
#[derive(Drop)]
pub enum CertNode {
    /// The node's box is split here. The low part's tree follows, and then the high part's.
    Split(At),
    /// Rows of the node's box, each with its multiplier.
    Leaf(Leaf),
}

/// A claim, its timing and its tree, seen as a `Warrant`.
///
/// A timing stands exactly where the claim has a value. The nodes are one whole tree in preorder. Links and signals of
/// splits are at least 1. A leaf has at most 10,000 multipliers, and its rows ascend by family and index: families are
/// those of the linear model's table, and the index is 0 in those of one row and at least 1 in all others.
#[derive(Drop)]
pub struct Certificate {
    pub claim: Claim,
    pub timing: Option<Timing>,
    pub nodes: Vec<CertNode>,
}

impl Model for Certificate {
    ghost use Rattle.certificate_model.specs.Warrants.{Warrant, warrant_of, IsCertificate};

    ghost Value = { Warrant };

    ghost view = { λ c. warrant_of c.claim c.timing c.nodes.items };

    ghost invariant = { λ c. IsCertificate (warrant_of c.claim c.timing c.nodes.items) };
}
