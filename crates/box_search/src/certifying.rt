//! The certificate of what a search found.

ghost use Rattle.std.specs.Prelude.{◌≡◌, ℕ, Option, map, option_map, IfOk};
ghost use Rattle.certificate_model.specs.Warrants as warrants;
ghost use Rattle.box_search.specs.{Meaning.{rules_from}, Told.{IsAnswered, IsCertifiableIn}};
ghost use Rattle.box_search.specs.Trees as trees;
ghost use Rattle.box_search.specs.Certified as certified;
ghost use Rattle.box_search.specs.Certified.{warrant_by};

use crate::copying::copied_leaf;
use crate::found::{FoundOf, TreeNode, Verdict};
use crate::sought::Sought;
use certificate_model::{CertNode, Claim};
use named_row::Leaf;
use narrow_fraction::{Frac, Memory, push};
use std::alloc::Global;

/// The claim that a best timing has its value.
fn best_claim(value: Option<Frac>) -> Claim
    ensures { result ≡ certified.best_claim value }
{
    match value {
        Some(value) => Claim::Best { value },
        None => Claim::NoTiming,
    }
}

/// What a verdict claims, with the value of the timing, where there is one.
fn claim_by(verdict: &Verdict, bound: Frac, value: Option<Frac>) -> Claim
    ensures { result ≡ certified.claim_by verdict.now bound value }
{
    match verdict {
        Verdict::Best => best_claim(value),
        Verdict::NoTiming => Claim::NoTiming,
        Verdict::Stopped(_) => Claim::Stopped { bound, value },
    }
}

/// A leaf with the same multipliers.
fn leaf_node(alloc: Global, leaf: &Leaf) -> Result<CertNode, Memory>
    ensures { IfOk result (λ made. warrants.node_of made ≡ warrants.LeafOf leaf.now.multipliers.items) }
{
    let leaf = copied_leaf(alloc, leaf)?;
    Ok(CertNode::Leaf(leaf))
}

/// A node without its vertex.
fn node_of(alloc: Global, node: &TreeNode) -> Result<CertNode, Memory>
    ensures { IfOk result (λ made. warrants.node_of made ≡ trees.node_of node.now) }
{
    match node {
        TreeNode::Split { place, .. } => Ok(CertNode::Split(*place)),
        TreeNode::Closed { leaf } => leaf_node(alloc, leaf),
        TreeNode::Waiting { leaf } => leaf_node(alloc, leaf),
    }
}

/// The nodes of a tree without their vertices, as a certificate has them. The error is want of memory.
fn nodes_of(alloc: Global, nodes: &[TreeNode]) -> Result<Vec<CertNode>, Memory>
    ensures { IfOk result (λ made. map warrants.node_of made.items ≡ map trees.node_of nodes.now) }
{
    let mut made = Vec::new(alloc);
    for node in nodes {
        let next = node_of(alloc, node)?;
        push(&mut made, next)?;
    }
    Ok(made)
}

/// What a timing is worth, where there is one.
fn worth_of<S: Sought>(sought: &S, timing: &Option<S::Timing>) -> Option<Frac>
    ensures { result ≡ option_map (S.kind sought.now).objective.worth timing.now }
{
    match timing {
        Some(timing) => Some(sought.worth(timing)),
        None => None,
    }
}

/// The same timing again, where there is one.
fn copied_timing<S: Sought>(
    alloc: Global,
    sought: &S,
    timing: &Option<S::Timing>,
) -> Result<Option<S::Timing>, Memory>
    ensures { IfOk result (λ copy. copy ≡ timing.now) }
{
    match timing {
        Some(timing) => Ok(Some(sought.copied(alloc, timing)?)),
        None => Ok(None),
    }
}

/// The certificate of an answer: what it claims, its timing, and its nodes without the vertices. The claimed value is what the
/// timing is worth. The certificate of an answer that a search gave is accepted. The error is want of memory.
pub fn certificate_for<S: Sought>(
    alloc: Global,
    sought: &S,
    found: &FoundOf<S::Timing>,
) -> Result<S::Certificate, Memory>
    requires { IsCertifiableIn (S.kind sought.now).names found.now }
    ensures certificate { IfOk result (λ certificate. S.warrant certificate ≡ warrant_by (S.kind sought.now).objective.worth found.now) }
    ensures accepted { IfOk result (λ certificate. (limit : Option ℕ) → IsAnswered (rules_from (S.program sought.now) (S.meaning sought.now)) (S.kind sought.now).objective.worth limit found.now
        → (S.kind sought.now).IsAccepted (S.warrant certificate)) }
{
    // its contract says which certificates are accepted
    sought.known_program();
    let value = worth_of(sought, &found.timing);
    let claim = claim_by(&found.verdict, found.bound, value);
    let timing = copied_timing(alloc, sought, &found.timing)?;
    let nodes = nodes_of(alloc, found.nodes.as_slice())?;
    Ok(sought.certificate(claim, timing, nodes))
}
