//! The check of a whole certificate.

ghost use Rattle.std.specs.Prelude.{◌≡◌, map, None, IfErr, OnOk};
ghost use Rattle.narrow_fraction.specs.Attempt.{attempt};
ghost use Rattle.certificate_checker.specs.{Accepted.{IsAccepted}, ClaimRefusals.{IfThere}, Claims.{ClaimHolds}, Refusals.{IsFirstRefusal}};
ghost use Rattle.certificate_checker.specs.Checked.{numbers_refusal_of, nodes_refusal_of, TimingFailsFirst, IsAcceptedOf, IsFirstRefusalOf};
ghost use Rattle.certificate_checker.specs.TreeRefusals.{IsFirst};
ghost use Rattle.certificate_model.specs.Warrants.{node_of, warrant_of, HasTiming, AreTrees};

use crate::claims::{check_claim, limit_of};
use crate::kind::CheckedKind;
use crate::leaves::Aim;
use crate::reject::Reject;
use crate::walk::check_tree;
use artery_model::Artery;
use certificate_model::{CertNode, Certificate, Claim};
use loop_rows::ArteryRows;
use narrow_fraction::Frac;
use std::alloc::Global;

/// Whether the timing, if there is one, is good.
fn check_timing<K: CheckedKind>(
    kind: &K,
    timing: &Option<K::Timing>,
) -> Result<(), Reject<K::Failing>>
    ensures good { OnOk result (IfThere (K.kind kind.now).objective.IsGood timing.now) }
    ensures first { IfErr result (λ reject. TimingFailsFirst (K.kind kind.now) timing.now reject) }
{
    let Some(timing) = timing else {
        return Ok(());
    };
    match kind.holds(timing) {
        Ok(()) => Ok(()),
        Err(failing) => Err(Reject::TimingFails(failing)),
    }
}

/// Whether the numbers of the claim are right for the timing.
fn check_numbers<K: CheckedKind>(
    kind: &K,
    claim: &Claim,
    timing: &Option<K::Timing>,
) -> Result<(), Reject<K::Failing>>
    ensures { result ≡ attempt (numbers_refusal_of (K.kind kind.now) claim.now timing.now) tt }
{
    match timing {
        Some(timing) => check_claim(Some(kind.worth(timing)), claim),
        None => check_claim(None, claim),
    }
}

/// Checks the nodes of a tree, the root box being that of the first.
fn check_nodes<K: CheckedKind>(
    alloc: Global,
    kind: &K,
    limit: Option<Frac>,
    nodes: &[CertNode],
) -> Result<(), Reject<K::Failing>>
    requires tree { AreTrees 1 (map node_of nodes.now) }
    ensures none { OnOk result (nodes_refusal_of (K.kind kind.now) limit (map node_of nodes.now) ≡ None) }
    ensures first { IfErr result (λ reject. IsFirst (nodes_refusal_of (K.kind kind.now) limit (map node_of nodes.now)) reject) }
{
    let goal = kind.goal(alloc)?;
    let root = kind.root(alloc)?;
    check_tree(alloc, kind, root, &Aim { goal, limit }, nodes)
}

/// Checks the parts of a certificate for timings of any kind. Ok comes exactly for the accepted ones.
///
/// The refusals are looked for in this order: the timing, its value, the bound, and then the nodes in their order. Want
/// of memory may come in place of any answer.
pub fn check_parts<K: CheckedKind>(
    alloc: Global,
    kind: &K,
    claim: &Claim,
    timing: &Option<K::Timing>,
    nodes: &[CertNode],
) -> Result<(), Reject<K::Failing>>
    requires timing { HasTiming claim.now timing.now }
    requires tree { AreTrees 1 (map node_of nodes.now) }
    ensures accepted { OnOk result (IsAcceptedOf (K.kind kind.now) (warrant_of claim.now timing.now nodes.now)) }
    ensures first { IfErr result (λ reject. IsFirstRefusalOf (K.kind kind.now) (warrant_of claim.now timing.now nodes.now) reject) }
{
    check_timing(kind, timing)?;
    check_numbers(kind, claim, timing)?;
    check_nodes(alloc, kind, limit_of(claim), nodes)
}

/// Checks a certificate for an artery. Ok comes exactly for the accepted certificates; then what is claimed holds of
/// every timing, on any grid. The refusals come in the order of `check_parts`.
pub fn check(alloc: Global, artery: &Artery, certificate: &Certificate) -> Result<(), Reject>
    ensures accepted { OnOk result (IsAccepted artery.now certificate.now) }
    ensures holds { OnOk result (ClaimHolds artery.now certificate.now.claim certificate.now.timing) }
    ensures first { IfErr result (λ reject. IsFirstRefusal artery.now certificate.now reject) }
{
    // what is claimed holds of a street
    artery.known_valid();
    check_parts(
        alloc,
        &ArteryRows { artery },
        &certificate.claim,
        &certificate.timing,
        certificate.nodes.as_slice(),
    )
}
