//! One leaf with its box.

ghost use Rattle.std.specs.Prelude.{◌≡◌, length, false, IfErr, OnOk, None};
ghost use Rattle.narrow_fraction.specs.Attempt.{attempt};
ghost use Rattle.certificate_checker.specs.TreeRefusals.{weakness, leaf_refusal, reject_of, IsFirst};

use crate::kind::CheckedKind;
use crate::reject::Reject;
use loop_rows::SumFault;
use named_row::{Leaf, Place, Row};
use narrow_fraction::Frac;
use search_box::SearchBox;
use std::alloc::Global;

/// What each leaf must show: that its box has no point or, where there is a limit, that the goal is above it at none.
#[derive(Drop)]
pub struct Aim {
    pub goal: Row,
    pub limit: Option<Frac>,
}

/// A sum's fault, of the leaf with this number.
fn rejected<F>(leaf: u64, fault: SumFault) -> Reject<F>
    ensures { result ≡ reject_of leaf fault }
{
    match fault {
        SumFault::NoSuchRow { row } => Reject::NoSuchRow { leaf, row },
        SumFault::Negative { row } => Reject::Negative { leaf, row },
        SumFault::Wide { row, at } => Reject::Wide { leaf, row, at },
        SumFault::Memory => Reject::Memory,
    }
}

/// Whether a sum shows what is claimed, and else where it fails to.
fn shown(sum: &Row, aim: &Aim) -> Result<(), Place>
    requires width { length aim.now.goal.coefs ≡ length sum.now.coefs }
    requires unspent { sum.now.spent ≡ false }
    ensures { result ≡ attempt (weakness sum.now aim.now.goal aim.now.limit) tt }
{
    if let Err(place) = sum.refutes() {
        return match aim.limit {
            Some(limit) => sum.covers(&aim.goal, limit),
            None => Err(place),
        };
    }
    Ok(())
}

/// Checks a leaf for a box. The leaf's number is that among the leaves.
pub fn check_leaf<K: CheckedKind>(
    alloc: Global,
    kind: &K,
    aim: &Aim,
    area: &SearchBox,
    number: u64,
    leaf: &Leaf,
) -> Result<(), Reject<K::Failing>>
    requires ready { K.Ready kind.now area.now }
    requires width { length aim.now.goal.coefs ≡ ((K.kind kind.now).rows area.now).width }
    ensures none { OnOk result (leaf_refusal {F = K.Failing} ((K.kind kind.now).rows area.now) aim.now number leaf.now.multipliers.items ≡ None) }
    ensures first { IfErr result (λ reject. IsFirst (leaf_refusal ((K.kind kind.now).rows area.now) aim.now number leaf.now.multipliers.items) reject) }
{
    let sum = match kind.sum(alloc, area, leaf) {
        Ok(sum) => sum,
        Err(fault) => return Err(rejected(number, fault)),
    };
    match shown(&sum, aim) {
        Ok(()) => Ok(()),
        Err(place) => Err(Reject::LeafTooWeak {
            leaf: number,
            place,
        }),
    }
}
