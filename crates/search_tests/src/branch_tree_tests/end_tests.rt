//! What the ends of the two streets of `tests` show: their leaves and vertices, worked by hand.

ghost use Rattle.std.specs.Prelude.{◌<◌};

use super::tests::{artery, searched};
use branch_tree::{Found, TreeNode};
use named_row::{Leaf, RowId, Weight};
use narrow_fraction::Frac;
use std::alloc::Global;
use std::rt::HostRuntime;
use std::test::Fail;
use test_bed::fraction_or_zero;

/// Whether a leaf has these rows, each once.
pub(crate) fn has_rows(leaf: &Leaf, rows: [(u8, u32); 2]) -> bool {
    match leaf.multipliers.as_slice() {
        [first, second] => is_row(first, rows[0]) && is_row(second, rows[1]),
        _ => false,
    }
}

/// Whether a weight is 1 for this row.
fn is_row(weight: &Weight, row: (u8, u32)) -> bool {
    let (family, index) = row;
    weight.row == RowId { family, index } && weight.by == Frac::whole(1)
}

/// The first waits' rows, and the two sides of the block sum.
pub(crate) const WAITS: [(u8, u32); 2] = [(1, 1), (2, 1)];

const LOOP: [(u8, u32); 2] = [(14, 1), (15, 1)];

/// Whether the root is a leaf of these rows.
fn is_leaf_of(found: &Found, rows: [(u8, u32); 2]) -> bool {
    match found.nodes.as_slice() {
        [TreeNode::Waiting { leaf }] => has_rows(leaf, rows),
        [TreeNode::Closed { leaf }] => has_rows(leaf, rows),
        _ => false,
    }
}

/// Whether a search of the shorter artery with this red within these units leaves the root a leaf of these rows.
fn leaves_leaf(alloc: Global, red: u32, limit: u64, rows: [(u8, u32); 2]) -> Result<bool, Fail>
    requires { 0 < limit }
{
    let artery = artery(alloc, red, 250)?;
    let searched = searched(alloc, &artery, limit)?;
    Ok(is_leaf_of(&searched.found, rows))
}

/// The block sum of the root's vertex is 1/2, so that a search of 4 units leaves it waiting with its own leaf. Long reds are refuted.
#[test]
fn leaves_of_the_root(rt: HostRuntime) -> Result<(), Fail> {
    assert!(rt; leaves_leaf(rt.alloc(), 50, 4, WAITS)?);
    assert!(rt; leaves_leaf(rt.alloc(), 80, 5, LOOP)?);
    Ok(())
}

/// A fraction: its numerator and its denominator.
pub(crate) type Number = (i128, i128);

/// The values of the vertex.
static VERTEX: [Number; 11] = [
    (1, 2),
    (1, 2),
    (1, 100),
    (0, 1),
    (0, 1),
    (0, 1),
    (0, 1),
    (1, 4),
    (1, 4),
    (0, 1),
    (0, 1),
];

/// Whether these are the values, as many and in this order.
fn are_values(values: &[Frac], wanted: &[Number]) -> bool {
    if values.len() != wanted.len() {
        return false;
    }
    for (value, number) in values.iter().zip(wanted.iter()) {
        if *value != fraction_or_zero(number.0, number.1) {
            return false;
        }
    }
    true
}

/// Whether the root is split at a vertex of these values.
fn is_split_at(found: &Found, wanted: &[Number]) -> bool {
    match found.nodes.as_slice() {
        [TreeNode::Split { point, .. }, ..] => are_values(point.values.as_slice(), wanted),
        _ => false,
    }
}

#[test]
fn vertex_of_the_shared_green(rt: HostRuntime) -> Result<(), Fail> {
    let alloc = rt.alloc();
    let artery = artery(alloc, 50, 250)?;
    let searched = searched(alloc, &artery, 15)?;
    assert!(rt; is_split_at(&searched.found, &VERTEX));
    Ok(())
}
