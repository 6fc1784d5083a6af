//! The rows that the leaves of a tree name, listed once, and the place of a row in the list.

ghost use Rattle.std.specs.Prelude.{◌≡◌, None, map, OnOk, IfOk};
ghost use Rattle.named_row.specs.Order.{is_below};
ghost use Rattle.certificate_model.specs.Warrants.{node_of};
ghost use Rattle.plan_text.specs.Leaves.{with_rows, rows_of, AscendRows, place_of_row};

use certificate_model::CertNode;
use named_row::{RowId, Weight};
use narrow_fraction::Memory;
use std::alloc::Global;
use std::collections::BTreeSet;

/// Adds the rows of a leaf.
fn add_rows(rows: &mut BTreeSet<RowId, Global>, weights: &[Weight]) -> Result<(), Memory>
    ensures { OnOk result (rows.new.keys ≡ with_rows weights.now rows.old.keys) }
{
    for weight in weights {
        rows.insert(weight.row)?;
    }
    Ok(())
}

/// The rows of a set in their order. Room for all of them is asked for at once: `collect` asks for as much by a hint alone, and goes on
/// where that is refused.
fn in_order(alloc: Global, rows: BTreeSet<RowId, Global>) -> Result<Vec<RowId>, Memory>
    ensures { IfOk result (λ v. v.items ≡ rows.keys) }
{
    let mut list = Vec::with_capacity(alloc, rows.len())?;
    list.extend(rows)?;
    Ok(list)
}

/// The rows that the leaves name, each once, in their order.
pub fn rows_of(alloc: Global, nodes: &[CertNode]) -> Result<Vec<RowId>, Memory>
    ensures value { IfOk result (λ v. v.items ≡ rows_of (map node_of nodes.now)) }
    ensures ascend { IfOk result (λ v. AscendRows None v.items) }
{
    let mut rows = BTreeSet::new(alloc);
    for node in nodes {
        match node {
            CertNode::Split(_) => {}
            CertNode::Leaf(leaf) => add_rows(&mut rows, leaf.multipliers.as_slice())?,
        }
    }
    in_order(alloc, rows)
}

/// The place of a row among rows that ascend, counted from 1. A row that isn't there gives the place where it would stand.
pub fn place_of_row(rows: &[RowId], row: RowId) -> u64
    requires { AscendRows None rows.now }
    ensures { result ≡ place_of_row rows.now row }
{
    let before = rows.partition_point(
        |listed: &RowId| -> bool
            ensures { result ≡ is_below listed.now row }
        { listed.is_before(row) },
    );
    before as u64 + 1
}
