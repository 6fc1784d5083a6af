//! Splits one waiting node.

ghost use Rattle.std.specs.Prelude.{◌≡◌, ◌<◌, Some, length, OnOk};
ghost use Rattle.rational_theory.specs.Rational.{ℚ};
ghost use Rattle.work_meter.specs.Work.{IsWithin};
ghost use Rattle.branch_and_bound.specs.{Greatest.{IsGreatest}, Incumbents.{IsUnder}, State.{IsSearchState, Grows, IsSpliced, split_from}};

use crate::greatest::Greatest;
use crate::node::Node;
use crate::open::{Cut, Halt, open_parts};
use crate::progress::Progress;
use crate::relaxation::Relaxation;
use narrow_fraction::Memory;
use std::alloc::Global;
use std::mem;

/// A waiting node as the split that it becomes.
fn split_from<K: Drop>(node: Node<K>) -> Node<K>
    ensures { result ≡ split_from node }
{
    match node {
        Node::Waiting { place, point, .. } => Node::Split { place, point },
        other => other,
    }
}

/// Makes the waiting node at an index a split with two leaves.
fn splice<K: Drop>(
    nodes: &mut Vec<Node<K>>,
    index: usize,
    low: Node<K>,
    high: Node<K>,
) -> Result<(), Memory>
    requires { index < length nodes.old.items }
    ensures { OnOk result (IsSpliced nodes.old.items nodes.new.items index low high) }
{
    let split = split_from(mem::replace(&mut nodes[index], low));
    nodes.insert(index, split)?;
    nodes.insert(index + 2, high)?;
    Ok(())
}

/// Splits the waiting node with the greatest bound.
pub(crate) fn grow<P: Relaxation>(
    alloc: Global,
    relaxation: &P,
    room: &mut P::Room,
    nodes: &mut Vec<Node<P::Kept>>,
    greatest: &Greatest,
    progress: &mut Progress<P::Timing>,
) -> Result<(), Halt<P::Part>>
    requires ready { P.Ready relaxation.now room.old }
    requires within { IsWithin progress.old.meter.spent progress.old.meter.limit }
    requires greatest { IsGreatest nodes.old.items (length nodes.old.items) (Some greatest.now) }
    requires under { IsUnder progress.old.incumbent greatest.now.bound }
    requires holds { (top : ℚ) × IsSearchState (P.rules relaxation.now) nodes.old.items progress.old.incumbent top progress.old.meter.spent }
    ensures ready { P.Ready relaxation.now room.new }
    ensures limit { progress.new.meter.limit ≡ progress.old.meter.limit }
    ensures grows { Grows (P.rules relaxation.now) nodes.old.items nodes.new.items greatest.now.index progress.old progress.new result }
{
    let (low, high) = match &nodes[greatest.index] {
        Node::Waiting {
            area,
            place,
            kept,
            ..
        } => {
            let cut = Cut {
                area,
                place: *place,
                kept,
            };
            open_parts(alloc, relaxation, room, &cut, progress)?
        }
        _ => unreachable!(),
    };
    splice(nodes, greatest.index, low, high)?;
    Ok(())
}
