//! The waiting node with the greatest bound.

ghost use Rattle.std.specs.Prelude.{◌≡◌, ◌⊎◌, Some, true, false, length, All, IfNone, IfSome};
ghost use Rattle.branch_and_bound.specs.Incumbents.{IsBeaten};
ghost use Rattle.branch_and_bound.specs.Greatest.{IsGreatest, IsOverBound, IsOverAll, IsSame, IsLarger, IsSettled, bound_of};

use crate::incumbent::{Incumbent, is_at_most, is_reached};
use crate::node::Node;
use narrow_fraction::Frac;

/// A waiting node, with its bound.
#[derive(Clone, Copy)]
pub(crate) struct Greatest {
    pub(crate) index: usize,
    pub(crate) bound: Frac,
}

/// The bound of a node that waits.
fn bound_of<K>(node: &Node<K>) -> Option<Frac>
    ensures { result ≡ bound_of node.now }
{
    match node {
        Node::Waiting { bound, .. } => Some(*bound),
        _ => None,
    }
}

/// Whether the greatest so far is at least `bound`.
fn is_over(greatest: &Option<Greatest>, bound: Frac) -> bool
    ensures yes { result ≡ true → IsOverBound greatest.now (Some bound) }
    ensures more { result ≡ false → IsOverAll greatest.now bound }
{
    match greatest {
        Some(so_far) => is_at_most(bound, so_far.bound),
        None => false,
    }
}

/// Takes this node where its bound is larger.
fn enlarge<K>(greatest: &mut Option<Greatest>, index: usize, node: &Node<K>)
    ensures { IsSame greatest.old greatest.new node.now ⊎ IsLarger greatest.old greatest.new index node.now }
{
    if let Some(bound) = bound_of(node) {
        if !is_over(greatest, bound) {
            *greatest = Some(Greatest { index, bound });
        }
    }
}

/// The waiting node with the greatest bound, the first of several in preorder.
fn find_greatest<K>(nodes: &[Node<K>]) -> Option<Greatest>
    ensures { IsGreatest nodes.now (length nodes.now) result }
{
    let mut greatest = None;
    for (index, node) in nodes.iter().enumerate() {
        enlarge(&mut greatest, index, node);
    }
    greatest
}

/// The node that is split next: of the waiting ones the first with the greatest bound, where that is more than the best
/// value.
pub(crate) fn next_waiting<T, K>(
    nodes: &[Node<K>],
    incumbent: &Option<Incumbent<T>>,
) -> Option<Greatest>
    ensures none { IfNone result (All (λ node. IsSettled incumbent.now (bound_of node)) nodes.now) }
    ensures greatest { IfSome result (λ g. IsGreatest nodes.now (length nodes.now) (Some g)) }
    ensures beaten { IfSome result (λ g. IsBeaten incumbent.now g.bound) }
{
    let Some(greatest) = find_greatest(nodes) else {
        return None;
    };
    if is_reached(incumbent, greatest.bound) {
        None
    } else {
        Some(greatest)
    }
}
