//! The nodes as they are answered.

ghost use Rattle.std.specs.Prelude.{◌≡◌, Some, true, false, IfOk};
ghost use Rattle.branch_and_bound.specs.{Matchings.{Matches}, State.{IsShown}};

use crate::incumbent::{Incumbent, is_reached};
use crate::node::{Node, TreeNode};
use narrow_fraction::{Memory, push};
use std::alloc::Global;

/// Whether this is the node whose split was undone.
fn is_undone(undone: Option<usize>, index: usize) -> bool
    ensures yes { result ≡ true → undone ≡ Some index }
    ensures no { result ≡ false → undone ≡ Some index → ⊥ }
{
    match undone {
        Some(other) => other == index,
        None => false,
    }
}

/// One node, which is closed where its bound is at most the best value and its split wasn't undone.
fn shown_node<T, K: Drop>(
    node: Node<K>,
    incumbent: &Option<Incumbent<T>>,
    undone: Option<usize>,
    index: usize,
) -> TreeNode
    ensures { IsShown incumbent.now undone index node result }
{
    match node {
        Node::Split { place, point } => TreeNode::Split { place, point },
        Node::Closed { leaf } => TreeNode::Closed { leaf },
        Node::Waiting { leaf, bound, .. } => {
            if is_undone(undone, index) || !is_reached(incumbent, bound) {
                TreeNode::Waiting { leaf }
            } else {
                TreeNode::Closed { leaf }
            }
        }
    }
}

/// All nodes, without what only the search needs.
pub(crate) fn shown<T, K: Drop>(
    alloc: Global,
    nodes: Vec<Node<K>>,
    incumbent: &Option<Incumbent<T>>,
    undone: Option<usize>,
) -> Result<Vec<TreeNode>, Memory>
    ensures { IfOk result (λ tree. Matches (IsShown incumbent.now undone) 0 nodes.items tree.items) }
{
    let mut tree = Vec::new(alloc);
    for (index, node) in nodes.into_iter().enumerate() {
        push(&mut tree, shown_node(node, incumbent, undone, index))?;
    }
    Ok(tree)
}
