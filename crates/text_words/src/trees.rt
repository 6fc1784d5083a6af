//! How large a tree is.

ghost use Rattle.std.specs.{Prelude.{◌≡◌, ◌+◌, ◌<◌, ◌^◌, ◌++◌, ◌∷◌, [], map, OnOk}, Fmt.{decimal}};
ghost use Rattle.certificate_model.specs.Warrants.{node_of};
ghost use Rattle.text_words.specs.Claims.{splits, leaves, sizes_line, tree_line};

use certificate_model::CertNode;
use narrow_fraction::Memory;
use quantity_text::{push_number, push_text};

/// How many splits and how many leaves there are.
#[derive(Clone, Copy)]
struct Sizes {
    splits: u64,
    leaves: u64,
}

/// The same with one node more.
fn with_node(found: Sizes, node: &CertNode) -> Sizes
    requires { found.splits + found.leaves + 1 < 2 ^ 64 }
    ensures splits { result.splits ≡ found.splits + splits (node_of node.now ∷ []) }
    ensures leaves { result.leaves ≡ found.leaves + leaves (node_of node.now ∷ []) }
    ensures one { result.splits + result.leaves ≡ found.splits + found.leaves + 1 }
{
    match node {
        CertNode::Split(_) => Sizes {
            splits: found.splits + 1,
            leaves: found.leaves,
        },
        CertNode::Leaf(_) => Sizes {
            splits: found.splits,
            leaves: found.leaves + 1,
        },
    }
}

fn measure(nodes: &[CertNode]) -> Sizes
    ensures splits { result.splits ≡ splits (map node_of nodes.now) }
    ensures leaves { result.leaves ≡ leaves (map node_of nodes.now) }
{
    let mut found = Sizes {
        splits: 0,
        leaves: 0,
    };
    for node in nodes {
        found = with_node(found, node);
    }
    found
}

fn push_count(out: &mut Vec<u8>, count: u64) -> Result<(), Memory>
    ensures { OnOk result (out.new.items ≡ out.old.items ++ decimal count) }
{
    push_number(out, u128::from(count))
}

#[tactic(auto, unfolding(crate::specs::Claims::sizes_line))]
fn push_sizes(out: &mut Vec<u8>, splits: u64, leaves: u64) -> Result<(), Memory>
    ensures { OnOk result (out.new.items ≡ out.old.items ++ sizes_line splits leaves) }
{
    push_text(out, "tree: splits ")?;
    push_count(out, splits)?;
    push_text(out, ", leaves ")?;
    push_count(out, leaves)?;
    push_text(
        out,
        "; each leaf has the grounds for its part of all timings\n",
    )
}

/// Writes how large a tree is.
pub(crate) fn push_tree(out: &mut Vec<u8>, nodes: &[CertNode]) -> Result<(), Memory>
    ensures { OnOk result (out.new.items ≡ out.old.items ++ tree_line (map node_of nodes.now)) }
{
    let found = measure(nodes);
    push_sizes(out, found.splits, found.leaves)
}
