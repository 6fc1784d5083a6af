//! The nodes of a tree, one after another.

ghost use Rattle.std.specs.Prelude.{◌≡◌, ◌+◌, ◌<◌, ◌≤◌, ◌^◌, [], ◌∷◌, List, length, drop, map, All, None, OnOk, IfErr};
ghost use Rattle.linear_theory.specs.Boxes.{Area};
ghost use Rattle.search_box.specs.Places.{low_part, high_part};
ghost use Rattle.certificate_model.specs.Warrants.{Node, node_of, AreTrees};
ghost use Rattle.certificate_checker.specs.{Owed.{first_of}, TreeProofs.{IsTreeProof}, TreeRefusals.{split_refusal, tree_refusal, IsFirst}};

use crate::kind::CheckedKind;
use crate::leaves::{Aim, check_leaf};
use crate::owed::Owed;
use crate::reject::Reject;
use certificate_model::CertNode;
use search_box::{At, SearchBox};
use std::alloc::Global;

/// How far the nodes are read: the boxes that still want a tree, and the number of leaves so far.
#[derive(Drop)]
struct Walk {
    owed: Owed,
    leaves: u64,
}

/// The parts of the next box, which is that of the node with this number, are wanted in its place.
fn split<F>(owed: &mut Owed, place: At, number: u64) -> Result<(), Reject<F>>
    requires some { 0 < length owed.old }
    ensures none { OnOk result (split_refusal {F = F} (first_of owed.old) number place ≡ None) }
    ensures parts { OnOk result (owed.new ≡ low_part (first_of owed.old) place ∷ high_part (first_of owed.old) place ∷ drop 1 owed.old) }
    ensures first { IfErr result (λ reject. IsFirst (split_refusal (first_of owed.old) number place) reject) }
{
    if !owed.first().is_place(place) {
        return Err(Reject::SplitOutside { node: number });
    }
    owed.split(place)?;
    Ok(())
}

/// Reads a node, for the next box, after so many nodes.
fn read<K: CheckedKind>(
    alloc: Global,
    kind: &K,
    aim: &Aim,
    walk: &mut Walk,
    before: u64,
    node: &CertNode,
) -> Result<(), Reject<K::Failing>>
    requires width { (box : Area) → length aim.now.goal.coefs ≡ ((K.kind kind.now).rows box).width }
    requires some { 0 < length walk.old.owed }
    requires ready { All (K.Ready kind.now) walk.old.owed }
    requires leaves { walk.old.leaves ≤ before }
    requires before { before + 1 < 2 ^ 64 }
    ensures right { OnOk result ((rest : List Node) → tree_refusal {F = K.Failing} (K.kind kind.now).rows aim.now before walk.old.leaves walk.old.owed (node_of node.now ∷ rest)
        ≡ tree_refusal (K.kind kind.now).rows aim.now (before + 1) walk.new.leaves walk.new.owed rest) }
    ensures first { IfErr result (λ reject. (rest : List Node) → IsFirst (tree_refusal (K.kind kind.now).rows aim.now before walk.old.leaves walk.old.owed (node_of node.now ∷ rest)) reject) }
    ensures trees { OnOk result ((rest : List Node) → AreTrees (length walk.old.owed) (node_of node.now ∷ rest) → AreTrees (length walk.new.owed) rest) }
    ensures ready { OnOk result (All (K.Ready kind.now) walk.new.owed) }
    ensures leaves { OnOk result (walk.new.leaves ≤ before + 1) }
{
    match node {
        CertNode::Split(place) => split(&mut walk.owed, *place, before + 1),
        CertNode::Leaf(leaf) => {
            check_leaf(alloc, kind, aim, walk.owed.first(), walk.leaves + 1, leaf)?;
            walk.owed.done();
            walk.leaves += 1;
            Ok(())
        }
    }
}

/// Checks the nodes of a tree over any rows, from the box of the first node on. The goal is as wide as the rows. Ok comes
/// exactly where each split lies in its box and each leaf shows what it must, and else the first refusal.
///
/// Want of memory may come in place of any answer.
pub fn check_tree<K: CheckedKind>(
    alloc: Global,
    kind: &K,
    root: SearchBox,
    aim: &Aim,
    nodes: &[CertNode],
) -> Result<(), Reject<K::Failing>>
    requires ready { K.Ready kind.now root }
    requires width { (box : Area) → length aim.now.goal.coefs ≡ ((K.kind kind.now).rows box).width }
    requires tree { AreTrees 1 (map node_of nodes.now) }
    ensures none { OnOk result (tree_refusal {F = K.Failing} (K.kind kind.now).rows aim.now 0 0 (root ∷ []) (map node_of nodes.now) ≡ None) }
    ensures first { IfErr result (λ reject. IsFirst (tree_refusal (K.kind kind.now).rows aim.now 0 0 (root ∷ []) (map node_of nodes.now)) reject) }
    ensures proof { OnOk result (IsTreeProof (K.kind kind.now).rows aim.now (root ∷ []) (map node_of nodes.now)) }
{
    let mut walk = Walk {
        owed: Owed::new(alloc, root),
        leaves: 0,
    };
    for (index, node) in nodes.iter().enumerate() {
        read(alloc, kind, aim, &mut walk, index as u64, node)?;
    }
    Ok(())
}
