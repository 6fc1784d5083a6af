//! What the ends of boxes promise, and that the search of an artery's boxes gives accepted trees.

ghost use Rattle.branch_tree.specs.Promises.{BoxesEnd, TreesAreProofs};

/// Each line of boxes of an artery comes to an end. At an empty box it has a leaf that refutes; at any other a leaf that covers the
/// weighted band with its vertex's own. A vertex that gives a timing gives a good one with that band, and one that splits its box
/// shows a place inside it, whose parts have no greater bounds. Where both the leaf's sum and the vertex leave 128 bits, the sum is
/// the site. Along a line no set of basic variables comes twice, so that a box takes fewer steps than there are such sets, which
/// bounds the units that a search needs.
#[tactic(auto, using(crate::proofs::KeptPromises::boxes_end))]
pub fn law_boxes_end()
    ensures { BoxesEnd }
{}

/// A tree that a search of the boxes of an artery accepts is one that the checker of certificates accepts, node for node.
#[tactic(auto, using(crate::proofs::TreeProofs::accepted_proofs))]
pub fn law_trees_are_proofs()
    ensures { TreesAreProofs }
{}
