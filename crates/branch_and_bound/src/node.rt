//! The nodes that the search keeps, and those that it answers.

use named_row::{Leaf, Point};
use narrow_fraction::Frac;
use search_box::{At, SearchBox};

/// A node of the tree while the search runs.
#[derive(Drop)]
pub(crate) enum Node<K> {
    /// Its two parts follow. It was split at this vertex.
    Split {
        place: At,
        point: Point,
    },
    /// A leaf that is done with.
    Closed {
        leaf: Leaf,
    },
    /// A leaf that can be split.
    Waiting {
        area: SearchBox,
        leaf: Leaf,
        bound: Frac,
        place: At,
        point: Point,
        kept: K,
    },
}

/// A node of the answered tree.
#[derive(Drop)]
pub enum TreeNode {
    /// Its two parts follow, the low one first. The vertex at which it was split shows the place.
    Split { place: At, point: Point },
    /// A leaf whose box is empty, or whose vertex gave a timing, or whose bound is at most the best value.
    Closed { leaf: Leaf },
    /// A leaf that a longer search would split.
    Waiting { leaf: Leaf },
}
