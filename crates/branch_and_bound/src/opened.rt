//! What opening a box answers.

use named_row::{Leaf, Point};
use narrow_fraction::Frac;
use search_box::At;

/// The end of opening a box: it was finished in one of four ways, or it was left.
#[derive(Drop)]
pub enum Opened<T, K, W> {
    /// The box has no point, which the leaf shows.
    Infeasible {
        leaf: Leaf,
    },
    /// The vertex gives a timing.
    Timed {
        leaf: Leaf,
        bound: Frac,
        timing: T,
    },
    /// The vertex shows where the box is split. What is kept serves to open the parts.
    Splits {
        leaf: Leaf,
        bound: Frac,
        place: At,
        point: Point,
        kept: K,
    },
    /// The vertex was found after so many pivots and its leaf proves the bound, but an operation of its reading was refused.
    Unread {
        leaf: Leaf,
        bound: Frac,
        pivots: u64,
        part: W,
    },
    /// A pivot was due, and all units were spent.
    WorkOut,
    /// After so many pivots an operation was refused: of the next pivot, or of the sum of the end's leaf.
    Wide {
        pivots: u64,
        part: W,
    },
}
