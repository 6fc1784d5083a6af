//! What is read off the end of a box.

use crate::site::SitePart;
use named_row::{RowId, WideAt};
use narrow_fraction::Frac;
use search_box::At;

/// The bound of a leaf's sum, or the operation of the sum that leaves 128 bits.
#[derive(Clone, Copy)]
pub enum Summed {
    Bound(Frac),
    Wide { row: RowId, at: WideAt },
}

/// What a vertex is: a timing, the place where its box is split, or an operation of its reading that leaves 128 bits.
#[derive(Drop)]
pub enum Read<T> {
    Timing(T),
    SplitAt(At),
    Wide(SitePart),
}
