//! What the search answers.

use crate::node::TreeNode;
use narrow_fraction::Frac;
use search_box::SearchBox;

/// Where an operation was refused: in this box, after so many pivots (at least so many where it is `2^64 - 1`).
#[derive(Drop)]
pub struct Site<W> {
    pub area: SearchBox,
    pub pivots: u64,
    pub part: W,
}

/// Why the search stopped.
#[derive(Drop)]
pub enum Stop<W> {
    /// All units were spent.
    Work { spent: u64 },
    /// An operation was refused.
    Wide(Site<W>),
}

/// What is claimed of the timing.
#[derive(Drop)]
pub enum Verdict<W> {
    /// It is a best one.
    Best,
    /// There is none.
    NoTiming,
    /// The search stopped, and no timing is better than the bound.
    Stopped(Stop<W>),
}

/// The answer of a search: the tree in preorder, the best timing that was found, and the units that were spent.
///
/// Under `Best` the bound is the timing's value. Under `NoTiming` it is 0 and means nothing.
#[derive(Drop)]
pub struct Found<T, W> {
    pub verdict: Verdict<W>,
    pub nodes: Vec<TreeNode>,
    pub timing: Option<T>,
    pub bound: Frac,
    pub spent: u64,
}
