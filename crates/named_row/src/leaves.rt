//! Plain lists of a leaf: multipliers of named rows, and values of columns.

use crate::names::RowId;
use narrow_fraction::Frac;

/// A row, and by what it is multiplied.
#[derive(Debug, Clone, Copy, PartialEq, Eq)]
pub struct Weight {
    pub row: RowId,
    pub by: Frac,
}

/// The rows whose sum a leaf shows, each with its multiplier, in the order in which they are added.
#[derive(Drop)]
pub struct Leaf {
    pub multipliers: Vec<Weight>,
}

/// A value for each column.
#[derive(Drop)]
pub struct Point {
    pub values: Vec<Frac>,
}
