//! A refused operation with its place.

use crate::names::Place;
use narrow_fraction::Wide;

/// An operation that would leave 128 bits, and the place of the row that it was for.
#[derive(Debug, Clone, Copy, PartialEq, Eq)]
pub struct WideAt {
    pub place: Place,
    pub wide: Wide,
}
