//! What a search of an artery answers.

use box_search::FoundOf;
use time_space::Timing;

/// The answer of a search: the tree in preorder, the best timing that was found, and the units that were spent.
///
/// Under `Best` the bound is the timing's weighted band. Under `NoTiming` it is 0 and means nothing. Under `Stopped` no
/// timing of the artery has a greater weighted band.
pub type Found = FoundOf<Timing>;
