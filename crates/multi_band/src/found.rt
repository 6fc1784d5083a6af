//! What a search of links answers.

use box_search::FoundOf;
use link_space::LinkTiming;

/// The answer of a search of links: the tree in preorder, the best link timing that was found, and the units that were spent.
///
/// Under `Best` the bound is the link timing's value. Under `NoTiming` it is 0 and means nothing. Under `Stopped` no link
/// timing of the artery has a greater value.
pub type LinkFound = FoundOf<LinkTiming>;
