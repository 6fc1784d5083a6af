//! Laws over the definitions alone.

ghost use Rattle.branch_and_bound.specs.{Enough.{IsEnough}, Promises.{ChoicesAreShared}};

use crate::relaxation::Relaxation;

/// Where each box that a search can meet is finished within so many units, a stop by work comes only under a limit that
/// is lower than the cost of the greatest tree: of so many units for each of at most `2 * B - 1` nodes, where `B` is the
/// number of choices of block sums and ranks in the root box, or 1 if it has none.
pub fn law_enough<P: Relaxation>(_relaxation: &P)
    ensures { IsEnough (P.rules _relaxation.now) }
{}

/// A box has a choice of block sums and ranks where each of its spans has a number, and each split shares its choices out
/// between the two parts.
#[tactic(auto, using(crate::proofs::Volumes::choices_some, crate::proofs::Volumes::choices_split))]
pub fn law_choices_are_shared()
    ensures { ChoicesAreShared }
{}
