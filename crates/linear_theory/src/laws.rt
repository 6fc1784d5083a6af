//! What the definitions promise, and what they decide.

ghost use Rattle.linear_theory.specs.{Promises.{NothingIsLost}, Worked.{WorkedBoxes}};

/// No good timing is lost: each lies in the root box and in one part of each split, its point meets
/// every row, and what an accepted tree of boxes says holds of it.
#[tactic(auto, using(crate::proofs::Kept::nothing_is_lost))]
pub fn law_nothing_is_lost()
    ensures { NothingIsLost }
{}

/// Boxes and a block sum that were worked by hand are as they should be.
#[tactic(auto, using(crate::proofs::WorkedLemmas::worked_boxes))]
pub fn law_worked_boxes()
    ensures { WorkedBoxes }
{}
