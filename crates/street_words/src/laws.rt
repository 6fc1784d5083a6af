//! Laws over the definitions alone.

ghost use Rattle.street_words.specs.Laws.{BoundsSay, WarningsSay};

/// The lines on bounds name the first signal with the least green, and no good timing has a wider band.
#[tactic(auto, using(crate::proofs::BoundLaws::bounds_say))]
pub fn law_bounds_say()
    ensures { BoundsSay }
{}

/// The lines on warnings are those of just the warnings whose rule holds.
#[tactic(auto, using(crate::proofs::WarningLaws::warnings_say))]
pub fn law_warnings_say()
    ensures { WarningsSay }
{}
