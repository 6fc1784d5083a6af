//! What the definitions promise.

ghost use Rattle.half_integer.specs.{Answers.{OneEnd}, Phases.{PhasesSay}, Uneven.{UnevenIsTwoReds}};

/// A signal is uneven exactly where its two reds aren't one interval.
#[tactic(auto, using(crate::proofs::Lefts::uneven_is_two_reds))]
pub fn law_uneven_is_two_reds()
    ensures { UnevenIsTwoReds }
{}

/// One reason at most is the first for which a timing has no half-cycle plan, and none is where one is looked for.
#[tactic(auto, using(crate::proofs::Ends::one_end))]
pub fn law_one_end()
    ensures { OneEnd }
{}

/// In a half-cycle plan each red is centred half a cycle later where `half_of` says so, and else at 0.
#[tactic(auto, using(crate::proofs::Centred::phases_say))]
pub fn law_phases_say()
    ensures { PhasesSay }
{}
