//! A law over the definitions alone.

ghost use Rattle.timing_sheet.specs.Laws.{AllSecondsAgree};

/// A sheet and the words of a street have the same numbers: at a base's own cycle so many parts and each green, and a run at a limit of speed.
#[tactic(auto, using(crate::proofs::Agreeing::seconds_agree))]
pub fn law_seconds_agree()
    ensures { AllSecondsAgree }
{}
