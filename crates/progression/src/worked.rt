//! Worked timings, decided by the definitions.

ghost use Rattle.progression.specs.Worked.{WorkedTimings};

/// A law over the definitions alone: a few timings that were worked by hand are good or not as they
/// should be.
pub fn law_worked_timings()
    ensures { WorkedTimings }
{}
