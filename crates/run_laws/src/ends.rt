//! The law of how a run ends where no call fails.

ghost use Rattle.run_laws.specs.EndLaws.{RunsAreComplete};

/// A law over the definitions: where the files of a command tell bytes that are read as what it takes, and no fault is counted, the run ends
/// with one of the causes of the command's own, or by want of memory.
pub fn law_runs_are_complete()
    ensures { RunsAreComplete }
{
    description_reader::law_one_answer();
    description_reader::law_one_typed();
}
