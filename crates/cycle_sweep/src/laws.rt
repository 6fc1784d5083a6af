//! What the rows say of the street, in the words of the model.

ghost use Rattle.cycle_sweep.specs.Says.{RowsSay};

/// A `best` record has the weighted band of a timing that is best at its cycle, a `none` record says that no timing is good
/// there, and an `open` one has a bound of all good timings there and the weighted band of a good one, if it has any. An accepted
/// certificate claims as much. The cause of a record is `work` only where all units of the limit were spent.
#[tactic(auto, using(crate::proofs::Saying::rows_say))]
pub fn law_rows_say()
    ensures { RowsSay }
{}
