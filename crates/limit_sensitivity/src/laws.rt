//! What the records say of the street, in the words of the model.

ghost use Rattle.limit_sensitivity.specs.Says.{RowsSay, UnchangedIsTheStreet};

/// A `best` record has the weighted band of a timing that is best for the street with the change, a `none` record says that no timing is good
/// there, and an `open` one has a bound of all good timings there and the weighted band of a good one, if it has any. An accepted
/// certificate claims as much. An `outside` record says that a description may not have the street with the change.
#[tactic(auto, using(crate::proofs::Saying::rows_say))]
pub fn law_rows_say()
    ensures { RowsSay }
{}

/// The street of the first record is the street as it is.
#[tactic(auto, using(crate::proofs::Saying::unchanged))]
pub fn law_unchanged_is_the_street()
    ensures { UnchangedIsTheStreet }
{}
