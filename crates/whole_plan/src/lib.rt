//! The widest plan in whole seconds that is found over several cycles, with speeds free.
//!
//! Start with `whole_plan`, whose answer is `IsWholePlan`, and its ends `Ends` (`specs/Planned.antt`). Of each cycle the street with it alone
//! is searched within 10,000 units of work (`specs/Sought.antt`), and the offsets start from the timing that was found, or from the given
//! one where none was; what comes of it is a set of offsets from which no move is better, by `whole_offsets`, or a reason for which there
//! is none (`specs/Sets.antt`). `specs/Choice.antt` says which set is chosen: of those whose plan is good the one of the greatest weighted
//! band, of equal ones that of the first cycle; a cycle is passed over where no timing of it is wider than the widest plan before it. Where no
//! plan is good, a best set is, as `whole_offsets::is_better` compares them, and the first rule that its plan breaks is told.
//!
//! `tried_cycles` says which cycles are tried (`specs/Cycles.antt`): of the whole seconds within the street's limits those that are named, or
//! where none are the hundred nearest to a timing's cycle.
#![tactic(auto, using(rational_theory::proofs::Compare::lt_true, rational_theory::proofs::Compare::lt_false, rational_theory::proofs::Compare::le_true, rational_theory::proofs::Compare::le_false))]

mod choosing;
mod cycles;
mod planning;
mod searching;
mod setting;

pub use cycles::tried_cycles;
pub use planning::whole_plan;
