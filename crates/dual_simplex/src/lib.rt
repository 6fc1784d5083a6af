//! The dual simplex method by Bland's rule on a tableau of fractions: one step, and the steps of a node until an end.
//!
//! `step` is the function `step_of` of the tableau (`specs/Steps.antt`), and `solve_node` goes on until an end
//! (`specs/Ends.antt`): its contract names the number of pivots made, and the tableau afterwards is the function of the first
//! one and of that number. Both keep the tableau dual feasible. Why the steps end is in `simplex_theory`'s laws. Begin with
//! `solve_node`.
//!
//! After a refused ratio the tableau is the same. Whether all units are spent is looked at when a pivot is due, before the ratios.
//! The loop of `solve_node` ends by the number of steps to the end, not by the limit, so no call asks that there is one.
#![tactic(auto, using(rational_theory::proofs::Compare::lt_true, rational_theory::proofs::Compare::lt_false))]

mod choose;
mod dual;
mod outcome;
mod solve;

pub use dual::step;
pub use outcome::{NodeEnd, Step};
pub use solve::solve_node;
pub use work_meter::Meter;
