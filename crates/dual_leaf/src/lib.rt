//! What is read off a tableau of the dual simplex method: the multipliers of its named rows, and the vertex.
//!
//! `leaf_of` gives the goal row's multipliers, `refuter_of` those of a row with a negative bound and no negative cell, and
//! `point_of` the vertex. `specs/Leaves.antt` says which lists these are and what they show: the sum of the named rows by a
//! leaf covers the goal with the goal row's bound, or refutes, for all rows and each goal that the tableau stands for
//! (`StandsForRows` of `simplex_theory`), in whatever way the names are read as rows; and at an optimal end the vertex meets
//! them with the goal row's bound as its goal. Begin with `leaf_of`.
//!
//! No multiplier is negative, those that are 0 are left out, and they come in the order of the rows. At an optimal end no value of
//! the vertex is negative.
#![tactic(auto)]

mod leaves;
mod values;

pub use leaves::{leaf_of, point_of, refuter_of};
