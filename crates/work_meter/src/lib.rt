//! Work that is counted and limited.
//!
//! A `Meter` holds how many units of work were spent and how many may be. What a unit is, those who spend it say: a box that
//! is opened, or a pivot. `specs/Work.antt` has the words for it: a count that stays at the greatest number of its type, a
//! meter that is out, and one with work left. Begin with `Meter::is_out`.
//!
//! `is_out` says exactly whether all units are spent; `spend` adds one, keeps the limit, and stays within it where a unit was left.
#![tactic(auto)]

mod meter;
#[cfg(test)]
mod tests;

pub use meter::Meter;
