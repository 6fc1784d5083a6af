//! Arteries to measure and to test with, made from a number of signals and a seed: the same two
//! numbers always make the same artery. A linear congruential generator draws the numbers of the
//! artery one after another, and contracts say which draw each of them is. Start with `make_artery`.
//!
//! For 2 to 16 signals and every seed of 64 bits the artery is exactly the street of version 1 that `specs/Made.antt` names, or
//! memory is wanting. The definition says of each number which draw of the seed it is, and draw k is a function of the state after
//! k steps of the generator (`specs/Draws.antt`). That this street passes every test of `artery_model`, whatever the seed, is
//! proved, so the arm of its refusal is unreachable. `law_seed_zero` decides the first draw of seed 0 from the definitions as it
//! was worked by hand; whole arteries of two seeds, worked out apart from the program, are tested.
#![tactic(auto)]

mod artery;
mod draws;
#[cfg(test)]
mod tests;
mod worked;

pub use artery::make_artery;
pub use worked::law_seed_zero;
