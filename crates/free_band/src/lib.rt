//! The widest band of one direction where each run may be chosen within limits.
//!
//! `specs/Way.antt` says what runs: a first line and, for each link, a run of whole ticks within its limits, so that every tick of
//! the band is green at each signal. `widest_free` answers a first line, a band and runs that do so, and no others have a wider
//! band; or None exactly where none run at all. No finer grid has a wider band: there the firsts and runs may be any of its ticks.
//! `is_way` is the test whether it may be called. Neither takes memory.
//!
//! It is enough to try, for each signal, the line that leaves it as its red ends, comes to it by the greatest runs and goes on by
//! the least: its *ray* (`specs/Rays.antt`). Any band that runs can be moved to the left, each crossing by a time of its own, until
//! it crosses each signal where some ray does, and still each run keeps its limits (`proofs/Push.antt`). So signal by signal the
//! widest band that crosses it with each ray is found from those at the signal before (`specs/Cells.antt`).
#![tactic(auto)]

mod measure;
mod phases;
mod rows;
mod ticks;
mod valid;
mod way;

pub use measure::widest_free;
pub use valid::is_way;
pub use way::{FreeBand, WayLink, WaySignal};
