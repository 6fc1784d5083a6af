//! The widest band of one direction of an artery on given offsets, where each run may be any that the speeds allow.
//!
//! `widest_band` takes the grid, the unit, the patterns and the reds of a base, and from the artery the limits of speed. In
//! `specs/Free.antt` stands what it answers: every base of these offsets with the answer's runs keeps the limits of speed and has
//! the band, and none whose runs keep them has a wider one; None comes exactly where none has any. Where the times that the links
//! take at their limits of speed are whole ticks, no base of these offsets on a finer grid has a wider one. Limits of the change of
//! pace tie neighbouring runs and aren't kept: a street that has them keeps a timing's runs, and `band_measure::widest_on` measures. The
//! runs of the answer stand in travel order: entry j is the run of link `leg d n j`.
#![tactic(auto)]

mod fractions;
mod limits;
mod street;

pub use fractions::{denominator, numerator};
pub use limits::{RunLimits, run_limits};
pub use street::widest_band;
