//! The numbers of a timing as people use them: bands as fractions of the cycle, moments in seconds, and speeds in the units of the
//! description.
//!
//! Contracts see an `Artery` as a `Street` and a `Timing` as a `TimingRecord`. `specs/Measures` has each number exact, as a fraction that is
//! never below 0, and `specs/Rounding` those with some decimal places. Start with `band_share`, `offset` or `link_speed`, and with
//! `round_to`. What writes them, in text or in a picture, stands above.
#![tactic(auto)]

mod measures;
mod rounding;

pub use measures::{
    after_start, band_share, cycle_seconds, link_speed, offset, quotient, seconds, signal_name,
    some_speed,
};
pub use rounding::{RoundedNumber, round_to};
