//! What people are told of a timing, in a picture, a sheet or words: numbers to the nearest tenth, moments within the cycle, and which
//! direction has a band.
//!
//! Contracts see an `Artery` as a `Street` and a `Timing` as a `TimingRecord`. `specs/Numbers` has the numbers as text, and `specs/Ways` says
//! which direction has a band: `law_bands_are_green_ways`, exactly that of which every line crosses every signal in green. Start with
//! `push_tenths`, `push_moment` and `has_band`.
#![tactic(auto)]

ghost use Rattle.timing_words.specs.Ways.{BandsAreGreenWays};

mod moments;
mod numbers;
mod ways;

pub use moments::push_moment;
pub use numbers::{push_percent, push_seconds, push_tenths};
pub use ways::{dir_word, has_band};

/// The law that a direction has a band exactly where every line of it crosses every signal in green.
pub fn law_bands_are_green_ways()
    ensures { BandsAreGreenWays }
{}
