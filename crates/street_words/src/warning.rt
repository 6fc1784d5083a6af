//! What may be a slip in a description.

use artery_model::Dir;

/// What in a street looks like a slip of whoever typed it, at its place.
#[derive(Clone, Copy, Debug, PartialEq, Eq)]
pub enum Warning {
    /// At its greatest speed a link takes less than 3 seconds.
    TakesLittle { dir: Dir, link: u32 },
    /// At its greatest speed a link takes more than 60 seconds.
    TakesLong { dir: Dir, link: u32 },
    /// A greatest speed is above 120 km/h or 75 miles an hour.
    TooFast { dir: Dir, link: u32 },
    /// A least speed is below 10 km/h or 6 miles an hour.
    TooSlow { dir: Dir, link: u32 },
    /// A direction is red for more than three quarters of the cycle.
    MostlyRed { dir: Dir, signal: u32 },
    /// The names of a signal and the next one differ in blanks and in small and capital letters alone.
    AlikeNames { signal: u32 },
    /// Both directions count alike, the bands need not be equal, and a direction has no least band.
    MayStarve,
    /// The times of travel at the limits of speed need a grid of more than 2^20 ticks a second.
    LongFractions,
}
