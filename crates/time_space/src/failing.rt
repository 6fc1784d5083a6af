//! The rules of a good timing, by name.

use progression::Dir;

/// A rule of a good timing that a timing breaks, and where.
#[derive(Clone, Copy, Debug, PartialEq, Eq)]
pub enum Failing {
    /// The timing has another number of signals than the artery.
    Shape,
    /// The signal doesn't allow its left turn pattern.
    Pattern { signal: u32 },
    /// The cycle is below its least length.
    CycleShort,
    /// The cycle is above its greatest length.
    CycleLong,
    /// The run on the link is faster than the greatest speed.
    Fast { dir: Dir, link: u32 },
    /// The run on the link is slower than the least speed.
    Slow { dir: Dir, link: u32 },
    /// The pace on the link with the next number, less the pace on this one, is above the greatest change.
    Rise { dir: Dir, link: u32 },
    /// The pace on the link with the next number, less the pace on this one, is below the least change.
    Drop { dir: Dir, link: u32 },
    /// The bands don't keep the ratio.
    Ratio,
    /// The direction's band is narrower than its least width.
    Least { dir: Dir },
    /// The bands have to be equal and aren't.
    Equal,
    /// The outbound band isn't green at the signal. The tick is its first there that isn't.
    Outbound { signal: u32, tick: i128 },
    /// The inbound band isn't green at the signal. The tick is its first there that isn't.
    Inbound { signal: u32, tick: i128 },
}
