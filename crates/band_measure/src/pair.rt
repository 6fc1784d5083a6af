//! Pairs of a first line and a band.

/// The widest band of a direction, in ticks and at least 0, and the tick at which its first line crosses the first signal of
/// its way. Both are below the cycle.
#[derive(Clone, Copy, PartialEq, Eq)]
pub struct Widest {
    pub first: u128,
    pub band: u128,
}

/// The pair of each direction.
#[derive(Clone, Copy)]
pub struct BothPairs {
    pub outbound: Widest,
    pub inbound: Widest,
}
