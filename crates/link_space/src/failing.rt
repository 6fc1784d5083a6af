//! The rules of a good link timing, by name.

use time_space::Failing;

/// A rule of a good link timing that a link timing breaks, and where.
#[derive(Clone, Copy, PartialEq, Eq)]
pub enum LinkFailing {
    /// Its base breaks a rule: of shape, patterns, cycle, runs or changes of pace.
    Base(Failing),
    /// The link's bands don't keep the ratio.
    Ratio { link: u32 },
    /// The link's outbound band isn't green at one of its signals. The tick is its first there that isn't.
    Outbound { link: u32, signal: u32, tick: i128 },
    /// The link's inbound band isn't green at one of its signals. The tick is its first there that isn't.
    Inbound { link: u32, signal: u32, tick: i128 },
}
