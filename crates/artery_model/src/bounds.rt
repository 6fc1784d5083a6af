//! The least and the most that an artery's numbers may be.

/// The version of a description. The second has least bands, equal bands and more signals.
pub const FIRST_VERSION: u32 = 1;

pub const SECOND_VERSION: u32 = 2;

/// How many signals there are: the most in any version, and in the first.
pub const LEAST_SIGNALS: usize = 2;

pub const MOST_SIGNALS: usize = 24;

pub const MOST_FIRST_SIGNALS: usize = 16;

/// How many parts the cycle has.
pub const LEAST_PARTS: u32 = 2;

pub const MOST_PARTS: u32 = 3600;

/// The length of a link, in metres or feet.
pub const LEAST_DISTANCE: u32 = 1;

pub const MOST_DISTANCE: u32 = 30_000;

/// A speed, in kilometres or miles an hour.
pub const LEAST_SPEED: i64 = 1;

pub const MOST_SPEED: i64 = 300;

/// The cycle, in seconds.
pub const LEAST_CYCLE: i64 = 1;

pub const MOST_CYCLE: i64 = 3600;

/// A change of pace, in seconds per kilometre or mile.
pub const LEAST_CHANGE: i64 = -1000;

pub const MOST_CHANGE: i64 = 1000;

/// How much a second of the inbound band counts against one of the outbound band.
pub const LEAST_RATIO: i64 = 0;

pub const MOST_RATIO: i64 = 100;

/// A least band, as a fraction of the cycle. The first version has none, which is 0.
pub const LEAST_SHARE: i64 = 0;

pub const MOST_SHARE: i64 = 1;

/// The size of a quantity's numerator and its denominator, in lowest terms.
pub const MOST_NUMERATOR: u128 = 100_000;

pub const MOST_DENOMINATOR: u128 = 1000;

/// How many bytes a name has.
pub const LEAST_NAME: usize = 1;

pub const MOST_NAME: usize = 60;
