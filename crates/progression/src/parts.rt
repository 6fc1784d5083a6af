//! The parts of an artery.

use crate::text::Text;
use narrow_fraction::Frac;

/// The direction of travel: outbound from signal 1 to the last, inbound back.
#[derive(Clone, Copy, Debug, PartialEq, Eq)]
pub enum Dir {
    Outbound,
    Inbound,
}

/// The units of lengths and speeds: metres and kilometres an hour, or feet and miles an hour.
#[derive(Clone, Copy, Debug, PartialEq, Eq)]
pub enum Units {
    Metric,
    English,
}

/// Two limits of one quantity.
#[derive(Clone, Copy)]
pub struct Pair {
    pub least: Frac,
    pub most: Frac,
}

/// What holds of the whole artery.
#[derive(Drop)]
pub struct Head {
    /// The street's name, where it has one.
    pub name: Option<Text>,
    pub units: Units,
    /// The version of its description, 1 or 2. Version 2 has least bands, equal bands and up to 24 signals.
    pub version: u32,
    /// How many parts the cycle is divided into. Splits and clearances are whole parts.
    pub parts: u32,
    /// The limits of the cycle, in seconds.
    pub cycle: Pair,
    /// How much a second of the inbound band counts against one of the outbound band.
    pub ratio: Frac,
    /// The least outbound band, as a fraction of the cycle.
    pub least_out: Frac,
    /// The least inbound band, as a fraction of the cycle.
    pub least_in: Frac,
    /// Whether both bands have to be equal.
    pub equal: bool,
}

/// One signal. Its splits and clearances are in parts of the cycle.
#[derive(Drop)]
pub struct Signal {
    pub name: Text,
    /// The common red: the time in which neither direction of the artery goes straight on.
    pub red: u32,
    /// The green of the outbound left turn, which adds to the inbound red.
    pub left_out: u32,
    /// The green of the inbound left turn, which adds to the outbound red.
    pub left_in: u32,
    /// Which of the left turn patterns 1 to 4 are allowed.
    pub patterns: [bool; 4],
    /// How much earlier the outbound line leaves, so that the queue at this signal clears.
    pub clear_out: u32,
    /// The same for the inbound line.
    pub clear_in: u32,
}

/// One link. Link i joins signals i and i + 1.
#[derive(Drop)]
pub struct Link {
    /// The length outbound, in metres or feet.
    pub distance_out: u32,
    /// The length inbound, in metres or feet.
    pub distance_in: u32,
    /// The limits of the outbound speed, in kilometres or miles an hour.
    pub speed_out: Pair,
    /// The limits of the inbound speed.
    pub speed_in: Pair,
    /// The limits of the change of pace from this link to the next number, in seconds per
    /// kilometre or mile, outbound.
    pub change_out: Option<Pair>,
    /// The same inbound.
    pub change_in: Option<Pair>,
}
