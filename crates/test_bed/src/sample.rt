//! What is given of a sample.

ghost use Rattle.std.specs.Prelude.{◌≡◌};
ghost use Rattle.test_bed.specs.Samples.{head_of, signal_of, link_of, whole_range, plain_head, plain_signal, plain_link};

use artery_model::{Pair, Units};
use narrow_fraction::Frac;

/// The whole street. It has no name.
#[derive(Clone, Copy)]
pub struct SampleHead {
    pub units: Units,
    pub version: u32,
    pub parts: u32,
    pub cycle: Pair,
    pub ratio: Frac,
    pub least_out: Frac,
    pub least_in: Frac,
    pub equal: bool,
}

/// A signal.
#[derive(Clone, Copy)]
pub struct SampleSignal {
    pub name: &'static str,
    pub red: u32,
    pub left_out: u32,
    pub left_in: u32,
    pub patterns: [bool; 4],
    pub clear_out: u32,
    pub clear_in: u32,
}

/// A link.
#[derive(Clone, Copy)]
pub struct SampleLink {
    pub distance_out: u32,
    pub distance_in: u32,
    pub speed_out: Pair,
    pub speed_in: Pair,
    pub change_out: Option<Pair>,
    pub change_in: Option<Pair>,
}

/// The whole numbers of a range.
pub fn range(least: i64, most: i64) -> Pair
    ensures { result ≡ whole_range least most }
{
    Pair {
        least: Frac::whole(least),
        most: Frac::whole(most),
    }
}

/// Metric, in version 1, 100 parts in 100 seconds, and both bands count alike.
pub fn plain_head() -> SampleHead
    ensures { head_of result ≡ plain_head }
{
    SampleHead {
        units: Units::Metric,
        version: 1,
        parts: 100,
        cycle: range(100, 100),
        ratio: Frac::whole(1),
        least_out: Frac::whole(0),
        least_in: Frac::whole(0),
        equal: false,
    }
}

/// Red for so many parts, without left turns or queues, and pattern 1 alone.
pub fn plain_signal(name: &'static str, red: u32) -> SampleSignal
    ensures { signal_of result ≡ plain_signal name.now red }
{
    SampleSignal {
        name,
        red,
        left_out: 0,
        left_in: 0,
        patterns: [true, false, false, false],
        clear_out: 0,
        clear_in: 0,
    }
}

/// So far both ways, at 36 kilometres an hour.
pub fn plain_link(distance: u32) -> SampleLink
    ensures { link_of result ≡ plain_link distance }
{
    SampleLink {
        distance_out: distance,
        distance_in: distance,
        speed_out: range(36, 36),
        speed_in: range(36, 36),
        change_out: None,
        change_in: None,
    }
}
