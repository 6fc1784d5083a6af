//! Spans, and places where a box is split.

/// The whole numbers from `least` to `most`; none where `least` is above `most`.
#[derive(Clone, Copy, PartialEq, Eq)]
pub struct Span {
    pub least: i64,
    pub most: i64,
}

/// Where a box is split: the first part has a link's block sums up to `at`, or the ranks of a signal's shifts up to `rank`, and
/// the second part those from the next on. (The word of a certificate for ranks is `turn`, that of a report `shifts`.)
#[derive(Clone, Copy, Debug, PartialEq, Eq)]
pub enum At {
    Loop { link: u32, at: i64 },
    Turn { signal: u32, rank: u32 },
}
