//! A plan of whole seconds.

use crate::score::Score;
use second_plan::PlanEnd;
use time_space::Timing;

/// The plan of offsets in whole seconds.
#[derive(Drop)]
pub struct OffsetPlan {
    /// How many seconds after signal 1's red each signal's begins, from 0 to a cycle less 1.
    pub offsets: Vec<u64>,
    /// The same as a timing, with its bands.
    pub timing: Timing,
    /// What it is judged by.
    pub score: Score,
    /// The first rule that it breaks, and none where it is good.
    pub end: Option<PlanEnd>,
}
