//! What is found of a street with a change.

use branch_tree::Verdict;
use narrow_fraction::Frac;
use street_changes::Change;
use time_space::Timing;

/// What a search found, without its tree.
#[derive(Drop)]
pub struct RowOutcome {
    pub verdict: Verdict,
    pub timing: Option<Timing>,
    /// Under `Best` the timing's weighted band; under `Stopped` what no timing's exceeds.
    pub bound: Frac,
}

/// A change, and what was found of the street with it: nothing where a description may not have it.
#[derive(Drop)]
pub struct SensitivityRow {
    pub change: Change,
    pub outcome: Option<RowOutcome>,
}
