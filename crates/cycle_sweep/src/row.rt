//! What is found at one cycle.

use branch_tree::Found;
use narrow_fraction::Frac;

/// A cycle in seconds, and what was found at it.
#[derive(Drop)]
pub enum SweepRow {
    /// The cycle isn't within the limits that the street has.
    Outside { cycle: Frac },
    /// A search of the street with this cycle alone found this.
    Searched { cycle: Frac, found: Found },
}
