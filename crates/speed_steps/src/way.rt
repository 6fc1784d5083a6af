//! Inwards or outwards.

/// Which way both limits of a run move.
#[derive(Clone, Copy, Debug, PartialEq, Eq)]
pub enum Way {
    /// So that no run is within the moved limits but one that was within the limits.
    Inwards,
    /// So that each run that was within the limits is within the moved ones.
    Outwards,
}
