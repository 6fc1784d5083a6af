//! What boxes keep for their parts.

/// What a split box keeps of its end for its parts: the basic variables of its last tableau, ascending.
#[derive(Drop)]
pub struct KeptBasis {
    pub basis: Vec<u32>,
}
