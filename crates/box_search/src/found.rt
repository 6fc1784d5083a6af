//! What a search answers.

use crate::site::SitePart;
use branch_and_bound as engine;
pub use branch_and_bound::TreeNode;

/// Where an operation left 128 bits: in this box, after so many pivots (at least so many where it is `2^64 - 1`).
pub type Site = engine::Site<SitePart>;

/// Why a search stopped.
pub type Stop = engine::Stop<SitePart>;

/// What is claimed of the timing.
pub type Verdict = engine::Verdict<SitePart>;

/// The answer of a search for timings of a type.
pub type FoundOf<T> = engine::Found<T, SitePart>;
