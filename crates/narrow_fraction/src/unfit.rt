//! Why two numbers make no fraction.

use thiserror::Error;

/// Why two numbers make no fraction of 128 bits.
#[derive(Debug, Clone, Copy, PartialEq, Eq, Error)]
pub enum Unfit {
    /// The denominator is 0.
    #[error("the denominator is 0")]
    ZeroDen,
    /// In lowest terms a number is more than `2^127 - 1` in size.
    #[error("the fraction does not fit 128 bits")]
    Width,
}
