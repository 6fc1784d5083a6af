//! Why there is no artery.

ghost use Rattle.std.specs.Prelude.{◌≡◌};
ghost use Rattle.artery_model.specs.declared.kind.Flaw.TheVariants.{Memory};

use progression::Text;
use std::alloc::AllocError;

/// What is wrong with a description. The kinds stand in the order in which they are looked for.
#[derive(Clone, Copy, Debug, PartialEq, Eq)]
pub enum Kind {
    /// The bytes are not UTF-8.
    NotUtf8,
    /// The text is not a TOML document.
    NotToml,
    /// A table has a key that no description has.
    UnknownKey,
    /// A needed key is absent.
    Missing,
    /// A value has another type.
    WrongType,
    /// A text is not a number.
    BadNumber,
    /// A value lies outside its limits.
    OutOfRange,
    /// There is not one link fewer than there are signals.
    CountMismatch,
    /// A signal's name stood earlier.
    RepeatedName,
    /// A signal allows no pattern.
    NoPattern,
    /// A red and a left turn leave no green.
    NoGreen,
    /// The first of two limits is above the second.
    LimitsCrossed,
}

/// What is wrong, and the path of the place where.
#[derive(Debug, Drop)]
pub struct Refusal {
    pub kind: Kind,
    pub place: Text,
}

/// Why there is no artery: the first refusal, or want of memory.
#[derive(Debug, Drop)]
pub enum Flaw {
    Refused(Refusal),
    Memory,
}

impl From<AllocError> for Flaw {
    ghost from_gives = { λ _ flaw. flaw ≡ Memory };

    fn from(_: AllocError) -> Flaw {
        Flaw::Memory
    }
}
