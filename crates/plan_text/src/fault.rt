//! Why a text is not read.

ghost use Rattle.std.specs.Prelude.{◌≡◌};
ghost use Rattle.plan_text.specs.declared.fault.TextEnd.TheVariants.{Memory};

use std::alloc::{AllocError, AllocFailed};

/// What is wrong with a line. Of one line the first of these that applies is named.
#[derive(Clone, Copy, Debug, PartialEq, Eq)]
pub enum TextFault {
    /// No line is left, or the last piece has no line feed.
    Ended,
    /// The words, or their number, are not those of this place.
    Shape,
    /// A number is not in its one spelling, or outside its range.
    Number,
    /// Lines that have to ascend don't.
    Order,
}

/// The first bad line, counted from 1.
#[derive(Clone, Copy, Debug, PartialEq, Eq)]
pub struct BadText {
    pub line: u64,
    pub kind: TextFault,
}

/// Why a text is not read: its first bad line, or want of memory.
#[derive(Clone, Copy, PartialEq, Eq)]
pub enum TextEnd {
    Bad(BadText),
    Memory,
}

impl From<AllocError> for TextEnd {
    ghost from_gives = { λ _ e. e ≡ Memory };

    fn from(_e: AllocError) -> TextEnd {
        TextEnd::Memory
    }
}

impl<T: Drop> From<AllocFailed<T>> for TextEnd {
    ghost from_gives = { λ _ e. e ≡ Memory };

    fn from(_e: AllocFailed<T>) -> TextEnd {
        TextEnd::Memory
    }
}
