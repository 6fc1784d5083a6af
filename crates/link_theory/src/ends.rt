//! The two ends of a link.

/// An end of a link: link i has one at signal i, and the other at the next signal.
#[derive(Clone, Copy, PartialEq, Eq)]
pub enum LinkEnd {
    Here,
    Next,
}
