//! The splits on the way down.

ghost use Rattle.std.specs.Prelude.{◌≡◌, ◌<◌, [], ◌∷◌, length, drop, OnOk, OnErr, MatchOption};

use narrow_fraction::Memory;
use search_box::{At, Span};
use std::alloc::Global;
use std::marker::Model;

/// A split: its place, the span that the box had there, and whether its high part is under way.
#[derive(Clone, Copy)]
pub struct Entry {
    pub place: At,
    pub former: Span,
    pub on_high: bool,
}

/// The splits on the way down to a box, seen as their list from the innermost on.
#[derive(Drop)]
pub struct SplitWay {
    entries: Vec<Entry>,
}

impl Model for SplitWay {
    ghost use Rattle.std.specs.Prelude.{List, reverse};
    ghost use Rattle.certificate_checker.specs.declared.way.Entry.{Entry};

    ghost Value = { List Entry };

    ghost view = { λ w. reverse w.entries.items };
}

impl SplitWay {
    pub fn new(alloc: Global) -> SplitWay
        ensures { result ≡ [] }
    {
        SplitWay {
            entries: Vec::new(alloc),
        }
    }

    /// One more split, which is the innermost. The error is want of memory.
    pub fn push(&mut self, entry: Entry) -> Result<(), Memory>
        ensures put { OnOk result (self.new ≡ entry ∷ self.old) }
        ensures kept { OnErr result (self.new ≡ self.old) }
    {
        self.entries.push(entry)?;
        Ok(())
    }

    /// The innermost split, if there is one.
    pub fn innermost(&self) -> Option<Entry>
        ensures { MatchOption result (self.now ≡ []) (λ entry. self.now ≡ entry ∷ drop 1 self.now) }
    {
        self.entries.last().copied()
    }

    /// Another entry for the innermost split.
    pub fn replace(&mut self, entry: Entry)
        requires { 0 < length self.old }
        ensures { self.new ≡ entry ∷ drop 1 self.old }
    {
        let last = self.entries.len() - 1;
        self.entries[last] = entry;
    }

    /// Leaves the innermost split.
    pub fn pop(&mut self)
        ensures { self.new ≡ drop 1 self.old }
    {
        self.entries.pop();
    }
}
