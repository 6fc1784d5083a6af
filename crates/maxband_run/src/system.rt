//! The system that the program is started by: which words it gives, and of which files and output it is left.

ghost use Rattle.std.specs.{Prelude.{ℕ, List, Result, Ok, Err, IfErr, IfOk, OnErr, map, string_bytes}, declared.io.Error.{Error}};
ghost use Rattle.std.specs.Vec.Iter.{into_iter_items};

use narrow_fraction::Memory;
use outer_edge::{Files, Sink};
use std::{env, io};

/// The system, as the program meets it: the words that it is called with, the system's files and its output.
///
/// Files and output can't be let go but by `close`, which takes the system with them. So a program that is written over this trait has them
/// made once, and does nothing more with them after that.
pub trait System {
    type Files: Files;

    type Out: Sink;

    /// It gives these words, of which the first is the program's name, or this error in their place.
    ghost Gives: { Self → Result (List (List ℕ)) Error → Type 0 };

    /// Its files and its output couldn't be made.
    ghost Refuses: { Self → Type 0 };

    /// Its files and its output were made, and stand so.
    ghost Opens: { Self → Self.Files → Self.Out → Type 0 };

    /// It was left with its files and its output as they stand here.
    ghost Closes: { Self → Self.Files → Self.Out → Type 0 };

    fn words(&self) -> io::Result<env::Args>
        ensures given { IfOk result (λ words. Gives self.now (Ok (map string_bytes (into_iter_items words)))) }
        ensures error { IfErr result (λ error. Gives self.now (Err error)) };

    fn open(&self) -> Result<(Self::Files, Self::Out), Memory>
        ensures opened { IfOk result (λ made. Opens self.now made.0 made.1) }
        ensures refused { OnErr result (Refuses self.now) };

    fn close(self, files: Self::Files, out: Self::Out)
        ensures { Closes self files out };
}
