//! Families of rows, each with its law.

ghost use Rattle.std.specs.Prelude.{◌≡◌, ◌↔◌, IsTrue, ℕ, List, length, false};
ghost use Rattle.rational_theory.specs.{Rational.{ℚ}, Rows.{IsMet}};
ghost use Rattle.progression.specs.Street.{Street, count};
ghost use Rattle.linear_theory.specs.{Places.{width}, Boxes.{Area, IsBoxOf}, Counts.{IsGoodPoint}};
ghost use Rattle.named_row.specs.Sheets.{Sheet, row_of};

use artery_model::Artery;
use named_row::Row;
use search_box::SearchBox;

/// A problem: how wide its rows are for an artery, and which points count for an artery and a box.
pub trait Problem {
    ghost columns: { Street → ℕ };

    ghost counts: { Street → Area → List ℚ → Type 0 };
}

/// A band of the whole artery in each direction. As a problem, its points are those of good timings with block sums and shift ranks
/// in the box.
#[derive(Drop)]
pub struct Progression;

impl Problem for Progression {
    ghost columns = { λ a. width (count a) };

    ghost counts = { IsGoodPoint };
}

/// A family of rows. Each row that it fills is met by every point that counts.
pub trait Family {
    type Of: Problem;

    /// The family's number.
    ghost family: { Self → ℕ };

    /// Whether an artery has the row of an index.
    ghost exists: { Self → Street → ℕ → Type 0 };

    /// The row, as it is written.
    ghost sheet: { Self → Street → Area → ℕ → Sheet };

    /// The family's number.
    fn number(&self) -> u8
        ensures { result ≡ family self.now };

    /// Whether the artery has the row of this index.
    fn has(&self, artery: &Artery, index: u32) -> bool
        ensures { IsTrue result ↔ exists self.now artery.now index };

    /// Makes the row of this index for a box.
    fn fill(&self, artery: &Artery, area: &SearchBox, index: u32, into: &mut Row)
        requires there { exists self.now artery.now index }
        requires boxed { IsBoxOf artery.now area.now }
        requires columns { length into.old.coefs ≡ Self.Of.columns artery.now }
        ensures row { into.new ≡ sheet self.now artery.now area.now index }
        ensures width { length into.new.coefs ≡ length into.old.coefs };

    ghost unspent: { (f : Self) (a : Street) (box : Area) (i : ℕ) → (sheet f a box i).spent ≡ false };

    ghost law: { (f : Self) (a : Street) (box : Area) (i : ℕ) (x : List ℚ) → exists f a i → Self.Of.counts a box x → IsMet x (row_of (sheet f a box i)) };
}
