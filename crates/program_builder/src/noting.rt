//! What is noted of an entry's pivots, and the same pivots of bounds alone.

ghost use Rattle.std.specs.Prelude.{◌≡◌, ◌+◌, ◌<◌, pos, true, length, IfOk, IfSome};
ghost use Rattle.rational_theory.specs.Rational.{whole};
ghost use Rattle.simplex_theory.specs.Tableau.{height};
ghost use Rattle.narrow_fraction.specs.Fraction.{FitsFrac};
ghost use Rattle.fraction_tableau.specs.{Narrow.{IsNarrow}, KeptCells.{number_in}, PivotCalls.{CanPivot, Pivots}};
ghost use Rattle.program_builder.specs.Remembering.{IsLess, ArePivoted, IsNoteOf};

use fraction_tableau::{Tableau, WideCell};
use narrow_fraction::{Frac, Memory, Quotient};
use std::alloc::Global;

/// What is noted of a pivot, its eta in the product form of the inverse: the row that the column entered, and what each row and then
/// the goal row had at its place before.
#[derive(Drop)]
pub struct NotedPivot {
    row: u32,
    column: Vec<Quotient>,
}

/// A bound less the factor times the pivot row's new bound; None where an operation leaves 128 bits.
fn less(bound: Frac, factor: &Quotient, own: Frac) -> Option<Frac>
    requires { FitsFrac bound }
    ensures less { IfSome result (λ new. IsLess factor.now own bound new) }
    ensures fits { IfSome result (λ new. FitsFrac new) }
{
    if own.is_zero() {
        return Some(bound);
    }
    if factor.is_zero() {
        return Some(bound);
    }
    if let Some(new) = factor.less_times(own, bound) {
        return Some(new.fitting());
    }
    let part = match factor.fraction().times(own) {
        Ok(part) => part,
        Err(_) => return None,
    };
    match bound.minus(part) {
        Ok(new) => Some(new.fitting()),
        Err(_) => None,
    }
}

impl NotedPivot {
    /// Room for the note of a pivot whose column has so many numbers.
    pub fn new(alloc: Global, count: usize) -> Result<NotedPivot, Memory>
        ensures { IfOk result (λ noted. length noted.column.items ≡ count) }
    {
        let zero = Quotient::of_fraction(Frac::whole(0));
        let column = vec![in alloc; zero; count]?;
        Ok(NotedPivot { row: 0, column })
    }

    /// The pivot by which a column enters a row, which is noted on the way.
    pub fn pivot(&mut self, tableau: &mut Tableau, row: u32, variable: u32) -> Result<(), WideCell>
        requires room { length self.old.column.items ≡ height tableau.old.table + 1 }
        requires pivot { CanPivot row variable tableau.old }
        ensures pivots { Pivots row variable result tableau.old tableau.new }
        ensures noted { IfOk result (λ _. IsNoteOf tableau.old.table row variable self.new) }
        ensures room { length self.new.column.items ≡ length self.old.column.items }
    {
        self.row = row;
        tableau.pivot_noting(row, variable, &mut self.column)
    }

    /// Makes of bounds what the pivot makes of them; false where an operation on one of them leaves 128 bits.
    pub fn pivot_bounds(&self, bounds: &mut [Frac]) -> bool
        requires row { self.now.row < length bounds.old }
        requires column { length self.now.column.items ≡ length bounds.old }
        requires pivot { number_in self.now.column.items self.now.row ≡ whole (pos 0) → ⊥ }
        requires narrow { IsNarrow bounds.old }
        ensures pivoted { result ≡ true → ArePivoted self.now.row self.now.column.items bounds.old bounds.new }
        ensures narrow { IsNarrow bounds.new }
    {
        let row = self.row as usize;
        let own = match bounds[row].over(self.column[row].fraction()) {
            Ok(own) => own.fitting(),
            Err(_) => return false,
        };
        bounds[row] = own;
        if own.is_zero() {
            return true;
        }
        for line in 0..bounds.len() {
            if line != row {
                match less(bounds[line], &self.column[line], own) {
                    Some(bound) => bounds[line] = bound,
                    None => return false,
                }
            }
        }
        true
    }
}
