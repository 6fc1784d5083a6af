//! One row of a tableau: its cells that aren't 0, in order, and its bound.

ghost use Rattle.std.specs.Prelude.{◌≡◌, ◌+◌, ◌-◌, ◌<◌, ◌≤◌, ◌^◌, ℕ, None, true, false, pos, length, replicate, IfOk, IfSome};
ghost use Rattle.rational_theory.specs.Rational.{ℚ, whole, inverse_ℚ};
ghost use Rattle.simplex_theory.specs.Lines.{divided, cleared};
ghost use Rattle.fraction_tableau.specs.{Narrow.{IsNarrow}, Refusals.{divide_refusal, clear_refusal}, KeptCells.{number_in, kept_below}};
ghost use Rattle.fraction_tableau.specs.{RowChanges.{CanDivide, Divides, CanClear, Clears}, NamedTableaus.{row_cells, goal_cells, rebound}};
ghost use Rattle.fraction_tableau.specs.Scales.{IsOver, IsScaled, IsJoining, IsDividing, factor_of, pivot_of};

use crate::fractions::{Elimination, clear_row, divide_row};
use crate::joining::{Joining, find_joining, join, joined};
use crate::kept::Kept;
use crate::loading::{fill_goal, fill_row};
use crate::marks::{ALL_MARKED, is_free, marked_below, marks_of};
use crate::merging::{UNMERGED, keep_before};
use crate::narrowing::{
    grown, held_over, held_where, hold_narrow, hold_where, reduced_denominator,
};
use crate::scale::{AS_IT_IS, Scale, numerator_of};
use crate::whole_dividing::{Dividing, divide_whole};
use crate::wide_cell::WideCell;
use named_row::{Place, Row};
use narrow_fraction::{Frac, Quotient};
use std::alloc::{AllocError, Global};
use std::marker::Model;

/// A row. `cells` has room for a cell at each place and never grows; its first `count` are the row's cells that aren't 0,
/// ascending by place, and what stands behind them means nothing. A row with a scale is narrow: its numbers are whole ones
/// over the scale's denominator, and are held so. Other rows are wide.
#[derive(Drop)]
pub struct SparseRow {
    cells: Vec<Kept>,
    count: usize,
    bound: Quotient,
    scale: Option<Scale>,
    /// A bit for each place with a cell, as `marks_of` gives it; more bits may be set.
    marks: u64,
    /// Over which the numbers of a wide row may be held, 0 where that isn't known: a guess, which is tested.
    denominator: u64,
}

impl Model for SparseRow {
    ghost use Rattle.std.specs.Prelude.{List, length, take};
    ghost use Rattle.rational_theory.specs.Rational.{ℚ};
    ghost use Rattle.fraction_tableau.specs.{KeptCells.{dense_row, IsSparse}, Scales.{HasScale}, Marks.{AreMarked}};

    ghost Value = { List ℚ };

    ghost view = { λ a. dense_row (length a.cells.items) (take a.count a.cells.items) a.bound };

    ghost invariant = { λ a. IsSparse (length a.cells.items) a.count (take a.count a.cells.items)
        × (HasScale a.scale (dense_row (length a.cells.items) (take a.count a.cells.items) a.bound) × AreMarked a.marks (take a.count a.cells.items)) };
}

impl SparseRow {
    /// So many places, all cells 0, and the bound 0.
    pub fn zero(alloc: Global, width: usize) -> Result<SparseRow, AllocError>
        ensures { IfOk result (λ line. line ≡ replicate (width + 1) (whole (pos 0))) }
    {
        let none = Kept {
            place: 0,
            cell: Quotient::of_fraction(Frac::whole(0)),
        };
        let cells = vec![in alloc; none; width]?;
        Ok(SparseRow {
            cells,
            count: 0,
            bound: Quotient::of_fraction(Frac::whole(0)),
            scale: None,
            marks: 0,
            denominator: 0,
        })
    }

    /// The number of places.
    pub fn width(&self) -> usize
        ensures { result + 1 ≡ length self.now }
    {
        self.cells.len()
    }

    /// The cells that aren't 0, ascending by place.
    pub fn kept(&self) -> &[Kept]
        ensures { result.now ≡ kept_below (number_in self.now) (length self.now - 1) }
    {
        &self.cells[..self.count]
    }

    /// The bound, as it is held.
    fn held_bound(&self) -> Quotient
        ensures { result ≡ number_in self.now (length self.now - 1) }
    {
        self.bound.copied()
    }

    /// The bound.
    pub fn bound(&self) -> Frac
        ensures { result ≡ number_in self.now (length self.now - 1) }
    {
        self.held_bound().fraction()
    }

    /// The cell at a place, as it is held, sought among the cells: first where the marks say, then from the first cell on.
    #[inline(never)]
    fn find(&self, place: u32) -> Quotient
        requires { place + 1 < length self.now }
        ensures { result ≡ number_in self.now place }
    {
        let cells = self.kept();
        let guess = marked_below(self.marks, place);
        if guess < cells.len() && cells[guess].place == place {
            return cells[guess].cell.copied();
        }
        for kept in self.kept() {
            if kept.place >= place {
                return if kept.place == place {
                    kept.cell.copied()
                } else {
                    Quotient::of_fraction(Frac::whole(0))
                };
            }
        }
        Quotient::of_fraction(Frac::whole(0))
    }

    /// Whether the bit of a place says that no cell stands there, as it says of most rows at a pivot.
    #[inline(always)]
    fn is_free_at(&self, place: u32) -> bool
        requires { place + 1 < length self.now }
        ensures { result ≡ true → number_in self.now place ≡ whole (pos 0) }
    {
        is_free(self.marks, place)
    }

    /// The cell at a place, as it is held: at once where its bit is clear.
    #[inline(always)]
    pub fn held(&self, place: u32) -> Quotient
        requires { place + 1 < length self.now }
        ensures { result ≡ number_in self.now place }
    {
        if self.is_free_at(place) {
            return Quotient::of_fraction(Frac::whole(0));
        }
        self.find(place)
    }

    /// The cell at a place.
    pub fn cell(&self, place: u32) -> Frac
        requires { place + 1 < length self.now }
        ensures { result ≡ number_in self.now place }
    {
        self.held(place).fraction()
    }

    /// The cell at a place, or the bound at the number after the last place, as it is held.
    pub fn get(&self, col: u32) -> Quotient
        requires { col < length self.now }
        ensures { result ≡ number_in self.now col }
    {
        if col as usize == self.width() {
            self.held_bound()
        } else {
            self.held(col)
        }
    }

    /// Takes a row's coefficients and its bound, as fractions.
    fn fill(&mut self, from: &Row)
        requires width { length self.old ≡ length from.now.coefs + 1 }
        requires short { length self.old ≤ 2 ^ 32 }
        ensures cells { self.new ≡ row_cells from.now }
        ensures narrow { IsNarrow self.new }
    {
        self.count = fill_row(&mut self.cells, from);
        self.bound = Quotient::of_fraction(from.get(Place::Bound).fitting());
        self.scale = None;
        self.marks = ALL_MARKED;
        self.denominator = 0;
    }

    /// Takes a row's coefficients and its bound.
    pub fn load(&mut self, from: &Row)
        requires width { length self.old ≡ length from.now.coefs + 1 }
        requires short { length self.old ≤ 2 ^ 32 }
        ensures cells { self.new ≡ row_cells from.now }
        ensures narrow { IsNarrow self.new }
    {
        self.fill(from);
        self.narrow();
        self.mark();
    }

    /// Takes a row's negated coefficients, and the bound 0, as fractions.
    fn fill_goal(&mut self, from: &Row)
        requires width { length self.old ≡ length from.now.coefs + 1 }
        requires short { length self.old ≤ 2 ^ 32 }
        ensures cells { self.new ≡ goal_cells from.now }
        ensures narrow { IsNarrow self.new }
    {
        self.count = fill_goal(&mut self.cells, from);
        self.bound = Quotient::of_fraction(Frac::whole(0));
        self.scale = None;
        self.marks = ALL_MARKED;
        self.denominator = 0;
    }

    /// Takes a row's negated coefficients, and the bound 0.
    pub fn load_goal(&mut self, from: &Row)
        requires width { length self.old ≡ length from.now.coefs + 1 }
        requires short { length self.old ≤ 2 ^ 32 }
        ensures cells { self.new ≡ goal_cells from.now }
        ensures narrow { IsNarrow self.new }
    {
        self.fill_goal(from);
        self.narrow();
        self.mark();
    }

    /// The scale of this row with another bound, where it is narrow and stays so over its denominator.
    fn scale_with(&self, bound: &Quotient) -> Option<Scale>
        ensures above { IfSome result (λ scale. 0 < scale.denominator) }
        ensures short { IfSome result (λ scale. scale.most < 2 ^ 42) }
        ensures bound { IfSome result (λ scale. IsOver scale.denominator scale.most bound.now) }
        ensures row { IfSome result (λ scale. IsScaled scale (rebound bound.now self.now)) }
    {
        let Some(scale) = self.scale else {
            return None;
        };
        let most = grown(scale.most, bound, scale.denominator)?;
        Some(Scale {
            denominator: scale.denominator,
            most,
        })
    }

    /// A bound, held over the row's denominator where it has a numerator there: so it is divided once, and then measured without a
    /// division.
    fn bound_over(&self, bound: Frac) -> Quotient
        ensures { result ≡ bound }
    {
        let bound = Quotient::of_fraction(bound);
        match self.scale {
            Some(scale) => held_where(&bound, scale.denominator),
            None => bound,
        }
    }

    /// Takes another bound, over the row's denominator where that is possible, and else as a fraction.
    fn take_bound(&mut self, bound: Frac)
        requires narrow { IsNarrow self.old }
        ensures bound { self.new ≡ rebound bound self.old }
        ensures narrow { IsNarrow self.new }
    {
        let bound = self.bound_over(bound.fitting());
        match self.scale_with(&bound) {
            Some(scale) => {
                self.bound = bound;
                self.scale = Some(scale);
            }
            None => {
                self.bound = bound;
                self.scale = None;
                self.denominator = 0;
            }
        }
    }

    /// Takes another bound. The cells stay.
    pub fn set_bound(&mut self, bound: Frac)
        requires narrow { IsNarrow self.old }
        ensures bound { self.new ≡ rebound bound self.old }
        ensures narrow { IsNarrow self.new }
    {
        self.take_bound(bound);
        self.narrow();
    }

    /// Takes the cells and the bound of another row.
    pub fn copy_from(&mut self, row: &SparseRow)
        requires width { length self.old ≡ length row.now }
        requires short { length self.old ≤ 2 ^ 32 }
        ensures { self.new ≡ row.now }
    {
        let width = self.cells.len() as u32;
        self.count = keep_before(&mut self.cells, row, UNMERGED, width, AS_IT_IS).made;
        self.bound = row.bound.copied();
        self.scale = row.scale;
        self.marks = row.marks;
        self.denominator = row.denominator;
    }

    /// Becomes narrow, where it isn't and can be. The row stays what it is.
    #[inline(always)]
    pub fn narrow(&mut self)
        ensures { self.new ≡ self.old }
    {
        if self.scale.is_none() {
            self.find_scale();
        }
    }

    /// Takes the scale that its numbers have, where they have one. The row stays what it is.
    #[inline(never)]
    fn find_scale(&mut self)
        ensures { self.new ≡ self.old }
    {
        let scale = hold_narrow(&mut self.cells, self.count, &self.bound, self.denominator);
        if let Some(scale) = scale {
            self.bound = held_over(&self.bound, scale);
            self.scale = Some(scale);
        }
    }

    /// Marks the places of the cells, and no others. The row stays what it is.
    fn mark(&mut self)
        ensures { self.new ≡ self.old }
    {
        self.marks = marks_of(&self.cells, self.count);
    }

    /// Holds the numbers over a denominator where they have a numerator there, as those of a wide row: so they are divided once, and
    /// then measured without a division. The row stays what it is.
    fn hold(&mut self, denominator: u64)
        ensures { self.new ≡ self.old }
    {
        hold_where(&mut self.cells, self.count, denominator);
        self.bound = held_where(&self.bound, denominator);
        self.scale = None;
        self.denominator = denominator;
    }

    /// Divides the numbers of a narrow row and its denominator by what they have in common. The row stays what it is.
    fn reduce(&mut self)
        ensures { self.new ≡ self.old }
    {
        if let Some(scale) = self.scale {
            let reduced = reduced_denominator(
                &self.cells,
                self.count,
                &self.bound,
                scale.denominator,
            );
            if reduced != scale.denominator {
                self.hold(reduced);
            }
        }
        self.narrow();
    }

    /// How this row is divided at a place, where it is narrow.
    fn dividing(&self, place: u32) -> Option<Dividing>
        requires place { place + 1 < length self.now }
        requires pivot { number_in self.now place ≡ whole (pos 0) → ⊥ }
        ensures place { IfSome result (λ dividing. dividing.place ≡ place) }
        ensures dividing { IfSome result (λ dividing. IsDividing dividing) }
        ensures row { IfSome result (λ dividing. IsScaled dividing.row self.now) }
        ensures pivot { IfSome result (λ dividing. pivot_of dividing ≡ number_in self.now place) }
    {
        let Some(row) = self.scale else {
            return None;
        };
        let pivot = numerator_of(&self.held(place), row.denominator);
        Some(Dividing { place, row, pivot })
    }

    /// How this row is cleared at a place by a divided row, where both are narrow and no number might pass 62 bits.
    #[inline(always)]
    fn joining(&self, divided: &SparseRow, place: u32, factor: &Quotient) -> Option<Joining>
        requires widths { length divided.now ≡ length self.now }
        requires place { place + 1 < length self.now }
        requires factor { factor.now ≡ number_in self.now place }
        ensures place { IfSome result (λ joining. joining.place ≡ place) }
        ensures joining { IfSome result (λ joining. IsJoining joining) }
        ensures factor { IfSome result (λ joining. factor_of joining ≡ factor.now) }
        ensures row { IfSome result (λ joining. IsScaled joining.row self.now) }
        ensures divided { IfSome result (λ joining. IsScaled joining.divided divided.now) }
    {
        let (Some(own), Some(other)) = (self.scale, divided.scale) else {
            return None;
        };
        let numerator = numerator_of(factor, own.denominator);
        find_joining(place, own, other, numerator)
    }

    /// Becomes the pivot's own row, divided, by fractions.
    fn divide_fractions(&mut self, row: &SparseRow, number: u32, place: u32) -> Result<(), WideCell>
        requires { CanDivide (length self.old) row.now place }
        ensures { Divides number place row.now result self.old self.new }
    {
        let made = divide_row(&mut self.cells, row, number, place);
        self.count = made.count;
        self.bound = Quotient::of_fraction(made.bound);
        self.scale = None;
        self.marks = ALL_MARKED;
        self.denominator = 0;
        made.outcome
    }

    /// Becomes the pivot's own row, divided, by whole numbers, where that row is narrow; else it stays, and the answer is
    /// false. No operation on the fractions is refused then.
    fn divide_narrow(&mut self, row: &SparseRow, place: u32) -> bool
        requires { CanDivide (length self.old) row.now place }
        ensures passed { result ≡ true → (i : ℕ) → divide_refusal i place row.now ≡ None }
        ensures divided { result ≡ true → self.new ≡ divided place row.now }
        ensures width { length self.new ≡ length self.old }
        ensures narrow { result ≡ true → IsNarrow self.new }
    {
        let Some(dividing) = row.dividing(place) else {
            return false;
        };
        self.count = divide_whole(&mut self.cells, row, &dividing);
        self.bound = dividing.divided(&row.bound, false);
        self.scale = Some(dividing.scale());
        self.marks = ALL_MARKED;
        self.denominator = 0;
        true
    }

    /// Becomes the pivot's own row, divided, by whole numbers or else by fractions.
    fn divide_either(&mut self, row: &SparseRow, number: u32, place: u32) -> Result<(), WideCell>
        requires { CanDivide (length self.old) row.now place }
        ensures { Divides number place row.now result self.old self.new }
    {
        if self.divide_narrow(row, place) {
            return Ok(());
        }
        self.divide_fractions(row, number, place)
    }

    /// Becomes the pivot's own row, divided: one over the cell at `place`, and the other cells over that cell.
    pub fn divide(&mut self, row: &SparseRow, number: u32, place: u32) -> Result<(), WideCell>
        requires { CanDivide (length self.old) row.now place }
        ensures { Divides number place row.now result self.old self.new }
    {
        let outcome = self.divide_either(row, number, place);
        self.reduce();
        self.mark();
        outcome
    }

    /// Becomes another row cleared, by fractions. Apart, since few rows are, and a call pays for the room of all that it names.
    #[inline(never)]
    fn clear_fractions(
        &mut self,
        row: &SparseRow,
        divided: &SparseRow,
        elimination: &Elimination,
    ) -> Result<(), WideCell>
        requires { CanClear (length self.old) row.now divided.now elimination.now.place elimination.now.pivot elimination.now.factor }
        ensures { Clears elimination.now.number elimination.now.place row.now divided.now elimination.now.pivot result self.old self.new }
    {
        let made = clear_row(&mut self.cells, row, divided, elimination);
        self.count = made.count;
        self.bound = Quotient::of_fraction(made.bound);
        self.scale = None;
        self.marks = ALL_MARKED;
        self.denominator = 0;
        made.outcome
    }

    /// Becomes another row cleared, by whole numbers, where both rows are narrow and no number might pass 62 bits; else it
    /// stays, and the answer is false. No operation on the fractions is refused then.
    #[inline(always)]
    pub fn clear_narrow(
        &mut self,
        row: &SparseRow,
        divided: &SparseRow,
        place: u32,
        factor: &Quotient,
    ) -> bool
        requires width { length self.old ≡ length row.now }
        requires widths { length divided.now ≡ length row.now }
        requires place { place + 1 < length row.now }
        requires factor { factor.now ≡ number_in row.now place }
        requires own { number_in divided.now place ≡ whole (pos 0) → ⊥ }
        requires short { length row.now < 2 ^ 32 }
        ensures passed { result ≡ true → (i : ℕ) (pivot : ℚ) → (pivot ≡ whole (pos 0) → ⊥) → number_in divided.now place ≡ inverse_ℚ pivot
            → clear_refusal i place divided.now row.now pivot ≡ None }
        ensures cleared { result ≡ true → self.new ≡ cleared place divided.now row.now }
        ensures width { length self.new ≡ length self.old }
        ensures narrow { result ≡ true → IsNarrow self.new }
    {
        let Some(joining) = row.joining(divided, place, factor) else {
            return false;
        };
        let made = join(&mut self.cells, row, divided, &joining);
        self.count = made.made;
        let own = numerator_of(&row.bound, joining.row.denominator);
        self.bound = joined(&joining, own, false, &divided.bound);
        self.scale = joining.scale();
        self.marks = made.marks;
        self.denominator = joining.rescaling.to;
        true
    }

    /// Becomes another row cleared, by whole numbers or else by fractions.
    fn clear_either(
        &mut self,
        row: &SparseRow,
        divided: &SparseRow,
        elimination: &Elimination,
    ) -> Result<(), WideCell>
        requires { CanClear (length self.old) row.now divided.now elimination.now.place elimination.now.pivot elimination.now.factor }
        ensures { Clears elimination.now.number elimination.now.place row.now divided.now elimination.now.pivot result self.old self.new }
    {
        if self.clear_narrow(row, divided, elimination.place, &elimination.factor) {
            return Ok(());
        }
        let outcome = self.clear_fractions(row, divided, elimination);
        self.mark();
        outcome
    }

    /// Becomes another row cleared: each number less the factor, the row's cell at the place, times the divided row's, and at
    /// the place the negated quotient of the factor and the pivot.
    #[inline(always)]
    pub fn clear(
        &mut self,
        row: &SparseRow,
        divided: &SparseRow,
        elimination: &Elimination,
    ) -> Result<(), WideCell>
        requires { CanClear (length self.old) row.now divided.now elimination.now.place elimination.now.pivot elimination.now.factor }
        ensures { Clears elimination.now.number elimination.now.place row.now divided.now elimination.now.pivot result self.old self.new }
    {
        let outcome = self.clear_either(row, divided, elimination);
        self.narrow();
        outcome
    }
}
