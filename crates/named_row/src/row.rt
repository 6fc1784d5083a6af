//! The type of a row: its numbers, sums of rows, and what a sum shows.

ghost use Rattle.std.specs.Prelude.{◌≡◌, ◌<◌, ◌^◌, length, IfOk, IfErr, true, false};
ghost use Rattle.narrow_fraction.specs.Attempt.{attempt};
ghost use Rattle.named_row.specs.{Sheets.{blank, IsWithin, at_place, with_place, with_times, left_at}, Refusals.{sum_refusal}};
ghost use Rattle.named_row.specs.Covering.{Covers, Refutes, uncovered, unrefuted};

use crate::cells::{add_cells, add_number, none_below, none_negative};
use crate::names::Place;
use crate::wide_at::WideAt;
use narrow_fraction::{Frac, Memory};
use std::alloc::Global;
use std::marker::Model;

/// A row: the sum of coefficient times column is at most the bound.
#[derive(Drop)]
pub struct Row {
    coefs: Vec<Frac>,
    bound: Frac,
    spent: bool,
}

impl Model for Row {
    ghost use Rattle.std.specs.Prelude.{◌<◌, ◌^◌, length};
    ghost use Rattle.named_row.specs.Sheets.{Sheet};

    ghost Value = { Sheet };

    ghost view = { λ r. record { coefs = r.coefs.items; bound = r.bound; spent = r.spent } };

    ghost invariant = { λ r. length r.coefs.items < 2 ^ 32 };
}

impl Row {
    /// A row of `width` columns, all numbers 0.
    #[tactic(auto, unfolding(crate::specs::Sheets::blank))]
    pub fn zero(alloc: Global, width: u32) -> Result<Row, Memory>
        ensures value { IfOk result (λ row. row ≡ blank width) }
        ensures width { IfOk result (λ row. length row.coefs ≡ width) }
        ensures unspent { IfOk result (λ row. row.spent ≡ false) }
    {
        let zero = Frac::whole(0);
        let mut coefs = Vec::new(alloc);
        coefs.resize(width as usize, zero)?;
        Ok(Row {
            coefs,
            bound: zero,
            spent: false,
        })
    }

    /// All numbers become 0, and the row is not spent. The width stays.
    #[tactic(auto, unfolding(crate::specs::Sheets::blank))]
    pub fn clear(&mut self)
        ensures value { self.new ≡ blank (length self.old.coefs) }
        ensures width { length self.new.coefs ≡ length self.old.coefs }
        ensures unspent { self.new.spent ≡ false }
    {
        let zero = Frac::whole(0);
        self.coefs.fill(zero);
        self.bound = zero;
        self.spent = false;
    }

    /// The number at a place becomes `value`. Whether the row is spent stays.
    #[tactic(auto, unfolding(crate::specs::Sheets::with_place))]
    pub fn set(&mut self, place: Place, value: Frac)
        requires { IsWithin place (length self.old.coefs) }
        ensures value { self.new ≡ with_place place value self.old }
        ensures width { length self.new.coefs ≡ length self.old.coefs }
        ensures mark { self.new.spent ≡ self.old.spent }
    {
        match place {
            Place::Cell(column) => self.coefs[column as usize] = value,
            Place::Bound => self.bound = value,
        }
    }

    /// The number at a place.
    #[tactic(auto, unfolding(crate::specs::Sheets::at_place))]
    pub fn get(&self, place: Place) -> Frac
        requires { IsWithin place (length self.now.coefs) }
        ensures { result ≡ at_place place self.now }
    {
        match place {
            Place::Cell(column) => self.coefs[column as usize],
            Place::Bound => self.bound,
        }
    }

    /// Whether a sum was refused since the row was last cleared.
    pub fn is_spent(&self) -> bool
        ensures { result ≡ self.now.spent }
    {
        self.spent
    }

    /// Adds `by` times the other row, exactly: for each column in order and then the bound a product and a sum.
    ///
    /// The refusal is the first of these operations that leaves 128 bits, with its place and its operands; the row is
    /// spent from then on, with the sum's numbers before that place, and from it on those that it had.
    pub fn add_scaled(&mut self, by: Frac, other: &Row) -> Result<(), WideAt>
        requires width { length other.now.coefs ≡ length self.old.coefs }
        requires unspent { self.old.spent ≡ false }
        requires other { other.now.spent ≡ false }
        ensures outcome { result ≡ attempt (sum_refusal by other.now self.old) tt }
        ensures sum { IfOk result (λ _. self.new ≡ with_times by other.now self.old) }
        ensures unspent { IfOk result (λ _. self.new.spent ≡ false) }
        ensures spent { IfErr result (λ _. self.new.spent ≡ true) }
        ensures left { IfErr result (λ w. self.new ≡ left_at w.place by other.now self.old) }
        ensures width { length self.new.coefs ≡ length self.old.coefs }
    {
        if let Err(wide) = add_cells(&mut self.coefs, by, &other.coefs) {
            self.spent = true;
            return Err(wide);
        }
        match add_number(self.bound, by, other.bound, Place::Bound) {
            Ok(sum) => {
                self.bound = sum;
                Ok(())
            }
            Err(wide) => {
                self.spent = true;
                Err(wide)
            }
        }
    }

    /// Whether each coefficient is at least the goal's and the bound is at most `value`.
    ///
    /// The refusal is the first column whose coefficient is less than the goal's, and where there is none, the bound.
    pub fn covers(&self, goal: &Row, value: Frac) -> Result<(), Place>
        requires width { length goal.now.coefs ≡ length self.now.coefs }
        requires unspent { self.now.spent ≡ false }
        ensures outcome { result ≡ attempt (uncovered self.now goal.now value) tt }
        ensures covers { IfOk result (λ _. Covers self.now goal.now value) }
    {
        if let Err(place) = none_below(&self.coefs, &goal.coefs) {
            return Err(place);
        }
        if value < self.bound {
            return Err(Place::Bound);
        }
        Ok(())
    }

    /// Whether no coefficient is negative and the bound is: then no point of columns that are at least 0 meets the row.
    ///
    /// The refusal is the first column with a negative coefficient, and where there is none, the bound.
    pub fn refutes(&self) -> Result<(), Place>
        requires unspent { self.now.spent ≡ false }
        ensures outcome { result ≡ attempt (unrefuted self.now) tt }
        ensures refutes { IfOk result (λ _. Refutes self.now) }
    {
        if let Err(place) = none_negative(&self.coefs) {
            return Err(place);
        }
        if Frac::whole(0) <= self.bound {
            return Err(Place::Bound);
        }
        Ok(())
    }
}
