//! Rows and tableaus of two columns.

ghost use Rattle.std.specs.Prelude.{◌≡◌, ◌<◌, length, IfSome, true, false, pos};
ghost use Rattle.rational_theory.specs.Rational.{whole};
ghost use Rattle.simplex_theory.specs.Tableau.{cell, height, width};
ghost use Rattle.fraction_tableau.specs.Loading.{IsUnpivoted};

use fraction_tableau::{Tableau, WideCell};
use named_row::{Place, Row, RowId};
use narrow_fraction::{Frac, Quotient};
use std::alloc::Global;

pub const TWO_126: i128 = 85_070_591_730_234_615_865_843_651_857_942_052_864;

/// A row of two columns: its numbers, the bound last.
pub fn row(alloc: Global, numbers: [Frac; 3]) -> Option<Row>
    ensures width { IfSome result (λ row. length row.coefs ≡ 2) }
    ensures unspent { IfSome result (λ row. row.spent ≡ false) }
{
    let mut row = match Row::zero(alloc, 2) {
        Ok(row) => row,
        Err(_) => return None,
    };
    let [first, second, bound] = numbers;
    row.set(Place::Cell(0), first);
    row.set(Place::Cell(1), second);
    row.set(Place::Bound, bound);
    Some(row)
}

/// The whole numbers of a row.
pub fn wholes(numbers: [i64; 3]) -> [Frac; 3] {
    numbers.map(Frac::whole)
}

/// A tableau of up to nine rows and two columns, where memory lasts.
pub fn blank(alloc: Global, rows: usize) -> Option<Tableau>
    ensures { IfSome result (λ tableau. IsUnpivoted tableau.table) }
{
    if rows > 9 {
        return None;
    }
    match Tableau::new(alloc, rows as u32, 2) {
        Ok(tableau) => Some(tableau),
        Err(_) => None,
    }
}

/// Loads a row of these numbers, where the tableau has that row and two columns.
pub fn load(
    alloc: Global,
    tableau: &mut Tableau,
    number: u32,
    name: RowId,
    numbers: [Frac; 3],
) -> Option<()>
    ensures { IsUnpivoted tableau.old.table → IsUnpivoted tableau.new.table }
{
    let from = row(alloc, numbers)?;
    if number >= tableau.rows() || tableau.width() != 2 {
        return None;
    }
    tableau.load(number, name, &from);
    Some(())
}

/// Loads a goal of these numbers, where the tableau has two columns.
pub fn load_goal(alloc: Global, tableau: &mut Tableau, numbers: [Frac; 3]) -> Option<()>
    ensures { IsUnpivoted tableau.old.table → IsUnpivoted tableau.new.table }
{
    let from = row(alloc, numbers)?;
    if tableau.width() != 2 {
        return None;
    }
    tableau.load_goal(&from);
    Some(())
}

/// Whether a pivot may be made there.
fn may_pivot(tableau: &Tableau, row: u32, col: u32) -> bool
    ensures row { result ≡ true → row < height tableau.now.table }
    ensures col { result ≡ true → col < width tableau.now.table }
    ensures pivot { result ≡ true → cell tableau.now.table row col ≡ whole (pos 0) → ⊥ }
    ensures unspent { result ≡ true → tableau.now.spent ≡ false }
{
    if row >= tableau.rows() || col >= tableau.width() || tableau.is_spent() {
        return false;
    }
    if tableau.cell(row, col) == Frac::whole(0) {
        return false;
    }
    true
}

/// The pivot, where it may be made.
pub fn pivot(tableau: &mut Tableau, row: u32, col: u32) -> Option<Result<(), WideCell>> {
    if !may_pivot(tableau, row, col) {
        return None;
    }
    Some(tableau.pivot(row, col))
}

/// The same, with what the rows had at the place noted.
pub fn pivot_noting(
    tableau: &mut Tableau,
    row: u32,
    col: u32,
    column: &mut [Quotient],
) -> Option<Result<(), WideCell>> {
    if !may_pivot(tableau, row, col) {
        return None;
    }
    Some(tableau.pivot_noting(row, col, column))
}
