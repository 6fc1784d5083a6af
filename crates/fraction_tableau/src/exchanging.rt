//! The cells of a whole exchange, and of all rows at once.

ghost use Rattle.std.specs.Prelude.{◌≡◌, ℕ, ◌+◌, ◌<◌, ◌≤◌, ◌^◌, pos, length, get_or, set, eqb, cond, true, false, None, IfOk, []};
ghost use Rattle.rational_theory.specs.Rational.{whole};
ghost use Rattle.simplex_theory.specs.Lines.{divided, cleared};
ghost use Rattle.narrow_fraction.specs.Attempt.{attempt, first_below};
ghost use Rattle.fraction_tableau.specs.{Narrow.{IsNarrow, AreNarrow}, RowChanges.{IsPivoted, Clears}, KeptCells.{number_in}};
ghost use Rattle.fraction_tableau.specs.{Refusals.{row_refusal, pivot_refusal, exchanged_rows}, Columns.{AreNoted}};

use crate::fractions::Elimination;
use crate::sparse_row::SparseRow;
use crate::wide_cell::{Spot, WideCell};
use narrow_fraction::{Frac, Quotient};
use std::mem;

/// Each row becomes the one at its place in another list of rows as wide.
pub fn copy_rows(sparse_rows: &mut [SparseRow], from: &[SparseRow])
    requires count { length sparse_rows.old ≡ length from.now }
    requires widths { (i : ℕ) → i < length sparse_rows.old → length (get_or sparse_rows.old i []) ≡ length (get_or from.now i []) }
    requires short { (i : ℕ) → i < length sparse_rows.old → length (get_or sparse_rows.old i []) ≤ 2 ^ 32 }
    ensures { sparse_rows.new ≡ from.now }
{
    for index in 0..sparse_rows.len() {
        sparse_rows[index].copy_from(&from[index]);
    }
}

/// The pivot: its row, its place there, and its number.
#[derive(Clone, Copy)]
struct Pivot {
    row: usize,
    place: u32,
    cell: Frac,
}

/// Notes what a row has at the pivot's place, where there is room for it.
#[inline(always)]
fn note(column: &mut [Quotient], index: usize, factor: &Quotient)
    ensures noted { index < length column.old → number_in column.new index ≡ factor.now }
    ensures others { (i : ℕ) → (i ≡ index → ⊥) → number_in column.new i ≡ number_in column.old i }
{
    if index < column.len() {
        column[index] = factor.copied();
    }
}

/// One row cleared, unless it is the pivot's own row. A row with 0 at the pivot's place stays; another is made in `room`,
/// which is then exchanged with it.
#[inline(never)]
fn clear_one(
    sparse_rows: &mut [SparseRow],
    room: &mut SparseRow,
    divided: &SparseRow,
    pivot: &Pivot,
    index: usize,
) -> Result<(), WideCell>
    requires inside { index < length sparse_rows.old }
    requires few { length sparse_rows.old < 2 ^ 32 }
    requires width { length (get_or sparse_rows.old index []) ≡ length divided.now }
    requires room { length room.old ≡ length divided.now }
    requires pivot { IsPivoted divided.now pivot.now.place pivot.now.cell }
    requires narrow { AreNarrow sparse_rows.old }
    ensures outcome { result ≡ attempt (row_refusal pivot.now.row pivot.now.place divided.now pivot.now.cell sparse_rows.old index) tt }
    ensures kept { (k : ℕ) → length (get_or sparse_rows.new k []) ≡ length (get_or sparse_rows.old k []) }
    ensures room { length room.new ≡ length room.old }
    ensures cleared { IfOk result (λ _. sparse_rows.new ≡ cond (eqb index pivot.now.row) sparse_rows.old
        (set sparse_rows.old index (cleared pivot.now.place divided.now (get_or sparse_rows.old index [])))) }
    ensures narrow { AreNarrow sparse_rows.new }
{
    if index == pivot.row {
        return Ok(());
    }
    let factor = sparse_rows[index].held(pivot.place);
    if factor.is_zero() {
        return Ok(());
    }
    let elimination = Elimination {
        number: index as u32,
        place: pivot.place,
        pivot: pivot.cell,
        factor,
    };
    if let Err(wide) = room.clear(&sparse_rows[index], divided, &elimination) {
        return Err(wide);
    }
    mem::swap(&mut sparse_rows[index], room);
    Ok(())
}

/// One row cleared by whole numbers, where it and the divided row are narrow. Else, and where it is the pivot's own row, it
/// stays, and the answer is false. Apart from `clear_one`, since a call pays for the room of all that it names, and few rows
/// come there.
#[inline(never)]
fn clear_whole(
    sparse_rows: &mut [SparseRow],
    room: &mut SparseRow,
    divided: &SparseRow,
    pivot: &Pivot,
    index: usize,
    factor: &Quotient,
) -> bool
    requires inside { index < length sparse_rows.old }
    requires few { length sparse_rows.old < 2 ^ 32 }
    requires width { length (get_or sparse_rows.old index []) ≡ length divided.now }
    requires room { length room.old ≡ length divided.now }
    requires pivot { IsPivoted divided.now pivot.now.place pivot.now.cell }
    requires factor { factor.now ≡ number_in (get_or sparse_rows.old index []) pivot.now.place }
    requires narrow { AreNarrow sparse_rows.old }
    ensures passed { result ≡ true → row_refusal pivot.now.row pivot.now.place divided.now pivot.now.cell sparse_rows.old index ≡ None }
    ensures kept { (k : ℕ) → length (get_or sparse_rows.new k []) ≡ length (get_or sparse_rows.old k []) }
    ensures room { length room.new ≡ length room.old }
    ensures cleared { result ≡ true → sparse_rows.new ≡ cond (eqb index pivot.now.row) sparse_rows.old
        (set sparse_rows.old index (cleared pivot.now.place divided.now (get_or sparse_rows.old index []))) }
    ensures stays { result ≡ false → sparse_rows.new ≡ sparse_rows.old }
    ensures narrow { AreNarrow sparse_rows.new }
{
    if index == pivot.row {
        return false;
    }
    if !room.clear_narrow(&sparse_rows[index], divided, pivot.place, factor) {
        return false;
    }
    room.narrow();
    mem::swap(&mut sparse_rows[index], room);
    true
}

/// Every row but the pivot's own, in order. What each row had at the pivot's place, its own row too, is noted in the column.
fn clear_others(
    sparse_rows: &mut [SparseRow],
    room: &mut SparseRow,
    divided: &SparseRow,
    pivot: &Pivot,
    column: &mut [Quotient],
) -> Result<(), WideCell>
    requires few { length sparse_rows.old < 2 ^ 32 }
    requires widths { (i : ℕ) → i < length sparse_rows.old → length (get_or sparse_rows.old i []) ≡ length divided.now }
    requires room { length room.old ≡ length divided.now }
    requires pivot { IsPivoted divided.now pivot.now.place pivot.now.cell }
    requires narrow { AreNarrow sparse_rows.old }
    ensures outcome { result ≡ attempt (first_below (row_refusal pivot.now.row pivot.now.place divided.now pivot.now.cell sparse_rows.old) (length sparse_rows.old)) tt }
    ensures kept { (k : ℕ) → length (get_or sparse_rows.new k []) ≡ length (get_or sparse_rows.old k []) }
    ensures room { length room.new ≡ length room.old }
    ensures cleared { IfOk result (λ _. (k : ℕ) → k < length sparse_rows.old → (k ≡ pivot.now.row → ⊥)
        → get_or sparse_rows.new k [] ≡ cleared pivot.now.place divided.now (get_or sparse_rows.old k [])) }
    ensures narrow { AreNarrow sparse_rows.new }
    ensures noted { IfOk result (λ _. AreNoted sparse_rows.old pivot.now.place (length sparse_rows.old) column.new) }
    ensures later { (k : ℕ) → length sparse_rows.old ≤ k → number_in column.new k ≡ number_in column.old k }
{
    for index in 0..sparse_rows.len() {
        let factor = sparse_rows[index].held(pivot.place);
        note(column, index, &factor);
        if factor.is_zero() {
            continue;
        }
        if clear_whole(sparse_rows, room, divided, pivot, index, &factor) {
            continue;
        }
        if let Err(wide) = clear_one(sparse_rows, room, divided, pivot, index) {
            return Err(wide);
        }
    }
    Ok(())
}

/// The goal row cleared, into `spare`. What it has at the pivot's place is noted after what the rows have there.
fn clear_goal(
    spare: &mut SparseRow,
    goal: &SparseRow,
    divided: &SparseRow,
    number: u32,
    pivot: &Pivot,
    column: &mut [Quotient],
) -> Result<(), WideCell>
    requires width { length goal.now ≡ length divided.now }
    requires spare { length spare.old ≡ length divided.now }
    requires pivot { IsPivoted divided.now pivot.now.place pivot.now.cell }
    requires narrow { IsNarrow goal.now }
    ensures cleared { Clears number pivot.now.place goal.now divided.now pivot.now.cell result spare.old spare.new }
    ensures noted { number < length column.old → number_in column.new number ≡ number_in goal.now pivot.now.place }
{
    let factor = goal.held(pivot.place);
    note(column, number as usize, &factor);
    if factor.is_zero() {
        spare.copy_from(goal);
        return Ok(());
    }
    let elimination = Elimination {
        number,
        place: pivot.place,
        pivot: pivot.cell,
        factor,
    };
    spare.clear(goal, divided, &elimination)
}

/// The cells of an exchange on a row and a place: the rows in place, and the goal row into `spare`.
/// The divided row is made in `held` and takes its place last, and `room` is for one row after another. What each row and then
/// the goal row had at the place is noted in `column`, as far as there is room.
pub fn exchange_cells(
    sparse_rows: &mut [SparseRow],
    goal: &SparseRow,
    spare: &mut SparseRow,
    held: &mut SparseRow,
    room: &mut SparseRow,
    at: Spot,
    column: &mut [Quotient],
) -> Result<(), WideCell>
    requires inside { at.row < length sparse_rows.old }
    requires few { length sparse_rows.old < 2 ^ 32 }
    requires widths { (i : ℕ) → i < length sparse_rows.old → length (get_or sparse_rows.old i []) ≡ length goal.now }
    requires spare { length spare.old ≡ length goal.now }
    requires held { length held.old ≡ length goal.now }
    requires room { length room.old ≡ length goal.now }
    requires place { at.col + 1 < length goal.now }
    requires pivot { number_in (get_or sparse_rows.old at.row []) at.col ≡ whole (pos 0) → ⊥ }
    requires short { length goal.now < 2 ^ 32 }
    requires narrow { AreNarrow sparse_rows.old }
    requires narrow_goal { IsNarrow goal.now }
    ensures outcome { result ≡ attempt (pivot_refusal at.row at.col sparse_rows.old goal.now) tt }
    ensures kept { (k : ℕ) → length (get_or sparse_rows.new k []) ≡ length (get_or sparse_rows.old k []) }
    ensures spare { length spare.new ≡ length spare.old }
    ensures held { length held.new ≡ length held.old }
    ensures room { length room.new ≡ length room.old }
    ensures rows { IfOk result (λ _. sparse_rows.new ≡ exchanged_rows at.row at.col sparse_rows.old) }
    ensures goal_row { IfOk result (λ _. spare.new ≡ cleared at.col (divided at.col (get_or sparse_rows.old at.row [])) goal.now) }
    ensures narrow { AreNarrow sparse_rows.new }
    ensures narrow_goal { IfOk result (λ _. IsNarrow spare.new) }
    ensures noted { IfOk result (λ _. AreNoted sparse_rows.old at.col (length sparse_rows.old) column.new) }
    ensures noted_goal { IfOk result (λ _. length sparse_rows.old < length column.new
        → number_in column.new (length sparse_rows.old) ≡ number_in goal.now at.col) }
{
    let row = at.row as usize;
    let pivot = Pivot {
        row,
        place: at.col,
        cell: sparse_rows[row].cell(at.col),
    };
    if let Err(wide) = held.divide(&sparse_rows[row], at.row, at.col) {
        return Err(wide);
    }
    if let Err(wide) = clear_goal(spare, goal, held, sparse_rows.len() as u32, &pivot, column) {
        return Err(wide);
    }
    if let Err(wide) = clear_others(sparse_rows, room, held, &pivot, column) {
        return Err(wide);
    }
    mem::swap(&mut sparse_rows[row], held);
    Ok(())
}
