//! Marks of the places of a row's cells, in one word: of most places without a cell, one test says so.

ghost use Rattle.std.specs.{Prelude.{◌≡◌, ℕ, ◌≤◌, ◌%◌, true, false, length, take}, Int.{bit_at}};
ghost use Rattle.fraction_tableau.specs.Marks.{AreMarked};

use crate::kept::Kept;

/// The mark of any cells: no bit is clear.
pub const ALL_MARKED: u64 = u64::MAX;

/// Marks and the mark of one more place: the bit of its rest by 64.
#[inline(always)]
pub fn with_mark(marks: u64, place: u32) -> u64
    ensures set { bit_at result (place % 64) ≡ 1 }
    ensures others { (i : ℕ) → (i ≡ place % 64 → ⊥) → bit_at result i ≡ bit_at marks i }
{
    marks | 1 << (place % 64)
}

/// The marks of the places of the first `count` cells.
pub fn marks_of(cells: &[Kept], count: usize) -> u64
    requires { count ≤ length cells.now }
    ensures { AreMarked result (take count cells.now) }
{
    let mut marks = 0;
    for index in 0..count {
        marks = with_mark(marks, cells[index].place);
    }
    marks
}

/// Whether the bit of a place is clear. Where it is, there is no cell.
#[inline(always)]
pub fn is_free(marks: u64, place: u32) -> bool
    ensures { result ≡ true → bit_at marks (place % 64) ≡ 0 }
{
    (marks >> (place % 64)) & 1 == 0
}

/// How many bits are set below that of a place: a guess of how many cells stand before it, to be tested.
#[inline(always)]
pub fn marked_below(marks: u64, place: u32) -> usize {
    (marks & ((1 << (place % 64)) - 1)).count_ones() as usize
}

/// Marks and the mark of one more place, where that has a cell; the same marks, where it has none.
#[inline(always)]
pub fn with_mark_where(marks: u64, place: u32, some: bool) -> u64
    ensures set { some ≡ true → bit_at result (place % 64) ≡ 1 }
    ensures others { (i : ℕ) → (i ≡ place % 64 → ⊥) → bit_at result i ≡ bit_at marks i }
    ensures same { some ≡ false → result ≡ marks }
{
    marks | (some as u64) << (place % 64)
}
