//! A row is made narrow: its scale is found, and its numbers are held over the scale's denominator.

ghost use Rattle.std.specs.Prelude.{◌≡◌, ℕ, ◌<◌, ◌≤◌, ◌^◌, length, unsigned_abs, IfSome, SomeIff};
ghost use Rattle.rational_theory.specs.Gcd.{lcm};
ghost use Rattle.fraction_tableau.specs.Scales.{IsOver, cell_at};

use crate::kept::Kept;
use crate::scale::{MOST, Scale, numerator_of};
use narrow_fraction::{Frac, Quotient, common_multiple, word_divisor};

/// The least common multiple of a denominator and that of a number, where it has at most 42 bits.
fn join_denominator(denominator: u64, number: Frac) -> Option<u64>
    requires { 0 < denominator }
    ensures { SomeIff result (lcm denominator number.den < 2 ^ 42) (lcm denominator number.den) }
{
    match common_multiple(denominator as u128, number.den().unsigned_abs()) {
        Some(joined) if joined <= MOST as u128 => Some(joined as u64),
        _ => None,
    }
}

/// A denominator that the first `count` cells and the bound have in common, where it has at most 42 bits: the least one.
fn common_denominator(cells: &[Kept], count: usize, bound: &Quotient) -> Option<u64>
    requires { count ≤ length cells.now }
    ensures above { IfSome result (λ denominator. 0 < denominator) }
    ensures short { IfSome result (λ denominator. denominator < 2 ^ 42) }
{
    let mut common = join_denominator(1, bound.fraction())?;
    for index in 0..count {
        match join_denominator(common, cells[index].cell.fraction()) {
            Some(joined) => common = joined,
            None => return None,
        }
    }
    Some(common)
}

/// The greater one of a size and that of a number's numerator, where the number has one of at most 42 bits.
pub fn grown(most: u64, number: &Quotient, denominator: u64) -> Option<u64>
    requires above { 0 < denominator }
    requires short { most < 2 ^ 42 }
    ensures more { IfSome result (λ grown. most ≤ grown) }
    ensures short { IfSome result (λ grown. grown < 2 ^ 42) }
    ensures over { IfSome result (λ grown. IsOver denominator grown number.now) }
{
    let numerator = number.numerator_over(denominator).unwrap_or(i64::MIN);
    let size = numerator.unsigned_abs();
    if size > MOST {
        return None;
    }
    Some(most.max(size))
}

/// The scale of the first `count` cells and the bound over a denominator, where they have one.
fn measured(cells: &[Kept], count: usize, bound: &Quotient, denominator: u64) -> Option<Scale>
    requires count { count ≤ length cells.now }
    requires above { 0 < denominator }
    requires short { denominator < 2 ^ 42 }
    ensures denominator { IfSome result (λ scale. scale.denominator ≡ denominator) }
    ensures least { IfSome result (λ scale. denominator ≤ scale.most) }
    ensures short { IfSome result (λ scale. scale.most < 2 ^ 42) }
    ensures bound { IfSome result (λ scale. IsOver denominator scale.most bound.now) }
    ensures cells { IfSome result (λ scale. (i : ℕ) → i < count → IsOver denominator scale.most (cell_at cells.now i)) }
{
    let mut most = grown(denominator, bound, denominator)?;
    for index in 0..count {
        match grown(most, &cells[index].cell, denominator) {
            Some(size) => most = size,
            None => return None,
        }
    }
    Some(Scale { denominator, most })
}

/// The same for any denominator.
fn measured_over(cells: &[Kept], count: usize, bound: &Quotient, denominator: u64) -> Option<Scale>
    requires { count ≤ length cells.now }
    ensures above { IfSome result (λ scale. 0 < scale.denominator) }
    ensures least { IfSome result (λ scale. scale.denominator ≤ scale.most) }
    ensures short { IfSome result (λ scale. scale.most < 2 ^ 42) }
    ensures bound { IfSome result (λ scale. IsOver scale.denominator scale.most bound.now) }
    ensures cells { IfSome result (λ scale. (i : ℕ) → i < count → IsOver scale.denominator scale.most (cell_at cells.now i)) }
{
    if denominator == 0 || denominator > MOST {
        return None;
    }
    measured(cells, count, bound, denominator)
}

/// The scale of the first `count` cells and the bound over their least common denominator, where no number has more than 42
/// bits.
fn least_scale(cells: &[Kept], count: usize, bound: &Quotient) -> Option<Scale>
    requires { count ≤ length cells.now }
    ensures above { IfSome result (λ scale. 0 < scale.denominator) }
    ensures least { IfSome result (λ scale. scale.denominator ≤ scale.most) }
    ensures short { IfSome result (λ scale. scale.most < 2 ^ 42) }
    ensures bound { IfSome result (λ scale. IsOver scale.denominator scale.most bound.now) }
    ensures cells { IfSome result (λ scale. (i : ℕ) → i < count → IsOver scale.denominator scale.most (cell_at cells.now i)) }
{
    match common_denominator(cells, count, bound) {
        Some(denominator) => measured(cells, count, bound, denominator),
        None => None,
    }
}

/// A number held over a denominator, where it has a numerator there; else as it is, as over 0. The same number.
pub fn held_where(number: &Quotient, denominator: u64) -> Quotient
    ensures { result ≡ number.now }
{
    if denominator == 0 {
        return number.copied();
    }
    match number.numerator_over(denominator) {
        Some(numerator) => Quotient::of_words(numerator, denominator),
        None => number.copied(),
    }
}

/// The first `count` cells, each held over a denominator where it has a numerator there: the same numbers. So they are
/// divided once, and then measured and read without a division.
pub fn hold_where(cells: &mut [Kept], count: usize, denominator: u64)
    requires { count ≤ length cells.old }
    ensures { cells.new ≡ cells.old }
{
    for index in 0..count {
        cells[index].cell = held_where(&cells[index].cell, denominator);
    }
}

/// The scale of the first `count` cells and the bound over the denominator without what it has in common with their
/// numerators, over which the cells are held then, or else over their least common one.
fn reduced_scale(
    cells: &mut [Kept],
    count: usize,
    bound: &Quotient,
    denominator: u64,
) -> Option<Scale>
    requires { count ≤ length cells.old }
    ensures same { cells.new ≡ cells.old }
    ensures above { IfSome result (λ scale. 0 < scale.denominator) }
    ensures least { IfSome result (λ scale. scale.denominator ≤ scale.most) }
    ensures short { IfSome result (λ scale. scale.most < 2 ^ 42) }
    ensures bound { IfSome result (λ scale. IsOver scale.denominator scale.most bound.now) }
    ensures cells { IfSome result (λ scale. (i : ℕ) → i < count → IsOver scale.denominator scale.most (cell_at cells.old i)) }
{
    let reduced = reduced_denominator(cells, count, bound, denominator);
    hold_where(cells, count, reduced);
    match measured_over(cells, count, bound, reduced) {
        Some(scale) => Some(scale),
        None => least_scale(cells, count, bound),
    }
}

/// The scale of the first `count` cells and the bound, over the denominator that they may be held over, without what it has in
/// common with their numerators, or else over their least common one.
fn find_scale(cells: &mut [Kept], count: usize, bound: &Quotient, denominator: u64) -> Option<Scale>
    requires { count ≤ length cells.old }
    ensures same { cells.new ≡ cells.old }
    ensures above { IfSome result (λ scale. 0 < scale.denominator) }
    ensures least { IfSome result (λ scale. scale.denominator ≤ scale.most) }
    ensures short { IfSome result (λ scale. scale.most < 2 ^ 42) }
    ensures bound { IfSome result (λ scale. IsOver scale.denominator scale.most bound.now) }
    ensures cells { IfSome result (λ scale. (i : ℕ) → i < count → IsOver scale.denominator scale.most (cell_at cells.old i)) }
{
    match measured_over(cells, count, bound, denominator) {
        Some(scale) => Some(scale),
        None => reduced_scale(cells, count, bound, denominator),
    }
}

/// The same number, held over the scale's denominator.
pub fn held_over(number: &Quotient, scale: Scale) -> Quotient
    requires above { 0 < scale.denominator }
    requires short { scale.most < 2 ^ 42 }
    requires over { IsOver scale.denominator scale.most number.now }
    ensures { result ≡ number.now }
{
    Quotient::of_words(numerator_of(number, scale.denominator), scale.denominator)
}

/// The first `count` cells, held over the scale's denominator: the same numbers.
fn hold_over(cells: &mut [Kept], count: usize, scale: Scale)
    requires count { count ≤ length cells.old }
    requires above { 0 < scale.denominator }
    requires short { scale.most < 2 ^ 42 }
    requires over { (i : ℕ) → i < count → IsOver scale.denominator scale.most (cell_at cells.old i) }
    ensures { cells.new ≡ cells.old }
{
    for index in 0..count {
        cells[index].cell = held_over(&cells[index].cell, scale);
    }
}

/// The first `count` cells, held in lowest terms: the same numbers.
fn hold_lowest(cells: &mut [Kept], count: usize)
    requires { count ≤ length cells.old }
    ensures { cells.new ≡ cells.old }
{
    for index in 0..count {
        cells[index].cell = Quotient::of_fraction(cells[index].cell.fraction());
    }
}

/// The first `count` cells, held over the scale that they and the bound have, where they have one, and else in lowest terms:
/// the same numbers. `denominator` is one over which they may be held.
pub fn hold_narrow(
    cells: &mut [Kept],
    count: usize,
    bound: &Quotient,
    denominator: u64,
) -> Option<Scale>
    requires { count ≤ length cells.old }
    ensures same { cells.new ≡ cells.old }
    ensures above { IfSome result (λ scale. 0 < scale.denominator) }
    ensures least { IfSome result (λ scale. scale.denominator ≤ scale.most) }
    ensures short { IfSome result (λ scale. scale.most < 2 ^ 42) }
    ensures bound { IfSome result (λ scale. IsOver scale.denominator scale.most bound.now) }
    ensures cells { IfSome result (λ scale. (i : ℕ) → i < count → IsOver scale.denominator scale.most (cell_at cells.old i)) }
{
    match find_scale(cells, count, bound, denominator) {
        Some(scale) => {
            hold_over(cells, count, scale);
            Some(scale)
        }
        None => {
            hold_lowest(cells, count);
            None
        }
    }
}

/// The size of the numerator of a number over a denominator, or 1 where it has none.
fn size_over(number: &Quotient, denominator: u64) -> u64
    requires { 0 < denominator }
{
    number
        .numerator_over(denominator)
        .unwrap_or(1)
        .unsigned_abs()
}

/// What a denominator and the numerators over it, those of the first `count` cells and the bound, have in common.
fn shared_divisor(cells: &[Kept], count: usize, bound: &Quotient, denominator: u64) -> u64
    requires count { count ≤ length cells.now }
    requires above { 0 < denominator }
{
    let mut shared = word_divisor(size_over(bound, denominator), denominator);
    for index in 0..count {
        if shared == 1 {
            return shared;
        }
        shared = word_divisor(size_over(&cells[index].cell, denominator), shared);
    }
    shared
}

/// A denominator without what it has in common with the numerators over it: a guess, which is tested. 0 stays 0.
pub fn reduced_denominator(cells: &[Kept], count: usize, bound: &Quotient, denominator: u64) -> u64
    requires { count ≤ length cells.now }
{
    if denominator == 0 {
        return 0;
    }
    denominator
        .checked_div(shared_divisor(cells, count, bound, denominator))
        .unwrap_or(0)
}
