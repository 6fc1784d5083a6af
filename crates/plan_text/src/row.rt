//! The rows of a leaf, each with its multiplier.

ghost use Rattle.std.specs.Prelude.{◌≡◌, ◌+◌, ◌<◌, ◌^◌, map, option_map, slice_get, length, Ok, None};
ghost use Rattle.plan_text.specs.{Lines.{Gives, ranged}, Numbers.{number}, Namings.{naming_of, IsSmall, IsFormed}};
ghost use Rattle.certificate_model.specs.Families.{table_of, is_after};
ghost use Rattle.plan_text.specs.CertificateReading.{range_of, index_of, lone_row, indexed_row, row_of, listed_row, row_in, cut_last, weight_of, read_after, row_of_weight, weights_at};

use crate::family::family_in;
use crate::fault::{TextEnd, TextFault};
use crate::form::LeafForm;
use crate::fraction::multiplier_of;
use crate::lines::{NumberLine, bad, ranged, words_at};
use crate::naming::Naming;
use certificate_model::{FamilyName, is_lone_in};
use named_row::{RowId, Weight};
use std::alloc::Global;

/// One number of a line, within a range.
pub fn range(line: u64, least: u128, greatest: u128) -> NumberLine
    ensures { result ≡ range_of line least greatest }
{
    NumberLine {
        line,
        fewest: 1,
        most: 1,
        least,
        greatest,
    }
}

/// A number of 32 bits from `least` on, at most `greatest`.
pub fn small(line: u64, least: u128, greatest: u32, word: &[u8]) -> Result<u32, TextEnd>
    ensures { Gives (λ n. n) result (ranged (range_of line least greatest) (number word.now)) }
{
    let number = ranged(range(line, least, u128::from(greatest)), word)?;
    Ok(number as u32)
}

/// The number of a link or signal.
#[tactic(auto, unfolding(crate::specs::CertificateReading::index_of))]
pub fn index_of(line: u64, word: &[u8]) -> Result<u32, TextEnd>
    ensures { Gives (λ n. n) result (index_of line word.now) }
{
    small(line, 1, u32::MAX, word)
}

/// The row of a family with one row, by the words after the family's name.
#[tactic(auto, unfolding(crate::specs::CertificateReading::lone_row))]
fn lone_row(line: u64, family: u8, words: &[&[u8]]) -> Result<RowId, TextEnd>
    ensures { Gives (λ row. row) result (lone_row line family (map (λ w. w.now) words.now)) }
{
    match words {
        [] => Ok(RowId { family, index: 0 }),
        _ => Err(bad(line, TextFault::Shape)),
    }
}

/// The row of another family, by the words after the family's name.
#[tactic(auto, unfolding(crate::specs::CertificateReading::indexed_row))]
fn indexed_row(line: u64, family: u8, words: &[&[u8]]) -> Result<RowId, TextEnd>
    ensures { Gives (λ row. row) result (indexed_row line family (map (λ w. w.now) words.now)) }
{
    match words {
        [index] => {
            let index = index_of(line, index)?;
            Ok(RowId { family, index })
        }
        _ => Err(bad(line, TextFault::Shape)),
    }
}

/// The row of this name.
#[tactic(auto, unfolding(crate::specs::CertificateReading::row_of))]
pub fn row_of(names: &[FamilyName], line: u64, words: &[&[u8]]) -> Result<RowId, TextEnd>
    requires { length names.now < 2 ^ 8 }
    ensures { Gives (λ row. row) result (row_of (table_of names.now) line (map (λ w. w.now) words.now)) }
{
    let [name, words @ ..] = words else {
        return Err(bad(line, TextFault::Shape));
    };
    match family_in(names, name) {
        Some(family) if is_lone_in(names, family) => lone_row(line, family, words),
        Some(family) => indexed_row(line, family, words),
        None => Err(bad(line, TextFault::Shape)),
    }
}

fn row_at(rows: &[RowId], index: usize) -> Option<RowId>
    ensures { result ≡ slice_get rows.now index }
{
    match rows.get(index) {
        Some(row) => Some(*row),
        None => None,
    }
}

/// The row at this place of a list.
#[tactic(auto, unfolding(crate::specs::CertificateReading::listed_row))]
fn listed_row(rows: &[RowId], line: u64, words: &[&[u8]]) -> Result<RowId, TextEnd>
    ensures { Gives (λ row. row) result (listed_row rows.now line (map (λ w. w.now) words.now)) }
{
    match words {
        [place] => {
            let place = ranged(range(line, 1, u128::from(u64::MAX)), place)?;
            match row_at(rows, place as usize - 1) {
                Some(row) => Ok(row),
                None => Err(bad(line, TextFault::Number)),
            }
        }
        _ => Err(bad(line, TextFault::Shape)),
    }
}

fn row_in(names: Naming, line: u64, words: &[&[u8]]) -> Result<RowId, TextEnd>
    requires { IsSmall names }
    ensures { Gives (λ row. row) result (row_in (naming_of names.entry) line (map (λ w. w.now) words.now)) }
{
    match names {
        Naming::Named(names) => row_of(names, line, words),
        Naming::Listed(rows) => listed_row(rows, line, words),
    }
}

/// The words before the last one, and the last one.
fn cut_last<'a, 'b>(words: &'a [&'b [u8]]) -> Option<(&'a [&'b [u8]], &'b [u8])>
    ensures { option_map (λ p. (map (λ w. w.now) p.0.now, p.1.now)) result ≡ cut_last (map (λ w. w.now) words.now) }
{
    match words {
        [] => None,
        [before @ .., last] => Some((before, *last)),
    }
}

/// A row, and its multiplier as the last word.
#[tactic(auto, unfolding(crate::specs::CertificateReading::weight_of))]
pub fn weight_of(
    names: Naming,
    form: LeafForm,
    line: u64,
    words: &[&[u8]],
) -> Result<Weight, TextEnd>
    requires names { IsSmall names }
    requires form { IsFormed form }
    ensures { Gives (λ w. w) result (weight_of (naming_of names.entry) form line (map (λ w. w.now) words.now)) }
{
    let Some((name, value)) = cut_last(words) else {
        return Err(bad(line, TextFault::Shape));
    };
    let row = row_in(names, line, name)?;
    let by = multiplier_of(form, line, value)?;
    Ok(Weight { row, by })
}

/// Whether a row comes after the last one, if there is one.
pub fn is_after(last: Option<RowId>, row: RowId) -> bool
    ensures { result ≡ is_after last row }
{
    match last {
        Some(last) => last.is_before(row),
        None => true,
    }
}

/// A row that comes after the last one.
#[tactic(auto, unfolding(crate::specs::CertificateReading::read_after))]
fn weight_after(
    names: Naming,
    form: LeafForm,
    last: Option<RowId>,
    line: u64,
    words: &[&[u8]],
) -> Result<Weight, TextEnd>
    requires names { IsSmall names }
    requires form { IsFormed form }
    ensures { Gives (λ w. w) result (read_after row_of_weight (weight_of (naming_of names.entry) form) last line (map (λ w. w.now) words.now)) }
{
    let weight = weight_of(names, form, line, words)?;
    if !is_after(last, weight.row) {
        return Err(bad(line, TextFault::Order));
    }
    Ok(weight)
}

/// So many rows, which ascend, and what follows their lines, the first of which has this number.
pub fn weights_at<'a>(
    alloc: Global,
    names: Naming,
    form: LeafForm,
    count: u32,
    line: u64,
    bytes: &'a [u8],
) -> Result<(Vec<Weight>, &'a [u8]), TextEnd>
    requires names { IsSmall names }
    requires form { IsFormed form }
    requires lines { line + count < 2 ^ 64 }
    ensures { Gives (λ x. (x.0.items, x.1.now)) result (weights_at (naming_of names.entry) form count None line bytes.now) }
{
    let mut weights = Vec::new(alloc);
    let mut last = None;
    let mut rest = bytes;
    for place in 0..count {
        let line = line + place as u64;
        let (words, after) = words_at(alloc, line, rest)?;
        let weight = weight_after(names, form, last, line, words.as_slice())?;
        last = Some(weight.row);
        weights.push(weight)?;
        rest = after;
    }
    Ok((weights, rest))
}
