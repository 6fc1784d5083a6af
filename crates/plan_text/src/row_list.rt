//! The list of rows of the second text.

ghost use Rattle.std.specs.Prelude.{◌+◌, ◌≤◌, ◌<◌, ◌^◌, map, length, IfOk, None};
ghost use Rattle.plan_text.specs.{Lines.{Gives}, CertificateReading.{row_of, read_after, own_row, names_at, row_count, rows_at}};
ghost use Rattle.certificate_model.specs.Families.{table_of};

use crate::fault::{TextEnd, TextFault};
use crate::lines::{bad, ranged, words_at};
use crate::row::{is_after, range, row_of};
use certificate_model::FamilyName;
use named_row::RowId;
use std::alloc::Global;

/// A row that comes after the last one.
#[tactic(auto, unfolding(crate::specs::CertificateReading::read_after))]
fn row_after(
    names: &[FamilyName],
    last: Option<RowId>,
    line: u64,
    words: &[&[u8]],
) -> Result<RowId, TextEnd>
    requires { length names.now < 2 ^ 8 }
    ensures { Gives (λ row. row) result (read_after own_row (row_of (table_of names.now)) last line (map (λ w. w.now) words.now)) }
{
    let row = row_of(names, line, words)?;
    if !is_after(last, row) {
        return Err(bad(line, TextFault::Order));
    }
    Ok(row)
}

/// So many names of rows, which ascend, and what follows their lines, the first of which has this number.
fn names_at<'a>(
    alloc: Global,
    names: &[FamilyName],
    count: u64,
    line: u64,
    bytes: &'a [u8],
) -> Result<(Vec<RowId>, &'a [u8]), TextEnd>
    requires names { length names.now < 2 ^ 8 }
    requires lines { line + length bytes.now < 2 ^ 64 }
    ensures exact { Gives (λ x. (x.0.items, x.1.now)) result (names_at (table_of names.now) count None line bytes.now) }
    ensures lines { IfOk result (λ x. count + length x.1.now ≤ length bytes.now) }
{
    let mut rows = Vec::new(alloc);
    let mut last = None;
    let mut rest = bytes;
    for place in 0..count {
        let line = line + place;
        let (words, after) = words_at(alloc, line, rest)?;
        let row = row_after(names, last, line, words.as_slice())?;
        last = Some(row);
        rows.push(row)?;
        rest = after;
    }
    Ok((rows, rest))
}

/// How many rows there are.
#[tactic(auto, unfolding(crate::specs::CertificateReading::row_count))]
fn row_count(line: u64, words: &[&[u8]]) -> Result<u64, TextEnd>
    ensures { Gives (λ n. n) result (row_count line (map (λ w. w.now) words.now)) }
{
    match words {
        [key, count] if *key == b"rows".as_slice() => {
            let count = ranged(range(line, 0, u128::from(u64::MAX)), count)?;
            Ok(count as u64)
        }
        _ => Err(bad(line, TextFault::Shape)),
    }
}

/// The list of rows from the line with this number on, the number of the line after it, and what follows.
#[tactic(auto, unfolding(crate::specs::CertificateReading::rows_at))]
pub fn rows_at<'a>(
    alloc: Global,
    names: &[FamilyName],
    line: u64,
    bytes: &'a [u8],
) -> Result<(Vec<RowId>, u64, &'a [u8]), TextEnd>
    requires names { length names.now < 2 ^ 8 }
    requires lines { line + length bytes.now < 2 ^ 64 }
    ensures exact { Gives (λ x. (x.0.items, x.1, x.2.now)) result (rows_at (table_of names.now) line bytes.now) }
    ensures lines { IfOk result (λ x. x.1 + length x.2.now ≤ line + length bytes.now) }
{
    let (words, rest) = words_at(alloc, line, bytes)?;
    let count = row_count(line, words.as_slice())?;
    let (rows, rest) = names_at(alloc, names, count, line + 1, rest)?;
    Ok((rows, line + 1 + count, rest))
}
