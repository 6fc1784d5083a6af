//! The lines of a text, one after the other.

ghost use Rattle.std.specs.Prelude.{◌≡◌, ◌≤◌, All, map, length, IfOk};
ghost use Rattle.plan_text.specs.Lines.{Gives, line_at, words_at, fixed_at, nothing_at, ranged, numbers_in, has_shape, numbers_of, numbers_at};
ghost use Rattle.plan_text.specs.Numbers.{number};
ghost use Rattle.certificate_model.specs.Words.{words};

use crate::cut::{cut, words};
use crate::fault::{BadText, TextEnd, TextFault};
use crate::numeral::number;
use std::alloc::Global;

/// What a line of numbers has to have.
#[derive(Clone, Copy)]
pub struct NumberLine {
    /// Its number, counted from 1.
    pub line: u64,
    /// The least and the greatest count of its numbers.
    pub fewest: usize,
    pub most: usize,
    /// The least and the greatest of the numbers that it may have.
    pub least: u128,
    pub greatest: u128,
}

/// A fault at a line.
pub fn bad(line: u64, kind: TextFault) -> TextEnd
    ensures { result ≡ TextEnd.Bad (record { line = line; kind = kind }) }
{
    TextEnd::Bad(BadText { line, kind })
}

/// The next line, and what follows it.
#[tactic(auto, unfolding(crate::specs::Lines::line_at))]
pub fn line_at(line: u64, bytes: &[u8]) -> Result<(&[u8], &[u8]), TextEnd>
    ensures { Gives (λ x. (x.0.now, x.1.now)) result (line_at line bytes.now) }
{
    match cut(bytes, b'\n') {
        Some(parts) => Ok(parts),
        None => Err(bad(line, TextFault::Ended)),
    }
}

/// What follows a line with this very text.
#[tactic(auto, unfolding(crate::specs::Lines::fixed_at))]
pub fn fixed_at<'a>(line: u64, text: &[u8], bytes: &'a [u8]) -> Result<&'a [u8], TextEnd>
    ensures { Gives (λ x. x.now) result (fixed_at line text.now bytes.now) }
{
    let (found, rest) = line_at(line, bytes)?;
    if found != text {
        return Err(bad(line, TextFault::Shape));
    }
    Ok(rest)
}

/// The words of the next line, and what follows it.
#[tactic(auto, unfolding(crate::specs::Lines::words_at))]
pub fn words_at(alloc: Global, line: u64, bytes: &[u8]) -> Result<(Vec<&[u8]>, &[u8]), TextEnd>
    ensures { Gives (λ x. (map (λ w. w.now) x.0.items, x.1.now)) result (words_at line bytes.now) }
{
    let (text, rest) = line_at(line, bytes)?;
    let words = words(alloc, text)?;
    Ok((words, rest))
}

/// That nothing is left.
#[tactic(auto, unfolding(crate::specs::Lines::nothing_at))]
pub fn nothing_at(line: u64, bytes: &[u8]) -> Result<(), TextEnd>
    ensures { Gives (λ _. 0) result (nothing_at line bytes.now) }
{
    if bytes.is_empty() {
        return Ok(());
    }
    let _more = line_at(line, bytes)?;
    Err(bad(line, TextFault::Shape))
}

/// A number in its spelling and its range.
pub fn ranged(place: NumberLine, word: &[u8]) -> Result<u128, TextEnd>
    ensures exact { Gives (λ n. n) result (ranged place (number word.now)) }
    ensures most { IfOk result (λ n. n ≤ place.greatest) }
{
    match number(word) {
        Some(number) if place.least <= number && number <= place.greatest => Ok(number),
        _ => Err(bad(place.line, TextFault::Number)),
    }
}

fn numbers_in(alloc: Global, place: NumberLine, words: &[&[u8]]) -> Result<Vec<u128>, TextEnd>
    ensures { Gives (λ v. v.items) result (numbers_in place (map (λ w. w.now) words.now)) }
{
    let mut numbers = Vec::new(alloc);
    for word in words {
        let number = ranged(place, word)?;
        numbers.push(number)?;
    }
    Ok(numbers)
}

/// Whether the words are a key and as many more as the place allows.
fn has_shape(key: &[u8], place: NumberLine, words: &[&[u8]]) -> bool
    ensures { result ≡ has_shape key.now place (map (λ w. w.now) words.now) }
{
    match words {
        [] => false,
        [first, numbers @ ..] => {
            *first == key && place.fewest <= numbers.len() && numbers.len() <= place.most
        }
    }
}

#[tactic(auto, unfolding(crate::specs::Lines::numbers_of))]
fn numbers_of(
    alloc: Global,
    key: &[u8],
    place: NumberLine,
    words: &[&[u8]],
) -> Result<Vec<u128>, TextEnd>
    ensures { Gives (λ v. v.items) result (numbers_of key.now place (map (λ w. w.now) words.now)) }
{
    match words {
        [_, numbers @ ..] if has_shape(key, place, words) => numbers_in(alloc, place, numbers),
        _ => Err(bad(place.line, TextFault::Shape)),
    }
}

#[tactic(auto, unfolding(crate::specs::Lines::numbers_at))]
fn line_of_numbers<'a>(
    alloc: Global,
    key: &[u8],
    place: NumberLine,
    bytes: &'a [u8],
) -> Result<(Vec<u128>, &'a [u8]), TextEnd>
    ensures { Gives (λ x. (x.0.items, x.1.now)) result (numbers_at key.now place bytes.now) }
{
    let (line, rest) = line_at(place.line, bytes)?;
    let words = words(alloc, line)?;
    let numbers = numbers_of(alloc, key, place, words.as_slice())?;
    Ok((numbers, rest))
}

/// The numbers of the next line, and what follows it.
pub fn numbers_at<'a>(
    alloc: Global,
    key: &[u8],
    place: NumberLine,
    bytes: &'a [u8],
) -> Result<(Vec<u128>, &'a [u8]), TextEnd>
    ensures exact { Gives (λ x. (x.0.items, x.1.now)) result (numbers_at key.now place bytes.now) }
    ensures fewest { IfOk result (λ x. place.fewest ≤ length x.0.items) }
    ensures most { IfOk result (λ x. length x.0.items ≤ place.most) }
    ensures each { IfOk result (λ x. All (λ n. (place.least ≤ n) × (n ≤ place.greatest)) x.0.items) }
{
    line_of_numbers(alloc, key, place, bytes)
}
