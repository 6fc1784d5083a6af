//! Texts of lines, each a name and the numbers behind it, and the timings that such texts give.

use crate::streets::fraction;
use narrow_fraction::Frac;
use std::alloc::Global;
use std::test::Fail;
use time_space::Timing;

/// What makes a timing of any kind, over a record's numbers: those that every kind has, by the names of its text, and then the kind's own.
#[macro_export]
macro_rules! timing_by {
    ($make:path, $alloc:expr, $record:expr, $($own:expr),+) => {
        $make(
            $record.natural("grid", 0)?,
            $record.natural("unit", 0)?,
            $record.smalls($alloc, "pattern")?,
            $record.naturals($alloc, "red")?,
            $record.naturals($alloc, "run_out")?,
            $record.naturals($alloc, "run_in")?,
            $record.natural("first", 0)?,
            $record.natural("first", 1)?,
            $($own),+
        )
    };
}

/// A text of lines, each a name and what stands behind it.
#[derive(Clone, Copy)]
pub struct TextRecord<'a> {
    text: &'a str,
}

/// A number that stands there.
fn number_of(word: &str) -> Result<i128, Fail> {
    match word.parse::<i128>() {
        Ok(number) => Ok(number),
        Err(_) => Err("no number".into()),
    }
}

/// A number that isn't below 0.
fn natural_of(word: &str) -> Result<u128, Fail> {
    match word.parse::<u128>() {
        Ok(number) => Ok(number),
        Err(_) => Err("no natural number".into()),
    }
}

/// The number as one of 32 bits.
fn small_of(number: u128) -> Result<u32, Fail> {
    match u32::try_from(number) {
        Ok(small) => Ok(small),
        Err(_) => Err("a great number".into()),
    }
}

impl<'a> TextRecord<'a> {
    /// The record of these lines.
    pub fn new(text: &'a [u8]) -> Result<Self, Fail> {
        let text = std::str::from_utf8(text)?;
        Ok(TextRecord { text })
    }

    /// What stands behind a name.
    pub fn behind(&self, name: &str) -> Result<&'a str, Fail> {
        for line in self.text.lines() {
            let (first, rest) = line.split_once(' ').unwrap_or((line, ""));
            if first == name {
                return Ok(rest);
            }
        }
        Err("no such name".into())
    }

    /// The word at this place behind a name, counted from 0.
    fn word(&self, name: &str, place: usize) -> Result<&'a str, Fail> {
        for (index, word) in self.behind(name)?.split(' ').enumerate() {
            if index == place {
                return Ok(word);
            }
        }
        Err("no such word".into())
    }

    pub fn number(&self, name: &str, place: usize) -> Result<i128, Fail> {
        number_of(self.word(name, place)?)
    }

    pub fn natural(&self, name: &str, place: usize) -> Result<u128, Fail> {
        natural_of(self.word(name, place)?)
    }

    pub fn small(&self, name: &str, place: usize) -> Result<u32, Fail> {
        small_of(self.natural(name, place)?)
    }

    /// The number at this place over that denominator.
    pub fn quotient(&self, name: &str, place: usize, den: i128) -> Result<Frac, Fail> {
        fraction(self.number(name, place)?, den)
    }

    /// Whether a 1 stands behind a name.
    pub fn is_set(&self, name: &str) -> Result<bool, Fail> {
        Ok(self.small(name, 0)? == 1)
    }

    /// All numbers behind a name.
    pub fn naturals(&self, alloc: Global, name: &str) -> Result<Vec<u128>, Fail> {
        let mut numbers = Vec::new(alloc);
        for word in self.behind(name)?.split(' ') {
            numbers.push(natural_of(word)?)?;
        }
        Ok(numbers)
    }

    /// The same as numbers of 32 bits.
    pub fn smalls(&self, alloc: Global, name: &str) -> Result<Vec<u32>, Fail> {
        let mut numbers = Vec::new(alloc);
        for word in self.behind(name)?.split(' ') {
            numbers.push(small_of(natural_of(word)?)?)?;
        }
        Ok(numbers)
    }

    /// The timing with these numbers, in ticks, where there is one. The names are those of a timing's text.
    pub fn timing(&self, alloc: Global) -> Result<Option<Timing>, Fail> {
        let (out, back) = (self.natural("band", 0)?, self.natural("band", 1)?);
        Ok(timing_by!(Timing::new, alloc, self, out, back))
    }
}
