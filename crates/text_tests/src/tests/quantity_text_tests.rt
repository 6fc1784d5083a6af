//! Rows of texts and fractions that were worked by hand.

use narrow_fraction::{Frac, Memory};
use quantity_text::{
    decimal_text, exact_text, parse_exact, parse_quantity, push_bytes, push_decimal, push_exact,
    push_number, push_text, push_whole,
};
use std::alloc::Global;
use std::rt::HostRuntime;
use test_bed::fraction_or_zero;

/// A text, and the numerator and the denominator of its fraction.
type Spelled = (&'static str, i128, i128);

static QUANTITIES: [Spelled; 6] = [
    ("13.50", 27, 2),
    ("-3", -3, 1),
    ("007", 7, 1),
    ("6/4", 3, 2),
    ("-0.25", -1, 4),
    ("999999999999999999", 999_999_999_999_999_999, 1),
];

static NO_QUANTITIES: [&str; 12] = [
    "1/0",
    "+1",
    "1.",
    "",
    "-",
    ".5",
    "1/2/3",
    "1 ",
    "1e3",
    "--1",
    "1234567890123456789",
    "1.1234567890123456789",
];

static EXACT: [Spelled; 4] = [("27/2", 27, 2), ("-3/2", -3, 2), ("0", 0, 1), ("10", 10, 1)];

static NOT_EXACT: [&str; 15] = [
    "",
    "-",
    "-0",
    "00",
    "01",
    "+1",
    "1.5",
    "2/4",
    "3/1",
    "1/0",
    "1/02",
    "1/-2",
    "1/",
    "/2",
    "170141183460469231731687303715884105728",
];

/// Two numbers, and the exact spelling of their quotient.
static QUOTIENTS: [Spelled; 4] = [("27/2", 27, 2), ("-3", -3, 1), ("-3/2", 6, -4), ("0", 0, 5)];

/// A decimal, the numerator and the denominator of its fraction, and how many places it has.
static DECIMALS: [(&str, i128, i128, u32); 5] = [
    ("0.666", 2, 3, 3),
    ("13.5", 27, 2, 1),
    ("0.00", 1, 1000, 2),
    ("0.000000", 0, 1, 6),
    ("100.007000000", 100_007, 1000, 9),
];

fn quantity(text: &str) -> Option<Frac> {
    parse_quantity(text).ok()
}

fn exact(text: &str) -> Option<Frac> {
    parse_exact(text.as_bytes()).ok()
}

/// Whether there is a fraction, and it has these two numbers.
fn has_numbers(value: Option<Frac>, num: i128, den: i128) -> bool {
    match value {
        Some(value) => value.num() == num && value.den() == den,
        None => false,
    }
}

/// Whether there is a text, and it is this one.
pub fn is_text(text: Option<Vec<u8>>, want: &str) -> bool {
    match text {
        Some(text) => text.as_slice() == want.as_bytes(),
        None => false,
    }
}

fn spelled(alloc: Global, value: Frac) -> Option<Vec<u8>> {
    exact_text(alloc, value).ok()
}

/// The decimal of a fraction from 0 on with a small denominator.
fn cut(alloc: Global, value: Frac, places: u32) -> Option<Vec<u8>> {
    if value.num() >= 0 && value.den() <= 1000 && 1 <= places && places <= 9 {
        decimal_text(alloc, value, places).ok()
    } else {
        None
    }
}

#[test]
fn quantities_are_read_exactly(rt: HostRuntime) {
    for (text, num, den) in QUANTITIES {
        assert!(rt; has_numbers(quantity(text), num, den), "at {text}");
    }
    for text in NO_QUANTITIES {
        assert!(rt; quantity(text).is_none(), "at {text}");
    }
}

#[test]
fn the_exact_spelling_is_in_lowest_terms(rt: HostRuntime) {
    for (want, num, den) in QUOTIENTS {
        let text = spelled(rt.alloc(), fraction_or_zero(num, den));
        assert!(rt; is_text(text, want), "at {want}");
    }
}

#[test]
fn only_the_exact_spelling_is_read_back(rt: HostRuntime) {
    for (text, num, den) in EXACT {
        assert!(rt; has_numbers(exact(text), num, den), "at {text}");
    }
    assert!(rt; exact("170141183460469231731687303715884105727").is_some());
    for text in NOT_EXACT {
        assert!(rt; exact(text).is_none(), "at {text}");
    }
}

#[test]
fn decimals_are_cut_and_not_rounded(rt: HostRuntime) {
    for (want, num, den, places) in DECIMALS {
        let text = cut(rt.alloc(), fraction_or_zero(num, den), places);
        assert!(rt; is_text(text, want), "at {want}");
    }
}

/// Writes seven at the end, with three places.
fn push_seven(out: &mut Vec<u8>) -> Result<(), Memory> {
    let value = Frac::whole(7);
    if value.num() >= 0 && value.den() <= 1000 {
        push_decimal(out, value, 3)
    } else {
        Ok(())
    }
}

/// Calls each of the functions that write at the end of a text, one after another.
fn push_all(out: &mut Vec<u8>) -> Result<(), Memory> {
    push_bytes(out, b"cut ")?;
    push_seven(out)?;
    push_text(out, " of ")?;
    push_exact(out, Frac::whole(7))?;
    push_text(out, ", signal ")?;
    push_number(out, 24)?;
    push_text(out, " at ")?;
    push_whole(out, -10)
}

/// What they write.
fn written(alloc: Global) -> Option<Vec<u8>> {
    let mut out = Vec::new(alloc);
    match push_all(&mut out) {
        Ok(()) => Some(out),
        Err(_) => None,
    }
}

#[test]
fn texts_are_written_at_the_end(rt: HostRuntime) {
    let text = written(rt.alloc());
    assert!(rt; is_text(text, "cut 7.000 of 7, signal 24 at -10"));
}
