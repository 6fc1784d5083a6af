//! Quantities as users write them.

ghost use Rattle.std.specs.{Prelude.{◌≡◌, ◌<◌, ◌≤◌, ◌^◌}, Result.{result_ok}};
ghost use Rattle.quantity_text.specs.Quantity.{marked, with_tail, size_of, quantity_of};

use crate::digits::{mark_place, run};
use narrow_fraction::Frac;

/// A text that is no number.
#[derive(Clone, Copy, PartialEq, Eq)]
pub struct BadNumber;

/// The quantity that a text writes: `13.50`, `-3` or `27/2`.
///
/// An optional `-`, then 1 to 18 digits, then nothing, or `.` and 1 to 18 digits, or `/` and 1 to 18 digits that aren't
/// all 0. Every other text is `BadNumber`. It takes no memory.
pub fn parse_quantity(text: &str) -> Result<Frac, BadNumber>
    ensures { result_ok result ≡ quantity_of text.now }
{
    quantity(text.as_bytes()).ok_or(BadNumber)
}

fn quantity(text: &[u8]) -> Option<Frac>
    ensures { result ≡ quantity_of text.now }
{
    match text {
        [b'-', size @ ..] => match unsigned(size) {
            Some(value) => Some(value.neg()),
            None => None,
        },
        [] => None,
        _ => unsigned(text),
    }
}

/// A quantity without a sign.
fn unsigned(text: &[u8]) -> Option<Frac>
    ensures { result ≡ size_of text.now }
{
    let place = mark_place(text);
    match run(&text[..place]) {
        Some(whole) => tail(whole, &text[place..]),
        None => None,
    }
}

/// The quantity of a whole number and what stands after it.
fn tail(whole: u128, text: &[u8]) -> Option<Frac>
    requires { whole < 10 ^ 18 }
    ensures { result ≡ with_tail whole text.now }
{
    match text {
        [] => Some(Frac::reduced(whole as i128, 1)),
        [mark, digits @ ..] => match run(digits) {
            Some(back) => after_mark(whole, *mark, digits.len() as u32, back),
            None => None,
        },
    }
}

/// The quantity of a whole number and the number of so many digits after a mark.
fn after_mark(whole: u128, mark: u8, places: u32, back: u128) -> Option<Frac>
    requires whole { whole < 10 ^ 18 }
    requires places { places ≤ 18 }
    requires back { back < 10 ^ 18 }
    ensures { result ≡ marked whole mark places back }
{
    if mark == b'.' {
        let unit = 10u128.pow(places);
        Some(Frac::reduced((whole * unit + back) as i128, unit))
    } else if back == 0 {
        None
    } else {
        Some(Frac::reduced(whole as i128, back))
    }
}
