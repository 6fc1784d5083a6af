//! Signed whole numbers and fractions as words.

ghost use Rattle.std.specs.Prelude.{◌≡◌, map, Some, IfOk};
ghost use Rattle.plan_text.specs.{Fractions.{from_zero, below_zero, integer, exact}, declared.form.LeafForm.TheVariants.{Over}};
ghost use Rattle.plan_text.specs.{Namings.{IsFormed}, Lines.{Gives}};
ghost use Rattle.plan_text.specs.CertificateReading.{or_number, fraction_of, over_whole, multiplier_of, above_zero};

use crate::fault::{TextEnd, TextFault};
use crate::form::LeafForm;
use crate::lines::bad;
use crate::numeral::number;
use narrow_fraction::Frac;
use quantity_text::parse_exact;

fn from_zero(size: u128) -> Option<i64>
    ensures { result ≡ from_zero size }
{
    if size < 1 << 63 {
        Some(size as i64)
    } else {
        None
    }
}

fn below_zero(size: u128) -> Option<i64>
    ensures { result ≡ below_zero size }
{
    if 1 <= size && size <= 1 << 63 {
        Some(-(size as i128) as i64)
    } else {
        None
    }
}

/// The number of 64 bits that a word spells, with a minus where it is below 0.
#[tactic(auto, unfolding(crate::specs::Fractions::integer))]
pub fn integer(word: &[u8]) -> Option<i64>
    ensures { result ≡ integer word.now }
{
    match word {
        [] => None,
        [b'-', digits @ ..] => number(digits).and_then(below_zero),
        _ => number(word).and_then(from_zero),
    }
}

/// The fraction whose exact spelling a word is.
fn exact(word: &[u8]) -> Option<Frac>
    ensures { result ≡ exact word.now }
{
    match parse_exact(word) {
        Ok(value) => Some(value),
        Err(_) => None,
    }
}

/// The fraction of a word of this line.
pub fn fraction(line: u64, word: &[u8]) -> Result<Frac, TextEnd>
    ensures { Gives (λ x. x) result (or_number line (exact word.now)) }
{
    match exact(word) {
        Some(value) => Ok(value),
        None => Err(bad(line, TextFault::Number)),
    }
}

/// A whole number over a denominator. None comes where the number isn't whole.
fn over_whole(denominator: u128, number: Frac) -> Option<Frac>
    requires { IsFormed (Over denominator) }
    ensures { result ≡ over_whole denominator (Some number) }
{
    if number.is_whole() {
        Some(Frac::reduced(number.num(), denominator))
    } else {
        None
    }
}

/// The multiplier of a word of this line.
#[tactic(auto, unfolding(crate::specs::CertificateReading::multiplier_of))]
pub fn multiplier_of(form: LeafForm, line: u64, word: &[u8]) -> Result<Frac, TextEnd>
    requires { IsFormed form }
    ensures { Gives (λ x. x) result (multiplier_of form line word.now) }
{
    match form {
        LeafForm::Plain => fraction(line, word),
        LeafForm::Over(denominator) => {
            let number = fraction(line, word)?;
            match over_whole(denominator, number) {
                Some(value) => Ok(value),
                None => Err(bad(line, TextFault::Number)),
            }
        }
    }
}

/// The whole number above 0 that a fraction is, if it is one.
fn above_zero(value: Frac) -> Option<u128>
    ensures { result ≡ above_zero (Some value) }
{
    if value.is_whole() && 0 < value.num() {
        Some(value.num().unsigned_abs())
    } else {
        None
    }
}

/// The denominator of a word of this line.
pub fn denominator(line: u64, word: &[u8]) -> Result<u128, TextEnd>
    ensures exact { Gives (λ d. d) result (or_number line (above_zero (exact word.now))) }
    ensures formed { IfOk result (λ d. IsFormed (Over d)) }
{
    let value = fraction(line, word)?;
    match above_zero(value) {
        Some(denominator) => Ok(denominator),
        None => Err(bad(line, TextFault::Number)),
    }
}

/// The fraction of a line with this key.
#[tactic(auto, unfolding(crate::specs::CertificateReading::fraction_of))]
pub fn fraction_of(key: &[u8], line: u64, words: &[&[u8]]) -> Result<Frac, TextEnd>
    ensures { Gives (λ x. x) result (fraction_of key.now line (map (λ w. w.now) words.now)) }
{
    match words {
        [first, word] if *first == key => fraction(line, word),
        _ => Err(bad(line, TextFault::Shape)),
    }
}
