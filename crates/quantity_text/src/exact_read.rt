//! Exact spellings, read: a text that is the spelling of no fraction is refused.

ghost use Rattle.std.specs.Prelude.{◌≡◌, ◌↔◌, ◌<◌, ◌^◌, ℕ, List, pos, unsigned_abs, IsTrue, IfSome, IfNone, MatchResult, length, slice_index};
ghost use Rattle.rational_theory.specs.Rational.{ℚ};
ghost use Rattle.narrow_fraction.specs.Fraction.{FitsFrac};
ghost use Rattle.quantity_text.specs.Exact.{SpellsExactly, SpellsSigned, SpellsSize, HasParts, denominator_text};

use crate::digits::mark_place;
use crate::numeral::numeral;
use crate::quantity::BadNumber;
use narrow_fraction::Frac;

/// The fraction whose exact spelling this is, as `exact_text` writes it.
///
/// `BadNumber` comes exactly where the text is the spelling of no fraction whose two numbers are at most `2^127 - 1` in
/// size. It takes no memory.
pub fn parse_exact(text: &[u8]) -> Result<Frac, BadNumber>
    ensures { MatchResult result (λ value. SpellsExactly text.now value) (λ _. (value : ℚ) → SpellsExactly text.now value → ⊥) }
{
    match exact(text) {
        Some(value) => Ok(value),
        None => Err(BadNumber),
    }
}

/// The law that no text spells two fractions, so that what `exact_text` wrote is read back as it was.
pub fn law_one_spelling()
    ensures { (text : List ℕ) (x y : ℚ) → SpellsExactly text x → SpellsExactly text y → x ≡ y }
{}

fn exact(text: &[u8]) -> Option<Frac>
    ensures none { IfNone result ((value : ℚ) → SpellsExactly text.now value → ⊥) }
    ensures some { IfSome result (λ value. SpellsExactly text.now value) }
{
    if has_minus(text) {
        with_sign(true, &text[1..])
    } else {
        with_sign(false, text)
    }
}

fn has_minus(text: &[u8]) -> bool
    ensures first { IsTrue result ↔ (slice_index text.now 0 ≡ 45) }
    ensures some { IsTrue result → 0 < length text.now }
{
    !text.is_empty() && text[0] == b'-'
}

/// The fraction with this sign whose numbers the text spells.
fn with_sign(negative: bool, text: &[u8]) -> Option<Frac>
    ensures none { IfNone result ((value : ℚ) → SpellsSigned negative text.now value → ⊥) }
    ensures some { IfSome result (λ value. SpellsSigned negative text.now value) }
{
    match size_of(text) {
        Some(size) => signed(negative, size),
        None => None,
    }
}

/// A numerator without its sign, and a denominator.
#[derive(Clone, Copy)]
struct Size {
    top: u128,
    bottom: u128,
}

/// The two numbers of a text without a sign.
fn size_of(text: &[u8]) -> Option<Size>
    ensures none { IfNone result ((top bottom : ℕ) → SpellsSize text.now top bottom → ⊥) }
    ensures some { IfSome result (λ size. SpellsSize text.now size.top size.bottom) }
{
    let place = mark_place(text);
    let Some(top) = numeral(&text[..place]) else {
        return None;
    };
    match denominator(&text[place..]) {
        Some(bottom) => Some(Size { top, bottom }),
        None => None,
    }
}

/// The denominator of what stands after the numerator.
fn denominator(tail: &[u8]) -> Option<u128>
    ensures none { IfNone result ((d : ℕ) → 0 < d → d < 2 ^ 127 → tail.now ≡ denominator_text d → ⊥) }
    ensures above { IfSome result (λ d. 0 < d) }
    ensures size { IfSome result (λ d. d < 2 ^ 127) }
    ensures spelled { IfSome result (λ d. tail.now ≡ denominator_text d) }
{
    match tail {
        [] => Some(1),
        [b'/', digits @ ..] => match numeral(digits) {
            Some(bottom) if bottom > 1 => Some(bottom),
            _ => None,
        },
        _ => None,
    }
}

/// The fraction of a sign and two numbers that are in lowest terms.
fn signed(negative: bool, size: Size) -> Option<Frac>
    requires top { size.top < 2 ^ 127 }
    requires above { 0 < size.bottom }
    requires bottom { size.bottom < 2 ^ 127 }
    ensures none { IfNone result ((value : ℚ) → HasParts value negative size.top size.bottom → ⊥) }
    ensures fits { IfSome result (λ value. FitsFrac value) }
    ensures some { IfSome result (λ value. HasParts value negative size.top size.bottom) }
{
    let Some(value) = lowest(size) else {
        return None;
    };
    if !negative {
        Some(value)
    } else if size.top == 0 {
        None
    } else {
        Some(value.neg())
    }
}

/// The fraction of two numbers, where they are in lowest terms.
fn lowest(size: Size) -> Option<Frac>
    requires top { size.top < 2 ^ 127 }
    requires above { 0 < size.bottom }
    requires bottom { size.bottom < 2 ^ 127 }
    ensures none { IfNone result ((value : ℚ) → unsigned_abs value.num ≡ size.top → value.den ≡ size.bottom → ⊥) }
    ensures fits { IfSome result (λ value. FitsFrac value) }
    ensures num { IfSome result (λ value. value.num ≡ pos size.top) }
    ensures den { IfSome result (λ value. value.den ≡ size.bottom) }
{
    let value = Frac::reduced(size.top as i128, size.bottom);
    if value.den().unsigned_abs() == size.bottom {
        Some(value)
    } else {
        None
    }
}
