//! Digits and the marks between them.

ghost use Rattle.std.specs.{Prelude.{◌≡◌, ◌+◌, ◌-◌, ◌*◌, ◌<◌, ◌≤◌, ◌^◌, IfSome, SomeIff, length}, List.{position, position_or_len}};
ghost use Rattle.std.specs.Str.Parse.{AllDigits, digits_value};
ghost use Rattle.quantity_text.specs.Quantity.{run_of, is_mark};

/// The number that digits write, where it fits.
pub(crate) fn number(digits: &[u8]) -> Option<u128>
    ensures { SomeIff result (AllDigits 10 digits.now × (digits_value 10 digits.now < 2 ^ 128)) (digits_value 10 digits.now) }
{
    let mut number = 0;
    for digit in digits {
        if !digit.is_ascii_digit() {
            return None;
        }
        match with_digit(number, *digit) {
            Some(longer) => number = longer,
            None => return None,
        }
    }
    Some(number)
}

/// The number with one more digit, where it fits.
fn with_digit(number: u128, digit: u8) -> Option<u128>
    requires least { 48 ≤ digit }
    requires most { digit ≤ 57 }
    ensures { SomeIff result (number * 10 + (digit - 48) < 2 ^ 128) (number * 10 + (digit - 48)) }
{
    match number.checked_mul(10) {
        Some(longer) => longer.checked_add(u128::from(digit - b'0')),
        None => None,
    }
}

/// The number that 1 to 18 digits write.
#[tactic(auto, using(crate::proofs::Runs::run_is, crate::proofs::Runs::run_small))]
pub(crate) fn run(digits: &[u8]) -> Option<u128>
    ensures value { result ≡ run_of digits.now }
    ensures size { IfSome result (λ number. number < 10 ^ 18) }
    ensures length { IfSome result (λ number. length digits.now ≤ 18) }
{
    if digits.is_empty() || digits.len() > 18 {
        None
    } else {
        number(digits)
    }
}

/// The place of the first point or slash.
fn mark(text: &[u8]) -> Option<usize>
    ensures { result ≡ position is_mark text.now }
{
    text.iter().position(|byte| *byte == b'.' || *byte == b'/')
}

/// The place of the first point or slash, or the length where there is none.
#[tactic(auto, using(crate::proofs::Runs::place_or_len))]
pub(crate) fn mark_place(text: &[u8]) -> usize
    ensures place { result ≡ position_or_len is_mark text.now }
    ensures within { result ≤ length text.now }
{
    mark(text).unwrap_or(text.len())
}
