//! The numbers among the words.

ghost use Rattle.std.specs.Prelude.{◌≡◌, ◌≤◌, IfSome};
ghost use Rattle.run_inputs.specs.Numbers.{number_within, signals_of, seed_of, limit_of};

use artery_model::bounds::{LEAST_SIGNALS, MOST_FIRST_SIGNALS};
use plan_text::is_numeral;

/// The limit of the work where the words don't say one.
pub const USUAL_WORK: u64 = 100_000;

/// How many signals to make, from 2 to 16.
pub fn signals_in(word: &str) -> Option<u32>
    ensures { result ≡ signals_of word.now }
{
    let signals = number_within(word, LEAST_SIGNALS as u64, MOST_FIRST_SIGNALS as u64)?;
    Some(signals as u32)
}

/// The seed of what is made.
pub fn seed_in(word: &str) -> Option<u64>
    ensures { result ≡ seed_of word.now }
{
    number_within(word, 0, u64::MAX)
}

/// The limit of the work: a number from 1 up, or none where the word is `all`.
pub fn limit_in(word: &str) -> Option<Option<u64>>
    ensures { result ≡ limit_of word.now }
{
    if word == "all" {
        return Some(None);
    }
    let units = number_within(word, 1, u64::MAX)?;
    Some(Some(units))
}

/// The number in these limits that a word spells: digits without a leading zero, except `0` alone.
pub(crate) fn number_within(word: &str, least: u64, most: u64) -> Option<u64>
    ensures number { result ≡ number_within least most word.now }
    ensures most { IfSome result (λ number. number ≤ most) }
{
    if !is_numeral(word.as_bytes()) {
        return None;
    }
    match word.parse::<u64>() {
        Ok(number) if least <= number && number <= most => Some(number),
        _ => None,
    }
}
