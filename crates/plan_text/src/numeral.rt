//! Whole numbers as text.

ghost use Rattle.std.specs.{Prelude.{◌≡◌}, Str.{all_ascii_digits}};
ghost use Rattle.plan_text.specs.Numbers.{number, is_numeral, is_plain};

use time_space::LIMIT;

/// The number that a word spells: digits without a leading zero, except `0` alone, below the limit.
pub fn number(word: &[u8]) -> Option<u128>
    ensures { result ≡ number word.now }
{
    if !is_numeral(word) {
        return None;
    }
    let Ok(text) = std::str::from_utf8(word) else {
        return None;
    };
    match text.parse::<u128>() {
        Ok(number) if number < LIMIT => Some(number),
        _ => None,
    }
}

/// Whether a word is digits without a leading zero, except `0` alone.
pub fn is_numeral(word: &[u8]) -> bool
    ensures { result ≡ is_numeral word.now }
{
    is_plain(word) && all_digits(word)
}

/// Whether a word isn't empty, and no zero comes before another byte.
fn is_plain(word: &[u8]) -> bool
    ensures { result ≡ is_plain word.now }
{
    match word {
        [] => false,
        [_] => true,
        [first, ..] => b'0' < *first,
    }
}

fn all_digits(word: &[u8]) -> bool
    ensures { result ≡ all_ascii_digits word.now }
{
    word.iter().all(|byte| byte.is_ascii_digit())
}
