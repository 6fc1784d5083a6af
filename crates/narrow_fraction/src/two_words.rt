//! A number of 128 bits in two words.

ghost use Rattle.std.specs.Prelude.{◌≡◌};
ghost use Rattle.narrow_fraction.specs.TwoWords.{number_of};

/// How many numbers a word holds.
const WORDS: i128 = 18_446_744_073_709_551_616;

/// A number of 128 bits with a sign, in two words. So what holds one may stand wherever a word may, and a list of such takes a sixth less
/// room than one of numbers of 128 bits, which stand at each other word alone.
#[derive(Clone, Copy)]
pub struct TwoWords {
    low: u64,
    high: i64,
}

impl TwoWords {
    /// The words of a number.
    #[inline(always)]
    pub fn of(number: i128) -> TwoWords
        ensures { number_of result ≡ number }
    {
        let high = number >> 64;
        TwoWords {
            low: (number - high * WORDS) as u64,
            high: high as i64,
        }
    }

    /// The number of the words.
    #[inline(always)]
    pub fn number(self) -> i128
        ensures { result ≡ number_of self }
    {
        self.high as i128 * WORDS + self.low as i128
    }
}
