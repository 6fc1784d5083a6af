//! What the numbers of a narrow row stand over.

ghost use Rattle.std.specs.Prelude.{◌≡◌, ◌<◌, ◌^◌, unsigned_abs};
ghost use Rattle.rational_theory.specs.Rational.{over};
ghost use Rattle.fraction_tableau.specs.Scales.{numerator, CanRescale};

use narrow_fraction::Quotient;

/// The greatest size of a number of a narrow row, its denominator included: 42 bits.
pub const MOST: u64 = 4_398_046_511_103;

/// The denominator of a narrow row, and a size that none of its numbers passes.
#[derive(Clone, Copy)]
pub struct Scale {
    pub denominator: u64,
    pub most: u64,
}

/// The numerator of a number that stands over a denominator.
#[inline(always)]
pub fn numerator_of(number: &Quotient, denominator: u64) -> i64
    requires above { 0 < denominator }
    requires same { over (numerator denominator number.now) denominator ≡ number.now }
    requires size { unsigned_abs (numerator denominator number.now) < 2 ^ 62 }
    ensures { result ≡ numerator denominator number.now }
{
    number.numerator_over(denominator).unwrap()
}

/// Numerators over `from`, each times `times`, stand over `to`.
#[derive(Clone, Copy)]
pub struct Rescaling {
    pub from: u64,
    pub times: u64,
    pub to: u64,
}

/// Each number as it is held.
pub const AS_IT_IS: Rescaling = Rescaling {
    from: 1,
    times: 1,
    to: 1,
};

impl Rescaling {
    /// The same number, over the other denominator.
    #[inline(always)]
    pub fn rescaled(self, number: &Quotient) -> Quotient
        requires { CanRescale self number.now }
        ensures { result ≡ number.now }
    {
        if self.times == 1 {
            return number.copied();
        }
        Quotient::of_words(numerator_of(number, self.from) * self.times as i64, self.to)
    }
}
