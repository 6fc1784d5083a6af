//! The type of a fraction: how one is made, and what is read off its two numbers.

ghost use Rattle.std.specs.Prelude.{◌≡◌, ◌^◌, ◌↔◌, ◌<◌, ◌≤◌, ◌≤ℤ◌, IsTrue, int_lt, pos, unsigned_abs, SomeIff};
ghost use Rattle.rational_theory.specs.{Rational.{◌<ℚ◌, whole, abs_ℚ, inverse_ℚ, over, neg_ℚ}, Floor.{floor_ℚ}, Gcd.{gcd}};
ghost use Rattle.narrow_fraction.specs.{Fraction.{FitsFrac, signed}, Made.{IsMade}, Short.{IsShort}};

use crate::divisor::{common_divisor, divided};
use crate::unfit::Unfit;
use std::marker::Model;

/// A rational number in lowest terms, of two numbers of 128 bits with a sign.
#[derive(Debug, Clone, Copy)]
pub struct Frac {
    num: i128,
    den: i128,
}

impl Model for Frac {
    ghost use Rattle.std.specs.Prelude.{pos, unsigned_abs};
    ghost use Rattle.rational_theory.specs.Rational.{ℚ, over};
    ghost use Rattle.narrow_fraction.specs.{laws.Fraction.{ℚ_code}, Fraction.{IsLowest}, laws.Views.{fields_back}};

    ghost Value = { ℚ };

    ghost coded = { ℚ_code };

    ghost view = { λ f. over f.num (unsigned_abs f.den) };

    ghost invariant = { λ f. IsLowest f.num f.den };

    ghost inverse = { λ x. record { num = x.num; den = pos x.den } };

    ghost inverse_ok = { λ f h. fields_back f h };
}

/// The greatest size of a numerator or denominator.
pub const MOST: u128 = 170_141_183_460_469_231_731_687_303_715_884_105_727;

/// The greatest number of 63 bits: a product of two has at most 126 bits, and a sum of two products at most 127.
pub const SHORT: u128 = 9_223_372_036_854_775_807;

/// The number of this size and sign.
pub fn with_sign(negative: bool, size: u128) -> i128
    requires { size < 2 ^ 127 }
    ensures { result ≡ signed negative size }
{
    if negative {
        -(size as i128)
    } else {
        size as i128
    }
}

/// The fraction of these two sizes, which have no common divisor, with this sign.
pub fn lowest(negative: bool, top: u128, bottom: u128) -> Frac
    requires above { 0 < bottom }
    requires reduced { gcd top bottom ≡ 1 }
    requires top { top < 2 ^ 127 }
    requires bottom { bottom < 2 ^ 127 }
    ensures { result ≡ over (signed negative top) bottom }
{
    Frac {
        num: with_sign(negative, top),
        den: bottom as i128,
    }
}

/// The fraction of these two sizes, which have no common divisor, with this sign, where both fit.
pub fn build(negative: bool, top: u128, bottom: u128) -> Option<Frac>
    requires above { 0 < bottom }
    requires reduced { gcd top bottom ≡ 1 }
    ensures { SomeIff result (FitsFrac (over (signed negative top) bottom)) (over (signed negative top) bottom) }
{
    if top > MOST || bottom > MOST {
        return None;
    }
    Some(lowest(negative, top, bottom))
}

/// `top / bottom` in lowest terms, by the greatest common divisor of the two.
pub fn reduced_by(top: i128, bottom: u128, divisor: u128) -> Frac
    requires above { 0 < bottom }
    requires top { unsigned_abs top < 2 ^ 127 }
    requires bottom { bottom < 2 ^ 127 }
    requires divisor { divisor ≡ gcd (unsigned_abs top) bottom }
    ensures { result ≡ over top bottom }
{
    lowest(
        top < 0,
        divided(top.unsigned_abs(), divisor),
        divided(bottom, divisor),
    )
}

/// `top / bottom`, which is in lowest terms.
pub fn already_reduced(top: i128, bottom: u128) -> Frac
    requires above { 0 < bottom }
    requires top { unsigned_abs top < 2 ^ 127 }
    requires bottom { bottom < 2 ^ 127 }
    requires reduced { gcd (unsigned_abs top) bottom ≡ 1 }
    ensures { result ≡ over top bottom }
{
    lowest(top < 0, top.unsigned_abs(), bottom)
}

/// A sign and two sizes.
#[derive(Clone, Copy)]
pub struct Parts {
    pub negative: bool,
    pub top: u128,
    pub bottom: u128,
}

impl Frac {
    /// The sign and the sizes of the two numbers.
    pub(crate) fn parts(self) -> Parts
        ensures sign { result.negative ≡ int_lt self.num (pos 0) }
        ensures top { result.top ≡ unsigned_abs self.num }
        ensures bottom { result.bottom ≡ self.den }
        ensures fits { FitsFrac self }
    {
        Parts {
            negative: self.num < 0,
            top: self.num.unsigned_abs(),
            bottom: self.den.unsigned_abs(),
        }
    }

    /// The denominator, as a size.
    pub(crate) fn bottom(self) -> u128
        ensures value { result ≡ self.den }
        ensures above { 0 < result }
        ensures size { result < 2 ^ 127 }
    {
        self.den.unsigned_abs()
    }

    /// Whether both numbers have at most 63 bits.
    pub(crate) fn is_short(self) -> bool
        ensures { IsTrue result → IsShort self }
    {
        let parts = self.parts();
        parts.top <= SHORT && parts.bottom <= SHORT
    }

    /// `num / den` in lowest terms, for any two numbers.
    ///
    /// `ZeroDen` comes exactly where `den` is 0, and `Width` exactly where a number of the reduced fraction, whose
    /// denominator is made positive, is more than `2^127 - 1` in size.
    pub fn new(num: i128, den: i128) -> Result<Frac, Unfit>
        ensures { IsMade num den result }
    {
        if den == 0 {
            return Err(Unfit::ZeroDen);
        }
        let top = num.unsigned_abs();
        let bottom = den.unsigned_abs();
        let shared = common_divisor(top, bottom);
        let negative = (num < 0) != (den < 0);
        match build(negative, divided(top, shared), divided(bottom, shared)) {
            Some(fraction) => Ok(fraction),
            None => Err(Unfit::Width),
        }
    }

    /// `top / bottom` in lowest terms, of two numbers that fit. Never refused.
    #[tactic(auto, using(rational_theory::proofs::Lowest::num_size, rational_theory::proofs::Lowest::den_size))]
    pub fn reduced(top: i128, bottom: u128) -> Frac
        requires above { 0 < bottom }
        requires top { unsigned_abs top < 2 ^ 127 }
        requires bottom { bottom < 2 ^ 127 }
        ensures value { result ≡ over top bottom }
        ensures num { unsigned_abs result.num ≤ unsigned_abs top }
        ensures den { result.den ≤ bottom }
    {
        reduced_by(top, bottom, common_divisor(top.unsigned_abs(), bottom))
    }

    /// A whole number. Never refused.
    pub fn whole(n: i64) -> Frac
        ensures { result ≡ whole n }
    {
        Frac {
            num: n as i128,
            den: 1,
        }
    }

    /// The numerator, at most `2^127 - 1` in size.
    pub fn num(&self) -> i128
        ensures value { result ≡ self.now.num }
        ensures size { unsigned_abs result < 2 ^ 127 }
    {
        self.num
    }

    /// The denominator, from 1 to `2^127 - 1`.
    pub fn den(&self) -> i128
        ensures value { result ≡ pos self.now.den }
        ensures least { pos 1 ≤ℤ result }
        ensures size { unsigned_abs result < 2 ^ 127 }
    {
        self.den
    }

    /// The same number. Each of its two numbers is at most `2^127 - 1` in size.
    pub fn fitting(self) -> Frac
        ensures same { result ≡ self }
        ensures fits { FitsFrac result }
    {
        let _parts = self.parts();
        self
    }

    /// Whether this is 0.
    pub fn is_zero(&self) -> bool
        ensures { IsTrue result ↔ self.now ≡ whole (pos 0) }
    {
        self.parts().top == 0
    }

    /// Whether this is below 0.
    pub fn is_negative(&self) -> bool
        ensures { IsTrue result ↔ self.now <ℚ whole (pos 0) }
    {
        self.parts().negative
    }

    /// The same number on the other side of 0. Never refused.
    pub fn neg(self) -> Frac
        ensures { result ≡ neg_ℚ self }
    {
        Frac {
            num: -self.num,
            den: self.den,
        }
    }

    /// The number without its sign. Never refused.
    pub fn abs(self) -> Frac
        ensures { result ≡ abs_ℚ self }
    {
        if self.num < 0 { self.neg() } else { self }
    }

    /// One over this number. Never refused.
    pub(crate) fn reciprocal(self) -> Frac
        requires { self ≡ whole (pos 0) → ⊥ }
        ensures { result ≡ inverse_ℚ self }
    {
        if self.num < 0 {
            Frac {
                num: -self.den,
                den: -self.num,
            }
        } else {
            Frac {
                num: self.den,
                den: self.num,
            }
        }
    }

    /// The greatest whole number that is not above this one.
    pub fn floor(&self) -> i128
        ensures { result ≡ floor_ℚ self.now }
    {
        self.num.div_euclid(self.den)
    }

    /// Whether this is a whole number.
    pub fn is_whole(&self) -> bool
        ensures { IsTrue result ↔ (self.now.den ≡ 1) }
    {
        self.bottom() == 1
    }
}
