//! A number held as a quotient that may not be in lowest terms.

ghost use Rattle.std.specs.{Prelude.{◌≡◌, ◌<◌, ◌^◌, ◌↔◌, IfSome, IsTrue, pos}, Ordering.{MatchOrdering}};
ghost use Rattle.rational_theory.specs.{Rational.{◌<ℚ◌, over, whole, neg_ℚ, ◌+ℚ◌, ◌*ℚ◌, ◌/ℚ◌}, Compare.{cmp_ℚ}};
ghost use Rattle.narrow_fraction.specs.{Fraction.{FitsFrac}, Numerators.{IsNumerator}, Past128.{Fits128}, SmallParts.{AreSmallParts}};
ghost use Rattle.narrow_fraction.specs.declared.wide.Op.TheVariants.{Mul, Div, Sub};

use crate::compare::{compare_products, compare_quotients};
use crate::differences::{SmallParts, less_small, small_parts};
use crate::divisor::{divided, remainder};
use crate::frac::{Frac, already_reduced};
use crate::two_words::TwoWords;
use std::cmp::Ordering;
use std::fmt;
use std::marker::Model;

/// A rational number held as the quotient of two numbers: in lowest terms, as a `Frac` is, or of two words as they are.
///
/// Numbers of one row are held over its one denominator, and no common divisor is sought until one is asked for as a
/// fraction. Clauses see the rational number alone, so it can't be `Copy`; `copied` serves instead.
#[derive(Clone, Drop)]
pub struct Quotient {
    num: TwoWords,
    /// Below 0 where the numbers are words that may have a common divisor: so a quotient takes no more room than a fraction.
    den: TwoWords,
}

impl Model for Quotient {
    ghost use Rattle.std.specs.Prelude.{unsigned_abs};
    ghost use Rattle.rational_theory.specs.Rational.{ℚ, over};
    ghost use Rattle.narrow_fraction.specs.{laws.Fraction.{ℚ_code}, TwoWords.{number_of}, Held.{IsHeld}};

    ghost Value = { ℚ };

    ghost coded = { ℚ_code };

    ghost view = { λ q. over (number_of q.num) (unsigned_abs (number_of q.den)) };

    ghost invariant = { λ q. IsHeld (number_of q.num) (number_of q.den) };
}

/// The numerator of a fraction over a denominator, where it is a number of 64 bits with a sign.
fn numerator_of(fraction: Frac, denominator: u64) -> Option<i64>
    requires { 0 < denominator }
    ensures { IsNumerator fraction denominator result }
{
    let below = denominator as u128;
    let own = fraction.bottom();
    if remainder(below, own) != 0 {
        return None;
    }
    let times = divided(below, own) as i128;
    let Some(numerator) = fraction.num().checked_mul(times) else {
        return None;
    };
    match i64::try_from(numerator) {
        Ok(word) => Some(word),
        Err(_) => None,
    }
}

/// The n of which `top / below` is `n / denominator`, where it is found by dividing both words by one number.
fn divided_numerator(top: i64, below: u64, denominator: u64) -> Option<i64>
    requires above { 0 < below }
    requires denominator { 0 < denominator }
    ensures { IfSome result (λ n. over top below ≡ over n denominator) }
{
    if below % denominator != 0 {
        return None;
    }
    let Ok(times) = i64::try_from(below / denominator) else {
        return None;
    };
    let Some(numerator) = top.checked_div(times) else {
        return None;
    };
    match numerator.checked_mul(times) {
        Some(product) if product == top => Some(numerator),
        _ => None,
    }
}

impl Quotient {
    /// The quotient of two words as they are. No common divisor is sought.
    pub fn of_words(numerator: i64, denominator: u64) -> Quotient
        requires { 0 < denominator }
        ensures { result ≡ over numerator denominator }
    {
        Quotient {
            num: TwoWords::of(numerator as i128),
            den: TwoWords::of(-(denominator as i128)),
        }
    }

    /// A fraction, as a quotient.
    pub fn of_fraction(fraction: Frac) -> Quotient
        ensures { result ≡ fraction }
    {
        Quotient {
            num: TwoWords::of(fraction.num()),
            den: TwoWords::of(fraction.den()),
        }
    }

    /// The same number in lowest terms. A common divisor is sought only where it was made of words.
    pub fn fraction(&self) -> Frac
        ensures value { result ≡ self.now }
        ensures fits { FitsFrac self.now }
    {
        if self.den.number() > 0 {
            already_reduced(self.num.number(), self.den.number() as u128).fitting()
        } else {
            Frac::reduced(self.num.number(), self.den.number().unsigned_abs()).fitting()
        }
    }

    /// The numerator over a denominator that the quotient isn't held over.
    #[inline(never)]
    fn numerator_apart(&self, denominator: u64) -> Option<i64>
        requires { 0 < denominator }
        ensures { IsNumerator self.now denominator result }
    {
        if self.is_zero() {
            return Some(0);
        }
        match self.numerator_below(denominator) {
            Some(numerator) => Some(numerator),
            None => numerator_of(self.fraction(), denominator),
        }
    }

    /// The numerator over a denominator that divides the one it is held over, where a division of words finds it.
    fn numerator_below(&self, denominator: u64) -> Option<i64>
        requires { 0 < denominator }
        ensures { IfSome result (λ n. self.now ≡ over n denominator) }
    {
        if self.den.number() > 0 {
            return None;
        }
        match u64::try_from(self.den.number().unsigned_abs()) {
            Ok(below) => divided_numerator(self.num.number() as i64, below, denominator),
            Err(_) => None,
        }
    }

    /// The numerator over a denominator, where it is a number of 64 bits with a sign: at once where the quotient is held
    /// over just this one, as it is a million times in a search.
    #[inline(always)]
    pub fn numerator_over(&self, denominator: u64) -> Option<i64>
        requires { 0 < denominator }
        ensures { IsNumerator self.now denominator result }
    {
        if self.den.number() == -(denominator as i128) {
            return Some(self.num.number() as i64);
        }
        self.numerator_apart(denominator)
    }

    /// The same number.
    pub fn copied(&self) -> Quotient
        ensures { result ≡ self.now }
    {
        Quotient {
            num: self.num,
            den: self.den,
        }
    }

    /// The order, exact at any two values, with no common divisor.
    pub(crate) fn order(&self, other: &Quotient) -> Ordering
        ensures value { result ≡ cmp_ℚ self.now other.now }
        ensures says { MatchOrdering result (self.now <ℚ other.now) (self.now ≡ other.now) (other.now <ℚ self.now) }
    {
        compare_quotients(
            self.num.number(),
            self.den.number().unsigned_abs(),
            other.num.number(),
            other.den.number().unsigned_abs(),
        )
    }

    /// The two numbers that this is held as, where both have at most 20 bits.
    fn small(&self) -> Option<SmallParts>
        ensures small { IfSome result (λ parts. AreSmallParts parts) }
        ensures value { IfSome result (λ parts. over parts.top parts.bottom ≡ self.now) }
    {
        small_parts(self.num.number(), self.den.number().unsigned_abs())
    }

    /// `from` less the product of this number and another one, by one common divisor, where all their parts have at most 20 bits: then
    /// neither the product nor the difference leaves 128 bits. None elsewhere.
    pub fn less_times(&self, other: Frac, from: Frac) -> Option<Frac>
        ensures value { IfSome result (λ less. less ≡ from +ℚ neg_ℚ (self.now *ℚ other)) }
        ensures product { IfSome result (λ _. Fits128 Mul self.now other) }
        ensures difference { IfSome result (λ _. Fits128 Sub from (self.now *ℚ other)) }
    {
        let factor = self.small()?;
        let times = Quotient::of_fraction(other).small()?;
        let whole = Quotient::of_fraction(from).small()?;
        Some(less_small(whole, factor, times))
    }

    /// The denominator over which this is held, where it is held as two words.
    fn word_below(&self) -> Option<u64>
        ensures above { IfSome result (λ below. 0 < below) }
        ensures word { IfSome result (λ below. below < 2 ^ 64) }
    {
        if self.den.number() > 0 {
            return None;
        }
        match u64::try_from(self.den.number().unsigned_abs()) {
            Ok(below) => Some(below),
            Err(_) => None,
        }
    }

    /// The denominator over which this or else another number is held, where one of them is held as two words; else 1, over which 0 stands.
    fn either_below(&self, other: &Quotient) -> u64
        ensures { 0 < result }
    {
        match self.word_below() {
            Some(below) => below,
            None => other.word_below().unwrap_or(1),
        }
    }

    /// The order of two ratios, of this number to the negated `bottom` and of another one to its negated bottom, both bottoms below 0, by
    /// two products: where the bottoms are held as words over one denominator, and the tops are so or are 0. Then the first ratio doesn't
    /// leave 128 bits. None elsewhere.
    pub fn ratio_order(
        &self,
        bottom: &Quotient,
        other: &Quotient,
        other_bottom: &Quotient,
    ) -> Option<Ordering>
        requires bottom { bottom.now <ℚ whole (pos 0) }
        requires other { other_bottom.now <ℚ whole (pos 0) }
        ensures order { IfSome result (λ order. order ≡ cmp_ℚ (self.now /ℚ neg_ℚ bottom.now) (other.now /ℚ neg_ℚ other_bottom.now)) }
        ensures fits { IfSome result (λ _. Fits128 Div self.now (neg_ℚ bottom.now)) }
    {
        let under = bottom.word_below()?;
        let above = self.either_below(other);
        let own = bottom.numerator_over(under)?;
        let others = other_bottom.numerator_over(under)?;
        let top = self.numerator_over(above)?;
        let other_top = other.numerator_over(above)?;
        Some(compare_products(other_top, own, top, others))
    }

    /// Whether this is 0.
    pub fn is_zero(&self) -> bool
        ensures { IsTrue result ↔ self.now ≡ whole (pos 0) }
    {
        self.num.number().unsigned_abs() == 0
    }

    /// Whether this is below 0.
    pub fn is_negative(&self) -> bool
        ensures { IsTrue result ↔ self.now <ℚ whole (pos 0) }
    {
        self.num.number() < 0
    }
}

/// In lowest terms, as a fraction.
impl fmt::Debug for Quotient {
    fn fmt<W: fmt::Write>(&self, f: &mut fmt::Formatter<W>) -> fmt::Result {
        self.fraction().fmt(f)
    }
}
