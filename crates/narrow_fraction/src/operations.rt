//! Sum, difference, product and quotient: each is exact, or refused where it leaves 128 bits.

ghost use Rattle.std.specs.Prelude.{◌≡◌, pos, OkIff, IfErr};
ghost use Rattle.rational_theory.specs.Rational.{whole, ◌+ℚ◌, ◌-ℚ◌, ◌*ℚ◌, ◌/ℚ◌};
ghost use Rattle.narrow_fraction.specs.Past128.{Fits128, Past128};

use crate::frac::Frac;
use crate::products::product;
use crate::sums::sum;
use crate::wide::{Op, Wide, refusal};

impl Frac {
    /// The exact sum.
    ///
    /// With `g` the greatest common divisor of the denominators of `a/b` and `c/d`, it is refused exactly where one of
    /// `a * (d/g)`, `c * (b/g)`, their sum and `b * (d/g)` is more than `2^127 - 1` in size.
    pub fn plus(self, other: Frac) -> Result<Frac, Wide>
        ensures value { OkIff result (Fits128 Op.Add self other) (self +ℚ other) }
        ensures wide { IfErr result (λ wide. (wide ≡ record { op = Op.Add; left = self; right = other }) × Past128 Op.Add self other) }
    {
        match sum(self, other) {
            Some(exact) => Ok(exact),
            None => Err(refusal(Op::Add, self, other)),
        }
    }

    /// The exact difference.
    ///
    /// With `g` the greatest common divisor of the denominators of `a/b` and `c/d`, it is refused exactly where one of
    /// `a * (d/g)`, `c * (b/g)`, their difference and `b * (d/g)` is more than `2^127 - 1` in size.
    pub fn minus(self, other: Frac) -> Result<Frac, Wide>
        ensures value { OkIff result (Fits128 Op.Sub self other) (self -ℚ other) }
        ensures wide { IfErr result (λ wide. (wide ≡ record { op = Op.Sub; left = self; right = other }) × Past128 Op.Sub self other) }
    {
        match sum(self, other.neg()) {
            Some(exact) => Ok(exact),
            None => Err(refusal(Op::Sub, self, other)),
        }
    }

    /// The exact product, refused exactly where it does not fit in lowest terms.
    pub fn times(self, other: Frac) -> Result<Frac, Wide>
        ensures value { OkIff result (Fits128 Op.Mul self other) (self *ℚ other) }
        ensures wide { IfErr result (λ wide. (wide ≡ record { op = Op.Mul; left = self; right = other }) × Past128 Op.Mul self other) }
    {
        match product(self, other) {
            Some(exact) => Ok(exact),
            None => Err(refusal(Op::Mul, self, other)),
        }
    }

    /// The exact quotient by a number that is not 0, refused exactly where it does not fit in lowest terms.
    pub fn over(self, other: Frac) -> Result<Frac, Wide>
        requires { other ≡ whole (pos 0) → ⊥ }
        ensures value { OkIff result (Fits128 Op.Div self other) (self /ℚ other) }
        ensures wide { IfErr result (λ wide. (wide ≡ record { op = Op.Div; left = self; right = other }) × Past128 Op.Div self other) }
    {
        match product(self, other.reciprocal()) {
            Some(exact) => Ok(exact),
            None => Err(refusal(Op::Div, self, other)),
        }
    }
}
