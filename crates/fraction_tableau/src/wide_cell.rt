//! Operations of an exchange, with the place that each is for.

ghost use Rattle.std.specs.Prelude.{◌≡◌, pos, IfOk};
ghost use Rattle.rational_theory.specs.Rational.{whole, ◌-ℚ◌, ◌*ℚ◌, ◌/ℚ◌};
ghost use Rattle.narrow_fraction.specs.{Fraction.{FitsFrac}, Attempt.{attempt}, declared.wide.Op.TheVariants.{Mul, Div, Sub}};

use narrow_fraction::{Frac, Wide};

/// An operation that would leave 128 bits, and the row and column of the tableau that it was for. The goal row has the
/// number after the last row, and the bound the number after the last column.
#[derive(Debug, Clone, Copy, PartialEq, Eq)]
pub struct WideCell {
    pub row: u32,
    pub col: u32,
    pub wide: Wide,
}

/// A row and a column, for which an operation is made.
#[derive(Clone, Copy)]
pub struct Spot {
    pub row: u32,
    pub col: u32,
}

impl Spot {
    ghost use Rattle.fraction_tableau.specs.Refusals.{refused};

    /// The quotient, or its refusal here.
    pub fn over(self, left: Frac, right: Frac) -> Result<Frac, WideCell>
        requires { right ≡ whole (pos 0) → ⊥ }
        ensures outcome { result ≡ attempt (refused Div left right self.row self.col) (left /ℚ right) }
        ensures fits { IfOk result (λ value. FitsFrac value) }
    {
        match left.over(right) {
            Ok(value) => Ok(value.fitting()),
            Err(wide) => Err(WideCell {
                row: self.row,
                col: self.col,
                wide,
            }),
        }
    }

    /// The product, or its refusal here.
    pub fn times(self, left: Frac, right: Frac) -> Result<Frac, WideCell>
        ensures { result ≡ attempt (refused Mul left right self.row self.col) (left *ℚ right) }
    {
        match left.times(right) {
            Ok(value) => Ok(value),
            Err(wide) => Err(WideCell {
                row: self.row,
                col: self.col,
                wide,
            }),
        }
    }

    /// The difference, or its refusal here.
    pub fn minus(self, left: Frac, right: Frac) -> Result<Frac, WideCell>
        ensures outcome { result ≡ attempt (refused Sub left right self.row self.col) (left -ℚ right) }
        ensures fits { IfOk result (λ value. FitsFrac value) }
    {
        match left.minus(right) {
            Ok(value) => Ok(value.fitting()),
            Err(wide) => Err(WideCell {
                row: self.row,
                col: self.col,
                wide,
            }),
        }
    }
}
