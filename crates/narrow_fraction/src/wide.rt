//! An operation that was refused, with its operands.

ghost use Rattle.std.specs.Prelude.{◌≡◌};

use crate::frac::Frac;

/// An operation on two fractions.
#[derive(Debug, Clone, Copy, PartialEq, Eq)]
pub enum Op {
    Add,
    Sub,
    Mul,
    Div,
}

/// An operation that would leave 128 bits, with its two operands as they were passed.
#[derive(Debug, Clone, Copy, PartialEq, Eq)]
pub struct Wide {
    pub op: Op,
    pub left: Frac,
    pub right: Frac,
}

/// The refusal of an operation on these operands.
pub fn refusal(op: Op, left: Frac, right: Frac) -> Wide
    ensures { result ≡ record { op = op; left = left; right = right } }
{
    Wide { op, left, right }
}
