//! The law of the denominator of a leaf's first line.

ghost use Rattle.plan_text.specs.DivisorRule.{DivisorRule};

/// Of whole numbers over a number from 1 on, that number is the least common denominator of the reduced fractions exactly
/// where the greatest common divisor of it and all these numbers is 1.
pub fn law_divisor_rule()
    ensures { DivisorRule }
{}
