//! The two numbers of a fraction that isn't negative.

ghost use Rattle.std.specs.Prelude.{◌≡◌, ◌≤◌, pos, ◌≤ℤ◌, unsigned_abs};

use narrow_fraction::Frac;

/// The numerator.
pub fn numerator(given: Frac) -> u128
    requires { pos 0 ≤ℤ given.num }
    ensures value { result ≡ unsigned_abs given.num }
    ensures same { pos result ≡ given.num }
{
    given.num() as u128
}

/// The denominator.
pub fn denominator(given: Frac) -> u128
    ensures value { result ≡ given.den }
    ensures least { 1 ≤ result }
{
    given.den() as u128
}
