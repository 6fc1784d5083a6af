//! Runs as fractions of the cycle.

ghost use Rattle.std.specs.Prelude.{◌≡◌, ◌<◌, ◌≤◌, ◌^◌, pos, ◌≤ℤ◌, unsigned_abs};
ghost use Rattle.rational_theory.specs.Rational.{over, ◌/ℚ◌};
ghost use Rattle.artery_model.specs.Bounds.{most_denominator, most_numerator};

use narrow_fraction::Frac;

/// A fraction of the cycle, not always in lowest terms.
#[derive(Clone, Copy)]
pub(crate) struct Share {
    pub(crate) top: u64,
    pub(crate) bottom: u64,
    ghost top_small: { top < 2 ^ 39 },
    ghost some: { 1 ≤ bottom },
    ghost bottom_small: { bottom < 2 ^ 38 },
}

/// The numerator of a fraction above 0.
fn numerator(given: Frac) -> u64
    requires least { pos 1 ≤ℤ given.num }
    requires most { unsigned_abs given.num ≤ 540000000 }
    ensures value { result ≡ unsigned_abs given.num }
    ensures least { 1 ≤ result }
{
    given.num() as u64
}

fn denominator(given: Frac) -> u64
    requires { given.den ≤ 2200000 }
    ensures value { result ≡ given.den }
    ensures least { 1 ≤ result }
{
    given.den() as u64
}

/// The fraction of the cycle that a run takes.
#[tactic(auto, using(crate::proofs::Sums::share_is))]
pub(crate) fn run_share(run: Frac, cycle: Frac) -> Share
    requires run { pos 1 ≤ℤ run.num }
    requires run_num { unsigned_abs run.num ≤ 540000000 }
    requires run_den { run.den ≤ 2200000 }
    requires cycle { pos 1 ≤ℤ cycle.num }
    requires cycle_num { unsigned_abs cycle.num ≤ most_numerator }
    requires cycle_den { cycle.den ≤ most_denominator }
    ensures { over (pos result.top) result.bottom ≡ run /ℚ cycle }
{
    Share {
        top: numerator(run) * denominator(cycle),
        bottom: denominator(run) * numerator(cycle),
    }
}
