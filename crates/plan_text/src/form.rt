//! How the multipliers of a leaf are written.

ghost use Rattle.std.specs.Prelude.{◌≡◌, ◌<◌, ◌^◌, IsTrue, ◌↔◌, SomeIff, All, unsigned_abs};
ghost use Rattle.plan_text.specs.Leaves.{denominator_of, times_denominator, IsWhole, form_of};

use named_row::Weight;
use narrow_fraction::{Frac, common_multiple};

/// The greatest size of a number of a leaf.
const MOST: u128 = i128::MAX as u128;

/// How the multipliers of a leaf are written.
#[derive(Clone, Copy, PartialEq, Eq)]
pub enum LeafForm {
    /// As whole numbers over this, their least common denominator.
    Over(u128),
    /// As fractions: the least common denominator, or a whole number over it, is more than `2^127 - 1` in size.
    Plain,
}

/// The denominator of a multiplier.
fn bottom(multiplier: Frac) -> u128
    ensures value { result ≡ multiplier.den }
    ensures above { 0 < result }
{
    multiplier.den().unsigned_abs()
}

/// The least common denominator of multipliers. None comes exactly where it is more than `2^127 - 1`.
fn denominator_of(weights: &[Weight]) -> Option<u128>
    ensures { SomeIff result (denominator_of weights.now < 2 ^ 127) (denominator_of weights.now) }
{
    let mut denominator = 1;
    for weight in weights {
        denominator = common_multiple(denominator, bottom(weight.by))?;
    }
    Some(denominator)
}

/// Whether a multiplier times a multiple of its denominator is at most `2^127 - 1` in size.
fn fits(denominator: u128, multiplier: Frac) -> bool
    ensures { IsTrue result ↔ (unsigned_abs (times_denominator denominator multiplier) < 2 ^ 127) }
{
    let times = denominator / bottom(multiplier);
    match multiplier.num().unsigned_abs().checked_mul(times) {
        Some(size) => size <= MOST,
        None => false,
    }
}

/// A multiplier times a multiple of its denominator.
pub fn whole_over(denominator: u128, multiplier: Frac) -> i128
    requires small { denominator < 2 ^ 127 }
    requires whole { unsigned_abs (times_denominator denominator multiplier) < 2 ^ 127 }
    ensures { result ≡ times_denominator denominator multiplier }
{
    let times = (denominator / bottom(multiplier)) as i128;
    multiplier.num() * times
}

/// Whether all multipliers times a multiple of their denominators do.
fn all_fit(denominator: u128, weights: &[Weight]) -> bool
    ensures { IsTrue result ↔ All (IsWhole denominator) weights.now }
{
    weights.iter().all(|weight| fits(denominator, weight.by))
}

/// The form of a leaf with these multipliers.
#[tactic(auto, unfolding(crate::specs::Leaves::form_of))]
pub fn form_of(weights: &[Weight]) -> LeafForm
    ensures { result ≡ form_of weights.now }
{
    let Some(denominator) = denominator_of(weights) else {
        return LeafForm::Plain;
    };
    if all_fit(denominator, weights) {
        LeafForm::Over(denominator)
    } else {
        LeafForm::Plain
    }
}
