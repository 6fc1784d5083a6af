//! Which cycles may be asked for, and which the street allows.

ghost use Rattle.std.specs.Prelude.{◌≡◌, ◌↔◌, IsTrue};
ghost use Rattle.rational_theory.specs.Rational.{whole};
ghost use Rattle.artery_model.specs.{Bounds.{least_cycle, most_cycle}, Limits.{within}, Valid.{IsQuantity}};
ghost use Rattle.cycle_sweep.specs.Rows.{IsAllowed};

use artery_model::bounds::{LEAST_CYCLE, MOST_CYCLE};
use artery_model::{Artery, is_within};
use narrow_fraction::Frac;

/// Whether a street may have this cycle: from 1 to 3,600 seconds, its numerator at most 100,000 and its denominator at most 1,000.
pub fn is_cycle(cycle: Frac) -> bool
    ensures test { result ≡ within (whole least_cycle) (whole most_cycle) cycle }
    ensures quantity { IsTrue result ↔ IsQuantity least_cycle most_cycle cycle }
{
    is_within(LEAST_CYCLE, MOST_CYCLE, cycle)
}

/// Whether the limits of the street have this cycle between them, or are it.
pub(crate) fn is_allowed(artery: &Artery, cycle: Frac) -> bool
    ensures { IsTrue result ↔ IsAllowed artery.now cycle }
{
    let limits = artery.cycle();
    limits.least <= cycle && cycle <= limits.most
}
