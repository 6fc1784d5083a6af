//! The goal of links.

ghost use Rattle.std.specs.Prelude.{◌≡◌, ◌<◌, ◌≤◌, ◌-◌, ◌^◌, ◌*ℤ◌, length, false, pos, unsigned_abs};
ghost use Rattle.rational_theory.specs.Rational.{◌*ℚ◌};
ghost use Rattle.progression.specs.{Street.{count}, Speeds.{number}};
ghost use Rattle.artery_model.specs.Bounds.{most_numerator, most_denominator};
ghost use Rattle.link_theory.specs.LinkColumns.{link_width, half_place};
ghost use Rattle.link_space.specs.LinkSheets.{with_run, link_goal_sheet};

use crate::columns::half_column;
use artery_model::{Artery, Dir};
use named_row::{Place, Row};
use narrow_fraction::Frac;

/// Twice a numerator.
fn doubled(top: i128) -> i128
    requires { unsigned_abs top ≤ most_numerator }
    ensures value { result ≡ pos 2 *ℤ top }
    ensures small { unsigned_abs result < 2 ^ 64 }
{
    2 * top
}

/// Twice a ratio, as it stands in the goal.
pub fn twice(ratio: Frac) -> Frac
    requires top { unsigned_abs ratio.num ≤ most_numerator }
    requires bottom { ratio.den ≤ most_denominator }
    ensures { result ≡ number 2 *ℚ ratio }
{
    let top = doubled(ratio.num());
    Frac::reduced(top, ratio.den().unsigned_abs())
}

/// A number at each half of a direction.
#[tactic(auto, using(crate::proofs::LinkGoalSheets::run_next))]
fn fill_halves(artery: &Artery, dir: Dir, value: Frac, into: &mut Row)
    requires columns { length into.old.coefs ≡ link_width (count artery.now) }
    ensures value { into.new ≡ with_run (half_place (count artery.now) dir 1) (count artery.now - 1) value into.old }
    ensures width { length into.new.coefs ≡ link_width (count artery.now) }
{
    for link in 1..artery.count() {
        into.set(Place::Cell(half_column(artery, dir, link)), value);
    }
}

/// The value of a link timing: 2 at each outbound half, twice the ratio at each inbound one, and 0 elsewhere. A ratio is at
/// most 100, so no number is wide.
pub fn fill_link_goal(artery: &Artery, into: &mut Row)
    requires columns { length into.old.coefs ≡ link_width (count artery.now) }
    ensures row { into.new ≡ link_goal_sheet artery.now }
    ensures unspent { into.new.spent ≡ false }
    ensures width { length into.new.coefs ≡ link_width (count artery.now) }
{
    prove!(2 <= artery.count());
    let inbound = twice(artery.ratio());
    into.clear();
    fill_halves(artery, Dir::Outbound, Frac::whole(2), into);
    fill_halves(artery, Dir::Inbound, inbound, into);
}
