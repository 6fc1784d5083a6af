//! The runs of a direction.

ghost use Rattle.std.specs.Prelude.{◌≡◌, IfOk};
ghost use Rattle.narrow_fraction.specs.Attempt.{attempt};
ghost use Rattle.recovery_theory.specs.Ticks.{unit_of};
ghost use Rattle.offset_recovery.specs.{Recovered.{run_tests}, Numbers.{IsReady, runs_at}};

use crate::links::{check_by_link, ticks_by_link};
use crate::outcome::WideTiming;
use artery_model::{Artery, Dir};
use loop_rows::run_column;
use named_row::Point;
use narrow_fraction::Memory;
use std::alloc::Global;

/// Whether the runs of a direction fit a timing.
pub fn check_runs(artery: &Artery, point: &Point, unit: u128, dir: Dir) -> Result<(), WideTiming>
    requires ready { IsReady artery.now point.now.values.items }
    requires unit { unit ≡ unit_of artery.now point.now.values.items }
    ensures { result ≡ attempt (run_tests artery.now point.now.values.items dir) tt }
{
    // its contract says that the artery is valid
    artery.known_valid();
    check_by_link(artery, point, unit, run_column(artery, dir, 1))
}

/// The ticks of the runs of a direction.
pub fn runs(
    alloc: Global,
    artery: &Artery,
    point: &Point,
    unit: u128,
    dir: Dir,
) -> Result<Vec<u128>, Memory>
    requires ready { IsReady artery.now point.now.values.items }
    requires unit { unit ≡ unit_of artery.now point.now.values.items }
    ensures { IfOk result (λ runs. runs.items ≡ runs_at artery.now point.now.values.items dir) }
{
    // its contract says that the artery is valid
    artery.known_valid();
    ticks_by_link(alloc, artery, point, unit, run_column(artery, dir, 1))
}
