//! Whether the columns of a vertex fit a timing.

ghost use Rattle.std.specs.Prelude.{◌≡◌};
ghost use Rattle.narrow_fraction.specs.Attempt.{attempt};
ghost use Rattle.recovery_theory.specs.Ticks.{unit_of};
ghost use Rattle.offset_recovery.specs.{Recovered.{line_tests, column_tests}, Numbers.{IsReady}};

use crate::outcome::WideTiming;
use crate::runs::check_runs;
use crate::ticks::{band, check_number, grid};
use artery_model::{Artery, Dir};
use loop_rows::{band_column, frequency_column};
use named_row::Point;

/// Whether frequency and runs fit a timing: each is below `2^80` ticks. The error is the first that isn't.
pub fn check_lines(artery: &Artery, point: &Point, unit: u128) -> Result<(), WideTiming>
    requires ready { IsReady artery.now point.now.values.items }
    requires unit { unit ≡ unit_of artery.now point.now.values.items }
    ensures { result ≡ attempt (line_tests artery.now point.now.values.items) tt }
{
    let grid = grid(artery, point, unit);
    check_number(frequency_column(artery), grid)?;
    check_runs(artery, point, unit, Dir::Outbound)?;
    check_runs(artery, point, unit, Dir::Inbound)
}

/// Whether bands, frequency and runs fit a timing.
pub fn check_columns(artery: &Artery, point: &Point, unit: u128) -> Result<(), WideTiming>
    requires ready { IsReady artery.now point.now.values.items }
    requires unit { unit ≡ unit_of artery.now point.now.values.items }
    ensures { result ≡ attempt (column_tests artery.now point.now.values.items) tt }
{
    let outbound = band(artery, point, unit, Dir::Outbound);
    let inbound = band(artery, point, unit, Dir::Inbound);
    check_number(band_column(artery, Dir::Outbound), outbound)?;
    check_number(band_column(artery, Dir::Inbound), inbound)?;
    check_lines(artery, point, unit)
}
