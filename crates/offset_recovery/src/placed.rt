//! The two lines of a vertex's timing, with all that they cross.

ghost use Rattle.std.specs.Prelude.{◌≡◌, ◌<◌, ◌≤◌, ◌^◌, None, pos};
ghost use Rattle.progression.specs.{BaseRecord.{common_red}, Street.{count}};
ghost use Rattle.recovery_theory.specs.Ticks.{unit_of};
ghost use Rattle.offset_recovery.specs.{Recovered.{line_tests, red_tests, placed_tests}, Numbers.{IsReady, reds_at, base_at}};
ghost use Rattle.offset_recovery.specs.{Placed.{ArePlaced}, Answers.{Answers}};

use crate::lists::patterns;
use crate::outcome::RecoverFault;
use crate::placing::{checked_first_in, checked_first_out, reds};
use crate::runs::runs;
use crate::ticks::grid;
use artery_model::bounds::{LEAST_SIGNALS, MOST_SIGNALS};
use artery_model::{Artery, Dir};
use named_row::Point;
use std::alloc::Global;
use time_space::Base;

/// The base of a timing and where its lines cross, in ticks.
#[derive(Drop)]
pub struct Lines {
    pub base: Base,
    /// Where the outbound line crosses signal 1.
    pub first_out: u128,
    /// Where the inbound line crosses the last signal.
    pub first_in: u128,
}

/// The common red of the last signal.
fn last_red(artery: &Artery, point: &Point, reds: &[u128]) -> u128
    requires some { 2 ≤ count artery.now }
    requires reds { reds.now ≡ reds_at artery.now point.now.values.items }
    requires fit { red_tests artery.now point.now.values.items ≡ None }
    ensures value { pos result ≡ common_red (base_at artery.now point.now.values.items) (count artery.now) }
    ensures small { result < 2 ^ 80 }
{
    reds[artery.count() as usize - 1]
}

/// The lines of a vertex whose frequency and runs fit a timing, where its reds and first crossings fit too. The error is the first that
/// doesn't, or want of memory.
pub fn place_lines(
    alloc: Global,
    artery: &Artery,
    point: &Point,
    unit: u128,
) -> Result<Lines, RecoverFault>
    requires ready { IsReady artery.now point.now.values.items }
    requires unit { unit ≡ unit_of artery.now point.now.values.items }
    requires lines { line_tests artery.now point.now.values.items ≡ None }
    ensures { Answers (placed_tests artery.now point.now.values.items) (ArePlaced artery.now point.now.values.items) result }
{
    let patterns = patterns(alloc, artery, point)?;
    let run_out = runs(alloc, artery, point, unit, Dir::Outbound)?;
    let run_in = runs(alloc, artery, point, unit, Dir::Inbound)?;
    let first_out = checked_first_out(artery, point, unit)?;
    let reds = match reds(alloc, artery, point, unit, first_out) {
        Ok(reds) => reds,
        Err(fault) => return Err(fault),
    };
    let count = artery.count() as usize;
    prove!(LEAST_SIGNALS <= count && count <= MOST_SIGNALS);
    let last = last_red(artery, point, reds.as_slice());
    let first_in = checked_first_in(artery, point, unit, last)?;
    let grid = grid(artery, point, unit);
    match Base::new(grid, unit, patterns, reds, run_out, run_in) {
        Some(base) => Ok(Lines {
            base,
            first_out,
            first_in,
        }),
        None => unreachable!(),
    }
}
