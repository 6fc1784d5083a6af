//! A vertex's timing, or where it splits its box.

ghost use Rattle.std.specs.Prelude.{◌≡◌, ◌<◌, ◌^◌, List, Option, length, None, IfOk};
ghost use Rattle.rational_theory.specs.Rational.{ℚ};
ghost use Rattle.progression.specs.Street.{Street};
ghost use Rattle.linear_theory.specs.Boxes.{Area, IsBoxOf};
ghost use Rattle.recovery_theory.specs.{Placing.{timing_of}, Ticks.{unit_of}, Vertices.{IsVertex, IsLongVertex, IsWhole}};
ghost use Rattle.offset_recovery.specs.{declared.outcome.WideTiming.{WideTiming}, Recovered.{recovered, column_tests, placed_tests, box_tests, number_tests_by}};
ghost use Rattle.offset_recovery.specs.{Numbers.{IsReady}, Placed.{ArePlaced}, Answers.{Answers, IsRead, IsOutcome, IsSound}};

use crate::columns::check_columns;
use crate::outcome::{RecoverFault, Recovered};
use crate::placed::{Lines, place_lines};
use crate::splits::{Vertex, split_place};
use crate::ticks::band;
use crate::unit::common_unit;
use artery_model::{Artery, Dir};
use named_row::Point;
use search_box::{SearchBox, law_valid_street};
use std::alloc::Global;
use time_space::Timing;

/// What is read of a vertex that doesn't split its box: the timing, or why there is none.
pub fn read_timing<T: Drop>(timing: Result<T, RecoverFault>) -> Result<Recovered<T>, RecoverFault>
    ensures { (a : Street) (box : Area) (x : List ℚ) (columns : Option WideTiming) (t : T) → box_tests a box x ≡ None
        → Answers (number_tests_by a x columns) (λ s. s ≡ t) timing → IsRead a box x columns t result }
{
    match timing {
        Ok(timing) => Ok(Recovered::Timing(timing)),
        Err(fault) => Err(fault),
    }
}

/// The timing of a vertex's two lines, whose numbers fit, with its bands.
fn banded(artery: &Artery, point: &Point, unit: u128, lines: Lines) -> Timing
    requires ready { IsReady artery.now point.now.values.items }
    requires unit { unit ≡ unit_of artery.now point.now.values.items }
    requires lines { ArePlaced artery.now point.now.values.items lines }
    requires columns { column_tests artery.now point.now.values.items ≡ None }
    requires placed { placed_tests artery.now point.now.values.items ≡ None }
    ensures { result ≡ timing_of artery.now point.now.values.items }
{
    let band_out = band(artery, point, unit, Dir::Outbound);
    let band_in = band(artery, point, unit, Dir::Inbound);
    lines
        .base
        .banded(lines.first_out, band_out, lines.first_in, band_in)
}

/// The timing of a vertex whose block sums are whole and whose shifts are the signals', where its numbers fit.
fn timing_of(
    alloc: Global,
    artery: &Artery,
    area: &SearchBox,
    point: &Point,
) -> Result<Timing, RecoverFault>
    requires vertex { IsLongVertex artery.now area.now point.now.values.items }
    requires whole { IsWhole artery.now point.now.values.items }
    requires few { length point.now.values.items < 2 ^ 32 }
    ensures { Answers (number_tests_by artery.now point.now.values.items (column_tests artery.now point.now.values.items)) (λ t. t ≡ timing_of artery.now point.now.values.items) result }
{
    // its contract says that the artery is valid
    artery.known_valid();
    law_valid_street();
    let unit = common_unit(artery, point)?;
    check_columns(artery, point, unit)?;
    match place_lines(alloc, artery, point, unit) {
        Ok(lines) => Ok(banded(artery, point, unit, lines)),
        Err(fault) => Err(fault),
    }
}

/// What is read of a vertex: a timing in whole ticks, or the place where its box is split.
fn read(
    alloc: Global,
    artery: &Artery,
    area: &SearchBox,
    point: &Point,
) -> Result<Recovered<Timing>, RecoverFault>
    requires boxed { IsBoxOf artery.now area.now }
    requires vertex { IsLongVertex artery.now area.now point.now.values.items }
    requires few { length point.now.values.items < 2 ^ 32 }
    ensures { IsRead artery.now area.now point.now.values.items (column_tests artery.now point.now.values.items) (timing_of artery.now point.now.values.items) result }
{
    // its contract says that the artery is valid
    artery.known_valid();
    law_valid_street();
    let vertex = Vertex {
        artery,
        area,
        point,
    };
    if let Some(place) = split_place(&vertex)? {
        return Ok(Recovered::SplitAt(place));
    }
    read_timing(timing_of(alloc, artery, area, point))
}

/// What becomes of a vertex of a box: a timing in whole ticks, which is good and has the vertex's weighted band, or the
/// place inside the box where it is split.
///
/// The vertex has a value for each column, none below 0, and meets each row that the artery has for the box. Where a block
/// sum is not whole the box is split there, at the first such link and at the floor of its block sum; or else where a shift
/// is none of the box's, at the first such signal and at the greatest rank below it. The error is the first number that does
/// not fit, in the order of `recovered`, or want of memory, which may come in place of any answer.
pub fn recover(
    alloc: Global,
    artery: &Artery,
    area: &SearchBox,
    point: &Point,
) -> Result<Recovered<Timing>, RecoverFault>
    requires boxed { IsBoxOf artery.now area.now }
    requires vertex { IsVertex artery.now area.now point.now.values.items }
    ensures outcome { IsOutcome (recovered artery.now area.now point.now.values.items) result }
    ensures sound { IfOk result (λ found. IsSound artery.now area.now point.now.values.items found) }
{
    // its contract says that the artery is valid
    artery.known_valid();
    law_valid_street();
    read(alloc, artery, area, point)
}
