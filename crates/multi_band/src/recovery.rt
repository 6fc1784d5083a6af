//! A link vertex's timing, or where it splits its box.

ghost use Rattle.std.specs.Prelude.{◌≡◌, ◌<◌, ◌^◌, None, length, IfOk};
ghost use Rattle.narrow_fraction.specs.Attempt.{attempt};
ghost use Rattle.linear_theory.specs.Boxes.{IsBoxOf};
ghost use Rattle.recovery_theory.specs.{Ticks.{unit_of}, Vertices.{IsWhole}};
ghost use Rattle.link_theory.specs.LinkVertices.{IsLinkVertex, link_timing_of};
ghost use Rattle.offset_recovery.specs.{Recovered.{placed_tests}, Placed.{ArePlaced}, Answers.{Answers, IsRead, IsOutcome}};
ghost use Rattle.multi_band.specs.LinkReady.{IsLinkReady};
ghost use Rattle.multi_band.specs.LinkRecovered.{half_tests, halves_at, link_column_tests, link_number_tests, link_recovered, IsLinkSound};

use artery_model::{Artery, Dir};
use link_space::{LinkTiming, half_column};
use named_row::Point;
use narrow_fraction::Memory;
use offset_recovery::{
    Lines, RecoverFault, Recovered, Vertex, WideTiming, check_by_link, check_lines, common_unit,
    place_lines, read_timing, split_place, ticks_by_link,
};
use search_box::{SearchBox, law_valid_street};
use std::alloc::Global;

/// A link vertex's timing, or where its box is split.
pub type RecoveredLinks = Recovered<LinkTiming>;

/// Whether the halves of a direction fit a timing.
fn check_halves(artery: &Artery, point: &Point, unit: u128, dir: Dir) -> Result<(), WideTiming>
    requires ready { IsLinkReady artery.now point.now.values.items }
    requires unit { unit ≡ unit_of artery.now point.now.values.items }
    ensures { result ≡ attempt (half_tests artery.now point.now.values.items dir) tt }
{
    // its contract says that the artery is valid
    artery.known_valid();
    check_by_link(artery, point, unit, half_column(artery, dir, 1))
}

/// The ticks of the halves of a direction.
fn halves(
    alloc: Global,
    artery: &Artery,
    point: &Point,
    unit: u128,
    dir: Dir,
) -> Result<Vec<u128>, Memory>
    requires ready { IsLinkReady artery.now point.now.values.items }
    requires unit { unit ≡ unit_of artery.now point.now.values.items }
    ensures { IfOk result (λ halves. halves.items ≡ halves_at artery.now point.now.values.items dir) }
{
    // its contract says that the artery is valid
    artery.known_valid();
    ticks_by_link(alloc, artery, point, unit, half_column(artery, dir, 1))
}

/// Whether frequency, runs and halves fit a timing.
fn check_columns(artery: &Artery, point: &Point, unit: u128) -> Result<(), WideTiming>
    requires ready { IsLinkReady artery.now point.now.values.items }
    requires unit { unit ≡ unit_of artery.now point.now.values.items }
    ensures { result ≡ attempt (link_column_tests artery.now point.now.values.items) tt }
{
    check_lines(artery, point, unit)?;
    check_halves(artery, point, unit, Dir::Outbound)?;
    check_halves(artery, point, unit, Dir::Inbound)
}

/// The link timing about a link vertex's two lines, whose numbers fit.
fn around(
    alloc: Global,
    artery: &Artery,
    point: &Point,
    unit: u128,
    lines: Lines,
) -> Result<LinkTiming, Memory>
    requires ready { IsLinkReady artery.now point.now.values.items }
    requires unit { unit ≡ unit_of artery.now point.now.values.items }
    requires lines { ArePlaced artery.now point.now.values.items lines }
    requires columns { link_column_tests artery.now point.now.values.items ≡ None }
    requires placed { placed_tests artery.now point.now.values.items ≡ None }
    ensures { IfOk result (λ t. t ≡ link_timing_of artery.now point.now.values.items) }
{
    // its contract says that the artery is valid
    artery.known_valid();
    let half_out = halves(alloc, artery, point, unit, Dir::Outbound)?;
    let half_in = halves(alloc, artery, point, unit, Dir::Inbound)?;
    Ok(LinkTiming::around(
        lines.base,
        lines.first_out,
        half_out,
        lines.first_in,
        half_in,
    ))
}

/// The timing of a link vertex whose block sums are whole and whose shifts are the signals', where its numbers fit.
fn timing_of(
    alloc: Global,
    artery: &Artery,
    area: &SearchBox,
    point: &Point,
) -> Result<LinkTiming, RecoverFault>
    requires vertex { IsLinkVertex artery.now area.now point.now.values.items }
    requires whole { IsWhole artery.now point.now.values.items }
    requires few { length point.now.values.items < 2 ^ 32 }
    ensures { Answers (link_number_tests artery.now point.now.values.items) (λ t. t ≡ link_timing_of artery.now point.now.values.items) result }
{
    // its contract says that the artery is valid
    artery.known_valid();
    law_valid_street();
    let unit = common_unit(artery, point)?;
    check_columns(artery, point, unit)?;
    match place_lines(alloc, artery, point, unit) {
        Ok(lines) => Ok(around(alloc, artery, point, unit, lines)?),
        Err(fault) => Err(fault),
    }
}

/// What is read of a link vertex: a link timing in whole ticks, or the place where its box is split.
fn read(
    alloc: Global,
    artery: &Artery,
    area: &SearchBox,
    point: &Point,
) -> Result<RecoveredLinks, RecoverFault>
    requires boxed { IsBoxOf artery.now area.now }
    requires vertex { IsLinkVertex artery.now area.now point.now.values.items }
    requires few { length point.now.values.items < 2 ^ 32 }
    ensures { IsRead artery.now area.now point.now.values.items (link_column_tests artery.now point.now.values.items) (link_timing_of artery.now point.now.values.items) result }
{
    // its contract says that the artery is valid
    artery.known_valid();
    law_valid_street();
    let vertex = Vertex {
        artery,
        area,
        point,
    };
    if let Some(place) = split_place(&vertex)? {
        return Ok(Recovered::SplitAt(place));
    }
    read_timing(timing_of(alloc, artery, area, point))
}

/// What becomes of a link vertex of a box: a link timing in whole ticks, which is good and whose value is the vertex's goal, or
/// the place inside the box where it is split.
///
/// The vertex has a value for each column of links, none below 0 and those of the artery's two bands 0, and meets each row of links
/// that the artery has for the box. A place comes where a vertex of the artery has one: at the first link whose block sum is not
/// whole, or else at the first signal whose shift is none of the box's. The error is the first number that does not fit, in the
/// order of `link_recovered`, or want of memory, which may come in place of any answer.
pub fn recover_links(
    alloc: Global,
    artery: &Artery,
    area: &SearchBox,
    point: &Point,
) -> Result<RecoveredLinks, RecoverFault>
    requires boxed { IsBoxOf artery.now area.now }
    requires vertex { IsLinkVertex artery.now area.now point.now.values.items }
    ensures outcome { IsOutcome (link_recovered artery.now area.now point.now.values.items) result }
    ensures sound { IfOk result (λ found. IsLinkSound artery.now area.now point.now.values.items found) }
{
    // its contract says that the artery is valid
    artery.known_valid();
    law_valid_street();
    read(alloc, artery, area, point)
}
