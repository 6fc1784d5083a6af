//! Vertices of links of two signals 500 metres apart, each with half of a cycle of 100 seconds red, driven at 36 kilometres an
//! hour.

ghost use Rattle.std.specs.Prelude.{◌≡◌, IfOk};
ghost use Rattle.rational_theory.specs.Rational.{◌/ℚ◌};
ghost use Rattle.progression.specs.Speeds.{number};
ghost use Rattle.multi_band.specs.Worked.{worked_vertex};

use artery_model::{Artery, Dir};
use link_space::LinkTiming;
use multi_band::{RecoveredLinks, law_worked_link_vertices, recover_links};
use named_row::Point;
use narrow_fraction::Frac;
use offset_recovery::{RecoverFault, Recovered};
use search_box::{At, SearchBox};
use std::alloc::Global;
use std::rt::HostRuntime;
use std::test::Fail;
use test_bed::{half_red_street, part_of};

/// With this wait inbound at signal 2 and this inbound half.
fn point(alloc: Global, wait_in: Frac, half_in: Frac) -> Result<Point, Fail>
    ensures { IfOk result (λ point. point.values.items ≡ worked_vertex (number 1 /ℚ number 2) wait_in (number 1 /ℚ number 4) half_in) }
{
    let half = part_of(1, 2)?;
    let quarter = part_of(1, 4)?;
    let frequency = part_of(1, 100)?;
    let zero = Frac::whole(0);
    let values = vec![in alloc;
        zero, zero, frequency, quarter, quarter, quarter, wait_in, half, half, zero, zero, quarter,
        half_in,
    ]?;
    Ok(Point { values })
}

fn outcome_amid(alloc: Global) -> Result<Result<RecoveredLinks, RecoverFault>, Fail> {
    law_worked_link_vertices();
    let artery = half_red_street(alloc, 500)?;
    let area = SearchBox::root(alloc, &artery)?;
    let wait = part_of(1, 4)?;
    let half = part_of(1, 4)?;
    let point = point(alloc, wait, half)?;
    Ok(recover_links(alloc, &artery, &area, &point))
}

fn outcome_late(alloc: Global) -> Result<Result<RecoveredLinks, RecoverFault>, Fail> {
    law_worked_link_vertices();
    let artery = half_red_street(alloc, 500)?;
    let area = SearchBox::root(alloc, &artery)?;
    let wait = part_of(3, 8)?;
    let half = part_of(1, 8)?;
    let point = point(alloc, wait, half)?;
    Ok(recover_links(alloc, &artery, &area, &point))
}

/// Two ticks a second and a part, the second signal half a cycle after the first, and each band as wide as the greens.
fn is_amid(timing: &LinkTiming) -> bool {
    let base = timing.base();
    base.grid() == 2
        && base.unit() == 2
        && base.patterns() == [1, 1].as_slice()
        && base.reds() == [0, 100].as_slice()
        && base.run_out() == [100].as_slice()
        && base.run_in() == [100].as_slice()
        && timing.first(Dir::Outbound) == 150
        && timing.first(Dir::Inbound) == 50
        && timing.half_out() == [50].as_slice()
        && timing.half_in() == [50].as_slice()
}

#[test]
fn a_whole_vertex_is_a_link_timing(rt: HostRuntime) -> Result<(), Fail> {
    match outcome_amid(rt.alloc())? {
        Ok(Recovered::Timing(timing)) => {
            assert!(rt; is_amid(&timing));
            Ok(())
        }
        _ => Err("no timing".into()),
    }
}

#[test]
fn a_block_sum_of_seven_eighths_splits(rt: HostRuntime) -> Result<(), Fail> {
    match outcome_late(rt.alloc())? {
        Ok(Recovered::SplitAt(place)) => {
            assert_eq!(rt; place, At::Loop { link: 1, at: 0 });
            Ok(())
        }
        _ => Err("no place".into()),
    }
}
