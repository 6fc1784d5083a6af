//! The widest plans in whole seconds that are found, of two signals 250 metres apart at 36 kilometres an hour, with equal reds of half the
//! cycle. The run both ways is 50 seconds, so at a cycle of 50 both bands have half of it, at 75 a third, and at 100 a quarter.

use artery_model::Artery;
use narrow_fraction::Frac;
use second_plan::{Plan, PlanEnd, PlanFault};
use std::alloc::Global;
use std::test::Fail;
use test_bed::{SampleHead, fraction, plain_head, range, two_signals};
use whole_plan::{tried_cycles, whole_plan};

fn street(alloc: Global, least: i64, most: i64, red: u32) -> Result<Artery, Fail> {
    let head = SampleHead {
        cycle: range(least, most),
        ..plain_head()
    };
    two_signals(alloc, head, red, 250)
}

fn tried(alloc: Global, artery: &Artery, named: &[u64]) -> Result<Vec<u64>, Fail> {
    match tried_cycles(alloc, artery, &None, named) {
        Ok(cycles) => Ok(cycles),
        Err(_) => Err("no memory".into()),
    }
}

/// The limits of the cycle, the cycles that are named, and the first, the last and the number of those that are tried.
static TRIED: [(i64, i64, &[u64], u64, u64, usize); 4] = [
    (50, 100, &[100, 75, 120, 49, 75, 50], 50, 100, 3),
    (50, 100, &[], 50, 100, 51),
    (50, 250, &[], 100, 199, 100),
    (50, 251, &[], 101, 200, 100),
];

fn is_tried(
    alloc: Global,
    limits: (i64, i64),
    named: &[u64],
    wanted: (u64, u64, usize),
) -> Result<bool, Fail> {
    let artery = street(alloc, limits.0, limits.1, 50)?;
    let cycles = tried(alloc, &artery, named)?;
    let ends = (cycles.first().copied(), cycles.last().copied());
    Ok(ends == (Some(wanted.0), Some(wanted.1)) && cycles.len() == wanted.2)
}

#[test]
fn the_nearest_or_the_named_cycles_are_tried(rt: HostRuntime) -> Result<(), Fail> {
    for (least, most, named, first, last, count) in TRIED {
        assert!(rt; is_tried(rt.alloc(), (least, most), named, (first, last, count))?);
    }
    Ok(())
}

fn planned(
    alloc: Global,
    artery: &Artery,
    claim: Frac,
    named: &[u64],
) -> Result<Result<Plan, PlanFault>, Fail> {
    match tried_cycles(alloc, artery, &None, named) {
        Ok(cycles) => Ok(whole_plan(alloc, artery, &None, claim, cycles.as_slice())),
        Err(_) => Err("no memory".into()),
    }
}

/// The plan of these cycles: its cycle, its offsets and its loss.
fn plan(alloc: Global, named: &[u64]) -> Result<(u64, Vec<u64>, Frac), Fail> {
    let artery = street(alloc, 50, 100, 50)?;
    match planned(alloc, &artery, Frac::whole(1), named)? {
        Ok(plan) => Ok((plan.seconds, plan.offsets, plan.loss)),
        Err(_) => Err("no plan".into()),
    }
}

#[test]
fn the_widest_cycle_is_planned(rt: HostRuntime) -> Result<(), Fail> {
    let (seconds, offsets, loss) = plan(rt.alloc(), &[100, 50, 75])?;
    assert!(rt; seconds == 50 && loss == Frac::whole(0));
    assert!(rt; offsets.as_slice() == [0, 25].as_slice());
    let (seconds, _, loss) = plan(rt.alloc(), &[100, 75])?;
    assert!(rt; seconds == 75 && loss == fraction(1, 3)?);
    Ok(())
}

/// Why there is no plan of these cycles.
fn end(alloc: Global, named: &[u64]) -> Result<PlanEnd, Fail> {
    let artery = street(alloc, 50, 100, 80)?;
    match planned(alloc, &artery, Frac::whole(1), named)? {
        Err(PlanFault::End(end)) => Ok(end),
        _ => Err("a plan, or no memory".into()),
    }
}

#[test]
fn without_a_plan_the_reason_is_told(rt: HostRuntime) -> Result<(), Fail> {
    assert!(rt; end(rt.alloc(), &[120])? == PlanEnd::NoWholeCycle);
    assert!(rt; end(rt.alloc(), &[100])? == PlanEnd::NoTimingGiven);
    Ok(())
}
