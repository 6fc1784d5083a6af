//! Worked rows: two signals and a cycle of 100 seconds, where a metre takes a tenth of a second, as long as no speed is given.

use super::given::{pair, street, timing, two};
use artery_model::{Artery, Pair};
use narrow_fraction::Frac;
use progression::Dir;
use second_plan::{PlanEnd, PlanFault};
use std::alloc::{AllocError, Global};
use std::test::Fail;
use test_bed::{
    SampleHead, SampleLink, TextReader, TextRecord, all_told, plain_head, plain_link, plain_signal,
    range, with_changes,
};
use time_space::{Base, check_base};
use whole_offsets::{OffsetPlan, is_better, steady};

/// A street with red at both signals for so many parts, so far apart, whose speeds stand in tenths of a kilometre an hour and its least
/// bands in hundredths of the cycle. Its timing has reds of half a cycle, the second 49 seconds after the first, and runs of 50 seconds.
static STREET: &str = "parts 50
apart 500 500
speed 360 360
least 0 0
grid 2
unit 2
pattern 1 1
red 0 98
run_out 100
run_in 100
first 100 0
band 0 0
";

/// Changes of `STREET`, and its plan.
static PLANS: [&str; 5] = [
    // a second later both bands are as wide as the green
    "red 0 98 -> offset 50 bands 5000000 5000000 weighted 1/1 misses 0/1 good",
    "red 0 94 -> offset 50 bands 5000000 5000000 weighted 1/1 misses 0/1 good",
    // with runs of 49 and 51 seconds they are so at once
    "apart 750 750|speed 300 600|run_out 150|run_in 150 -> offset 49 bands 5000000 5000000 weighted 1/1 misses 0/1 good",
    // from reds of 80 seconds with no line outbound
    "parts 80|apart 505 505|red 0 61|run_out 101|run_in 101|first 160 59 -> offset 50 bands 1950000 1950000 weighted 39/100 misses 0/1 good",
    // runs of 50.5 seconds, and a least band of half a cycle
    "apart 505 505|least 50 0|red 0 101|run_out 101|run_in 101|first 100 1|band 100 98 -> offset 50 bands 4950000 4950000 weighted 99/100 misses 1/200 Least { dir: Outbound }",
];

fn head_of(least: Pair) -> SampleHead {
    SampleHead {
        version: 2,
        cycle: range(100, 100),
        least_out: least.least,
        least_in: least.most,
        ..plain_head()
    }
}

fn link_of(distances: [u32; 2], speed_out: Pair, speed_in: Pair) -> SampleLink {
    let [distance_out, distance_in] = distances;
    SampleLink {
        distance_in,
        speed_out,
        speed_in,
        ..plain_link(distance_out)
    }
}

fn link(record: TextRecord<'_>) -> Result<SampleLink, Fail> {
    let distances = two(record, [("apart", 0), ("apart", 1)])?;
    let (speed_out, speed_in) = (pair(record, "speed", 10)?, pair(record, "speed", 10)?);
    Ok(link_of(distances, speed_out, speed_in))
}

fn artery(alloc: Global, record: TextRecord<'_>) -> Result<Artery, Fail> {
    let red = record.small("parts", 0)?;
    let signals = [plain_signal("A", red), plain_signal("B", red)];
    let head = head_of(pair(record, "least", 100)?);
    street(alloc, head, &signals, &[link(record)?])
}

/// The answer, but for want of memory.
fn planned(answer: Result<OffsetPlan, PlanFault>) -> Result<OffsetPlan, Fail> {
    match answer {
        Ok(plan) => Ok(plan),
        Err(_) => Err("no plan".into()),
    }
}

/// The plan in 100 seconds, begun from a base that keeps the rules.
#[tactic(auto, using(rational_theory::proofs::Compare::le_true))]
fn plan_of(alloc: Global, artery: &Artery, base: &Base) -> Result<OffsetPlan, Fail> {
    let (limits, seconds) = (artery.cycle(), Frac::whole(100));
    if limits.least <= seconds && seconds <= limits.most && check_base(artery, base).is_ok() {
        planned(steady(alloc, artery, base, 100))
    } else {
        Err("a rule is broken".into())
    }
}

fn plan(alloc: Global, record: TextRecord<'_>) -> Result<OffsetPlan, Fail> {
    let artery = artery(alloc, record)?;
    let timing = timing(alloc, record)?;
    plan_of(alloc, &artery, timing.base())
}

fn end_text(alloc: Global, end: Option<PlanEnd>) -> Result<String, AllocError> {
    match end {
        None => String::from_str(alloc, "good"),
        Some(PlanEnd::Fails(failing)) => format!(in alloc; "{failing:?}"),
        Some(_) => String::from_str(alloc, "no line"),
    }
}

fn score_text(alloc: Global, plan: &OffsetPlan) -> Result<String, AllocError> {
    let (weighted, misses) = (plan.score.weighted, plan.score.misses);
    format!(in alloc;
        "weighted {}/{} misses {}/{}",
        weighted.num(),
        weighted.den(),
        misses.num(),
        misses.den()
    )
}

/// A plan in words: the offset of signal 2, the bands, what it is judged by, and the rule that it breaks.
fn plan_text(alloc: Global, plan: &OffsetPlan) -> Result<String, Fail> {
    let Some(offset) = plan.offsets.as_slice().get(1) else {
        return Err("no such offset".into());
    };
    let bands = (
        plan.timing.band(Dir::Outbound),
        plan.timing.band(Dir::Inbound),
    );
    let (score, end) = (score_text(alloc, plan)?, end_text(alloc, plan.end)?);
    Ok(format!(in alloc;
        "offset {offset} bands {} {} {} {}",
        bands.0,
        bands.1,
        score.as_str(),
        end.as_str()
    )?)
}

/// Plans the timing of a street.
#[derive(Clone, Copy, Drop)]
struct OffsetPlanner;

impl TextReader for OffsetPlanner {
    fn answer(&self, alloc: Global, text: &[u8]) -> Result<String, Fail> {
        plan_text(alloc, &plan(alloc, TextRecord::new(text)?)?)
    }
}

#[test]
fn plans_are_steady(rt: HostRuntime) -> Result<(), Fail> {
    all_told(rt.alloc(), &OffsetPlanner, STREET, &PLANS)
}

/// The wider of two good plans is better.
#[test]
fn wider_is_better(rt: HostRuntime) -> Result<(), Fail> {
    let wide = plan(rt.alloc(), TextRecord::new(STREET.as_bytes())?)?;
    let text = with_changes(
        rt.alloc(),
        STREET,
        "apart 505 505|red 0 101|run_out 101|run_in 101|first 100 1",
    )?;
    let narrow = plan(rt.alloc(), TextRecord::new(text.as_bytes())?)?;
    assert!(rt; is_better(&wide, &narrow));
    assert!(rt; !is_better(&narrow, &wide));
    Ok(())
}
