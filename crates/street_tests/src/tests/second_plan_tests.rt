//! Worked rows: two signals and a cycle of 100 parts, where a metre takes a tenth of a second.

use super::given::{four, pair, street, timing};
use artery_model::{Artery, Pair};
use narrow_fraction::{Frac, Op, Wide};
use progression::Dir;
use second_plan::{Plan, PlanEnd, PlanFault, plan};
use std::alloc::{AllocError, Global};
use std::test::Fail;
use test_bed::{
    SampleHead, SampleLink, TextReader, TextRecord, all_told, fraction, plain_head, plain_link,
    plain_signal, with_changes,
};
use time_space::{Timing, holds};

/// A street with red at both signals for so many parts, so far apart outbound and inbound, whose cycle stands in tenths of a second, the
/// ratio as a fraction, and the least bands in hundredths of the cycle. Its timing has reds of half a cycle, the second 50.5 seconds
/// after the first, and runs of 50.5 seconds.
static STREET: &str = "parts 50
apart 500 500
cycle 1000 1000
ratio 1 1
least 0 0
equal 0
grid 2
unit 2
pattern 1 1
red 0 101
run_out 101
run_in 101
first 100 1
band 100 98
";

/// Changes of `STREET`, and its plan, or why there is none.
static PLANS: [&str; 16] = [
    "apart 505 505 -> seconds 100 offset 50 grid 400 unit 400 red 20000 runs 20200 20200 firsts 20000 0 bands 19800 19800 loss 1/100",
    // a cycle of 100.5 seconds: none is whole, and of two the lesser
    "cycle 1003 1007|grid 200|unit 201|red 0 10000|run_out 10000|run_in 10000|first 10050 50|band 0 0 -> no whole cycle",
    "cycle 1000 1010|grid 200|unit 201|red 0 10000|run_out 10000|run_in 10000|first 10050 50|band 0 0 -> seconds 100 offset 50 grid 40000 unit 40000 red 2000000 runs 2000000 2000000 firsts 2000000 0 bands 2000000 2000000 loss 0/1",
    // a cycle of 100.75 seconds
    "cycle 1000 1010|grid 400|unit 403|red 0 20000|run_out 20000|run_in 20000|first 20150 150|band 0 0 -> seconds 101 offset 50 grid 80000 unit 80800 red 4000000 runs 4000000 4000000 firsts 4040000 40000 bands 4040000 3960000 loss 1/101",
    // an offset of 99.75 seconds
    "grid 20|unit 20|red 0 1995|run_out 1000|run_in 1000|first 2000 995|band 0 0 -> seconds 100 offset 0 grid 4000 unit 4000 red 0 runs 200000 200000 firsts 0 0 bands 0 0 loss 1/1",
    // bands that the ratio cuts, or equality, or nothing
    "apart 250 250|ratio 3 7|red 0 70|run_out 50|run_in 50|first 120 50|band 0 0 -> seconds 100 offset 35 grid 400 unit 400 red 14000 runs 10000 10000 firsts 24000 10000 bands 9333 4000 loss 202669/280000",
    "apart 250 250|ratio 7 3|red 0 130|run_out 50|run_in 50|first 180 50|band 0 0 -> seconds 100 offset 65 grid 400 unit 400 red 26000 runs 10000 10000 firsts 36000 10000 bands 4000 9333 loss 14223/40000",
    "apart 250 250|equal 1|red 0 70|run_out 50|run_in 50|first 120 50|band 0 0 -> seconds 100 offset 35 grid 400 unit 400 red 14000 runs 10000 10000 firsts 24000 10000 bands 4000 4000 loss 4/5",
    "apart 250 250|ratio 0 1|red 0 70|run_out 50|run_in 50|first 120 50|band 0 0 -> seconds 100 offset 35 grid 400 unit 400 red 14000 runs 10000 10000 firsts 24000 10000 bands 16000 4000 loss 3/5",
    // Changes of it that leave no plan, and why.
    // the grid, a run and the cycle, of 2^73, 2^72 and 2^66 ticks a second
    "grid 9444732965739290427392|unit 9444732965739290427392|red 0 472236648286964521369600|run_out 472236648286964521369600|run_in 472236648286964521369600|first 472236648286964521369600 0|band 0 0 -> ticks 1888946593147858085478400",
    "grid 4722366482869645213696|unit 4722366482869645213696|red 0 236118324143482260684800|run_out 236118324143482260684800|run_in 236118324143482260684800|first 236118324143482260684800 0|band 0 0 -> ticks 47223664828696452136960000",
    "grid 73786976294838206464|unit 73786976294838206464|red 0 3689348814741910323200|run_out 3689348814741910323200|run_in 3689348814741910323200|first 3689348814741910323200 0|band 0 0 -> ticks 1475739525896764129280000",
    // reds of 80 seconds, of which the second begins half a second too early
    "parts 80|apart 505 505|red 0 61|first 160 59|band 0 0 -> no line outbound",
    "parts 80|apart 190 605|red 0 39|run_out 38|run_in 121|first 161 39|band 0 0 -> no line inbound",
    // least bands of half a cycle
    "apart 505 505|least 50 0 -> Least { dir: Outbound }",
    "apart 505 505|least 0 50|red 0 99|first 100 199|band 98 100 -> Least { dir: Inbound }",
];

fn head_of(cycle: Pair, ratio: Frac, least: Pair, equal: bool) -> SampleHead {
    SampleHead {
        version: 2,
        cycle,
        ratio,
        least_out: least.least,
        least_in: least.most,
        equal,
        ..plain_head()
    }
}

fn ratio(record: TextRecord<'_>) -> Result<Frac, Fail> {
    let den = record.number("ratio", 1)?;
    record.quotient("ratio", 0, den)
}

fn head(record: TextRecord<'_>, equal: bool) -> Result<SampleHead, Fail> {
    let (cycle, least) = (pair(record, "cycle", 10)?, pair(record, "least", 100)?);
    Ok(head_of(cycle, ratio(record)?, least, equal))
}

fn artery(alloc: Global, record: TextRecord<'_>) -> Result<Artery, Fail> {
    let places = [("apart", 0), ("apart", 1), ("parts", 0), ("equal", 0)];
    let [distance_out, distance_in, red, equal] = four(record, places)?;
    let link = SampleLink {
        distance_in,
        ..plain_link(distance_out)
    };
    let signals = [plain_signal("A", red), plain_signal("B", red)];
    street(alloc, head(record, equal == 1)?, &signals, &[link])
}

fn number<T: Copy>(numbers: &[T], place: usize) -> Result<T, Fail> {
    match numbers.get(place) {
        Some(number) => Ok(*number),
        None => Err("no such number".into()),
    }
}

/// The grid and the unit, and the first lines and the bands, outbound and inbound.
fn whole_numbers(timing: &Timing) -> ([u128; 2], [i128; 2], [u128; 2]) {
    (
        [timing.grid(), timing.unit()],
        [timing.first(Dir::Outbound), timing.first(Dir::Inbound)],
        [timing.band(Dir::Outbound), timing.band(Dir::Inbound)],
    )
}

/// The second red, and the first runs outbound and inbound.
fn listed_numbers(timing: &Timing) -> Result<[u128; 3], Fail> {
    Ok([
        number(timing.reds(), 1)?,
        number(timing.run_out(), 0)?,
        number(timing.run_in(), 0)?,
    ])
}

/// The numbers of a timing's lines: the second red, and what is outbound and inbound.
fn numbers_of(alloc: Global, timing: &Timing) -> Result<String, Fail> {
    let [red, run_out, run_in] = listed_numbers(timing)?;
    let ([grid, unit], [first_out, first_in], [band_out, band_in]) = whole_numbers(timing);
    Ok(format!(in alloc;
        "grid {grid} unit {unit} red {red} runs {run_out} {run_in} firsts {first_out} {first_in} bands {band_out} {band_in}"
    )?)
}

/// A plan in words: its cycle and the offset of signal 2 in seconds, its timing, and what its bands lose.
fn plan_text(alloc: Global, plan: &Plan) -> Result<String, Fail> {
    let (seconds, offset) = (plan.seconds, number(plan.offsets.as_slice(), 1)?);
    let numbers = numbers_of(alloc, &plan.timing)?;
    let (num, den) = (plan.loss.num(), plan.loss.den());
    Ok(format!(in alloc;
        "seconds {seconds} offset {offset} {} loss {num}/{den}",
        numbers.as_str()
    )?)
}

/// Why there is no plan.
fn end_text(alloc: Global, end: PlanEnd) -> Result<String, AllocError> {
    match end {
        PlanEnd::NoTimingGiven => String::from_str(alloc, "no timing given"),
        PlanEnd::NoWholeCycle => String::from_str(alloc, "no whole cycle"),
        PlanEnd::TooFine { ticks } => format!(in alloc; "ticks {ticks}"),
        PlanEnd::NoLine { dir: Dir::Outbound } => String::from_str(alloc, "no line outbound"),
        PlanEnd::NoLine { dir: Dir::Inbound } => String::from_str(alloc, "no line inbound"),
        PlanEnd::Fails(failing) => format!(in alloc; "{failing:?}"),
        PlanEnd::Wide(wide) => format!(in alloc; "{wide:?}"),
    }
}

/// The answer, but for want of memory.
fn ended(answer: Result<Plan, PlanFault>) -> Result<Result<Plan, PlanEnd>, Fail> {
    match answer {
        Ok(plan) => Ok(Ok(plan)),
        Err(PlanFault::End(end)) => Ok(Err(end)),
        Err(PlanFault::Memory) => Err("no memory".into()),
    }
}

/// The plan of a timing that is good.
fn plan_of(
    alloc: Global,
    artery: &Artery,
    claim: Frac,
    timing: &Timing,
) -> Result<Result<Plan, PlanEnd>, Fail> {
    match holds(artery, timing) {
        Ok(()) => ended(plan(alloc, artery, claim, timing)),
        Err(_) => Err("not good".into()),
    }
}

fn planned(
    alloc: Global,
    record: TextRecord<'_>,
    claim: Frac,
) -> Result<Result<Plan, PlanEnd>, Fail> {
    let artery = artery(alloc, record)?;
    let timing = timing(alloc, record)?;
    plan_of(alloc, &artery, claim, &timing)
}

/// Plans the timing of a street, whose value is claimed to be 1.
#[derive(Clone, Copy, Drop)]
struct Planner;

impl TextReader for Planner {
    fn answer(&self, alloc: Global, text: &[u8]) -> Result<String, Fail> {
        match planned(alloc, TextRecord::new(text)?, Frac::whole(1))? {
            Ok(plan) => plan_text(alloc, &plan),
            Err(end) => Ok(end_text(alloc, end)?),
        }
    }
}

#[test]
fn plans(rt: HostRuntime) -> Result<(), Fail> {
    all_told(rt.alloc(), &Planner, STREET, &PLANS)
}

/// A claim that is too small for the loss to be told.
#[test]
fn a_small_claim_is_refused(rt: HostRuntime) -> Result<(), Fail> {
    let small = fraction(1, 1 << 126)?;
    let wide = Wide {
        op: Op::Sub,
        left: small,
        right: fraction(99, 100)?,
    };
    let text = with_changes(rt.alloc(), STREET, "apart 505 505")?;
    match planned(rt.alloc(), TextRecord::new(text.as_bytes())?, small)? {
        Ok(_) => Err("a plan".into()),
        Err(end) => {
            assert!(rt; end == PlanEnd::Wide(wide));
            Ok(())
        }
    }
}
