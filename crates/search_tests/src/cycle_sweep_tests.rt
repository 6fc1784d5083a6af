//! Sweeps of two signals 250 metres apart at 36 kilometres an hour, with equal reds and a cycle from 50 to 100 seconds. The run both
//! ways is 50 seconds, so with reds of half the cycle the best weighted band at a cycle of c is 1 less the distance of 50/c from a
//! whole number. At 100 seconds the root takes 4 units, its low part 5 and its high part 6, and the low part has the timing.

ghost use Rattle.std.specs.Prelude.{All, IfOk};
ghost use Rattle.artery_model.specs.{Bounds.{least_cycle, most_cycle}, Valid.{IsQuantity}};
ghost use Rattle.work_meter.specs.Work.{IsBelow};

use artery_model::Artery;
use cycle_sweep::{is_cycle, sweep_rows, sweep_table};
use narrow_fraction::{Frac, Memory};
use std::alloc::Global;
use std::test::Fail;
use test_bed::{SampleHead, fraction, plain_head, range, two_signals};

struct SweepCase {
    /// The red of both signals, of 100 parts.
    red: u32,
    /// The units of work for each cycle; 0 stands for no limit.
    work: u64,
    /// Numerators and denominators.
    cycles: &'static [(i128, i128)],
    table: &'static str,
}

static CASES: [SweepCase; 7] = [
    SweepCase {
        red: 50,
        work: 5000,
        cycles: &[(50, 1), (75, 1), (100, 1), (120, 1)],
        table: "cycle,verdict,weighted,bound,cause\n50,best,1,1,-\n75,best,2/3,2/3,-\n100,best,1/2,1/2,-\n120,outside,-,-,-\n",
    },
    SweepCase {
        red: 50,
        work: 0,
        cycles: &[(100, 1), (125, 2), (99, 2), (100, 1)],
        table: "cycle,verdict,weighted,bound,cause\n100,best,1/2,1/2,-\n125/2,best,4/5,4/5,-\n99/2,outside,-,-,-\n100,best,1/2,1/2,-\n",
    },
    SweepCase {
        red: 50,
        work: 4,
        cycles: &[(100, 1)],
        table: "cycle,verdict,weighted,bound,cause\n100,open,-,1,work\n",
    },
    SweepCase {
        red: 50,
        work: 14,
        cycles: &[(100, 1), (100, 1)],
        table: "cycle,verdict,weighted,bound,cause\n100,open,1/2,1,work\n100,open,1/2,1,work\n",
    },
    SweepCase {
        red: 80,
        work: 0,
        cycles: &[(100, 1)],
        table: "cycle,verdict,weighted,bound,cause\n100,none,-,-,-\n",
    },
    SweepCase {
        red: 80,
        work: 4,
        cycles: &[(100, 1)],
        table: "cycle,verdict,weighted,bound,cause\n100,open,-,2/5,work\n",
    },
    SweepCase {
        red: 50,
        work: 1,
        cycles: &[],
        table: "cycle,verdict,weighted,bound,cause\n",
    },
];

fn head() -> SampleHead {
    SampleHead {
        cycle: range(50, 100),
        ..plain_head()
    }
}

fn limit_of(work: u64) -> Option<u64>
    ensures { IsBelow 0 result }
{
    if work == 0 { None } else { Some(work) }
}

fn cycle_of(num: i128, den: i128) -> Result<Frac, Fail>
    ensures { IfOk result (λ cycle. IsQuantity least_cycle most_cycle cycle) }
{
    match Frac::new(num, den) {
        Ok(cycle) if is_cycle(cycle) => Ok(cycle),
        _ => Err("no cycle".into()),
    }
}

fn cycles_of(alloc: Global, numbers: &[(i128, i128)]) -> Result<Vec<Frac>, Fail>
    ensures { IfOk result (λ cycles. All (IsQuantity least_cycle most_cycle) cycles.items) }
{
    let mut cycles = Vec::new(alloc);
    for number in numbers {
        let cycle = cycle_of(number.0, number.1)?;
        cycles.push(cycle)?;
    }
    Ok(cycles)
}

/// The table of a sweep over these cycles, with nothing said of it.
fn swept(
    alloc: Global,
    artery: &Artery,
    cycles: &[Frac],
    limit: Option<u64>,
) -> Result<Vec<u8>, Memory>
    requires cycles { All (IsQuantity least_cycle most_cycle) cycles.now }
    requires limit { IsBelow 0 limit }
{
    let rows = sweep_rows(alloc, artery, limit, cycles)?;
    sweep_table(alloc, artery, rows.as_slice())
}

/// Whether the table of a case is as worked.
fn is_as_worked(alloc: Global, case: &SweepCase) -> Result<bool, Fail> {
    let artery = two_signals(alloc, head(), case.red, 250)?;
    let cycles = cycles_of(alloc, case.cycles)?;
    match swept(alloc, &artery, cycles.as_slice(), limit_of(case.work)) {
        Ok(table) => Ok(table.as_slice() == case.table.as_bytes()),
        Err(_) => Err("no memory".into()),
    }
}

#[test]
fn tables_are_as_worked(rt: HostRuntime) -> Result<(), Fail> {
    for case in &CASES {
        assert!(rt; is_as_worked(rt.alloc(), case)?);
    }
    Ok(())
}

/// Numerators and denominators, and whether they are a cycle.
static LIMITS: [(i128, i128, bool); 9] = [
    (1, 1, true),
    (999, 1000, false),
    (3600, 1, true),
    (36001, 10, false),
    (1001, 1000, true),
    (1002, 1001, false),
    (100000, 999, true),
    (100001, 999, false),
    (-50, 1, false),
];

fn fits(num: i128, den: i128) -> Result<bool, Fail> {
    Ok(is_cycle(fraction(num, den)?))
}

#[test]
fn cycles_have_limits(rt: HostRuntime) -> Result<(), Fail> {
    for (num, den, want) in LIMITS {
        assert!(rt; fits(num, den)? == want);
    }
    Ok(())
}
