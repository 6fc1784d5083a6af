//! From a plan to its timing.

ghost use Rattle.std.specs.Prelude.{◌≡◌, ◌<◌, ◌≤◌, ◌^◌, None, IfOk, IfErr};
ghost use Rattle.progression.specs.BaseRecord.{cycle};
ghost use Rattle.progression.specs.TimingRecord.{base};
ghost use Rattle.typed_plan.specs.{Counts.{HasCounts, count_fault}, Grid.{least_grid, too_fine}};
ghost use Rattle.typed_plan.specs.Ends.{AreCut, ArePut, pair_or_none, paired, IsBelow, IsTimingOf, Refuses};

use crate::counts::check_counts;
use crate::grid::fitting_grid;
use crate::least::least_base;
use artery_model::{Artery, Dir, Flaw, Refusal};
use band_measure::{Bands, BothPairs, Widest, cut, widest_on};
use description_reader::TypedPlan;
use narrow_fraction::Memory;
use std::alloc::Global;
use time_space::{Base, Timing};

/// Why a plan has no timing on an artery.
#[derive(Drop)]
pub enum TypedFault {
    /// The plan has more or fewer numbers at this place than the artery has signals or links.
    Refused(Refusal),
    /// The first number of ticks on the way to the least grid, and then of the timing's grid, runs and cycle, that is `2^80` or more; one on
    /// the way that is more than `2^127 - 1` is told as that.
    TooFine { ticks: u128 },
    Memory,
}

impl From<Memory> for TypedFault {
    ghost use Rattle.typed_plan.specs.declared.timing.TypedFault.TheVariants as fault;

    ghost from_gives = { λ _ f. f ≡ fault.Memory };

    fn from(_: Memory) -> TypedFault {
        TypedFault::Memory
    }
}

/// The timing of a plan, and the pairs of its bands.
#[derive(Drop)]
pub struct Measured {
    /// The timing has these pairs, and a first and a band of 0 where there is none.
    pub timing: Timing,
    /// The outbound pair, and None where no line crosses every signal in green.
    pub outbound: Option<Widest>,
    /// The inbound one.
    pub inbound: Option<Widest>,
}

/// The pair of each direction in which a line runs.
#[derive(Clone, Copy)]
struct FoundPairs {
    outbound: Option<Widest>,
    inbound: Option<Widest>,
}

/// No line, for a direction in which none runs.
const NO_LINE: Widest = Widest { first: 0, band: 0 };

fn pair_or_none(found: Option<Widest>) -> Widest
    ensures value { result ≡ pair_or_none found }
{
    found.unwrap_or(NO_LINE)
}

/// The pairs with their bands cut.
fn cut_pairs(artery: &Artery, there: Widest, back: Widest) -> BothPairs
    requires there { there.band < 2 ^ 92 }
    requires back { back.band < 2 ^ 92 }
    ensures cut { AreCut artery.now there back result.outbound result.inbound }
    ensures there { result.outbound.band ≤ there.band }
    ensures back { result.inbound.band ≤ back.band }
{
    let bands = cut(
        artery,
        Bands {
            outbound: there.band,
            inbound: back.band,
        },
    );
    BothPairs {
        outbound: Widest {
            first: there.first,
            band: bands.outbound,
        },
        inbound: Widest {
            first: back.first,
            band: bands.inbound,
        },
    }
}

/// What is put of the widest pairs.
fn put_pairs(artery: &Artery, cycle: u128, found: FoundPairs) -> FoundPairs
    requires cycle { cycle < 2 ^ 80 }
    requires outbound { IsBelow cycle found.outbound }
    requires inbound { IsBelow cycle found.inbound }
    ensures put { ArePut artery.now found.outbound found.inbound result.outbound result.inbound }
    ensures outbound { IsBelow cycle result.outbound }
    ensures inbound { IsBelow cycle result.inbound }
{
    match (found.outbound, found.inbound) {
        (Some(there), Some(back)) => {
            let BothPairs { outbound, inbound } = cut_pairs(artery, there, back);
            FoundPairs {
                outbound: Some(outbound),
                inbound: Some(inbound),
            }
        }
        _ => found,
    }
}

/// The timing of a base with the pairs that are put of the widest ones.
fn put_on_base(artery: &Artery, on: Base, found: FoundPairs) -> Measured
    requires cycle { cycle artery.now on < 2 ^ 80 }
    requires outbound { IsBelow (cycle artery.now on) found.outbound }
    requires inbound { IsBelow (cycle artery.now on) found.inbound }
    ensures put { ArePut artery.now found.outbound found.inbound result.outbound result.inbound }
    ensures timing { result.timing ≡ paired on (pair_or_none result.outbound) (pair_or_none result.inbound) }
    ensures outbound { IsBelow (cycle artery.now on) result.outbound }
    ensures inbound { IsBelow (cycle artery.now on) result.inbound }
{
    let put = put_pairs(artery, on.cycle(artery), found);
    let there = pair_or_none(put.outbound);
    let back = pair_or_none(put.inbound);
    Measured {
        timing: on.banded(there.first, there.band, back.first, back.band),
        outbound: put.outbound,
        inbound: put.inbound,
    }
}

/// The least base of a plan that fits, with its bands.
fn timed(alloc: Global, artery: &Artery, plan: &TypedPlan, grid: u128) -> Result<Measured, Memory>
    requires counts { HasCounts artery.now plan.now }
    requires fault { count_fault artery.now plan.now ≡ None }
    requires grid { grid ≡ least_grid artery.now plan.now }
    requires fine { too_fine artery.now plan.now ≡ None }
    ensures timing { IfOk result (λ m. IsTimingOf artery.now plan.now m) }
    ensures outbound { IfOk result (λ m. IsBelow (cycle artery.now (base m.timing)) m.outbound) }
    ensures inbound { IfOk result (λ m. IsBelow (cycle artery.now (base m.timing)) m.inbound) }
{
    artery.known_valid();
    plan.known_within();
    let on = least_base(alloc, artery, plan, grid)?;
    let outbound = widest_on(artery, &on, Dir::Outbound);
    let inbound = widest_on(artery, &on, Dir::Inbound);
    Ok(put_on_base(artery, on, FoundPairs { outbound, inbound }))
}

/// The timing of a plan on an artery.
///
/// It has exactly the plan's cycle, patterns and times on the links, and its offsets but for whole cycles, on the least grid that has
/// them; the common red of signal 1 starts at tick 0. Its firsts and bands are the widest on these offsets, whichever rules the timing
/// breaks. Where both directions have a line the bands are cut to the artery's ratio rule and to `equal`; where one has none, its first
/// and band are 0 and the other's stand as they were measured. The first fault is told: `Refused` for counts in the order of the plan's
/// keys, then `TooFine`; `Memory` may come in place of any answer.
pub fn timing_of(alloc: Global, artery: &Artery, plan: &TypedPlan) -> Result<Measured, TypedFault>
    ensures timing { IfOk result (λ m. IsTimingOf artery.now plan.now m) }
    ensures outbound { IfOk result (λ m. IsBelow (cycle artery.now (base m.timing)) m.outbound) }
    ensures inbound { IfOk result (λ m. IsBelow (cycle artery.now (base m.timing)) m.inbound) }
    ensures faults { IfErr result (λ f. Refuses artery.now plan.now f) }
{
    artery.known_valid();
    match check_counts(alloc, artery, plan) {
        Ok(()) => {}
        Err(Flaw::Refused(refusal)) => return Err(TypedFault::Refused(refusal)),
        Err(Flaw::Memory) => return Err(TypedFault::Memory),
    }
    let grid = match fitting_grid(artery, plan) {
        Ok(grid) => grid,
        Err(ticks) => return Err(TypedFault::TooFine { ticks }),
    };
    Ok(timed(alloc, artery, plan, grid)?)
}
