//! The least base of a plan.

ghost use Rattle.std.specs.Prelude.{◌≡◌, ◌*◌, ◌<◌, ◌≤◌, ◌^◌, None, All, IfOk, pos, ◌+ℤ◌, ◌-ℤ◌, ◌≤ℤ◌, unsigned_abs};
ghost use Rattle.std.specs.Int.{int_min};
ghost use Rattle.progression.specs.{Columns.{numbered}, Green.{mod_ℤ}, Street.{count, HasSignal}};
ghost use Rattle.typed_plan.specs.Counts.{HasCounts};
ghost use Rattle.typed_plan.specs.Grid.{AreLeast, start_part, end_part, moment_part, lead, least_grid, least_unit, red_tick, runs, too_fine, least_base};

use crate::grid::{product, size, ticks};
use crate::times::{Times, time};
use artery_model::{Artery, Dir};
use description_reader::{Reference, TypedPlan};
use narrow_fraction::Memory;
use std::alloc::Global;
use time_space::{Base, is_early};

/// The ticks of a base in a second, and in a part.
#[derive(Clone, Copy)]
struct BaseTicks {
    grid: u128,
    unit: u128,
}

/// Where the red of a direction starts under a pattern, in parts after the start of the common red: before that where the left turn
/// against the direction lags.
fn start_part(artery: &Artery, dir: Dir, pattern: u32, signal: u32) -> i32
    requires signal { HasSignal artery.now signal }
    ensures value { result ≡ start_part artery.now dir pattern signal }
    ensures late { result ≤ℤ pos 0 }
    ensures near { unsigned_abs result < 3600 }
{
    if is_early(dir, pattern) {
        -(artery.left_against(dir, signal) as i32)
    } else {
        0
    }
}

/// Where it ends.
fn end_part(artery: &Artery, dir: Dir, pattern: u32, signal: u32) -> i32
    requires signal { HasSignal artery.now signal }
    ensures value { result ≡ end_part artery.now dir pattern signal }
    ensures near { unsigned_abs result < 3600 }
{
    start_part(artery, dir, pattern, signal) + artery.red(dir, signal) as i32
}

/// Where the red ends that ends first.
fn first_end(artery: &Artery, pattern: u32, signal: u32) -> i32
    requires signal { HasSignal artery.now signal }
    ensures value { result ≡ int_min (end_part artery.now Dir.Outbound pattern signal) (end_part artery.now Dir.Inbound pattern signal) }
    ensures near { unsigned_abs result < 3600 }
{
    let outbound = end_part(artery, Dir::Outbound, pattern, signal);
    let inbound = end_part(artery, Dir::Inbound, pattern, signal);
    outbound.min(inbound)
}

/// Where the moment lies from which an offset counts, in parts after the start of the common red.
fn moment_part(artery: &Artery, reference: Reference, pattern: u32, signal: u32) -> i32
    requires signal { HasSignal artery.now signal }
    ensures value { result ≡ moment_part artery.now reference pattern signal }
    ensures near { unsigned_abs result < 3600 }
{
    match reference {
        Reference::Red => 0,
        Reference::GreenOut => end_part(artery, Dir::Outbound, pattern, signal),
        Reference::GreenIn => end_part(artery, Dir::Inbound, pattern, signal),
        Reference::FirstGreen => first_end(artery, pattern, signal),
        Reference::EndOut => start_part(artery, Dir::Outbound, pattern, signal),
        Reference::EndIn => start_part(artery, Dir::Inbound, pattern, signal),
    }
}

/// How many ticks after the start of a signal's common red the moment comes from which its offset counts.
fn lead(artery: &Artery, plan: &TypedPlan, unit: u128, signal: u32) -> i128
    requires counts { HasCounts artery.now plan.now }
    requires unit { unit ≡ least_unit artery.now plan.now }
    requires small { unit < 2 ^ 80 }
    requires signal { HasSignal artery.now signal }
    ensures value { result ≡ lead artery.now plan.now signal }
    ensures near { unsigned_abs result < 2 ^ 110 }
{
    let pattern = plan.patterns()[signal as usize - 1];
    let part = moment_part(artery, plan.reference(), pattern, signal);
    product(i128::from(part), unit)
}

/// A moment of a signal and a part of a cycle after it.
fn sum(one: i128, other: i128) -> i128
    requires one { unsigned_abs one < 2 ^ 110 }
    requires other { unsigned_abs other < 2 ^ 110 }
    ensures value { result ≡ one +ℤ other }
    ensures near { unsigned_abs result < 2 ^ 111 }
{
    one + other
}

/// And a part of a cycle before it.
fn difference(one: i128, other: i128) -> i128
    requires one { unsigned_abs one < 2 ^ 111 }
    requires other { unsigned_abs other < 2 ^ 110 }
    ensures value { result ≡ one -ℤ other }
    ensures near { unsigned_abs result < 2 ^ 112 }
{
    one - other
}

/// The remainder of a tick by the cycle, from 0 to `cycle - 1`.
fn in_cycle(cycle: u128, tick: i128) -> u128
    requires cycle { 0 < cycle }
    requires size { cycle < 2 ^ 100 }
    requires tick { unsigned_abs tick < 2 ^ 120 }
    ensures value { result ≡ mod_ℤ tick cycle }
    ensures below { result < cycle }
{
    tick.rem_euclid(cycle as i128) as u128
}

/// The cycle in ticks.
fn cycle(artery: &Artery, unit: u128) -> u128
    requires some { 1 ≤ unit }
    requires small { artery.now.head.parts * unit < 2 ^ 80 }
    ensures value { result ≡ artery.now.head.parts * unit }
    ensures some { 0 < result }
{
    artery.known_valid();
    u128::from(artery.parts()) * unit
}

/// Where the common red of a signal starts, that of signal 1 at 0.
fn red_tick(artery: &Artery, plan: &TypedPlan, scale: BaseTicks, signal: u32) -> u128
    requires counts { HasCounts artery.now plan.now }
    requires least { AreLeast artery.now plan.now scale.grid scale.unit }
    requires signal { HasSignal artery.now signal }
    ensures value { result ≡ red_tick artery.now plan.now signal }
    ensures small { result < 2 ^ 80 }
{
    let after = ticks(scale.grid, time(artery, plan, Times::After, signal));
    let here = lead(artery, plan, scale.unit, signal);
    let first = lead(artery, plan, scale.unit, 1);
    let tick = difference(sum(after, first), here);
    in_cycle(cycle(artery, scale.unit), tick)
}

/// Where the common red of each signal starts.
fn reds(
    alloc: Global,
    artery: &Artery,
    plan: &TypedPlan,
    scale: BaseTicks,
) -> Result<Vec<u128>, Memory>
    requires counts { HasCounts artery.now plan.now }
    requires least { AreLeast artery.now plan.now scale.grid scale.unit }
    ensures value { IfOk result (λ v. v.items ≡ numbered (count artery.now) 1 (red_tick artery.now plan.now)) }
    ensures small { IfOk result (λ v. All (λ n. n < 2 ^ 80) v.items) }
{
    let mut reds = Vec::new(alloc);
    for place in 0..artery.count() {
        reds.push(red_tick(artery, plan, scale, place + 1))?;
    }
    Ok(reds)
}

/// The runs of a direction.
fn runs(
    alloc: Global,
    artery: &Artery,
    plan: &TypedPlan,
    grid: u128,
    dir: Dir,
) -> Result<Vec<u128>, Memory>
    requires counts { HasCounts artery.now plan.now }
    requires grid { grid ≡ least_grid artery.now plan.now }
    requires fine { too_fine artery.now plan.now ≡ None }
    ensures { IfOk result (λ v. v.items ≡ runs artery.now plan.now dir) }
{
    let mut runs = Vec::new(alloc);
    for place in 0..artery.count() - 1 {
        runs.push(size(artery, plan, grid, Times::Run(dir), place + 1))?;
    }
    Ok(runs)
}

/// The least base of a plan.
pub fn least_base(
    alloc: Global,
    artery: &Artery,
    plan: &TypedPlan,
    grid: u128,
) -> Result<Base, Memory>
    requires counts { HasCounts artery.now plan.now }
    requires grid { grid ≡ least_grid artery.now plan.now }
    requires fine { too_fine artery.now plan.now ≡ None }
    ensures { IfOk result (λ b. b ≡ least_base artery.now plan.now) }
{
    artery.known_valid();
    plan.known_within();
    let unit = size(artery, plan, grid, Times::Part, 1);
    let patterns = Vec::from_slice(alloc, plan.patterns())?;
    let scale = BaseTicks { grid, unit };
    let reds = reds(alloc, artery, plan, scale)?;
    let run_out = runs(alloc, artery, plan, grid, Dir::Outbound)?;
    let run_in = runs(alloc, artery, plan, grid, Dir::Inbound)?;
    match Base::new(grid, unit, patterns, reds, run_out, run_in) {
        Some(base) => Ok(base),
        None => unreachable!(),
    }
}
