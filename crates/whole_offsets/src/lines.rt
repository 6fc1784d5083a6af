//! The widest band of a direction with free runs, and runs that have it.

ghost use Rattle.std.specs.Prelude.{◌≡◌, ◌+◌, ◌-◌, ◌<◌, ◌≤◌, length, IfOk};
ghost use Rattle.progression.specs.{Street.{count}, BaseRecord.{cycle}};
ghost use Rattle.free_runs.specs.Free.{NoneFree, IsFree};
ghost use Rattle.artery_model.specs.Bounds.{most_signals};
ghost use Rattle.whole_offsets.specs.Lines.{HasRuns, IsDirectionBand, place_of, AreRunsOf, AreLeast};
ghost use Rattle.time_space.specs.Timing.{IsFor};

use artery_model::Artery;
use band_measure::Widest;
use free_band::FreeBand;
use free_runs::{run_limits, widest_band};
use narrow_fraction::Memory;
use progression::Dir;
use std::alloc::Global;
use time_space::Base;

/// The widest band of a direction, with its runs.
#[derive(Drop)]
pub struct DirectionBand {
    /// The first line and the band's width, both 0 where no line passes.
    pub pair: Widest,
    /// The runs, in the order of the links; where no line passes the least ones.
    pub runs: Vec<u128>,
    /// 1 where no line passes, and else 0.
    pub lineless: u32,
}

/// The place in travel order from which the link leads on that stands at an index in the order of the links.
fn place_of(dir: Dir, count: u32, index: u32) -> u32
    requires link { index + 1 < count }
    requires many { count ≤ most_signals }
    ensures value { result ≡ place_of dir count index }
    ensures on_way { result + 1 < count }
{
    match dir {
        Dir::Outbound => index,
        Dir::Inbound => count - 2 - index,
    }
}

/// The runs of a band in the order of the links.
fn runs_of(alloc: Global, artery: &Artery, dir: Dir, free: &FreeBand) -> Result<Vec<u128>, Memory>
    requires places { length free.now.runs ≡ 24 }
    ensures { IfOk result (λ runs. AreRunsOf artery.now dir free.now runs.items (count artery.now - 1)) }
{
    let count = artery.count();
    let mut runs = Vec::new(alloc);
    for index in 0..count - 1 {
        runs.push(free.runs[place_of(dir, count, index) as usize])?;
    }
    Ok(runs)
}

/// The least runs within the limits of speed, in the order of the links.
fn least_runs(alloc: Global, artery: &Artery, base: &Base, dir: Dir) -> Result<Vec<u128>, Memory>
    requires runs { HasRuns artery.now base.now.grid }
    ensures { IfOk result (λ runs. AreLeast artery.now base.now.grid dir runs.items (count artery.now - 1)) }
{
    let mut runs = Vec::new(alloc);
    for index in 0..artery.count() - 1 {
        runs.push(run_limits(artery, base, dir, index + 1).least)?;
    }
    Ok(runs)
}

/// The band that was found.
fn found_band(
    alloc: Global,
    artery: &Artery,
    base: &Base,
    dir: Dir,
    free: &FreeBand,
) -> Result<DirectionBand, Memory>
    requires free { IsFree artery.now base.now dir free.now }
    requires first { free.now.first < cycle artery.now base.now }
    requires band { free.now.band < cycle artery.now base.now }
    ensures { IfOk result (λ b. IsDirectionBand artery.now base.now dir b) }
{
    artery.known_valid();
    let runs = runs_of(alloc, artery, dir, free)?;
    Ok(DirectionBand {
        pair: Widest {
            first: free.first,
            band: free.band,
        },
        runs,
        lineless: 0,
    })
}

/// That no line passes.
fn no_band(alloc: Global, artery: &Artery, base: &Base, dir: Dir) -> Result<DirectionBand, Memory>
    requires runs { HasRuns artery.now base.now.grid }
    requires none { NoneFree artery.now base.now dir }
    requires some { 0 < cycle artery.now base.now }
    ensures { IfOk result (λ b. IsDirectionBand artery.now base.now dir b) }
{
    artery.known_valid();
    let runs = least_runs(alloc, artery, base, dir)?;
    Ok(DirectionBand {
        pair: Widest { first: 0, band: 0 },
        runs,
        lineless: 1,
    })
}

/// The widest band of a direction on the offsets of a base, with any runs within the limits of speed.
pub fn direction_band(
    alloc: Global,
    artery: &Artery,
    base: &Base,
    dir: Dir,
) -> Result<DirectionBand, Memory>
    requires shape { IsFor artery.now base.now }
    requires runs { HasRuns artery.now base.now.grid }
    requires some { 0 < cycle artery.now base.now }
    ensures { IfOk result (λ b. IsDirectionBand artery.now base.now dir b) }
{
    match widest_band(artery, base, dir) {
        Some(free) => found_band(alloc, artery, base, dir, &free),
        None => no_band(alloc, artery, base, dir),
    }
}
