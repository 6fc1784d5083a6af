//! The bases that plans are made of: the signals' times, and the runs found on them.

ghost use Rattle.std.specs.Prelude.{◌≡◌, ◌+◌, ◌<◌, ◌^◌, length, All, pos, IfOk};
ghost use Rattle.progression.specs.{Good.{IsBase}, TimingRecord.{banded}};
ghost use Rattle.free_runs.specs.Free.{with_runs};
ghost use Rattle.whole_offsets.specs.{Scale.{IsScale}, Offsets.{AreWithin}, Measured.{on_offsets}};

use crate::lines::DirectionBand;
use crate::scale::TickScale;
use artery_model::Artery;
use band_measure::Bands;
use narrow_fraction::Memory;
use second_plan::{Rounded, reds};
use std::alloc::Global;
use time_space::{Base, Timing};

/// The signals' times of a plan: its grid and reds, with the patterns of a base, and its runs as they are.
pub fn on_offsets(
    alloc: Global,
    artery: &Artery,
    base: &Base,
    scale: TickScale,
    rounded: &Rounded,
) -> Result<Base, Memory>
    requires base { IsBase artery.now base.now }
    requires scale { IsScale artery.now base.now rounded.now.seconds scale.grid scale.unit }
    requires within { AreWithin artery.now rounded.now.seconds rounded.now.offsets.items }
    ensures { IfOk result (λ b. b ≡ on_offsets scale.grid scale.unit rounded.now.offsets.items base.now) }
{
    artery.known_valid();
    let patterns = Vec::from_slice(alloc, base.patterns())?;
    let reds = reds(alloc, rounded.offsets.as_slice(), scale.grid)?;
    let run_out = Vec::from_slice(alloc, base.run_out())?;
    let run_in = Vec::from_slice(alloc, base.run_in())?;
    match Base::new(scale.grid, scale.unit, patterns, reds, run_out, run_in) {
        Some(made) => Ok(made),
        None => unreachable!(),
    }
}

/// The base with other runs.
fn with_runs(
    alloc: Global,
    base: &Base,
    run_out: Vec<u128>,
    run_in: Vec<u128>,
) -> Result<Base, Memory>
    requires runs_out { All (λ n. n < 2 ^ 80) run_out.items }
    requires runs_in { All (λ n. n < 2 ^ 80) run_in.items }
    requires long_out { length run_out.items + 1 ≡ length base.now.patterns }
    requires long_in { length run_in.items + 1 ≡ length base.now.patterns }
    ensures { IfOk result (λ b. b ≡ with_runs run_out.items run_in.items base.now) }
{
    // its contract says what a base's lists are
    let _ = base.count();
    let patterns = Vec::from_slice(alloc, base.patterns())?;
    let reds = Vec::from_slice(alloc, base.reds())?;
    match Base::new(base.grid(), base.unit(), patterns, reds, run_out, run_in) {
        Some(made) => Ok(made),
        None => unreachable!(),
    }
}

/// The timing of these signals' times with the runs and the first lines that were found, and with cut bands.
pub fn with_found(
    alloc: Global,
    base: &Base,
    out: DirectionBand,
    back: DirectionBand,
    bands: Bands,
) -> Result<Timing, Memory>
    requires runs_out { All (λ n. n < 2 ^ 80) out.runs.items }
    requires runs_in { All (λ n. n < 2 ^ 80) back.runs.items }
    requires long_out { length out.runs.items + 1 ≡ length base.now.patterns }
    requires long_in { length back.runs.items + 1 ≡ length base.now.patterns }
    requires first_out { out.pair.first < 2 ^ 80 }
    requires first_in { back.pair.first < 2 ^ 80 }
    requires band_out { bands.outbound < 2 ^ 80 }
    requires band_in { bands.inbound < 2 ^ 80 }
    ensures { IfOk result (λ t. t ≡ banded (pos out.pair.first) bands.outbound (pos back.pair.first) bands.inbound
        (with_runs out.runs.items back.runs.items base.now)) }
{
    let (first_out, first_in) = (out.pair.first, back.pair.first);
    let made = with_runs(alloc, base, out.runs, back.runs)?;
    Ok(made.banded(first_out, bands.outbound, first_in, bands.inbound))
}
