//! The plan of given offsets.

ghost use Rattle.std.specs.Prelude.{◌≡◌, ◌≤◌, false, true, None, IfOk};
ghost use Rattle.progression.specs.Good.{IsBase};
ghost use Rattle.second_plan.specs.{Grid.{too_fine}, Seconds.{IsWholeCycle}};
ghost use Rattle.whole_offsets.specs.{Scale.{limits_pace, IsScale}, Offsets.{AreWithin}, Tried.{IsTried}};
ghost use Rattle.whole_offsets.specs.Measured.{IsMeasuredFor, or_nothing, lacking};

use crate::bases::{on_offsets, with_found};
use crate::lines::direction_band;
use crate::scale::{TickScale, limits_pace};
use crate::score::{Score, judged};
use artery_model::Artery;
use band_measure::{Bands, Widest, cut, law_finer_pairs, widest_on};
use narrow_fraction::Memory;
use progression::Dir;
use second_plan::{Rounded, in_seconds};
use std::alloc::Global;
use time_space::{Base, Timing};

/// Offsets that are tried, their plan, and what it is judged by.
#[derive(Drop)]
pub struct Tried {
    pub rounded: Rounded,
    pub timing: Timing,
    pub score: Score,
}

/// A plan, and how many directions it has no line in.
#[derive(Drop)]
struct LinedPlan {
    timing: Timing,
    lineless: u32,
}

/// The plan with free runs.
fn free_plan(
    alloc: Global,
    artery: &Artery,
    base: &Base,
    scale: TickScale,
    rounded: &Rounded,
) -> Result<LinedPlan, Memory>
    requires free { limits_pace artery.now ≡ false }
    requires base { IsBase artery.now base.now }
    requires scale { IsScale artery.now base.now rounded.now.seconds scale.grid scale.unit }
    requires within { AreWithin artery.now rounded.now.seconds rounded.now.offsets.items }
    ensures { IfOk result (λ m. IsMeasuredFor artery.now base.now rounded.now.seconds rounded.now.offsets.items m.timing m.lineless) }
{
    artery.known_valid();
    let on = on_offsets(alloc, artery, base, scale, rounded)?;
    let out = direction_band(alloc, artery, &on, Dir::Outbound)?;
    let back = direction_band(alloc, artery, &on, Dir::Inbound)?;
    let wide = Bands {
        outbound: out.pair.band,
        inbound: back.pair.band,
    };
    let bands = cut(artery, wide);
    let lineless = out.lineless + back.lineless;
    let timing = with_found(alloc, &on, out, back, bands)?;
    Ok(LinedPlan { timing, lineless })
}

/// What was found, or a first line and a band of 0.
fn or_nothing(found: Option<Widest>) -> Widest
    ensures { result ≡ or_nothing found }
{
    match found {
        Some(pair) => pair,
        None => Widest { first: 0, band: 0 },
    }
}

/// 1 where nothing was found, and else 0.
fn lacking(found: Option<Widest>) -> u32
    ensures value { result ≡ lacking found }
    ensures small { result ≤ 1 }
{
    match found {
        Some(_) => 0,
        None => 1,
    }
}

/// The plan with the runs of the base.
fn pace_plan(
    alloc: Global,
    artery: &Artery,
    base: &Base,
    rounded: &Rounded,
) -> Result<LinedPlan, Memory>
    requires limited { limits_pace artery.now ≡ true }
    requires base { IsBase artery.now base.now }
    requires fine { too_fine artery.now base.now rounded.now.seconds ≡ None }
    requires some { 1 ≤ rounded.now.seconds }
    requires small { rounded.now.seconds ≤ 3600 }
    requires within { AreWithin artery.now rounded.now.seconds rounded.now.offsets.items }
    requires whole { IsWholeCycle artery.now rounded.now.seconds }
    ensures { IfOk result (λ m. IsMeasuredFor artery.now base.now rounded.now.seconds rounded.now.offsets.items m.timing m.lineless) }
{
    artery.known_valid();
    law_finer_pairs();
    let on = in_seconds(alloc, artery, base, rounded)?;
    let found_out = widest_on(artery, &on, Dir::Outbound);
    let found_in = widest_on(artery, &on, Dir::Inbound);
    let (out, back) = (or_nothing(found_out), or_nothing(found_in));
    let wide = Bands {
        outbound: out.band,
        inbound: back.band,
    };
    let bands = cut(artery, wide);
    let lineless = lacking(found_out) + lacking(found_in);
    let timing = on.banded(out.first, bands.outbound, back.first, bands.inbound);
    Ok(LinedPlan { timing, lineless })
}

/// The plan of offsets, measured.
fn plan_of(
    alloc: Global,
    artery: &Artery,
    base: &Base,
    scale: TickScale,
    rounded: &Rounded,
) -> Result<LinedPlan, Memory>
    requires base { IsBase artery.now base.now }
    requires scale { IsScale artery.now base.now rounded.now.seconds scale.grid scale.unit }
    requires within { AreWithin artery.now rounded.now.seconds rounded.now.offsets.items }
    requires whole { IsWholeCycle artery.now rounded.now.seconds }
    ensures { IfOk result (λ m. IsMeasuredFor artery.now base.now rounded.now.seconds rounded.now.offsets.items m.timing m.lineless) }
{
    if limits_pace(artery) {
        pace_plan(alloc, artery, base, rounded)
    } else {
        free_plan(alloc, artery, base, scale, rounded)
    }
}

/// Offsets with their plan and what it is judged by.
pub fn try_offsets(
    alloc: Global,
    artery: &Artery,
    base: &Base,
    scale: TickScale,
    rounded: Rounded,
) -> Result<Tried, Memory>
    requires base { IsBase artery.now base.now }
    requires scale { IsScale artery.now base.now rounded.seconds scale.grid scale.unit }
    requires within { AreWithin artery.now rounded.seconds rounded.offsets.items }
    requires whole { IsWholeCycle artery.now rounded.seconds }
    ensures plan { IfOk result (λ x. IsTried artery.now base.now rounded.seconds x) }
    ensures offsets { IfOk result (λ x. x.rounded ≡ rounded) }
{
    let LinedPlan { timing, lineless } = plan_of(alloc, artery, base, scale, &rounded)?;
    let score = judged(artery, &timing, lineless);
    Ok(Tried {
        rounded,
        timing,
        score,
    })
}
