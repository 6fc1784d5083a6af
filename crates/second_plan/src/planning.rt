//! The plan of a timing: its whole seconds, the widest bands on them, and what they lose.

ghost use Rattle.std.specs.Prelude.{◌≡◌, ◌<◌, IfOk, IfErr};
ghost use Rattle.rational_theory.specs.Rational.{ℚ, ◌≤ℚ◌};
ghost use Rattle.progression.specs.{Speeds.{number}, BaseRecord.{cycle}, Good.{Good, IsBase}, Best.{Bounded}, TimingRecord.{base}};
ghost use Rattle.progression.specs.declared.parts.Dir.TheVariants.{Outbound, Inbound};
ghost use Rattle.band_measure.specs.Widest.{IsWidest};
ghost use Rattle.second_plan.specs.{Grid.{in_seconds}, Planned.{AreWhole, IsPlanned, IsAnswer, IsBestOfOffsets}, Ends.{Faults}};
ghost use Rattle.second_plan.specs.Seconds.{IsRounded};

use crate::answer::{Plan, PlanEnd, PlanFault};
use crate::grid::{in_seconds, too_fine};
use crate::seconds::{Rounded, offsets, whole_cycle};
use artery_model::Artery;
use band_measure::{Bands, BothPairs, cut, law_finer_pairs, widest_on};
use narrow_fraction::Frac;
use progression::Dir;
use std::alloc::Global;
use time_space::{Base, Timing, holds, value};

/// The plan on its base with these widest pairs, their bands cut, where it is good.
fn with_cut_bands(
    artery: &Artery,
    given: &Base,
    rounded: &Rounded,
    on: Base,
    pairs: BothPairs,
) -> Result<Timing, PlanFault>
    requires base { IsBase artery.now given.now }
    requires whole { AreWhole artery.now given.now rounded.now.seconds rounded.now.offsets.items }
    requires rounded { IsRounded rounded.now.seconds rounded.now.offsets.items }
    requires on { on ≡ in_seconds artery.now given.now rounded.now.seconds rounded.now.offsets.items }
    requires outbound { IsWidest artery.now on Outbound pairs.outbound.first pairs.outbound.band }
    requires inbound { IsWidest artery.now on Inbound pairs.inbound.first pairs.inbound.band }
    requires band_out { pairs.outbound.band < cycle artery.now on }
    requires band_in { pairs.inbound.band < cycle artery.now on }
    ensures planned { IfOk result (λ plan. IsPlanned artery.now given.now rounded.now.seconds rounded.now.offsets.items plan) }
    ensures good { IfOk result (λ plan. Good artery.now plan) }
    ensures best { IfOk result (λ plan. IsBestOfOffsets artery.now plan) }
    ensures faults { IfErr result (λ f. (claim : ℚ) → Faults artery.now claim given.now f) }
{
    artery.known_valid();
    law_finer_pairs();
    let bands = cut(
        artery,
        Bands {
            outbound: pairs.outbound.band,
            inbound: pairs.inbound.band,
        },
    );
    let plan = on.banded(
        pairs.outbound.first,
        bands.outbound,
        pairs.inbound.first,
        bands.inbound,
    );
    match holds(artery, &plan) {
        Ok(()) => Ok(plan),
        Err(failing) => Err(PlanFault::End(PlanEnd::Fails(failing))),
    }
}

/// The plan of these offsets, where it is good.
fn planned(
    alloc: Global,
    artery: &Artery,
    given: &Base,
    rounded: &Rounded,
) -> Result<Timing, PlanFault>
    requires base { IsBase artery.now given.now }
    requires whole { AreWhole artery.now given.now rounded.now.seconds rounded.now.offsets.items }
    requires rounded { IsRounded rounded.now.seconds rounded.now.offsets.items }
    ensures planned { IfOk result (λ plan. IsPlanned artery.now given.now rounded.now.seconds rounded.now.offsets.items plan) }
    ensures good { IfOk result (λ plan. Good artery.now plan) }
    ensures best { IfOk result (λ plan. IsBestOfOffsets artery.now plan) }
    ensures faults { IfErr result (λ f. (claim : ℚ) → Faults artery.now claim given.now f) }
{
    let on = in_seconds(alloc, artery, given, rounded)?;
    let Some(outbound) = widest_on(artery, &on, Dir::Outbound) else {
        return Err(PlanFault::End(PlanEnd::NoLine { dir: Dir::Outbound }));
    };
    let Some(inbound) = widest_on(artery, &on, Dir::Inbound) else {
        return Err(PlanFault::End(PlanEnd::NoLine { dir: Dir::Inbound }));
    };
    let pairs = BothPairs { outbound, inbound };
    with_cut_bands(artery, given, rounded, on, pairs)
}

/// The plan in whole seconds of a good timing, and what it loses against a claim.
///
/// Its cycle is the whole number of seconds within the artery's limits that is nearest to the timing's, and its offsets are the
/// timing's, as shares of the cycle, in whole seconds; of two nearest ones the lesser. Its runs are the timing's in seconds, and
/// its firsts and bands the widest on these offsets. The bands are then cut: both to the lesser where they have to be equal, and
/// else the one that the ratio limits.
///
/// The plan is good, and no good timing of its base has a greater weighted band. Where the claim
/// bounds the artery the loss is at least 0. The first `PlanEnd` that applies is told, in the order of `PlanEnd`; of the
/// directions outbound is looked at first.
pub fn plan(alloc: Global, artery: &Artery, claim: Frac, timing: &Timing) -> Result<Plan, PlanFault>
    requires good { Good artery.now timing.now }
    ensures plan { IfOk result (λ p. IsAnswer artery.now claim (base timing.now) p) }
    ensures best { IfOk result (λ p. IsBestOfOffsets artery.now p.timing) }
    ensures loss { IfOk result (λ p. Bounded artery.now claim → number 0 ≤ℚ p.loss) }
    ensures faults { IfErr result (λ f. Faults artery.now claim (base timing.now) f) }
{
    let given = timing.base();
    let Some(seconds) = whole_cycle(artery, given) else {
        return Err(PlanFault::End(PlanEnd::NoWholeCycle));
    };
    if let Some(ticks) = too_fine(artery, given, seconds) {
        return Err(PlanFault::End(PlanEnd::TooFine { ticks }));
    }
    let offsets = offsets(alloc, artery, given, seconds)?;
    let rounded = Rounded { seconds, offsets };
    let plan = match planned(alloc, artery, given, &rounded) {
        Ok(plan) => plan,
        Err(fault) => return Err(fault),
    };
    match claim.minus(value(artery, &plan)) {
        Ok(loss) => {
            let Rounded { seconds, offsets } = rounded;
            Ok(Plan {
                seconds,
                offsets,
                timing: plan,
                loss,
            })
        }
        Err(wide) => Err(PlanFault::End(PlanEnd::Wide(wide))),
    }
}
