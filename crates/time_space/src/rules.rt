//! The test of a timing against the rules of an artery, rule after rule.

ghost use Rattle.std.specs.Prelude.{◌≡◌, ◌↔◌, ◌+◌, ℕ, IsTrue, OnOk, IfErr};
ghost use Rattle.rational_theory.specs.Rational.{◌*ℚ◌, ◌≤ℚ◌};
ghost use Rattle.progression.specs.{Street.{count, allows, HasSignal}, Speeds.{number}, BaseRecord.{IsBaseRecord, cycle, pattern_of}, TimingRecord.{base}};
ghost use Rattle.progression.specs.{Lines.{IsGreenWay}, Good.{Good, IsBase, RatioHolds, HasLeastBand, HasEqualBands}};
ghost use Rattle.progression.specs.declared.parts.Dir.{Dir};
ghost use Rattle.time_space.specs.{LinkRules.{AllLinks}, Failing.{BaseFails, Fails, FailsRulesOut}, Finer.{FinerGrids}, Timing.{IsFor}};
ghost use Rattle.time_space.specs.Reds.{RedsAreIntervals, SinceLastStart};
ghost use Rattle.time_space.specs.FirstFailing.{OneFirst, IsFirstBaseFailing, IsFirstFailing, NoneBefore, link_order, link_failing};

use crate::base::Base;
use crate::diagram::{cycle, first_blocked};
use crate::failing::Failing;
use crate::limits::{is_at_least, is_at_most, is_in_ratio};
use crate::links::{LinkRule, first_broken};
use crate::timing::Timing;
use artery_model::Artery;
use progression::Dir;

#[tactic(auto, using(crate::proofs::Firsts::after_shape, crate::proofs::Firsts::none_before, crate::proofs::Firsts::first_lone))]
fn check_shape(artery: &Artery, base: &Base) -> Result<(), Failing>
    ensures formed { IsBaseRecord base.now }
    ensures kept { OnOk result (IsFor artery.now base.now) }
    ensures next { OnOk result (NoneBefore (BaseFails artery.now base.now) 1) }
    ensures first { IfErr result (λ f. IsFirstBaseFailing artery.now base.now f) }
{
    if base.count() == artery.count() {
        Ok(())
    } else {
        Err(Failing::Shape)
    }
}

#[tactic(auto, using(crate::proofs::Firsts::after_patterns, crate::proofs::Firsts::first_pattern))]
fn check_patterns(artery: &Artery, base: &Base) -> Result<(), Failing>
    requires shape { IsFor artery.now base.now }
    requires before { NoneBefore (BaseFails artery.now base.now) 1 }
    ensures kept { OnOk result ((i : ℕ) → HasSignal artery.now i → IsTrue (allows artery.now i (pattern_of base.now i))) }
    ensures next { OnOk result (NoneBefore (BaseFails artery.now base.now) 2) }
    ensures first { IfErr result (λ f. IsFirstBaseFailing artery.now base.now f) }
{
    for signal in 1..artery.count() + 1 {
        if !artery.allows(signal, base.pattern(signal)) {
            return Err(Failing::Pattern { signal });
        }
    }
    Ok(())
}

#[tactic(auto, using(crate::proofs::Firsts::after_cycle_least, crate::proofs::Firsts::first_lone))]
fn check_cycle_least(artery: &Artery, base: &Base) -> Result<(), Failing>
    requires before { NoneBefore (BaseFails artery.now base.now) 2 }
    ensures kept { OnOk result ((artery.now.head.cycle.least *ℚ number base.now.grid) ≤ℚ number (cycle artery.now base.now)) }
    ensures next { OnOk result (NoneBefore (BaseFails artery.now base.now) 3) }
    ensures first { IfErr result (λ f. IsFirstBaseFailing artery.now base.now f) }
{
    if is_at_least(base.cycle(artery), artery.cycle().least, base.grid()) {
        Ok(())
    } else {
        Err(Failing::CycleShort)
    }
}

#[tactic(auto, using(crate::proofs::Firsts::after_cycle_most, crate::proofs::Firsts::first_lone))]
fn check_cycle_most(artery: &Artery, base: &Base) -> Result<(), Failing>
    requires before { NoneBefore (BaseFails artery.now base.now) 3 }
    ensures kept { OnOk result (number (cycle artery.now base.now) ≤ℚ (artery.now.head.cycle.most *ℚ number base.now.grid)) }
    ensures next { OnOk result (NoneBefore (BaseFails artery.now base.now) 4) }
    ensures first { IfErr result (λ f. IsFirstBaseFailing artery.now base.now f) }
{
    if is_at_most(base.cycle(artery), artery.cycle().most, base.grid()) {
        Ok(())
    } else {
        Err(Failing::CycleLong)
    }
}

/// The failing of a limit on a link.
fn link_failing(rule: LinkRule, dir: Dir, link: u32) -> Failing
    ensures value { result ≡ link_failing rule dir link }
{
    match rule {
        LinkRule::Fast => Failing::Fast { dir, link },
        LinkRule::Slow => Failing::Slow { dir, link },
        LinkRule::Rise => Failing::Rise { dir, link },
        LinkRule::Drop => Failing::Drop { dir, link },
    }
}

fn check_links(artery: &Artery, base: &Base, rule: LinkRule) -> Result<(), Failing>
    requires shape { IsFor artery.now base.now }
    requires before { NoneBefore (BaseFails artery.now base.now) (link_order rule) }
    ensures kept { OnOk result ((d : Dir) → AllLinks artery.now base.now rule d) }
    ensures next { OnOk result (NoneBefore (BaseFails artery.now base.now) (link_order rule + 1)) }
    ensures first { IfErr result (λ f. IsFirstBaseFailing artery.now base.now f) }
{
    if let Some(link) = first_broken(artery, base, rule, Dir::Outbound) {
        return Err(link_failing(rule, Dir::Outbound, link));
    }
    if let Some(link) = first_broken(artery, base, rule, Dir::Inbound) {
        return Err(link_failing(rule, Dir::Inbound, link));
    }
    Ok(())
}

#[tactic(auto, using(crate::proofs::Firsts::after_ratio, crate::proofs::Firsts::first_lone))]
fn check_ratio(artery: &Artery, timing: &Timing) -> Result<(), Failing>
    requires before { NoneBefore (Fails artery.now timing.now) 8 }
    ensures kept { OnOk result (RatioHolds artery.now.head.ratio timing.now.band_out timing.now.band_in) }
    ensures next { OnOk result (NoneBefore (Fails artery.now timing.now) 9) }
    ensures first { IfErr result (λ f. IsFirstFailing artery.now timing.now f) }
{
    if is_in_ratio(
        artery.ratio(),
        timing.band(Dir::Outbound),
        timing.band(Dir::Inbound),
    ) {
        Ok(())
    } else {
        Err(Failing::Ratio)
    }
}

/// Whether a direction's band is at least as wide as the artery asks.
fn has_least_band(artery: &Artery, timing: &Timing, dir: Dir) -> bool
    ensures { IsTrue result ↔ HasLeastBand artery.now timing.now dir }
{
    let least = artery.least_band(dir);
    is_at_least(timing.band(dir), least, cycle(artery, timing))
}

#[tactic(auto, using(crate::proofs::Firsts::after_least, crate::proofs::Firsts::both_least, crate::proofs::Firsts::first_lone, crate::proofs::Firsts::first_least_in))]
fn check_least(artery: &Artery, timing: &Timing) -> Result<(), Failing>
    requires before { NoneBefore (Fails artery.now timing.now) 9 }
    ensures kept { OnOk result ((d : Dir) → HasLeastBand artery.now timing.now d) }
    ensures next { OnOk result (NoneBefore (Fails artery.now timing.now) 10) }
    ensures first { IfErr result (λ f. IsFirstFailing artery.now timing.now f) }
{
    if !has_least_band(artery, timing, Dir::Outbound) {
        return Err(Failing::Least { dir: Dir::Outbound });
    }
    if !has_least_band(artery, timing, Dir::Inbound) {
        return Err(Failing::Least { dir: Dir::Inbound });
    }
    Ok(())
}

/// Whether both bands are equal, where the artery asks so.
fn has_equal_bands(artery: &Artery, timing: &Timing) -> bool
    ensures { IsTrue result ↔ HasEqualBands artery.now timing.now }
{
    !artery.equal() || timing.band(Dir::Outbound) == timing.band(Dir::Inbound)
}

#[tactic(auto, using(crate::proofs::Firsts::after_equal, crate::proofs::Firsts::first_lone))]
fn check_equal(artery: &Artery, timing: &Timing) -> Result<(), Failing>
    requires before { NoneBefore (Fails artery.now timing.now) 10 }
    ensures kept { OnOk result (HasEqualBands artery.now timing.now) }
    ensures next { OnOk result (NoneBefore (Fails artery.now timing.now) 11) }
    ensures first { IfErr result (λ f. IsFirstFailing artery.now timing.now f) }
{
    if has_equal_bands(artery, timing) {
        Ok(())
    } else {
        Err(Failing::Equal)
    }
}

#[tactic(auto, using(crate::proofs::Firsts::after_outbound, crate::proofs::Firsts::first_outbound))]
fn check_outbound(artery: &Artery, timing: &Timing) -> Result<(), Failing>
    requires shape { IsFor artery.now (base timing.now) }
    requires before { NoneBefore (Fails artery.now timing.now) 11 }
    ensures kept { OnOk result (IsGreenWay artery.now timing.now Dir.Outbound) }
    ensures next { OnOk result (NoneBefore (Fails artery.now timing.now) 12) }
    ensures first { IfErr result (λ f. IsFirstFailing artery.now timing.now f) }
{
    match first_blocked(artery, timing, Dir::Outbound) {
        Some((signal, tick)) => Err(Failing::Outbound { signal, tick }),
        None => Ok(()),
    }
}

#[tactic(auto, using(crate::proofs::Firsts::first_inbound))]
fn check_inbound(artery: &Artery, timing: &Timing) -> Result<(), Failing>
    requires shape { IsFor artery.now (base timing.now) }
    requires before { NoneBefore (Fails artery.now timing.now) 12 }
    ensures kept { OnOk result (IsGreenWay artery.now timing.now Dir.Inbound) }
    ensures first { IfErr result (λ f. IsFirstFailing artery.now timing.now f) }
{
    match first_blocked(artery, timing, Dir::Inbound) {
        Some((signal, tick)) => Err(Failing::Inbound { signal, tick }),
        None => Ok(()),
    }
}

/// Whether the base keeps its rules, which are those of patterns, cycle, runs and changes of pace: Ok where it does, and else the
/// first rule that it breaks.
pub fn check_base(artery: &Artery, base: &Base) -> Result<(), Failing>
    ensures base { OnOk result (IsBase artery.now base.now) }
    ensures shape { OnOk result (IsFor artery.now base.now) }
    ensures refused { IfErr result (λ f. ¬ IsBase artery.now base.now) }
    ensures first { IfErr result (λ f. IsFirstBaseFailing artery.now base.now f) }
{
    check_shape(artery, base)?;
    check_patterns(artery, base)?;
    check_cycle_least(artery, base)?;
    check_cycle_most(artery, base)?;
    check_links(artery, base, LinkRule::Fast)?;
    check_links(artery, base, LinkRule::Slow)?;
    check_links(artery, base, LinkRule::Rise)?;
    check_links(artery, base, LinkRule::Drop)?;
    Ok(())
}

/// Whether the base of a timing keeps its rules: Ok where it does, and else the first rule that it breaks. The timing's firsts and
/// bands play no part.
pub fn base_holds(artery: &Artery, timing: &Timing) -> Result<(), Failing>
    ensures base { OnOk result (IsBase artery.now (base timing.now)) }
    ensures shape { OnOk result (IsFor artery.now (base timing.now)) }
    ensures refused { IfErr result (λ f. ¬ IsBase artery.now (base timing.now)) }
    ensures first { IfErr result (λ f. IsFirstBaseFailing artery.now (base timing.now) f) }
{
    check_base(artery, timing.base())
}

/// Whether a timing's base keeps its rules, where the first failing is that of the timing.
fn check_timing_base(artery: &Artery, timing: &Timing) -> Result<(), Failing>
    ensures base { OnOk result (IsBase artery.now (base timing.now)) }
    ensures shape { OnOk result (IsFor artery.now (base timing.now)) }
    ensures next { OnOk result (NoneBefore (Fails artery.now timing.now) 8) }
    ensures first { IfErr result (λ f. IsFirstFailing artery.now timing.now f) }
{
    base_holds(artery, timing)
}

/// Whether every line of a direction's band crosses every signal in green, whichever other rules the timing breaks.
pub fn is_green_way(artery: &Artery, timing: &Timing, dir: Dir) -> bool
    requires shape { IsFor artery.now (base timing.now) }
    ensures { IsTrue result ↔ IsGreenWay artery.now timing.now dir }
{
    first_blocked(artery, timing, dir).is_none()
}

/// Whether the timing is good for the artery: Ok where it is, and else the first rule that it breaks.
///
/// The first is by the order in which `Failing` names the rules, then outbound before inbound, then the least number
/// of a signal or link. Of the signals where the inbound band isn't green it is the greatest, which is the first that
/// the band comes to.
pub fn holds(artery: &Artery, timing: &Timing) -> Result<(), Failing>
    ensures good { OnOk result (Good artery.now timing.now) }
    ensures first { IfErr result (λ f. IsFirstFailing artery.now timing.now f) }
{
    check_timing_base(artery, timing)?;
    check_ratio(artery, timing)?;
    check_least(artery, timing)?;
    check_equal(artery, timing)?;
    check_outbound(artery, timing)?;
    check_inbound(artery, timing)?;
    Ok(())
}

/// A rule that fails rules out that the timing is good.
pub fn law_fails_rules_out()
    ensures { FailsRulesOut }
{}

/// A timing is good exactly where it is good on every finer grid.
pub fn law_finer_grids()
    ensures { FinerGrids }
{}

/// Of a timing at most one failing is the first.
pub fn law_one_first()
    ensures { OneFirst }
{}

/// A tick isn't green exactly where, for some whole number of cycles, it lies strictly between the start and the end of
/// the red that many cycles later.
pub fn law_reds_are_intervals()
    ensures { RedsAreIntervals }
{}

/// The ticks since the last start are fewer than a cycle, and some whole number of cycles leads to that start.
pub fn law_since_last_start()
    ensures { SinceLastStart }
{}
