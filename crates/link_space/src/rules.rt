//! The test of a link timing against the rules of an artery, rule after rule.

ghost use Rattle.std.specs.Prelude.{◌≡◌, ◌+◌, ℕ, OnOk, IfErr};
ghost use Rattle.progression.specs.{Street.{count, HasLink}, Good.{IsBase, RatioHolds}, declared.parts.Dir.{Dir}};
ghost use Rattle.link_theory.specs.{LinkRecord.{IsLinkRecord, link_base, half}, GoodLinks.{GoodLinks}};
ghost use Rattle.link_space.specs.{LinkGreens.{IsGreenLink}, LinkFailing.{LinkFailsRulesOut}, FinerLinks.{FinerLinkGrids}};
ghost use Rattle.link_space.specs.LinksAsWide.{LinksAsWide};
ghost use Rattle.link_space.specs.FirstLinkFailing.{band_order, band_failing, IsFirstLinkFailing, NoLinkBefore, OneFirstLink};
ghost use Rattle.time_space.specs.Timing.{IsFor};

use crate::failing::LinkFailing;
use crate::greens::{Blocked, first_blocked};
use crate::timing::LinkTiming;
use artery_model::Artery;
use progression::Dir;
use time_space::is_in_ratio;

#[tactic(auto, using(crate::proofs::LinkFirsts::after_base, crate::proofs::LinkFirsts::first_base))]
fn check_base(artery: &Artery, timing: &LinkTiming) -> Result<(), LinkFailing>
    ensures formed { IsLinkRecord timing.now }
    ensures shape { OnOk result (IsFor artery.now (link_base timing.now)) }
    ensures kept { OnOk result (IsBase artery.now (link_base timing.now)) }
    ensures next { OnOk result (NoLinkBefore artery.now timing.now 1) }
    ensures first { IfErr result (λ f. IsFirstLinkFailing artery.now timing.now f) }
{
    let _signals = timing.count();
    match time_space::check_base(artery, timing.base()) {
        Ok(()) => Ok(()),
        Err(failing) => Err(LinkFailing::Base(failing)),
    }
}

#[tactic(auto, using(crate::proofs::LinkFirsts::after_ratios, crate::proofs::LinkFirsts::first_ratio))]
fn check_ratios(artery: &Artery, timing: &LinkTiming) -> Result<(), LinkFailing>
    requires shape { IsFor artery.now (link_base timing.now) }
    requires before { NoLinkBefore artery.now timing.now 1 }
    ensures kept { OnOk result ((i : ℕ) → HasLink artery.now i → RatioHolds artery.now.head.ratio (half timing.now Dir.Outbound i) (half timing.now Dir.Inbound i)) }
    ensures next { OnOk result (NoLinkBefore artery.now timing.now 2) }
    ensures first { IfErr result (λ f. IsFirstLinkFailing artery.now timing.now f) }
{
    for link in 1..artery.count() {
        if !is_in_ratio(
            artery.ratio(),
            timing.half(Dir::Outbound, link),
            timing.half(Dir::Inbound, link),
        ) {
            return Err(LinkFailing::Ratio { link });
        }
    }
    Ok(())
}

/// The failing of a direction's band at a link.
fn band_failing(dir: Dir, at: Blocked) -> LinkFailing
    ensures { result ≡ band_failing dir at.link at.signal at.tick }
{
    let Blocked { link, signal, tick } = at;
    match dir {
        Dir::Outbound => LinkFailing::Outbound { link, signal, tick },
        Dir::Inbound => LinkFailing::Inbound { link, signal, tick },
    }
}

#[tactic(auto, using(crate::proofs::LinkFirsts::after_bands, crate::proofs::LinkFirsts::first_band))]
fn check_bands(artery: &Artery, timing: &LinkTiming, dir: Dir) -> Result<(), LinkFailing>
    requires shape { IsFor artery.now (link_base timing.now) }
    requires before { NoLinkBefore artery.now timing.now (band_order dir) }
    ensures kept { OnOk result ((i : ℕ) → HasLink artery.now i → IsGreenLink artery.now timing.now dir i) }
    ensures next { OnOk result (NoLinkBefore artery.now timing.now (band_order dir + 1)) }
    ensures first { IfErr result (λ f. IsFirstLinkFailing artery.now timing.now f) }
{
    match first_blocked(artery, timing, dir) {
        Some(at) => Err(band_failing(dir, at)),
        None => Ok(()),
    }
}

/// Whether the link timing is good for the artery: Ok where it is, and else the first rule that it breaks.
///
/// The first is by the order in which `LinkFailing` names the rules, where those of its base come in the order of
/// `time_space::Failing`; then the least number of a link; then the first of its signals that the band comes to.
pub fn link_holds(artery: &Artery, timing: &LinkTiming) -> Result<(), LinkFailing>
    ensures good { OnOk result (GoodLinks artery.now timing.now) }
    ensures first { IfErr result (λ f. IsFirstLinkFailing artery.now timing.now f) }
{
    check_base(artery, timing)?;
    check_ratios(artery, timing)?;
    check_bands(artery, timing, Dir::Outbound)?;
    check_bands(artery, timing, Dir::Inbound)?;
    Ok(())
}

/// A rule that fails rules out that the link timing is good.
pub fn law_link_fails_rules_out()
    ensures { LinkFailsRulesOut }
{}

/// A link timing is good exactly where it is good on every finer grid.
pub fn law_finer_link_grids()
    ensures { FinerLinkGrids }
{}

/// Of a link timing at most one failing is the first.
pub fn law_one_first_link()
    ensures { OneFirstLink }
{}

/// A best link timing is worth at least so many times the weighted band of any good timing as the artery has links, and of two
/// signals just as much as a best timing where neither least bands nor equal bands are asked for.
#[tactic(auto, using(crate::proofs::AsWide::links_as_wide))]
pub fn law_links_as_wide()
    ensures { LinksAsWide }
{}
