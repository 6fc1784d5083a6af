//! The limits of the runs on an artery's links.

ghost use Rattle.std.specs.Prelude.{◌≡◌, ◌↔◌, ◌+◌, ◌<◌, ◌≤◌, false, IsTrue, MatchOption};
ghost use Rattle.rational_theory.specs.Rational.{◌*ℚ◌, ◌≤ℚ◌};
ghost use Rattle.progression.specs.{Street.{count, distance, HasLink}, Speeds.{number, run_low, run_high}, BaseRecord.{run}};
ghost use Rattle.time_space.specs.LinkRules.{ChangeKept, LinkHolds, LinkBreaks, AllLinks, IsFirstBroken};
ghost use Rattle.artery_model.specs.Bounds.{most_signals};
ghost use Rattle.time_space.specs.Timing.{IsFor};

use crate::base::Base;
use crate::limits::{Paces, is_at_least, is_at_most, is_change_at_least, is_change_at_most};
use artery_model::Artery;
use progression::Dir;

/// A limit that a link sets.
#[derive(Clone, Copy)]
pub enum LinkRule {
    /// The run takes at least the time that the greatest speed takes.
    Fast,
    /// The run takes at most the time that the least speed takes.
    Slow,
    /// The pace rises to the next link by at most the greatest change.
    Rise,
    /// The pace changes to the next link by at least the least change.
    Drop,
}

/// The runs on a link and on the link with the next number.
fn paces(artery: &Artery, base: &Base, dir: Dir, link: u32) -> Paces
    requires first { 1 ≤ link }
    requires last { link + 1 < count artery.now }
    requires small { link < most_signals }
    requires shape { IsFor artery.now base.now }
    ensures run { result.run ≡ run base.now dir link }
    ensures distance { result.distance ≡ distance artery.now dir link }
    ensures next_run { result.next_run ≡ run base.now dir (link + 1) }
    ensures next_distance { result.next_distance ≡ distance artery.now dir (link + 1) }
{
    Paces {
        run: base.run(dir, link),
        distance: artery.distance(dir, link),
        next_run: base.run(dir, link + 1),
        next_distance: artery.distance(dir, link + 1),
    }
}

/// Whether the pace changes to the next link within a limit, where the link gives limits.
fn is_change_kept(artery: &Artery, base: &Base, rule: LinkRule, dir: Dir, link: u32) -> bool
    requires first { 1 ≤ link }
    requires last { link + 1 < count artery.now }
    requires small { link < most_signals }
    requires shape { IsFor artery.now base.now }
    ensures { IsTrue result ↔ ChangeKept artery.now base.now rule dir link }
{
    let Some(limits) = artery.change(dir, link) else {
        return true;
    };
    let paces = paces(artery, base, dir, link);
    match rule {
        LinkRule::Rise => is_change_at_most(paces, limits.most, base.grid()),
        LinkRule::Drop => is_change_at_least(paces, limits.least, base.grid()),
        LinkRule::Fast | LinkRule::Slow => true,
    }
}

fn is_not_fast(artery: &Artery, base: &Base, dir: Dir, link: u32) -> bool
    requires link { HasLink artery.now link }
    requires shape { IsFor artery.now base.now }
    ensures { IsTrue result ↔ ((run_low artery.now dir link *ℚ number base.now.grid) ≤ℚ number (run base.now dir link)) }
{
    is_at_least(base.run(dir, link), artery.run_low(dir, link), base.grid())
}

fn is_not_slow(artery: &Artery, base: &Base, dir: Dir, link: u32) -> bool
    requires link { HasLink artery.now link }
    requires shape { IsFor artery.now base.now }
    ensures { IsTrue result ↔ (number (run base.now dir link) ≤ℚ (run_high artery.now dir link *ℚ number base.now.grid)) }
{
    is_at_most(base.run(dir, link), artery.run_high(dir, link), base.grid())
}

/// Whether a link keeps a limit.
fn is_kept(artery: &Artery, base: &Base, rule: LinkRule, dir: Dir, link: u32) -> bool
    requires link { HasLink artery.now link }
    requires shape { IsFor artery.now base.now }
    ensures kept { IsTrue result → LinkHolds artery.now base.now rule dir link }
    ensures broken { result ≡ false → LinkBreaks artery.now base.now rule dir link }
{
    let count = artery.count();
    let has_next = link + 1 < count;
    match rule {
        LinkRule::Fast => is_not_fast(artery, base, dir, link),
        LinkRule::Slow => is_not_slow(artery, base, dir, link),
        LinkRule::Rise | LinkRule::Drop => {
            !has_next || is_change_kept(artery, base, rule, dir, link)
        }
    }
}

/// The first link that doesn't keep a limit in a direction.
pub fn first_broken(artery: &Artery, base: &Base, rule: LinkRule, dir: Dir) -> Option<u32>
    requires shape { IsFor artery.now base.now }
    ensures { MatchOption result (AllLinks artery.now base.now rule dir)
        (λ i. IsFirstBroken artery.now base.now rule dir i) }
{
    for link in 1..artery.count() {
        if !is_kept(artery, base, rule, dir, link) {
            return Some(link);
        }
    }
    None
}
