//! The rules of the warnings.

ghost use Rattle.std.specs.Prelude.{◌≡◌, ◌<◌, ◌≤◌, pos, ◌≤ℤ◌, ◌^◌, IfOk};
ghost use Rattle.progression.specs.Street.{speed, HasLink, HasSignal};
ghost use Rattle.street_words.specs.Laws.{IsOf};
ghost use Rattle.street_words.specs.Warnings.{fastest, slowest, takes_little, takes_long, is_fast, is_slow, is_mostly_red, may_starve, applies};

use crate::fractions::has_long_fractions;
use crate::names::are_alike;
use crate::warning::Warning;
use artery_model::{Artery, Dir, Pair, Units};
use narrow_fraction::{Frac, Memory};
use std::alloc::Global;

/// The limits of the time of travel at the greatest speed, in seconds.
pub const LEAST_TRAVEL: u32 = 3;

pub const MOST_TRAVEL: u32 = 60;

fn takes_little(artery: &Artery, dir: Dir, link: u32) -> bool
    requires link { HasLink artery.now link }
    ensures { result ≡ takes_little artery.now dir link }
{
    artery.run_low(dir, link) < Frac::whole(i64::from(LEAST_TRAVEL))
}

fn takes_long(artery: &Artery, dir: Dir, link: u32) -> bool
    requires link { HasLink artery.now link }
    ensures { result ≡ takes_long artery.now dir link }
{
    Frac::whole(i64::from(MOST_TRAVEL)) < artery.run_low(dir, link)
}

/// The limits of a direction's speed.
pub fn speeds(artery: &Artery, dir: Dir, link: u32) -> Pair
    requires link { HasLink artery.now link }
    ensures value { result ≡ speed artery.now dir link }
    ensures least { pos 0 ≤ℤ result.least.num }
    ensures least_denominator { result.least.den ≤ 2 ^ 120 }
    ensures most { pos 0 ≤ℤ result.most.num }
    ensures most_denominator { result.most.den ≤ 2 ^ 120 }
{
    artery.known_valid();
    let found = &artery.links()[link as usize - 1];
    match dir {
        Dir::Outbound => found.speed_out,
        Dir::Inbound => found.speed_in,
    }
}

/// The greatest speed that isn't warned of.
pub fn fastest(units: Units) -> u32
    ensures { result ≡ fastest units }
{
    match units {
        Units::Metric => 120,
        Units::English => 75,
    }
}

/// The least one.
pub fn slowest(units: Units) -> u32
    ensures { result ≡ slowest units }
{
    match units {
        Units::Metric => 10,
        Units::English => 6,
    }
}

fn is_fast(artery: &Artery, dir: Dir, link: u32) -> bool
    requires link { HasLink artery.now link }
    ensures { result ≡ is_fast artery.now dir link }
{
    Frac::whole(i64::from(fastest(artery.head().units))) < speeds(artery, dir, link).most
}

fn is_slow(artery: &Artery, dir: Dir, link: u32) -> bool
    requires link { HasLink artery.now link }
    ensures { result ≡ is_slow artery.now dir link }
{
    speeds(artery, dir, link).least < Frac::whole(i64::from(slowest(artery.head().units)))
}

fn is_mostly_red(artery: &Artery, dir: Dir, signal: u32) -> bool
    requires signal { HasSignal artery.now signal }
    ensures { result ≡ is_mostly_red artery.now dir signal }
{
    3 * artery.parts() < 4 * artery.red(dir, signal)
}

fn may_starve(artery: &Artery) -> bool
    ensures { result ≡ may_starve artery.now }
{
    artery.ratio() == Frac::whole(1)
        && !artery.equal()
        && (artery.least_band(Dir::Outbound) == Frac::whole(0)
            || artery.least_band(Dir::Inbound) == Frac::whole(0))
}

/// Whether the rule of a warning holds. The error is want of memory.
pub fn applies(alloc: Global, artery: &Artery, warning: Warning) -> Result<bool, Memory>
    requires { IsOf artery.now warning }
    ensures { IfOk result (λ holds. holds ≡ applies artery.now warning) }
{
    match warning {
        Warning::TakesLittle { dir, link } => Ok(takes_little(artery, dir, link)),
        Warning::TakesLong { dir, link } => Ok(takes_long(artery, dir, link)),
        Warning::TooFast { dir, link } => Ok(is_fast(artery, dir, link)),
        Warning::TooSlow { dir, link } => Ok(is_slow(artery, dir, link)),
        Warning::MostlyRed { dir, signal } => Ok(is_mostly_red(artery, dir, signal)),
        Warning::AlikeNames { signal } => are_alike(alloc, artery, signal),
        Warning::MayStarve => Ok(may_starve(artery)),
        Warning::LongFractions => Ok(has_long_fractions(artery)),
    }
}
