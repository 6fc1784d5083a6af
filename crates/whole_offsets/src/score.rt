//! What a plan is judged by.

ghost use Rattle.std.specs.Prelude.{◌≡◌, ◌↔◌, ◌+◌, ◌*◌, ◌<◌, ◌^◌, IsTrue, pos, unsigned_abs};
ghost use Rattle.rational_theory.specs.Rational.{◌+ℚ◌};
ghost use Rattle.progression.specs.BaseRecord.{cycle};
ghost use Rattle.progression.specs.TimingRecord.{base};
ghost use Rattle.whole_offsets.specs.Score.{missed, miss, AreWithoutLine, IsScore, IsSmall, IsBetter};

use artery_model::Artery;
use free_runs::{denominator, numerator};
use narrow_fraction::Frac;
use progression::Dir;
use time_space::{Timing, value};

/// What a plan is judged by, in this order.
#[derive(Clone, Copy)]
pub struct Score {
    /// In how many directions the band isn't green all the way, since no line passes: 0 to 2.
    pub lineless: u32,
    /// By how much the bands are narrower than they have to be, as a part of the cycle, in sum.
    pub misses: Frac,
    /// The weighted band.
    pub weighted: Frac,
}

/// Whether one score is better than another.
pub fn beats(one: &Score, other: &Score) -> bool
    ensures { IsTrue result ↔ IsBetter one.now other.now }
{
    if one.lineless != other.lineless {
        return one.lineless < other.lineless;
    }
    if one.misses != other.misses {
        return one.misses < other.misses;
    }
    other.weighted < one.weighted
}

/// By how much a band is narrower than it has to be: that many ticks over the denominator of its least width.
fn missed(artery: &Artery, timing: &Timing, dir: Dir) -> u128
    ensures value { result ≡ missed artery.now timing.now dir }
    ensures small { result < 2 ^ 109 }
{
    let least = artery.least_band(dir);
    let wanted = numerator(least) * timing.base().cycle(artery);
    wanted.saturating_sub(timing.band(dir) * denominator(least))
}

/// By how much both are, in ticks over the product of the denominators.
fn missed_both(artery: &Artery, timing: &Timing) -> u128
    ensures value { result ≡ missed artery.now timing.now Dir.Outbound * artery.now.head.least_in.den
        + missed artery.now timing.now Dir.Inbound * artery.now.head.least_out.den }
    ensures small { result < 2 ^ 120 }
{
    let out = denominator(artery.least_band(Dir::Outbound));
    let back = denominator(artery.least_band(Dir::Inbound));
    missed(artery, timing, Dir::Outbound) * back + missed(artery, timing, Dir::Inbound) * out
}

/// A cycle times both denominators.
fn common_cycle(artery: &Artery, timing: &Timing) -> u128
    ensures value { result ≡ artery.now.head.least_out.den * artery.now.head.least_in.den * cycle artery.now (base timing.now) }
    ensures some { 0 < result }
    ensures small { result < 2 ^ 120 }
{
    let out = denominator(artery.least_band(Dir::Outbound));
    let back = denominator(artery.least_band(Dir::Inbound));
    out * back * timing.base().cycle(artery)
}

/// A number with a sign.
fn signed(ticks: u128) -> i128
    requires { ticks < 2 ^ 120 }
    ensures value { result ≡ pos ticks }
    ensures small { unsigned_abs result < 2 ^ 127 }
{
    ticks as i128
}

/// By how much the bands are narrower than they have to be, as a part of the cycle, in sum.
fn misses(artery: &Artery, timing: &Timing) -> Frac
    ensures { result ≡ miss artery.now timing.now Dir.Outbound +ℚ miss artery.now timing.now Dir.Inbound }
{
    artery.known_valid();
    known_small(artery, timing);
    let ticks = signed(missed_both(artery, timing));
    let parts = common_cycle(artery, timing);
    Frac::reduced(ticks, parts)
}

/// The sizes of a timing's cycle and bands: a fact for proofs, and nothing is done.
fn known_small(artery: &Artery, timing: &Timing)
    ensures { IsSmall artery.now timing.now }
{
    let _ = timing.base().cycle(artery);
    let _ = timing.band(Dir::Outbound);
    let _ = timing.band(Dir::Inbound);
}

/// What a plan is judged by that has no line in so many directions.
pub fn judged(artery: &Artery, timing: &Timing, lineless: u32) -> Score
    requires { AreWithoutLine artery.now timing.now lineless }
    ensures score { IsScore artery.now timing.now result }
    ensures small { IsSmall artery.now timing.now }
{
    known_small(artery, timing);
    Score {
        lineless,
        misses: misses(artery, timing),
        weighted: value(artery, timing),
    }
}
