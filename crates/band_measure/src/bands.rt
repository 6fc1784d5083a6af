//! Bands that keep the ratio, or are equal.

ghost use Rattle.std.specs.Prelude.{◌≡◌, ◌<◌, ◌≤◌, ◌*◌, ◌/◌, ◌^◌, pos, ◌≤ℤ◌, min, unsigned_abs};
ghost use Rattle.rational_theory.specs.Rational.{◌*ℚ◌, ◌/ℚ◌};
ghost use Rattle.progression.specs.Speeds.{number};
ghost use Rattle.band_measure.specs.Cut.{whole_part, IsCutByRatio, IsCut};

use artery_model::Artery;
use narrow_fraction::Frac;

/// The widths of the bands, in ticks.
#[derive(Clone, Copy)]
pub struct Bands {
    pub outbound: u128,
    pub inbound: u128,
}

/// The lesser of two widths.
fn lesser(one: u128, other: u128) -> u128
    ensures { result ≡ min one other }
{
    if other < one { other } else { one }
}

/// The greatest whole number that is not above so many ticks times the ratio.
#[tactic(auto, using(crate::proofs::Parts::times_part))]
fn part_times(ratio: Frac, ticks: u128) -> u128
    requires above { pos 1 ≤ℤ ratio.num }
    requires num { unsigned_abs ratio.num < 2 ^ 30 }
    requires ticks { ticks < 2 ^ 92 }
    ensures { result ≡ whole_part (ratio *ℚ number ticks) }
{
    ticks * ratio.num() as u128 / ratio.den() as u128
}

/// The greatest whole number that is not above so many ticks over the ratio.
#[tactic(auto, using(crate::proofs::Parts::over_part))]
fn part_over(ratio: Frac, ticks: u128) -> u128
    requires above { pos 1 ≤ℤ ratio.num }
    requires den { ratio.den < 2 ^ 30 }
    requires ticks { ticks < 2 ^ 92 }
    ensures { result ≡ whole_part (number ticks /ℚ ratio) }
{
    ticks * ratio.den() as u128 / ratio.num() as u128
}

/// The bands, the outbound one no wider than a ratio below 1 allows, or the inbound one than a ratio above 1.
#[tactic(auto, using(rational_theory::proofs::Compare::ne_false, rational_theory::proofs::Compare::eq_true, rational_theory::proofs::Compare::lt_true, rational_theory::proofs::Compare::lt_false))]
fn cut_by_ratio(ratio: Frac, bands: Bands) -> Bands
    requires least { pos 0 ≤ℤ ratio.num }
    requires num { unsigned_abs ratio.num < 2 ^ 30 }
    requires den { ratio.den < 2 ^ 30 }
    requires outbound { bands.outbound < 2 ^ 92 }
    requires inbound { bands.inbound < 2 ^ 92 }
    ensures cut { IsCutByRatio ratio bands result }
    ensures outbound { result.outbound ≤ bands.outbound }
    ensures inbound { result.inbound ≤ bands.inbound }
{
    if ratio.is_zero() || ratio == Frac::whole(1) {
        return bands;
    }
    let Bands { outbound, inbound } = bands;
    if ratio < Frac::whole(1) {
        Bands {
            outbound: lesser(outbound, part_over(ratio, inbound)),
            inbound,
        }
    } else {
        Bands {
            outbound,
            inbound: lesser(inbound, part_times(ratio, outbound)),
        }
    }
}

/// The bands, as narrow as they have to be to keep the ratio, or to be equal where the artery asks so.
pub fn cut(artery: &Artery, bands: Bands) -> Bands
    requires outbound { bands.outbound < 2 ^ 92 }
    requires inbound { bands.inbound < 2 ^ 92 }
    ensures cut { IsCut artery.now bands result }
    ensures outbound { result.outbound ≤ bands.outbound }
    ensures inbound { result.inbound ≤ bands.inbound }
{
    if artery.equal() {
        let both = lesser(bands.outbound, bands.inbound);
        return Bands {
            outbound: both,
            inbound: both,
        };
    }
    cut_by_ratio(artery.ratio(), bands)
}
