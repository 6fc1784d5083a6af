//! Streets and fractions that tests make of a few numbers.

ghost use Rattle.std.specs.Prelude.{◌≡◌, IfOk};
ghost use Rattle.progression.specs.Street.{count};

use crate::sample::{SampleHead, SampleLink, plain_head, plain_link, plain_signal, range};
use crate::sampled::sample_street;
use artery_model::{Artery, Flaw};
use narrow_fraction::{Frac, Unfit};
use std::alloc::{AllocError, Global};
use std::test::Fail;

/// The quotient, with nothing said of it: what `Frac::new` says is a long term.
fn quotient(num: i128, den: i128) -> Result<Frac, Unfit> {
    Frac::new(num, den)
}

/// A fraction, with nothing said of it.
pub fn fraction(num: i128, den: i128) -> Result<Frac, Fail> {
    match quotient(num, den) {
        Ok(fraction) => Ok(fraction),
        Err(_) => Err("no fraction".into()),
    }
}

/// The same, or 0 where there is none.
pub fn fraction_or_zero(num: i128, den: i128) -> Frac {
    match quotient(num, den) {
        Ok(fraction) => fraction,
        Err(_) => Frac::whole(0),
    }
}

/// The inbound band counts so much.
pub fn with_ratio(ratio: Frac) -> SampleHead {
    SampleHead {
        ratio,
        ..plain_head()
    }
}

/// In version 2, each band is to be at least so wide.
pub fn with_least(share: Frac) -> SampleHead {
    SampleHead {
        version: 2,
        least_out: share,
        least_in: share,
        ..plain_head()
    }
}

/// So far outbound and so far inbound, at each speed of this range.
pub fn paced_link(distance_out: u32, distance_in: u32, least: i64, most: i64) -> SampleLink {
    SampleLink {
        distance_in,
        speed_out: range(least, most),
        speed_in: range(least, most),
        ..plain_link(distance_out)
    }
}

/// Two signals, A and B, with this red, so far apart both ways.
pub fn two_signals(alloc: Global, head: SampleHead, red: u32, distance: u32) -> Result<Artery, Fail>
    ensures { IfOk result (λ a. count a ≡ 2) }
{
    let signals = [plain_signal("A", red), plain_signal("B", red)];
    match sample_street(alloc, head, &signals, &[plain_link(distance)]) {
        Ok(artery) => Ok(artery),
        Err(_) => Err("no artery".into()),
    }
}

/// The kind and the place of a refusal.
pub fn flaw_text(alloc: Global, flaw: Flaw) -> Result<String, AllocError> {
    match flaw {
        Flaw::Memory => String::from_str(alloc, "memory"),
        Flaw::Refused(refusal) => {
            let kind = refusal.kind;
            let place = refusal.place.as_str();
            format!(in alloc; "{kind:?} {place}")
        }
    }
}
