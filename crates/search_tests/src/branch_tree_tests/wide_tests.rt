//! A street whose root is finished and can't be read, worked by hand: three signals with 100 parts and reds of 60, two links of
//! 1387 metres.
//!
//! With speeds just below 100 kilometres an hour and a cycle of 99.929 seconds each run is just below half a cycle, so that both
//! block sums are 1 in the whole root box. From signal to signal the waits then fall by what the two runs of the link leave of
//! a whole cycle, and at each signal the waits and the bands fit into greens of 2/5. So the root's bound is the four runs less 6/5.
//! The four speeds and the cycle have five different prime numbers of thousandths. A common denominator of 2^80 or more has to
//! have all five, since any four of them and the number of parts make less.

use super::tests::{is_accepted, is_first_waits, searched};
use artery_model::{Artery, Pair};
use branch_tree::{Found, Site, SitePart, Stop, Verdict};
use narrow_fraction::Frac;
use offset_recovery::WideTiming;
use std::alloc::Global;
use std::rt::HostRuntime;
use std::test::Fail;
use test_bed::{
    SampleHead, SampleLink, fraction_or_zero, plain_head, plain_link, plain_signal, sample_street,
};

/// The speeds in thousandths of a kilometre an hour, and the cycle in thousandths of a second.
const PRIMES: [i128; 5] = [99991, 99989, 99971, 99961, 99929];

/// A number of thousandths.
fn thousandths(number: i128) -> Frac {
    fraction_or_zero(number, 1000)
}

/// A range of this number alone.
fn pair_of(number: Frac) -> Pair {
    Pair {
        least: number,
        most: number,
    }
}

fn link(speed_out: i128, speed_in: i128) -> SampleLink {
    SampleLink {
        speed_out: pair_of(thousandths(speed_out)),
        speed_in: pair_of(thousandths(speed_in)),
        ..plain_link(1387)
    }
}

/// The cycle has so many thousandths of a second.
fn head(cycle: i128) -> SampleHead {
    SampleHead {
        cycle: pair_of(thousandths(cycle)),
        ..plain_head()
    }
}

fn street(alloc: Global) -> Result<Artery, Fail> {
    let [first_out, first_in, second_out, second_in, cycle] = PRIMES;
    let head = head(cycle);
    let signals = [
        plain_signal("A", 60),
        plain_signal("B", 60),
        plain_signal("C", 60),
    ];
    let links = [link(first_out, first_in), link(second_out, second_in)];
    match sample_street(alloc, head, &signals, &links) {
        Ok(artery) => Ok(artery),
        Err(_) => Err("no artery".into()),
    }
}

/// One over a number of thousandths.
fn per(number: i128) -> Frac {
    fraction_or_zero(1000, number)
}

/// The part of a cycle that 1387 metres take: 4993.2 over the speed and the cycle.
fn run(speed: i128, cycle: i128) -> Result<Frac, Fail> {
    let slow = fraction_or_zero(49932, 10).times(per(speed));
    let seconds = slow.ok().ok_or("no time")?;
    Ok(seconds.times(per(cycle)).ok().ok_or("no part of a cycle")?)
}

/// The four runs less 6/5.
fn root_bound() -> Result<Frac, Fail> {
    let [first_out, first_in, second_out, second_in, cycle] = PRIMES;
    let mut bound = fraction_or_zero(-6, 5);
    for speed in [first_out, first_in, second_out, second_in] {
        bound = bound.plus(run(speed, cycle)?).ok().ok_or("no sum")?;
    }
    Ok(bound)
}

/// The site of a stop by width.
fn site(found: &Found) -> Option<&Site> {
    match &found.verdict {
        Verdict::Stopped(Stop::Wide(site)) => Some(site),
        _ => None,
    }
}

/// The two numbers whose least common multiple is too great, and zeros for any other site.
fn operands(part: SitePart) -> (u128, u128) {
    match part {
        SitePart::Timing(WideTiming::Unit { left, right }) => (left, right),
        _ => (0, 0),
    }
}

fn is_factor(prime: i128, number: u128) -> bool {
    prime != 0 && number != 0 && number % prime.unsigned_abs() == 0
}

/// Whether each of the primes is a factor of one of two numbers.
fn have_all_primes(left: u128, right: u128) -> bool {
    for prime in PRIMES {
        if !is_factor(prime, left) && !is_factor(prime, right) {
            return false;
        }
    }
    true
}

/// Whether a search was stopped by two numbers that have all primes, a unit after the pivots of the root.
fn is_stopped_by_primes(found: &Found) -> bool {
    match site(found) {
        Some(site) => {
            let (left, right) = operands(site.part);
            found.spent == site.pivots.saturating_add(1) && have_all_primes(left, right)
        }
        None => false,
    }
}

/// Whether a search has the root alone, with a leaf of its own.
fn has_own_leaf(found: &Found) -> bool {
    match found.nodes.as_slice() {
        [node] => !is_first_waits(node),
        _ => false,
    }
}

/// Whether a search of the street keeps the root's own leaf and bound, with a certificate that is accepted.
fn keeps_own_leaf(alloc: Global, artery: &Artery, bound: Frac) -> Result<bool, Fail> {
    let searched = searched(alloc, artery, 1000)?;
    let found = &searched.found;
    Ok(
        is_stopped_by_primes(found)
            && found.bound == bound
            && found.timing.is_none()
            && has_own_leaf(found)
            && is_accepted(alloc, artery, &searched),
    )
}

#[test]
fn an_unread_root_keeps_its_own_leaf(rt: HostRuntime) -> Result<(), Fail> {
    let bound = root_bound()?;
    let artery = street(rt.alloc())?;
    assert!(rt; keeps_own_leaf(rt.alloc(), &artery, bound)?);
    Ok(())
}
