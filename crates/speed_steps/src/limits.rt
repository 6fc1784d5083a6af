//! The two limits of one direction of a link.

ghost use Rattle.std.specs.Prelude.{◌≡◌, ◌≤◌, find, map};
ghost use Rattle.artery_model.specs.{Bounds.{least_distance, most_distance}, Valid.{IsSpeeds}};
ghost use Rattle.speed_steps.specs.{Steps.{steps, faster, slower}, Sizes.{IsStep}};
ghost use Rattle.speed_steps.specs.Moved.{is_speed, are_limits, at_step, both_moved, with_moved, each_moved, limits_moved, moved, changed, changes};

use crate::steps::{faster, slower, step};
use crate::way::Way;
use artery_model::bounds::{LEAST_SPEED, MOST_SPEED};
use artery_model::{Pair, Units, is_within};
use narrow_fraction::Frac;

/// Whether a description may have this speed.
fn is_speed(speed: Frac) -> bool
    ensures { result ≡ is_speed speed }
{
    is_within(LEAST_SPEED, MOST_SPEED, speed)
}

/// Whether a description may have these limits.
fn are_limits(limits: &Pair) -> bool
    ensures { result ≡ are_limits limits.now }
{
    is_speed(limits.least) && is_speed(limits.most) && limits.least <= limits.most
}

/// The first speed that a description may have.
fn first_speed(speeds: &[Frac]) -> Option<Frac>
    ensures { result ≡ find is_speed speeds.now }
{
    speeds.iter().copied().find(|speed| is_speed(*speed))
}

/// The first limits that a description may have.
fn first_limits(tried: &[Pair]) -> Option<Pair>
    ensures { result ≡ find are_limits tried.now }
{
    tried.iter().copied().find(|limits| are_limits(limits))
}

/// Both limits moved by a step.
fn at_step(way: Way, units: Units, distance: u32, limits: &Pair, step: Frac) -> Pair
    requires least { least_distance ≤ distance }
    requires most { distance ≤ most_distance }
    requires limits { IsSpeeds limits.now }
    requires step { IsStep step }
    ensures { result ≡ at_step way units distance limits.now step }
{
    match way {
        Way::Inwards => Pair {
            least: faster(units, distance, limits.least, step),
            most: slower(units, distance, limits.most, step),
        },
        Way::Outwards => Pair {
            least: slower(units, distance, limits.least, step),
            most: faster(units, distance, limits.most, step),
        },
    }
}

/// Both limits moved by the first step that serves both.
fn both_moved(way: Way, units: Units, distance: u32, limits: &Pair) -> Option<Pair>
    requires least { least_distance ≤ distance }
    requires most { distance ≤ most_distance }
    requires limits { IsSpeeds limits.now }
    ensures { result ≡ both_moved way units distance limits.now }
{
    first_limits(&[
        at_step(way, units, distance, limits, step(units, 0)),
        at_step(way, units, distance, limits, step(units, 1)),
        at_step(way, units, distance, limits, step(units, 2)),
    ])
}

/// The least limit moved outwards by the first step that serves it.
fn least_moved(units: Units, distance: u32, limits: &Pair) -> Option<Frac>
    requires least { least_distance ≤ distance }
    requires most { distance ≤ most_distance }
    requires limits { IsSpeeds limits.now }
    ensures { result ≡ find is_speed (map (slower units distance limits.now.least) (steps units)) }
{
    first_speed(&[
        slower(units, distance, limits.least, step(units, 0)),
        slower(units, distance, limits.least, step(units, 1)),
        slower(units, distance, limits.least, step(units, 2)),
    ])
}

/// The most limit moved outwards by the first step that serves it.
fn most_moved(units: Units, distance: u32, limits: &Pair) -> Option<Frac>
    requires least { least_distance ≤ distance }
    requires most { distance ≤ most_distance }
    requires limits { IsSpeeds limits.now }
    ensures { result ≡ find is_speed (map (faster units distance limits.now.most) (steps units)) }
{
    first_speed(&[
        faster(units, distance, limits.most, step(units, 0)),
        faster(units, distance, limits.most, step(units, 1)),
        faster(units, distance, limits.most, step(units, 2)),
    ])
}

/// These limits with the ones that are given in their place.
fn with_moved(limits: &Pair, least: Option<Frac>, most: Option<Frac>) -> Option<Pair>
    ensures { result ≡ with_moved limits.now least most }
{
    if least.is_none() && most.is_none() {
        return None;
    }
    Some(Pair {
        least: least.unwrap_or(limits.least),
        most: most.unwrap_or(limits.most),
    })
}

/// Each limit moved outwards by itself.
fn each_moved(units: Units, distance: u32, limits: &Pair) -> Option<Pair>
    requires least { least_distance ≤ distance }
    requires most { distance ≤ most_distance }
    requires limits { IsSpeeds limits.now }
    ensures { result ≡ each_moved units distance limits.now }
{
    let least = least_moved(units, distance, limits);
    let most = most_moved(units, distance, limits);
    with_moved(limits, least, most)
}

/// Where the limits move to, if at all.
pub fn limits_moved(way: Way, units: Units, distance: u32, limits: &Pair) -> Option<Pair>
    requires least { least_distance ≤ distance }
    requires most { distance ≤ most_distance }
    requires limits { IsSpeeds limits.now }
    ensures { result ≡ limits_moved way units distance limits.now }
{
    match way {
        Way::Inwards if limits.least == limits.most => None,
        Way::Inwards => both_moved(way, units, distance, limits),
        Way::Outwards => {
            both_moved(way, units, distance, limits).or(each_moved(units, distance, limits))
        }
    }
}

/// The limits after the move.
pub fn moved(way: Way, units: Units, distance: u32, limits: &Pair) -> Pair
    requires least { least_distance ≤ distance }
    requires most { distance ≤ most_distance }
    requires limits { IsSpeeds limits.now }
    ensures { result ≡ moved way units distance limits.now }
{
    match limits_moved(way, units, distance, limits) {
        Some(moved) => moved,
        None => Pair {
            least: limits.least,
            most: limits.most,
        },
    }
}

fn changed(from: Frac, to: Frac) -> u32
    ensures value { result ≡ changed from to }
    ensures most { result ≤ 1 }
{
    u32::from(from != to)
}

/// How many of two limits are others.
pub fn changes(from: &Pair, to: &Pair) -> u32
    ensures value { result ≡ changes from.now to.now }
    ensures most { result ≤ 2 }
{
    changed(from.least, to.least) + changed(from.most, to.most)
}
