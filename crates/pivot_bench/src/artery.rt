//! Arteries by a fixed rule: cycles of 60 to 100 seconds in 100 parts, speeds of 40 to 60 kilometres an hour, all
//! patterns, and reds, left turns and lengths by the numbers of the signals and links.

ghost use Rattle.std.specs.Prelude.{◌≤◌};

use artery_model::{Artery, Head, Link, Pair, Signal, Text, Units};
use narrow_fraction::Frac;
use std::alloc::Global;

/// The most signals that an artery has.
const MOST: u32 = 16;

fn pair(least: i64, most: i64) -> Pair {
    Pair {
        least: Frac::whole(least),
        most: Frac::whole(most),
    }
}

fn head() -> Head {
    Head {
        name: None,
        units: Units::Metric,
        version: 1,
        parts: 100,
        cycle: pair(60, 100),
        ratio: Frac::whole(1),
        least_out: Frac::whole(0),
        least_in: Frac::whole(0),
        equal: false,
    }
}

fn signal(alloc: Global, number: u32) -> Option<Signal>
    requires { number ≤ MOST }
{
    let name = format!(in alloc; "S{number}").ok()?;
    Some(Signal {
        name: Text::from(name),
        red: 30 + 7 * number % 21,
        left_out: 5 * (number % 3),
        left_in: 5 * ((number + 1) % 3),
        patterns: [true; 4],
        clear_out: 0,
        clear_in: 0,
    })
}

fn link(number: u32) -> Link
    requires { number ≤ MOST }
{
    let distance = 200 + 10 * (13 * number % 41);
    Link {
        distance_out: distance,
        distance_in: distance,
        speed_out: pair(40, 60),
        speed_in: pair(40, 60),
        change_out: None,
        change_in: None,
    }
}

/// The artery of so many signals, where there is one.
pub fn artery_of(alloc: Global, count: u32) -> Option<Artery> {
    if count > MOST {
        return None;
    }
    let mut signals = Vec::new(alloc);
    for number in 1..count + 1 {
        signals.push(signal(alloc, number)?).ok()?;
    }
    let mut links = Vec::new(alloc);
    for number in 1..count {
        links.push(link(number)).ok()?;
    }
    Artery::new(alloc, head(), signals, links).ok()
}
