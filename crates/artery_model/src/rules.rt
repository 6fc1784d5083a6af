//! Rules between values.

ghost use Rattle.std.specs.Prelude.{◌≡◌, ◌+◌, nat_lt};
ghost use Rattle.artery_model.specs.Faults.{first_fault, each_numbered, link_place, Judges};
ghost use Rattle.artery_model.specs.Limits.{has_pattern, has_green, in_order, in_order_if_there, link_limits, rule_tests};

use crate::kind::{Flaw, Kind};
use crate::names::check_names;
use crate::refusals::{check, check_signal, link_place};
use progression::{Head, Link, Pair, Signal};
use std::alloc::Global;

fn check_pattern(alloc: Global, number: usize, signal: &Signal) -> Result<(), Flaw>
    ensures { Judges result (has_pattern number signal.now) }
{
    let some = signal.patterns.iter().any(|allowed| *allowed);
    check_signal(alloc, some, Kind::NoPattern, number, "patterns")
}

fn check_each_pattern(alloc: Global, signals: &[Signal]) -> Result<(), Flaw>
    ensures { Judges result (first_fault (each_numbered has_pattern 1 signals.now)) }
{
    for (index, signal) in signals.iter().enumerate() {
        check_pattern(alloc, index + 1, signal)?;
    }
    Ok(())
}

/// Whether a red and a left turn leave some of the parts.
fn leaves_green(parts: u32, red: u32, left: u32) -> bool
    ensures { result ≡ nat_lt (red + left) parts }
{
    u64::from(red) + u64::from(left) < u64::from(parts)
}

fn check_green(alloc: Global, parts: u32, number: usize, signal: &Signal) -> Result<(), Flaw>
    ensures { Judges result (has_green parts number signal.now) }
{
    let kind = Kind::NoGreen;
    let inbound = leaves_green(parts, signal.red, signal.left_out);
    check_signal(alloc, inbound, kind, number, "left_out")?;
    let outbound = leaves_green(parts, signal.red, signal.left_in);
    check_signal(alloc, outbound, kind, number, "left_in")
}

fn check_each_green(alloc: Global, parts: u32, signals: &[Signal]) -> Result<(), Flaw>
    ensures { Judges result (first_fault (each_numbered (has_green parts) 1 signals.now)) }
{
    for (index, signal) in signals.iter().enumerate() {
        check_green(alloc, parts, index + 1, signal)?;
    }
    Ok(())
}

fn check_order(alloc: Global, pair: Pair, place: &str) -> Result<(), Flaw>
    ensures { Judges result (in_order pair place.now) }
{
    check(alloc, pair.least <= pair.most, Kind::LimitsCrossed, place)
}

fn check_speeds(alloc: Global, speeds: Pair, link: usize, key: &str) -> Result<(), Flaw>
    ensures { Judges result (in_order speeds (link_place link key.now)) }
{
    let place = link_place(alloc, link, key)?;
    check_order(alloc, speeds, place.as_str())
}

fn check_change(alloc: Global, change: Option<Pair>, link: usize, key: &str) -> Result<(), Flaw>
    ensures { Judges result (in_order_if_there change (link_place link key.now)) }
{
    match change {
        Some(limits) => check_speeds(alloc, limits, link, key),
        None => Ok(()),
    }
}

fn check_limits(alloc: Global, number: usize, link: &Link) -> Result<(), Flaw>
    ensures { Judges result (link_limits number link.now) }
{
    check_speeds(alloc, link.speed_out, number, "speed_out")?;
    check_speeds(alloc, link.speed_in, number, "speed_in")?;
    check_change(alloc, link.change_out, number, "change_out")?;
    check_change(alloc, link.change_in, number, "change_in")
}

fn check_each_limit(alloc: Global, links: &[Link]) -> Result<(), Flaw>
    ensures { Judges result (first_fault (each_numbered link_limits 1 links.now)) }
{
    for (index, link) in links.iter().enumerate() {
        check_limits(alloc, index + 1, link)?;
    }
    Ok(())
}

/// Refuses the first broken rule between values.
pub(crate) fn check_rules(
    alloc: Global,
    head: &Head,
    signals: &[Signal],
    links: &[Link],
) -> Result<(), Flaw>
    ensures { Judges result (first_fault (rule_tests (record { head = head.now; signals = signals.now; links = links.now }))) }
{
    let matches = links.len() + 1 == signals.len();
    check(alloc, matches, Kind::CountMismatch, "link")?;
    check_names(alloc, signals)?;
    check_each_pattern(alloc, signals)?;
    check_each_green(alloc, head.parts, signals)?;
    check_order(alloc, head.cycle, "artery.cycle")?;
    check_each_limit(alloc, links)
}
