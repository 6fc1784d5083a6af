//! The list of the changes of a street.

ghost use Rattle.std.specs.{Prelude.{◌≡◌, ◌+◌, ◌-◌, ◌++◌, ◌<◌, IfOk, OnOk}, List.{flat_map, range_with_len}};
ghost use Rattle.progression.specs.Street.{count, signal_of, link_of, HasLink, HasSignal};
ghost use Rattle.street_changes.specs.declared.limits.Change.TheVariants as Change;
ghost use Rattle.street_changes.specs.Changes.{where_so, wants_patterns, signal_changes, speed_changes, street_changes, ends, pace_changes, changes};

use crate::limits::{Change, LinkLimit, SignalLimit, StreetLimit};
use artery_model::{Artery, Head, Link, Pair, Signal};
use narrow_fraction::{Frac, Memory, push};
use std::alloc::Global;

/// Adds the change where it is so.
fn push_where(changes: &mut Vec<Change>, there: bool, change: Change) -> Result<(), Memory>
    ensures { OnOk result (changes.new.items ≡ changes.old.items ++ where_so there change) }
{
    if there {
        push(changes, change)?;
    }
    Ok(())
}

/// Whether some patterns aren't allowed, and there is a left turn, by which they differ.
fn wants_patterns(signal: &Signal) -> bool
    ensures { result ≡ wants_patterns signal.now }
{
    !signal.patterns.iter().all(|allowed| *allowed) && (signal.left_out > 0 || signal.left_in > 0)
}

fn push_signal(changes: &mut Vec<Change>, number: u32, signal: &Signal) -> Result<(), Memory>
    ensures { OnOk result (changes.new.items ≡ changes.old.items ++ signal_changes number signal.now) }
{
    push(changes, of_signal(number, SignalLimit::Red))?;
    push_where(
        changes,
        signal.left_out > 0,
        of_signal(number, SignalLimit::LeftOut),
    )?;
    push_where(
        changes,
        signal.left_in > 0,
        of_signal(number, SignalLimit::LeftIn),
    )?;
    push_where(
        changes,
        signal.clear_out > 0,
        of_signal(number, SignalLimit::ClearOut),
    )?;
    push_where(
        changes,
        signal.clear_in > 0,
        of_signal(number, SignalLimit::ClearIn),
    )?;
    push_where(
        changes,
        wants_patterns(signal),
        of_signal(number, SignalLimit::Patterns),
    )
}

fn of_signal(signal: u32, limit: SignalLimit) -> Change
    ensures { result ≡ Change.OfSignal signal limit }
{
    Change::OfSignal { signal, limit }
}

fn of_link(link: u32, limit: LinkLimit) -> Change
    ensures { result ≡ Change.OfLink link limit }
{
    Change::OfLink { link, limit }
}

fn push_speeds(changes: &mut Vec<Change>, link: u32) -> Result<(), Memory>
    ensures { OnOk result (changes.new.items ≡ changes.old.items ++ speed_changes link) }
{
    push(changes, of_link(link, LinkLimit::MostSpeedOut))?;
    push(changes, of_link(link, LinkLimit::MostSpeedIn))?;
    push(changes, of_link(link, LinkLimit::LeastSpeedOut))?;
    push(changes, of_link(link, LinkLimit::LeastSpeedIn))
}

fn push_street(changes: &mut Vec<Change>, head: &Head) -> Result<(), Memory>
    ensures { OnOk result (changes.new.items ≡ changes.old.items ++ street_changes head.now) }
{
    let zero = Frac::whole(0);
    push(
        changes,
        Change::OfStreet {
            limit: StreetLimit::LeastCycle,
        },
    )?;
    push(
        changes,
        Change::OfStreet {
            limit: StreetLimit::MostCycle,
        },
    )?;
    push_where(
        changes,
        zero < head.least_out,
        Change::OfStreet {
            limit: StreetLimit::LeastOut,
        },
    )?;
    push_where(
        changes,
        zero < head.least_in,
        Change::OfStreet {
            limit: StreetLimit::LeastIn,
        },
    )
}

/// Adds both ends of the limits on a change of pace, where there are any.
fn push_ends(
    changes: &mut Vec<Change>,
    limits: Option<Pair>,
    link: u32,
    least: LinkLimit,
    most: LinkLimit,
) -> Result<(), Memory>
    ensures { OnOk result (changes.new.items ≡ changes.old.items ++ ends limits link least most) }
{
    if let Some(_) = limits {
        push(changes, of_link(link, least))?;
        push(changes, of_link(link, most))?;
    }
    Ok(())
}

fn push_paces(changes: &mut Vec<Change>, number: u32, link: &Link) -> Result<(), Memory>
    ensures { OnOk result (changes.new.items ≡ changes.old.items ++ pace_changes number link.now) }
{
    push_ends(
        changes,
        link.change_out,
        number,
        LinkLimit::LeastChangeOut,
        LinkLimit::MostChangeOut,
    )?;
    push_ends(
        changes,
        link.change_in,
        number,
        LinkLimit::LeastChangeIn,
        LinkLimit::MostChangeIn,
    )
}

fn push_signal_at(changes: &mut Vec<Change>, artery: &Artery, signal: u32) -> Result<(), Memory>
    requires signal { HasSignal artery.now signal }
    ensures { OnOk result (changes.new.items ≡ changes.old.items ++ signal_changes signal (signal_of artery.now signal)) }
{
    push_signal(changes, signal, &artery.signals()[signal as usize - 1])
}

fn push_paces_at(changes: &mut Vec<Change>, artery: &Artery, link: u32) -> Result<(), Memory>
    requires link { HasLink artery.now link }
    ensures { OnOk result (changes.new.items ≡ changes.old.items ++ pace_changes link (link_of artery.now link)) }
{
    artery.known_valid();
    push_paces(changes, link, &artery.links()[link as usize - 1])
}

#[tactic(auto, using(timing_measures::proofs::Pieces::piece_up))]
fn push_signals(changes: &mut Vec<Change>, artery: &Artery) -> Result<(), Memory>
    ensures { OnOk result (changes.new.items ≡ changes.old.items ++ flat_map (λ i. signal_changes i (signal_of artery.now i)) (range_with_len 1 (count artery.now))) }
{
    for signal in 1..artery.count() + 1 {
        push_signal_at(changes, artery, signal)?;
    }
    Ok(())
}

#[tactic(auto, using(timing_measures::proofs::Pieces::piece_up))]
fn push_link_speeds(changes: &mut Vec<Change>, artery: &Artery) -> Result<(), Memory>
    ensures { OnOk result (changes.new.items ≡ changes.old.items ++ flat_map speed_changes (range_with_len 1 (count artery.now - 1))) }
{
    for link in 1..artery.count() {
        push_speeds(changes, link)?;
    }
    Ok(())
}

#[tactic(auto, using(timing_measures::proofs::Pieces::piece_up))]
fn push_link_paces(changes: &mut Vec<Change>, artery: &Artery) -> Result<(), Memory>
    ensures { OnOk result (changes.new.items ≡ changes.old.items ++ flat_map (λ i. pace_changes i (link_of artery.now i)) (range_with_len 1 (count artery.now - 1))) }
{
    for link in 1..artery.count() {
        push_paces_at(changes, artery, link)?;
    }
    Ok(())
}

/// The changes of a street, one limit at a time: none; of each signal a part less of its common red, of either left and either clearance
/// where there is one, and all four patterns where some aren't allowed and there are lefts; of each link and direction the greatest speed
/// a unit more and the least a unit less; the least cycle a second less and the greatest a second more; each promise a hundredth less;
/// and each end of a limit on a change of pace by one. The error is want of memory.
pub fn changes(alloc: Global, artery: &Artery) -> Result<Vec<Change>, Memory>
    ensures { IfOk result (λ list. list.items ≡ changes artery.now) }
{
    let mut list = Vec::new(alloc);
    push(&mut list, Change::AsItIs)?;
    push_signals(&mut list, artery)?;
    push_link_speeds(&mut list, artery)?;
    push_street(&mut list, artery.head())?;
    push_link_paces(&mut list, artery)?;
    Ok(list)
}
