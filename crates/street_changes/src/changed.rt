//! The street with a change.

ghost use Rattle.std.specs.Prelude.{◌≡◌, ◌+◌, ◌≤◌, ◌<◌, All, length, get_or, IfOk};
ghost use Rattle.progression.specs.Street.{no_signal, no_link};
ghost use Rattle.artery_model.specs.{Bounds.{least_share, most_share, least_cycle, most_cycle}, Valid.{IsQuantity, IsPair, IsLink}};
ghost use Rattle.street_changes.specs.Changed.{changed_head, changed_signal, changed_link, each_by, IsChanged};

use crate::letting::{let_link, let_signal, let_street};
use crate::limits::Change;
use artery_model::{Artery, Flaw, Head, Link, Signal};
use artery_parts::{copied_head, copied_link, copied_signal};
use narrow_fraction::{Memory, push};
use std::alloc::Global;

fn changed_head(alloc: Global, head: &Head, change: Change) -> Result<Head, Memory>
    requires cycle { IsPair least_cycle most_cycle head.now.cycle }
    requires least_out { IsQuantity least_share most_share head.now.least_out }
    requires least_in { IsQuantity least_share most_share head.now.least_in }
    ensures { IfOk result (λ h. h ≡ changed_head change head.now) }
{
    let mut copy = copied_head(alloc, head)?;
    if let Change::OfStreet { limit } = change {
        let_street(&mut copy, limit);
    }
    Ok(copy)
}

/// The signal with this number.
fn changed_signal(
    alloc: Global,
    signal: &Signal,
    number: u32,
    change: Change,
) -> Result<Signal, Memory>
    ensures { IfOk result (λ s. s ≡ changed_signal change number signal.now) }
{
    let mut copy = copied_signal(alloc, signal)?;
    if let Change::OfSignal { signal, limit } = change {
        if signal == number {
            let_signal(&mut copy, limit);
        }
    }
    Ok(copy)
}

/// The link with this number.
fn changed_link(link: &Link, number: u32, change: Change) -> Link
    requires { IsLink link.now }
    ensures { result ≡ changed_link change number link.now }
{
    let mut copy = copied_link(link);
    if let Change::OfLink { link, limit } = change {
        if link == number {
            let_link(&mut copy, limit);
        }
    }
    copy
}

fn changed_signal_at(
    alloc: Global,
    signals: &[Signal],
    index: usize,
    change: Change,
) -> Result<Signal, Memory>
    requires index { index < length signals.now }
    requires few { length signals.now ≤ 24 }
    ensures { IfOk result (λ s. s ≡ changed_signal change (index + 1) (get_or signals.now index no_signal)) }
{
    changed_signal(alloc, &signals[index], index as u32 + 1, change)
}

fn changed_link_at(links: &[Link], index: usize, change: Change) -> Link
    requires index { index < length links.now }
    requires few { length links.now ≤ 24 }
    requires valid { All IsLink links.now }
    ensures { result ≡ changed_link change (index + 1) (get_or links.now index no_link) }
{
    changed_link(&links[index], index as u32 + 1, change)
}

#[tactic(auto, using(crate::proofs::Numbered::all_taken))]
fn changed_signals(alloc: Global, signals: &[Signal], change: Change) -> Result<Vec<Signal>, Memory>
    requires { length signals.now ≤ 24 }
    ensures { IfOk result (λ list. list.items ≡ each_by (changed_signal change) 1 signals.now) }
{
    let mut list = Vec::new(alloc);
    for index in 0..signals.len() {
        let next = changed_signal_at(alloc, signals, index, change)?;
        push(&mut list, next)?;
    }
    Ok(list)
}

#[tactic(auto, using(crate::proofs::Numbered::all_taken))]
fn changed_links(alloc: Global, links: &[Link], change: Change) -> Result<Vec<Link>, Memory>
    requires few { length links.now ≤ 24 }
    requires valid { All IsLink links.now }
    ensures { IfOk result (λ list. list.items ≡ each_by (changed_link change) 1 links.now) }
{
    let mut list = Vec::new(alloc);
    for index in 0..links.len() {
        push(&mut list, changed_link_at(links, index, change))?;
    }
    Ok(list)
}

/// The street with a change, or None exactly where a description may not have it. The error is want of memory.
pub fn changed_artery(
    alloc: Global,
    artery: &Artery,
    change: Change,
) -> Result<Option<Artery>, Memory>
    ensures { IfOk result (λ made. IsChanged artery.now change made) }
{
    artery.known_valid();
    let head = changed_head(alloc, artery.head(), change)?;
    let signals = changed_signals(alloc, artery.signals(), change)?;
    let links = changed_links(alloc, artery.links(), change)?;
    match Artery::new(alloc, head, signals, links) {
        Ok(street) => Ok(Some(street)),
        Err(Flaw::Memory) => Err(Memory),
        Err(Flaw::Refused(_)) => Ok(None),
    }
}
