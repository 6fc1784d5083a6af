//! Copies of an artery's parts.

ghost use Rattle.std.specs.Prelude.{◌≡◌, IfOk};

use narrow_fraction::{Memory, push};
use progression::{Head, Link, Signal, Text};
use std::alloc::Global;

/// The same name, where there is one.
pub fn copied_name(alloc: Global, name: &Option<Text>) -> Result<Option<Text>, Memory>
    ensures { IfOk result (λ copy. copy ≡ name.now) }
{
    match name {
        Some(name) => Ok(Some(Text::new(alloc, name.as_str())?)),
        None => Ok(None),
    }
}

/// The same head.
pub fn copied_head(alloc: Global, head: &Head) -> Result<Head, Memory>
    ensures { IfOk result (λ copy. copy ≡ head.now) }
{
    Ok(Head {
        name: copied_name(alloc, &head.name)?,
        units: head.units,
        version: head.version,
        parts: head.parts,
        cycle: head.cycle,
        ratio: head.ratio,
        least_out: head.least_out,
        least_in: head.least_in,
        equal: head.equal,
    })
}

/// The same signal.
pub fn copied_signal(alloc: Global, signal: &Signal) -> Result<Signal, Memory>
    ensures { IfOk result (λ copy. copy ≡ signal.now) }
{
    Ok(Signal {
        name: Text::new(alloc, signal.name.as_str())?,
        red: signal.red,
        left_out: signal.left_out,
        left_in: signal.left_in,
        patterns: signal.patterns,
        clear_out: signal.clear_out,
        clear_in: signal.clear_in,
    })
}

/// The same link.
pub fn copied_link(link: &Link) -> Link
    ensures { result ≡ link.now }
{
    Link {
        distance_out: link.distance_out,
        distance_in: link.distance_in,
        speed_out: link.speed_out,
        speed_in: link.speed_in,
        change_out: link.change_out,
        change_in: link.change_in,
    }
}

/// The same signals.
pub fn copied_signals(alloc: Global, signals: &[Signal]) -> Result<Vec<Signal>, Memory>
    ensures { IfOk result (λ copy. copy.items ≡ signals.now) }
{
    let mut copy = Vec::new(alloc);
    for signal in signals {
        let next = copied_signal(alloc, signal)?;
        push(&mut copy, next)?;
    }
    Ok(copy)
}

/// The same links.
pub fn copied_links(alloc: Global, links: &[Link]) -> Result<Vec<Link>, Memory>
    ensures { IfOk result (λ copy. copy.items ≡ links.now) }
{
    let mut copy = Vec::new(alloc);
    for link in links {
        push(&mut copy, copied_link(link))?;
    }
    Ok(copy)
}
