//! The artery of a seed.

ghost use Rattle.std.specs.{Prelude.{◌≡◌, ◌+◌, ◌-◌, ◌*◌, ◌≤◌, ◌++◌, map, codes, IfOk, OnOk}, Fmt.{decimal}, List.{range_with_len}};
ghost use Rattle.workload_maker.specs.Draws.{state};
ghost use Rattle.workload_maker.specs.Made.{limits, made_head, signal_with, link_with, red_drawn, left_drawn, distance_drawn, made_signal, made_street};
ghost use Rattle.artery_model.specs.Bounds.{least_signals, most_first_signals};

use crate::draws::Draws;
use artery_model::{Artery, Flaw, Head, Link, Pair, Signal, Text, Units};
use narrow_fraction::{Frac, Memory};
use std::alloc::{AllocError, Global};

fn limits(least: u32, most: u32) -> Pair
    ensures { result ≡ limits least most }
{
    Pair {
        least: Frac::whole(i64::from(least)),
        most: Frac::whole(i64::from(most)),
    }
}

fn head() -> Head
    ensures { result ≡ made_head }
{
    Head {
        name: None,
        units: Units::Metric,
        version: 1,
        parts: 100,
        cycle: limits(60, 100),
        ratio: Frac::whole(1),
        least_out: Frac::whole(0),
        least_in: Frac::whole(0),
        equal: false,
    }
}

fn signal_name(alloc: Global, number: u32) -> Result<Text, AllocError>
    ensures { IfOk result (λ name. name ≡ codes "S" ++ decimal number) }
{
    let name = format!(in alloc; "S{number}")?;
    Ok(Text::from(name))
}

/// A signal by the next three draws.
fn draw_signal(alloc: Global, draws: &mut Draws, number: u32) -> Result<Signal, AllocError>
    ensures value { IfOk result (λ s. s ≡ signal_with number (red_drawn draws.old 1) (left_drawn draws.old 2) (left_drawn draws.old 3)) }
    ensures drawn { draws.new ≡ state draws.old 3 }
{
    let red = 30 + draws.next(21);
    let left_out = 5 * draws.next(3);
    let left_in = 5 * draws.next(3);
    Ok(Signal {
        name: signal_name(alloc, number)?,
        red,
        left_out,
        left_in,
        patterns: [true; 4],
        clear_out: 0,
        clear_in: 0,
    })
}

/// The signals by three draws each.
fn draw_signals(alloc: Global, draws: &mut Draws, count: u32) -> Result<Vec<Signal>, AllocError>
    ensures value { IfOk result (λ v. v.items ≡ map (made_signal draws.old) (range_with_len 1 count)) }
    ensures drawn { OnOk result (draws.new ≡ state draws.old (3 * count)) }
{
    let mut signals = Vec::new(alloc);
    for index in 0..count {
        let signal = draw_signal(alloc, draws, index + 1)?;
        signals.push(signal)?;
    }
    Ok(signals)
}

/// A link of this length in metres.
fn link_of(distance: u32) -> Link
    ensures { result ≡ link_with distance }
{
    Link {
        distance_out: distance,
        distance_in: distance,
        speed_out: limits(40, 60),
        speed_in: limits(40, 60),
        change_out: None,
        change_in: None,
    }
}

/// The lengths of the links, in metres, by one draw each.
fn draw_distances(alloc: Global, draws: &mut Draws, count: u32) -> Result<Vec<u32>, AllocError>
    ensures { IfOk result (λ v. v.items ≡ map (distance_drawn draws.old) (range_with_len 1 count)) }
{
    let mut distances = Vec::new(alloc);
    for _ in 0..count {
        distances.push(200 + 10 * draws.next(41))?;
    }
    Ok(distances)
}

/// Links of these lengths, in their order.
fn links_of(alloc: Global, distances: &[u32]) -> Result<Vec<Link>, AllocError>
    ensures { IfOk result (λ v. v.items ≡ map link_with distances.now) }
{
    let mut links = Vec::with_capacity(alloc, distances.len())?;
    links.extend(distances.iter().map(|distance| link_of(*distance)))?;
    Ok(links)
}

/// The signals, and then the links.
fn draw_parts(alloc: Global, count: u32, seed: u64) -> Result<(Vec<Signal>, Vec<Link>), AllocError>
    requires { 1 ≤ count }
    ensures signals { IfOk result (λ parts. parts.0.items ≡ (made_street count seed).signals) }
    ensures links { IfOk result (λ parts. parts.1.items ≡ (made_street count seed).links) }
{
    let mut draws = Draws::new(seed);
    let signals = draw_signals(alloc, &mut draws, count)?;
    let distances = draw_distances(alloc, &mut draws, count - 1)?;
    let links = links_of(alloc, distances.as_slice())?;
    Ok((signals, links))
}

/// The artery of 2 to 16 signals that a seed makes. Each number is drawn in turn: for each signal
/// its red of 30 to 50 parts and its left turns of 0, 5 or 10 parts, then for each link its length of
/// 200 to 600 metres. The only error is want of memory.
pub fn make_artery(alloc: Global, signals: u32, seed: u64) -> Result<Artery, Memory>
    requires few { least_signals ≤ signals }
    requires many { signals ≤ most_first_signals }
    ensures { IfOk result (λ artery. artery ≡ made_street signals seed) }
{
    let (signals, links) = draw_parts(alloc, signals, seed)?;
    match Artery::new(alloc, head(), signals, links) {
        Ok(artery) => Ok(artery),
        Err(Flaw::Memory) => Err(Memory),
        Err(Flaw::Refused(_)) => unreachable!(),
    }
}
