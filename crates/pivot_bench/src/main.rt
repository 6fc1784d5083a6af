//! Counts the pivots of the dual simplex method on opening tableaus, for `scripts/bench`, which times it.
//!
//! The words are a number of signals and a number of rounds. Each round makes the opening tableau of the root box of
//! the artery with so many signals, from rows that were loaded before as in a search, and steps it to its end. The line
//! has the pivots of all rounds, without the two of each opening.
#![tactic(auto)]

mod artery;
mod rounds;

use crate::artery::artery_of;
use crate::rounds::pivots_of_rounds;
use std::env;
use std::process::ExitCode;

/// The two numbers that the words are.
fn numbers<R: env::Env + AllocGlobal>(rt: &R) -> Option<(u32, u32)> {
    let mut words = env::args(rt).ok()?.skip(1);
    let signals = words.next()?.as_str().parse::<u32>().ok()?;
    let rounds = words.next()?.as_str().parse::<u32>().ok()?;
    Some((signals, rounds))
}

fn print_pivots<R: env::Env + AllocGlobal + Print>(rt: &R) -> Option<()> {
    let (signals, rounds) = numbers(rt)?;
    let artery = artery_of(rt.alloc(), signals)?;
    let pivots = pivots_of_rounds(rt.alloc(), &artery, rounds).ok()?;
    println!(rt; "{pivots}").ok()
}

fn main(rt: HostRuntime) -> ExitCode {
    match print_pivots(&rt) {
        Some(()) => ExitCode::SUCCESS,
        None => ExitCode::FAILURE,
    }
}
