//! The moves of offsets, and the offsets after one.

ghost use Rattle.std.specs.Prelude.{◌≡◌, ◌<◌, ◌≤◌, length, All, IfOk};
ghost use Rattle.whole_offsets.specs.Moves.{moved, IsMoved, stop_of};

use narrow_fraction::Memory;
use second_plan::Rounded;
use std::alloc::Global;

/// Which signals move, and by how much.
#[derive(Clone, Copy)]
pub struct Move {
    /// The place of the first signal that moves, from 0.
    pub start: usize,
    /// The place after the last one.
    pub stop: usize,
    /// By how many seconds their offsets grow, modulo the cycle. A step back of one second is a cycle less 1, of two seconds two cycles less 2.
    pub step: u64,
}

/// How far a move from a signal reaches.
#[derive(Clone, Copy)]
pub enum Reach {
    /// That signal alone.
    One,
    /// All signals from it on.
    On,
}

/// The place before which a move from a place ends.
pub fn stop_of(reach: Reach, place: usize, count: usize) -> usize
    requires { place < count }
    ensures { result ≡ stop_of reach place count }
{
    match reach {
        Reach::One => place + 1,
        Reach::On => count,
    }
}

/// One offset after a move.
fn moved_one(rounded: &Rounded, given: Move, place: usize) -> u64
    requires on_way { place < length rounded.now.offsets.items }
    requires some { 1 ≤ rounded.now.seconds }
    requires small { rounded.now.seconds ≤ 3600 }
    requires below { All (λ n. n < rounded.now.seconds) rounded.now.offsets.items }
    requires step { given.step ≤ 7200 }
    ensures value { result ≡ moved rounded.now.seconds rounded.now.offsets.items given place }
    ensures below { result < rounded.now.seconds }
{
    let offset = rounded.offsets[place];
    if given.start <= place && place < given.stop {
        (offset + given.step) % rounded.seconds
    } else {
        offset
    }
}

/// The offsets after a move.
pub fn moved(alloc: Global, rounded: &Rounded, given: Move) -> Result<Rounded, Memory>
    requires some { 1 ≤ rounded.now.seconds }
    requires small { rounded.now.seconds ≤ 3600 }
    requires below { All (λ n. n < rounded.now.seconds) rounded.now.offsets.items }
    requires step { given.step ≤ 7200 }
    ensures moved { IfOk result (λ r. IsMoved rounded.now.seconds rounded.now.offsets.items given r.offsets.items) }
    ensures seconds { IfOk result (λ r. r.seconds ≡ rounded.now.seconds) }
    ensures below { IfOk result (λ r. All (λ n. n < rounded.now.seconds) r.offsets.items) }
{
    let mut offsets = Vec::new(alloc);
    for place in 0..rounded.offsets.len() {
        offsets.push(moved_one(rounded, given, place))?;
    }
    Ok(Rounded {
        seconds: rounded.seconds,
        offsets,
    })
}
