//! An output in memory of which chosen calls fail.

ghost use Rattle.std.specs.Prelude.{◌≡◌, ◌+◌, ◌<◌, ◌≤◌, ◌++◌, [], Some, length, take, min, IfOk, OnOk, OnErr, is_err};
ghost use Rattle.outer_edge.specs.{Counts.{next_count}, Device.{next_fails, count_if}};

use crate::numbered::Calls;
use crate::sink::{Failed, Sink};
use narrow_fraction::Memory;
use std::alloc::Global;
use std::marker::Model;

/// An output in memory that takes at most `piece` bytes a call, and of which chosen calls fail.
///
/// Calls of `write` are numbered from 1, up to `2^64 - 1`.
#[derive(Drop)]
pub struct MemSink {
    bytes: Vec<u8>,
    piece: usize,
    calls: Calls,
    faults: u64,
}

impl Model for MemSink {
    ghost use Rattle.std.specs.Prelude.{◌-◌, ◌<◌, vec_len, vec_capacity};
    ghost use Rattle.outer_edge.specs.Outlet.{PieceOutlet};

    ghost Value = { PieceOutlet };

    ghost view = { λ s. record {
      taken = s.bytes.items;
      room = vec_capacity s.bytes - vec_len s.bytes;
      piece = s.piece;
      fail = s.calls.fail.items;
      calls = s.calls.made;
      faults = s.faults;
    } };

    ghost invariant = { λ s. 0 < s.piece };
}

impl MemSink {
    /// An output that has taken nothing. Takes no memory.
    pub fn new(alloc: Global, piece: usize, fail: Vec<u64>) -> MemSink
        requires { 0 < piece }
        ensures taken { result.taken ≡ [] }
        ensures piece { result.piece ≡ piece }
        ensures fail { result.fail ≡ fail.items }
        ensures calls { result.calls ≡ 0 }
        ensures faults { result.faults ≡ 0 }
    {
        MemSink {
            bytes: Vec::new(alloc),
            piece,
            calls: Calls { fail, made: 0 },
            faults: 0,
        }
    }

    /// The bytes taken so far.
    pub fn bytes(&self) -> &[u8]
        ensures { result.now ≡ self.now.taken }
    {
        self.bytes.as_slice()
    }
}

impl Sink for MemSink {
    ghost taken = { λ s. Some s.taken };

    ghost faults = { λ s. s.faults };

    ghost room = { λ s. s.room };

    fn reserve(&mut self, bytes: u64) -> Result<(), Memory>
        ensures room { OnOk result (bytes ≤ self.new.room) }
        ensures kept_room { self.old.room ≤ self.new.room }
        ensures rest { self.new ≡ record self.old { room = self.new.room } }
    {
        self.bytes.reserve(bytes as usize)?;
        Ok(())
    }

    fn write(&mut self, bytes: &[u8]) -> Result<usize, Failed>
        requires some { 0 < length bytes.now }
        requires room { length bytes.now ≤ self.old.room }
        ensures fails { is_err result ≡ next_fails self.old.fail self.old.calls }
        ensures count { IfOk result (λ k. (0 < k) × (k ≤ length bytes.now)) }
        ensures piecewise { IfOk result (λ k. k ≡ min self.old.piece (length bytes.now)) }
        ensures appended { IfOk result (λ k. self.new.taken ≡ self.old.taken ++ take k bytes.now) }
        ensures room { IfOk result (λ k. self.old.room ≤ self.new.room + k) }
        ensures nothing { OnErr result (self.new.taken ≡ self.old.taken) }
        ensures same_room { OnErr result (self.new.room ≡ self.old.room) }
        ensures calls { self.new.calls ≡ next_count self.old.calls }
        ensures faults { self.new.faults ≡ count_if (next_fails self.old.fail self.old.calls) self.old.faults }
        ensures none_failed { OnOk result (self.new.faults ≡ self.old.faults) }
        ensures counted { self.old.faults ≤ self.new.faults }
        ensures fail { self.new.fail ≡ self.old.fail }
        ensures piece { self.new.piece ≡ self.old.piece }
    {
        if self.calls.next_fails() {
            self.faults = self.faults.saturating_add(1);
            return Err(Failed);
        }
        let count = self.piece.min(bytes.len());
        match self.bytes.extend_from_slice(&bytes[..count]) {
            Ok(()) => Ok(count),
            Err(_) => unreachable!(),
        }
    }
}
