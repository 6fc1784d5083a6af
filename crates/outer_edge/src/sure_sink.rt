//! An output in memory of which no call fails.

ghost use Rattle.std.specs.Prelude.{◌≡◌, ◌<◌, ◌≤◌, ◌+◌, ◌++◌, [], Some, Ok, length};

use crate::sink::{Failed, Sink};
use narrow_fraction::Memory;
use std::alloc::Global;
use std::marker::Model;

/// An output in memory that takes whole pieces and never fails.
#[derive(Drop)]
pub struct SureSink {
    bytes: Vec<u8>,
}

impl Model for SureSink {
    ghost use Rattle.std.specs.Prelude.{◌-◌, vec_len, vec_capacity};
    ghost use Rattle.outer_edge.specs.Outlet.{Outlet};

    ghost Value = { Outlet };

    ghost view = { λ s. record { taken = s.bytes.items; room = vec_capacity s.bytes - vec_len s.bytes } };
}

impl SureSink {
    /// An output that has taken nothing. Takes no memory.
    pub fn new(alloc: Global) -> SureSink
        ensures { result.taken ≡ [] }
    {
        SureSink {
            bytes: Vec::new(alloc),
        }
    }

    /// The bytes taken so far.
    pub fn bytes(&self) -> &[u8]
        ensures { result.now ≡ self.now.taken }
    {
        self.bytes.as_slice()
    }
}

impl Sink for SureSink {
    ghost taken = { λ s. Some s.taken };

    ghost faults = { λ s. 0 };

    ghost room = { λ s. s.room };

    fn reserve(&mut self, bytes: u64) -> Result<(), Memory> {
        self.bytes.reserve(bytes as usize)?;
        Ok(())
    }

    fn write(&mut self, bytes: &[u8]) -> Result<usize, Failed>
        requires some { 0 < length bytes.now }
        requires room { length bytes.now ≤ self.old.room }
        ensures whole { result ≡ Ok (length bytes.now) }
        ensures appended { self.new.taken ≡ self.old.taken ++ bytes.now }
        ensures room { self.old.room ≤ self.new.room + length bytes.now }
    {
        match self.bytes.extend_from_slice(bytes) {
            Ok(()) => Ok(bytes.len()),
            Err(_) => unreachable!(),
        }
    }
}
