//! The system's standard output.

ghost use Rattle.std.specs.Prelude.{◌≡◌, ◌<◌, ◌≤◌, ◌^◌, false, None, IfOk, OnOk, length, is_err};
ghost use Rattle.outer_edge.specs.Device.{count_if};

use crate::pipe::write_counted;
use crate::sink::{Failed, Sink};
use narrow_fraction::Memory;
use std::alloc::Global;
use std::marker::Model;

/// Standard output. It doesn't tell what it took, and takes no memory: its room is always `2^64`.
#[derive(Drop)]
pub struct RealOut<R: Print + Clone + Drop> {
    rt: R,
    faults: u64,
}

impl<R: Print + Clone + Drop> Model for RealOut<R> {
    ghost use Rattle.std.specs.Prelude.{ℕ};

    ghost Value = { ℕ };

    ghost view = { λ o. o.faults };
}

impl<R: Print + Clone + Drop> RealOut<R> {
    /// The standard output of this runtime, with no fault counted.
    pub fn new(rt: &R, alloc: Global) -> Result<RealOut<R>, Memory>
        ensures { IfOk result (λ out. out ≡ 0) }
    {
        let _ = alloc;
        Ok(RealOut {
            rt: rt.clone()?,
            faults: 0,
        })
    }
}

impl<R: Print + Clone + Drop> Sink for RealOut<R> {
    ghost taken = { λ o. None };

    ghost faults = { λ o. o };

    ghost room = { λ o. 2 ^ 64 };

    fn reserve(&mut self, bytes: u64) -> Result<(), Memory>
        ensures always { is_err result ≡ false }
        ensures room { OnOk result (bytes ≤ 2 ^ 64) }
        ensures same { self.new ≡ self.old }
    {
        let _ = bytes;
        Ok(())
    }

    fn write(&mut self, bytes: &[u8]) -> Result<usize, Failed>
        requires some { 0 < length bytes.now }
        requires room { length bytes.now ≤ 2 ^ 64 }
        ensures count { IfOk result (λ k. (0 < k) × (k ≤ length bytes.now)) }
        ensures counts { self.new ≡ count_if (is_err result) self.old }
        ensures faults { self.old ≤ self.new }
    {
        write_counted(&mut self.rt, &mut self.faults, bytes)
    }
}
