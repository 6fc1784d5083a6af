//! What takes bytes, some at a time.

ghost use Rattle.std.specs.Prelude.{◌≡◌, ◌++◌, ◌<◌, ◌≤◌, ℕ, List, take, length, IfOk, OnErr, is_err};
ghost use Rattle.outer_edge.specs.Device.{count_if};

use crate::sink::Failed;
use std::io;

/// What takes bytes, some at a time.
pub trait Pipe {
    /// It has taken these bytes and no others.
    ghost Took: { Self → List ℕ → Type 0 };

    /// Takes some of the bytes, and answers how many. Where it fails it has taken none.
    fn take_some(&mut self, bytes: &[u8]) -> io::Result<usize>
        ensures within { IfOk result (λ k. k ≤ length bytes.now) }
        ensures took { IfOk result (λ k. (before : List ℕ) → Took self.old before → Took self.new (before ++ take k bytes.now)) }
        ensures nothing { OnErr result ((before : List ℕ) → Took self.old before → Took self.new before) };
}

/// Writes some of the bytes. Where none are taken the write has failed, and is counted.
pub fn write_counted<P: Pipe>(pipe: &mut P, faults: &mut u64, bytes: &[u8]) -> Result<usize, Failed>
    ensures count { IfOk result (λ k. (0 < k) × (k ≤ length bytes.now)) }
    ensures took { IfOk result (λ k. (before : List ℕ) → P.Took pipe.old before → P.Took pipe.new (before ++ take k bytes.now)) }
    ensures nothing { OnErr result ((before : List ℕ) → P.Took pipe.old before → P.Took pipe.new before) }
    ensures counted { faults.new ≡ count_if (is_err result) faults.old }
    ensures rises { faults.old ≤ faults.new }
{
    match pipe.take_some(bytes) {
        Ok(count) if count > 0 => Ok(count),
        _ => {
            *faults = faults.saturating_add(1);
            Err(Failed)
        }
    }
}
