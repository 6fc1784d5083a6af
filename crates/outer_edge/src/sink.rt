//! An output: what a write means, and when a fault is counted.

ghost use Rattle.std.specs.Prelude.{◌≡◌, ◌+◌, ◌<◌, ◌≤◌, ℕ, List, Option, length, take, IfOk, OnOk, OnErr};
ghost use Rattle.outer_edge.specs.{Counts.{Rose, next_count}, Taken.{Appends}};

use narrow_fraction::Memory;

/// A write failed. It was counted.
#[derive(Clone, Copy, Debug, PartialEq, Eq)]
pub struct Failed;

/// An output, with a count of failed writes that never falls and stops at `2^64 - 1`.
pub trait Sink {
    /// The bytes taken so far, where they are told.
    ghost taken: { Self → Option (List ℕ) };

    /// How many writes have failed.
    ghost faults: { Self → ℕ };

    /// How many more bytes it can take without taking memory.
    ghost room: { Self → ℕ };

    /// Makes room for this many bytes.
    fn reserve(&mut self, bytes: u64) -> Result<(), Memory>
        ensures room { OnOk result (bytes ≤ room self.new) }
        ensures kept_room { room self.old ≤ room self.new }
        ensures taken { taken self.new ≡ taken self.old }
        ensures faults { faults self.new ≡ faults self.old };

    /// Takes some of the bytes, at least one, and answers how many. It takes no memory.
    fn write(&mut self, bytes: &[u8]) -> Result<usize, Failed>
        requires some { 0 < length bytes.now }
        requires room { length bytes.now ≤ room self.old }
        ensures count { IfOk result (λ k. (0 < k) × (k ≤ length bytes.now)) }
        ensures appended { IfOk result (λ k. Appends (taken self.old) (taken self.new) (take k bytes.now)) }
        ensures room { IfOk result (λ k. room self.old ≤ room self.new + k) }
        ensures faults { faults self.old ≤ faults self.new }

        ensures none_failed { OnOk result (faults self.new ≡ faults self.old) }

        // A failed write was counted once and took nothing.
        ensures failed { OnErr result (Rose (faults self.old) (faults self.new)) }
        ensures once { OnErr result (faults self.new ≡ next_count (faults self.old)) }
        ensures nothing { OnErr result (taken self.new ≡ taken self.old) }
        ensures same_room { OnErr result (room self.new ≡ room self.old) };
}
