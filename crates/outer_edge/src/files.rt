//! Files by their names: what a read and a put mean, and when a fault is counted.

ghost use Rattle.std.specs.Prelude.{◌<◌, ◌≤◌, ℕ, List, Option, length, IfOk, IfSome, IsErrOf, OnOk};
ghost use Rattle.outer_edge.specs.{Counts.{Rose, NoneFell, SameCounts, CountedAt}, Held.{SameFiles, OthersSame, HoldsExactly, ReadsFrom}};

use thiserror::Error;

/// Why a call on files ends without success.
#[derive(Clone, Copy, Debug, PartialEq, Eq, Error)]
pub enum FileEnd {
    /// The file could not be read or written. The call was counted.
    #[error("the file could not be read or written")]
    Failed,
    /// Memory was wanting. All files and counts are as before.
    #[error("out of memory")]
    Memory,
}

/// Files by their names, with a count of failed reads and one of failed puts for each name.
///
/// The counts never fall. They stop at `2^64 - 1`, and one that stands there counts as risen.
pub trait Files {
    /// What a file holds, where it is told. A name that isn't there holds no bytes.
    ghost holds: { Self → List ℕ → Option (List ℕ) };

    /// How many reads of a file have failed.
    ghost read_faults: { Self → List ℕ → ℕ };

    /// How many puts of a file have failed.
    ghost put_faults: { Self → List ℕ → ℕ };

    /// Reads into `into` from the place `at` of the file on, and answers how many bytes; 0 exactly
    /// at the file's end.
    fn read(&mut self, name: &str, into: &mut [u8], at: u64) -> Result<usize, FileEnd>
        requires { 0 < length into.old }
        ensures within { IfOk result (λ k. k ≤ length into.new) }
        ensures bytes { IfOk result (λ k. IfSome (holds self.old name.now) (λ file. ReadsFrom file at k into.new)) }
        ensures none_failed { OnOk result (SameCounts (read_faults self.old) (read_faults self.new)) }
        ensures failed { IsErrOf result FileEnd.Failed → Rose (read_faults self.old name.now) (read_faults self.new name.now) }
        ensures counted { IsErrOf result FileEnd.Failed → CountedAt (read_faults self.old) (read_faults self.new) name.now }

        // In every case.
        ensures files { SameFiles (holds self.old) (holds self.new) }
        ensures reads { NoneFell (read_faults self.old) (read_faults self.new) }
        ensures puts { SameCounts (put_faults self.old) (put_faults self.new) }
        ensures memory { IsErrOf result FileEnd.Memory → SameCounts (read_faults self.old) (read_faults self.new) };

    /// Makes the file hold exactly these bytes. After `Failed` it may hold anything.
    fn put(&mut self, name: &str, bytes: &[u8]) -> Result<(), FileEnd>
        ensures put { OnOk result (HoldsExactly (holds self.new name.now) bytes.now) }
        ensures none_failed { OnOk result (SameCounts (put_faults self.old) (put_faults self.new)) }
        ensures failed { IsErrOf result FileEnd.Failed → Rose (put_faults self.old name.now) (put_faults self.new name.now) }
        ensures counted { IsErrOf result FileEnd.Failed → CountedAt (put_faults self.old) (put_faults self.new) name.now }

        // In every case.
        ensures others { OthersSame (holds self.old) (holds self.new) name.now }
        ensures puts { NoneFell (put_faults self.old) (put_faults self.new) }
        ensures reads { SameCounts (read_faults self.old) (read_faults self.new) }

        // After want of memory the named file and the puts are as before too.
        ensures memory_files { IsErrOf result FileEnd.Memory → SameFiles (holds self.old) (holds self.new) }
        ensures memory_puts { IsErrOf result FileEnd.Memory → SameCounts (put_faults self.old) (put_faults self.new) };
}
