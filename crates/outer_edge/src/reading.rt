//! Whole files, read piece by piece up to a limit.

ghost use Rattle.std.specs.Prelude.{◌≡◌, ◌+◌, ◌<◌, ◌≤◌, ◌^◌, length, vec_len, IfOk, IfSome, IsErrOf, OnOk};
ghost use Rattle.outer_edge.specs.{Counts.{Rose, NoneFell, SameCounts, CountedAt}, Held.{SameFiles, TakesMore, BeginsWith}};

use crate::files::{FileEnd, Files};
use std::alloc::Global;
use thiserror::Error;

/// Why a file isn't read.
#[derive(Clone, Copy, Debug, PartialEq, Eq, Error)]
pub enum ReadEnd {
    /// A read failed and was counted at this name.
    #[error("the file could not be read")]
    ReadFault,
    /// The file has more bytes than the limit.
    #[error("the file is too long")]
    TooLong,
    /// Memory was wanting. The files are as before.
    #[error("out of memory")]
    Memory,
}

/// How many bytes are asked for at a time.
const PIECE: u64 = 4096;

/// The whole bytes of a file that has at most `limit` of them.
///
/// Where the contents are told, a file of at most `limit` bytes is never `TooLong` and a longer one
/// is never Ok. The files stay as they are in every case. A failed read is counted once, and ends
/// the reading: no other end counts one.
#[tactic(auto, using(crate::proofs::Fronts::front_after))]
pub fn read_whole<F: Files>(
    alloc: Global,
    files: &mut F,
    name: &str,
    limit: u64,
) -> Result<Vec<u8>, ReadEnd>
    requires { limit < 2 ^ 63 }
    ensures whole { IfOk result (λ all. IfSome (F.holds files.old name.now) (λ file. all.items ≡ file)) }
    ensures within { IfOk result (λ all. vec_len all ≤ limit) }
    ensures too_long { IsErrOf result ReadEnd.TooLong → IfSome (F.holds files.old name.now) (λ file. limit < length file) }
    ensures long_front { IsErrOf result ReadEnd.TooLong → BeginsWith (limit + 1) (F.holds files.old name.now) }
    ensures failed { IsErrOf result ReadEnd.ReadFault → Rose (F.read_faults files.old name.now) (F.read_faults files.new name.now) }
    ensures counted { IsErrOf result ReadEnd.ReadFault → CountedAt (F.read_faults files.old) (F.read_faults files.new) name.now }
    ensures none_failed { OnOk result (SameCounts (F.read_faults files.old) (F.read_faults files.new)) }
    ensures long_counts { IsErrOf result ReadEnd.TooLong → SameCounts (F.read_faults files.old) (F.read_faults files.new) }
    ensures memory_counts { IsErrOf result ReadEnd.Memory → SameCounts (F.read_faults files.old) (F.read_faults files.new) }

    // In every case.
    ensures files { SameFiles (F.holds files.old) (F.holds files.new) }
    ensures reads { NoneFell (F.read_faults files.old) (F.read_faults files.new) }
    ensures puts { SameCounts (F.put_faults files.old) (F.put_faults files.new) }
{
    let mut all: Vec<u8> = Vec::new(alloc);
    let mut piece = [0u8; PIECE as usize];
    'turns: loop {
        let room = limit + 1 - all.len() as u64;
        let room = room.min(PIECE) as usize;
        let count = take_piece(files, name, &mut piece[..room], &mut all)?;
        if count == 0 {
            return Ok(all);
        }
        if all.len() as u64 > limit {
            return Err(ReadEnd::TooLong);
        }
    }
}

/// Takes the next bytes of a file, by a buffer, and answers how many; 0 exactly at the file's end.
fn take_piece<F: Files>(
    files: &mut F,
    name: &str,
    piece: &mut [u8],
    all: &mut Vec<u8>,
) -> Result<usize, ReadEnd>
    requires { 0 < length piece.old }
    ensures more { IfOk result (λ k. IfSome (F.holds files.old name.now) (λ file. TakesMore file all.old.items all.new.items k)) }
    ensures len { IfOk result (λ k. (vec_len all.new ≡ vec_len all.old + k) × (k ≤ length piece.old)) }
    ensures failed { IsErrOf result ReadEnd.ReadFault → Rose (F.read_faults files.old name.now) (F.read_faults files.new name.now) }
    ensures counted { IsErrOf result ReadEnd.ReadFault → CountedAt (F.read_faults files.old) (F.read_faults files.new) name.now }
    ensures none_failed { OnOk result (SameCounts (F.read_faults files.old) (F.read_faults files.new)) }
    ensures memory_counts { IsErrOf result ReadEnd.Memory → SameCounts (F.read_faults files.old) (F.read_faults files.new) }
    ensures not_long { IsErrOf result ReadEnd.TooLong → ⊥ }
    ensures files { SameFiles (F.holds files.old) (F.holds files.new) }
    ensures reads { NoneFell (F.read_faults files.old) (F.read_faults files.new) }
    ensures puts { SameCounts (F.put_faults files.old) (F.put_faults files.new) }
{
    let count = match files.read(name, piece, all.len() as u64) {
        Ok(count) => count,
        Err(FileEnd::Failed) => return Err(ReadEnd::ReadFault),
        Err(FileEnd::Memory) => return Err(ReadEnd::Memory),
    };
    match all.extend_from_slice(&piece[..count]) {
        Ok(()) => Ok(count),
        Err(_) => Err(ReadEnd::Memory),
    }
}
