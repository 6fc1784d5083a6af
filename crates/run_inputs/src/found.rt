//! What a command finds, or what is told of a file that isn't read.

ghost use Rattle.std.specs.Prelude.{◌≡◌, None};

use crate::cause::Cause;
use narrow_fraction::Memory;

/// The cause of a run's status, its lines, and the bytes of the file that is put, where any are.
#[derive(Drop)]
pub struct Found {
    pub cause: Cause,
    pub lines: Vec<u8>,
    pub bytes: Option<Vec<u8>>,
}

/// Why a file isn't read.
#[derive(Drop)]
pub enum Unread {
    /// This is told of it.
    Told(Found),
    /// Memory was wanting.
    Memory,
}

impl From<Memory> for Unread {
    ghost use Rattle.run_inputs.specs.declared.found.Unread.TheVariants as unread;

    ghost from_gives = { λ _ end. end ≡ unread.Memory };

    fn from(_: Memory) -> Unread {
        Unread::Memory
    }
}

/// Lines alone: nothing is put.
pub fn told(cause: Cause, lines: Vec<u8>) -> Found
    ensures cause { result.cause ≡ cause }
    ensures lines { result.lines ≡ lines }
    ensures no_put { result.bytes ≡ None }
{
    Found {
        cause,
        lines,
        bytes: None,
    }
}
