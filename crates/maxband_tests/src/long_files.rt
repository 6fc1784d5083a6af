//! Files for tests: those that are told, and each other one has a given length.

ghost use Rattle.std.specs.Prelude.{◌-◌, ◌^◌, None};

use outer_edge::{FileEnd, Files, SureFiles};

/// The files of `told`, and every other name is a file of `length` line feeds. What they hold isn't told, and each count of
/// faults stands at its end.
#[derive(Drop)]
pub struct LongFiles {
    pub told: SureFiles,
    pub length: u64,
}

impl Files for LongFiles {
    ghost holds = { λ f name. None };

    ghost read_faults = { λ f name. 2 ^ 64 - 1 };

    ghost put_faults = { λ f name. 2 ^ 64 - 1 };

    fn read(&mut self, name: &str, into: &mut [u8], at: u64) -> Result<usize, FileEnd> {
        match self.told.bytes(name) {
            Some(_) => self.told.read(name, into, at),
            None => {
                into.fill(b'\n');
                let left = self.length.saturating_sub(at);
                Ok(left.min(into.len() as u64) as usize)
            }
        }
    }

    fn put(&mut self, name: &str, bytes: &[u8]) -> Result<(), FileEnd> {
        self.told.put(name, bytes)
    }
}
