//! Files in memory of which no call fails.

ghost use Rattle.std.specs.Prelude.{◌≡◌, ◌<◌, ◌≤◌, [], false, Some, None, MatchOption, IfOk, IfSome, IsErrOf, OnOk, OnErr, is_err, length};
ghost use Rattle.outer_edge.specs.{Held.{ReadsFrom}, Store.{found, held, OthersKept}};

use crate::files::{FileEnd, Files};
use crate::stored::{Named, copy_from, find, put_copy};
use narrow_fraction::Memory;
use std::alloc::Global;
use std::marker::Model;

/// Files in memory of which no call fails. Its counts are 0, and a name that isn't there reads as
/// an empty file.
#[derive(Drop)]
pub struct SureFiles {
    alloc: Global,
    files: Vec<Named>,
}

impl Model for SureFiles {
    ghost use Rattle.std.specs.Prelude.{List};
    ghost use Rattle.outer_edge.specs.Store.{StoredFile};

    ghost Value = { List StoredFile };

    ghost use Rattle.outer_edge.specs.Named.{stored};

    ghost view = { λ f. stored f.files.items };
}

impl SureFiles {
    /// No files. Takes no memory.
    pub fn new(alloc: Global) -> SureFiles
        ensures { result ≡ [] }
    {
        SureFiles {
            alloc,
            files: Vec::new(alloc),
        }
    }

    /// Adds a file, or gives the file of this name these bytes.
    pub fn add(&mut self, name: &str, bytes: &[u8]) -> Result<(), Memory>
        ensures added { OnOk result (found self.new name.now ≡ Some bytes.now) }
        ensures others { OthersKept self.old self.new name.now }
        ensures memory { OnErr result (self.new ≡ self.old) }
    {
        put_copy(self.alloc, &mut self.files, name, bytes)
    }

    /// The bytes of a name; none exactly where it was neither added nor put.
    pub fn bytes(&self, name: &str) -> Option<&[u8]>
        ensures { MatchOption result (found self.now name.now ≡ None) (λ bytes. found self.now name.now ≡ Some bytes.now) }
    {
        find(self.files.as_slice(), name)
    }
}

impl Files for SureFiles {
    ghost holds = { held };

    ghost read_faults = { λ f name. 0 };

    ghost put_faults = { λ f name. 0 };

    fn read(&mut self, name: &str, into: &mut [u8], at: u64) -> Result<usize, FileEnd>
        requires { 0 < length into.old }
        ensures sure { is_err result ≡ false }
        ensures within { IfOk result (λ k. k ≤ length into.new) }
        ensures bytes { IfOk result (λ k. IfSome (held self.old name.now) (λ file. ReadsFrom file at k into.new)) }
        ensures files { self.new ≡ self.old }
    {
        let file = find(self.files.as_slice(), name).unwrap_or(&[]);
        Ok(copy_from(file, into, at))
    }

    fn put(&mut self, name: &str, bytes: &[u8]) -> Result<(), FileEnd>
        ensures put { OnOk result (found self.new name.now ≡ Some bytes.now) }
        ensures others { OthersKept self.old self.new name.now }
        ensures memory { OnErr result (self.new ≡ self.old) }
        ensures sure { IsErrOf result FileEnd.Failed → ⊥ }
    {
        match put_copy(self.alloc, &mut self.files, name, bytes) {
            Ok(()) => Ok(()),
            Err(Memory) => Err(FileEnd::Memory),
        }
    }
}
