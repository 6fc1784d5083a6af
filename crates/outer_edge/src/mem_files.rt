//! Files in memory of which chosen calls fail.

ghost use Rattle.std.specs.Prelude.{false, ◌≡◌, ◌<◌, ◌≤◌, ◌↔◌, [], Some, None, MatchOption, IfOk, IfSome, IsErrOf, IsTrue, OnOk, OnErr, length, is_err};
ghost use Rattle.outer_edge.specs.{Counts.{next_count}, Device.{after_read, after_put, next_fails, read_fails}, Held.{ReadsFrom}};
ghost use Rattle.outer_edge.specs.Store.{found, held, OthersKept};

use crate::files::{FileEnd, Files};
use crate::numbered::Calls;
use crate::stored::copy_from;
use crate::sure_files::SureFiles;
use narrow_fraction::Memory;
use std::alloc::Global;
use std::marker::Model;

/// Files in memory of which chosen calls fail.
///
/// Calls of `read` and `put` are numbered together from 1, up to `2^64 - 1`. One whose number was
/// given to `new` fails and is counted, and so is a read of a name that isn't there. There is one
/// count of failed reads and one of failed puts, each given as the count of every name.
#[derive(Drop)]
pub struct MemFiles {
    files: SureFiles,
    calls: Calls,
    read_faults: u64,
    put_faults: u64,
}

impl Model for MemFiles {
    ghost use Rattle.outer_edge.specs.Device.{Device};

    ghost Value = { Device };

    ghost view = { λ m. record {
      files = m.files;
      ledger = record { fail = m.calls.fail.items; calls = m.calls.made; read_faults = m.read_faults; put_faults = m.put_faults };
    } };
}

impl MemFiles {
    /// No files, no calls made. Takes no memory.
    pub fn new(alloc: Global, fail: Vec<u64>) -> MemFiles
        ensures files { result.files ≡ [] }
        ensures ledger { result.ledger ≡ record { fail = fail.items; calls = 0; read_faults = 0; put_faults = 0 } }
    {
        MemFiles {
            files: SureFiles::new(alloc),
            calls: Calls { fail, made: 0 },
            read_faults: 0,
            put_faults: 0,
        }
    }

    /// Adds a file, or gives the file of this name these bytes. It isn't a numbered call.
    pub fn add(&mut self, name: &str, bytes: &[u8]) -> Result<(), Memory>
        ensures added { OnOk result (found self.new.files name.now ≡ Some bytes.now) }
        ensures others { OthersKept self.old.files self.new.files name.now }
        ensures ledger { self.new.ledger ≡ self.old.ledger }
        ensures memory { OnErr result (self.new ≡ self.old) }
    {
        self.files.add(name, bytes)
    }

    /// The bytes of a name; none exactly where it was neither added nor put.
    pub fn bytes(&self, name: &str) -> Option<&[u8]>
        ensures { MatchOption result (found self.now.files name.now ≡ None) (λ bytes. found self.now.files name.now ≡ Some bytes.now) }
    {
        self.files.bytes(name)
    }

    /// Numbers a call, and answers whether it is to fail.
    fn next_call(&mut self) -> bool
        ensures fails { result ≡ next_fails self.old.ledger.fail self.old.ledger.calls }
        ensures ledger { self.new ≡ record self.old { ledger = after_read self.old.ledger false } }
    {
        self.calls.next_fails()
    }

    /// Counts a failed read.
    fn failed_read(&mut self) -> FileEnd
        ensures end { result ≡ FileEnd.Failed }
        ensures counted { self.new ≡ record self.old { ledger = record self.old.ledger { read_faults = next_count self.old.ledger.read_faults } } }
        ensures rises { self.old.ledger.read_faults ≤ self.new.ledger.read_faults }
    {
        self.read_faults = self.read_faults.saturating_add(1);
        FileEnd::Failed
    }
}

impl Files for MemFiles {
    ghost holds = { λ m. held m.files };

    ghost read_faults = { λ m name. m.ledger.read_faults };

    ghost put_faults = { λ m name. m.ledger.put_faults };

    fn read(&mut self, name: &str, into: &mut [u8], at: u64) -> Result<usize, FileEnd>
        requires { 0 < length into.old }
        ensures fails { is_err result ≡ read_fails self.old name.now }
        ensures not_memory { IsErrOf result FileEnd.Memory → ⊥ }
        ensures within { IfOk result (λ k. k ≤ length into.new) }
        ensures bytes { IfOk result (λ k. IfSome (found self.old.files name.now) (λ file. ReadsFrom file at k into.new)) }
        ensures files { self.new.files ≡ self.old.files }
        ensures ledger { self.new.ledger ≡ after_read self.old.ledger (read_fails self.old name.now) }
        ensures counted { self.old.ledger.read_faults ≤ self.new.ledger.read_faults }
    {
        if self.next_call() {
            return Err(self.failed_read());
        }
        match self.files.bytes(name) {
            Some(file) => Ok(copy_from(file, into, at)),
            None => Err(self.failed_read()),
        }
    }

    fn put(&mut self, name: &str, bytes: &[u8]) -> Result<(), FileEnd>
        ensures put { OnOk result (found self.new.files name.now ≡ Some bytes.now) }
        ensures others { OthersKept self.old.files self.new.files name.now }
        ensures err { OnErr result (self.new.files ≡ self.old.files) }
        ensures fails { IsErrOf result FileEnd.Failed ↔ IsTrue (next_fails self.old.ledger.fail self.old.ledger.calls) }
        ensures ledger { self.new.ledger ≡ after_put self.old.ledger (next_fails self.old.ledger.fail self.old.ledger.calls) }
        ensures counted { self.old.ledger.put_faults ≤ self.new.ledger.put_faults }
    {
        if self.next_call() {
            self.put_faults = self.put_faults.saturating_add(1);
            return Err(FileEnd::Failed);
        }
        self.files.put(name, bytes)
    }
}
