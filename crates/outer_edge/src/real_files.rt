//! The system's files.

ghost use Rattle.std.specs.Prelude.{◌≡◌, ◌<◌, ◌≤◌, length, None, IfOk, IsErrOf, OnOk, is_err};
ghost use Rattle.outer_edge.specs.{Counts.{next_count}, Device.{count_if}};

use crate::files::{FileEnd, Files};
use crate::replacing::put_counted;
use crate::source::{Reading, read_counted};
use crate::system::SystemPlace;
use narrow_fraction::Memory;
use std::alloc::Global;
use std::marker::Model;
use std::rt;

/// The files of the system. It tells no contents, and gives one count of failed reads and one of
/// failed puts as the count of every name.
///
/// A file that is read stays open up to its end, to its next put or to a read of another place or file. So a long one is
/// opened once, and read on as it was opened where another program replaces it meanwhile. What is no plain file, after links
/// are followed, isn't read: a folder, a pipe, a terminal or another device is a failed read at once.
///
/// A put writes a new file in the same folder, and gives it the name when all of it is stored. So a put that fails, as on
/// a full disk, leaves what stood there, and the new file is removed. Until then it is named as the file, with `.new1` at
/// the end, or with the next number up to 100 where there are such files; a program that is killed in the midst of a put
/// may leave it behind. Permissions stay those of the old file; what a system keeps besides them, as access lists, isn't
/// carried over. A symbolic link stays, and the file that it names is replaced.
///
/// Written in place, so that a put that fails may leave neither the old bytes nor the new ones, are
/// - devices, pipes and all else that is no regular file, the links below `/dev` and `/proc`, and links to a file that isn't there;
/// - a file of several names (hard links), or with another owner or group than a new file would have;
/// - a file beside which no new one can be made or given its name for another reason than a full disk: the folder can't
///   be written to, the longer name isn't allowed, all hundred names are taken.
///
/// A file that may not be written to is never replaced: its put fails. A put to a pipe waits for its reader.
#[derive(Drop)]
pub struct RealFiles<R: rt::Files + Clone + Drop> {
    rt: R,
    alloc: Global,
    reading: Reading<R::File>,
    read_faults: u64,
    put_faults: u64,
}

impl<R: rt::Files + Clone + Drop> Model for RealFiles<R> {
    ghost use Rattle.outer_edge.specs.Faults.{Faults};

    ghost Value = { Faults };

    ghost view = { λ f. record { reads = f.read_faults; puts = f.put_faults } };
}

impl<R: rt::Files + Clone + Drop> RealFiles<R> {
    /// The files that this runtime reaches, with no fault counted.
    pub fn new(rt: &R, alloc: Global) -> Result<RealFiles<R>, Memory>
        ensures { IfOk result (λ files. files ≡ record { reads = 0; puts = 0 }) }
    {
        Ok(RealFiles {
            rt: rt.clone()?,
            alloc,
            reading: Reading::new(alloc)?,
            read_faults: 0,
            put_faults: 0,
        })
    }
}

impl<R: rt::Files + Clone + Drop> Files for RealFiles<R> {
    ghost holds = { λ f name. None };

    ghost read_faults = { λ f name. f.reads };

    ghost put_faults = { λ f name. f.puts };

    fn read(&mut self, name: &str, into: &mut [u8], at: u64) -> Result<usize, FileEnd>
        requires { 0 < length into.old }
        ensures within { IfOk result (λ k. k ≤ length into.new) }
        ensures counts { self.new ≡ record self.old { reads = count_if (is_err result) self.old.reads } }
        ensures reads { self.old.reads ≤ self.new.reads }
        ensures not_memory { IsErrOf result FileEnd.Memory → ⊥ }
    {
        let faults = &mut self.read_faults;
        read_counted(&self.rt, &mut self.reading, faults, name, into, at)
    }

    fn put(&mut self, name: &str, bytes: &[u8]) -> Result<(), FileEnd>
        ensures none_failed { OnOk result (self.new ≡ self.old) }
        ensures failed { IsErrOf result FileEnd.Failed → self.new ≡ record self.old { puts = next_count self.old.puts } }
        ensures memory { IsErrOf result FileEnd.Memory → self.new ≡ self.old }
        ensures puts { self.old.puts ≤ self.new.puts }
    {
        self.reading.close();
        let mut place = SystemPlace {
            rt: &self.rt,
            alloc: self.alloc,
            name,
            followed: None,
        };
        put_counted(&mut place, self.alloc, &mut self.put_faults, bytes)
    }
}
