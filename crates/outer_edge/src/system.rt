//! The system: each call of it, and nothing else. What is decided by what it answers stands in `pipe`, `source` and `replacing`.
//!
//! It tells nothing of what its files and outputs hold, and allows all that a file's facts would decide: so the contracts
//! of these calls say nothing here, and those of their callers are proved for whatever tells more.

use crate::facts::Facts;
use crate::pipe::Pipe;
use crate::place::Place;
use crate::source::{Reader, Source};
use std::alloc::Global;
use std::fs::{self, OpenFile, OpenOptions, Permissions};
use std::io::{self, Read, Seek, SeekFrom, Write};
use std::os::unix::fs::{OpenOptionsExt, PermissionsExt};
use std::path::PathBuf;
use std::rt;

impl<P: Print> Pipe for P {
    ghost Took = { λ p bytes. Unit {0} };

    fn take_some(&mut self, bytes: &[u8]) -> io::Result<usize> {
        self.write_some(bytes)
    }
}

impl<F: Read + Seek + OpenFile> Reader for F {
    ghost StandsAt = { λ f file at. ⊥ };

    ghost IsPlain = { λ f. Unit {0} };

    fn facts(&self) -> io::Result<Facts> {
        Ok(Facts::of(&self.metadata()?))
    }

    fn go_to(&mut self, at: u64) -> io::Result<u64> {
        self.seek(SeekFrom::Start(at))
    }

    fn read_piece(&mut self, into: &mut [u8]) -> io::Result<usize> {
        self.read(into)
    }
}

impl<R: rt::Files> Source for R {
    type File = R::File;

    ghost Holds = { λ r name file. ⊥ };

    ghost IsPlain = { λ r name. Unit {0} };

    fn facts(&self, name: &str) -> io::Result<Facts> {
        facts_of(self, name)
    }

    fn open(&self, name: &str) -> io::Result<R::File> {
        fs::open(self, name)
    }
}

/// What is found of the file of this name, where links are followed.
fn facts_of<R: rt::Files>(rt: &R, name: &str) -> io::Result<Facts> {
    Ok(Facts::of(&fs::metadata(rt, name)?))
}

/// A name of the system that is put to.
#[derive(Drop)]
pub struct SystemPlace<'a, R> {
    pub rt: &'a R,
    pub alloc: Global,
    pub name: &'a str,
    /// The file that the name names, where that is a link.
    pub followed: Option<PathBuf>,
}

/// A new file of the system, and its name.
#[derive(Drop)]
pub struct NewFile<F> {
    file: F,
    path: String,
}

impl<R: rt::Files> Place for SystemPlace<'_, R> {
    type New = NewFile<R::File>;

    ghost IsItself = { λ p. Unit {0} };

    ghost MayFollow = { λ p. Unit {0} };

    ghost IsAbsent = { λ p. Unit {0} };

    ghost IsFound = { λ p f. Unit {0} };

    ghost MayGiveWay = { λ p. Unit {0} };

    ghost MayWriteOver = { λ p. Unit {0} };

    ghost MayFail = { λ p. Unit {0} };

    ghost MayBeNamed = { λ p path. Unit {0} };

    ghost MayHaveMode = { λ p mode. Unit {0} };

    ghost IsTaken = { λ p path. Unit {0} };

    ghost Has = { λ p bytes. Unit {0} };

    ghost Holds = { λ n bytes. Unit {0} };

    ghost IsStored = { λ n. Unit {0} };

    ghost IsMade = { λ n f. Unit {0} };

    ghost IsAlike = { λ p n. Unit {0} };

    fn is_link(&self) -> bool {
        matches!(fs::symlink_metadata(self.rt, self.name()), Ok(found) if found.is_symlink())
    }

    fn name(&self) -> &str {
        match &self.followed {
            Some(file) => file.as_str(),
            None => self.name,
        }
    }

    fn follow(&mut self) -> io::Result<()> {
        self.followed = Some(self.rt.canonicalize(self.alloc, self.name)?);
        Ok(())
    }

    fn facts(&self) -> io::Result<Facts> {
        facts_of(self.rt, self.name())
    }

    fn opens(&self) -> bool {
        let mut how = OpenOptions::new();
        how.write(true).open(self.rt, self.name()).is_ok()
    }

    fn make(&self, path: String, mode: u32) -> io::Result<NewFile<R::File>> {
        let mut how = OpenOptions::new();
        how.write(true).create_new(true).mode(mode);
        let file = how.open(self.rt, path.as_str())?;
        Ok(NewFile { file, path })
    }

    fn new_facts(&self, new: &NewFile<R::File>) -> io::Result<Facts> {
        Ok(Facts::of(&new.file.metadata()?))
    }

    fn set_mode(&self, new: &mut NewFile<R::File>, mode: u32) -> io::Result<()> {
        new.file.set_permissions(Permissions::from_mode(mode))
    }

    fn fill(&self, new: &mut NewFile<R::File>, bytes: &[u8]) -> io::Result<()> {
        new.file.write_all(bytes)
    }

    fn store(&self, new: &mut NewFile<R::File>) -> io::Result<()> {
        new.file.sync_all()
    }

    fn take_name(&self, new: NewFile<R::File>) -> Result<(), NewFile<R::File>> {
        fs::rename(self.rt, new.path.as_str(), self.name()).map_err(|_| new)
    }

    fn remove(&self, new: NewFile<R::File>) {
        let _ = fs::remove_file(self.rt, new.path.as_str());
    }

    fn write_over(&self, bytes: &[u8]) -> io::Result<()> {
        fs::write(self.rt, self.name(), bytes)
    }
}
