//! Plain files that are read piece by piece: opened once, and read on while the pieces follow each other.

ghost use Rattle.std.specs.Prelude.{◌≡◌, ◌+◌, ◌<◌, ◌≤◌, ℕ, List, Some, None, true, length, IfOk, IfSome, IsErrOf, OnOk, is_err, string_bytes};
ghost use Rattle.outer_edge.specs.{Device.{count_if}, Held.{ReadsFrom}, Kept.{IsKept, IsKeptPlain}};

use crate::facts::Facts;
use crate::files::FileEnd;
use std::alloc::{AllocError, Global};
use std::io::{self, ErrorKind};

/// The system takes no longer name, so that room for one is made once.
const LONGEST_NAME: usize = 4096;

/// A file that is open to be read.
pub trait Reader {
    /// It is open on a file of these bytes, and its next piece begins at this place.
    ghost StandsAt: { Self → List ℕ → ℕ → Type 0 };

    /// It is open on a plain file, of which a read waits for nobody.
    ghost IsPlain: { Self → Type 0 };

    /// What is found of the file that is open.
    fn facts(&self) -> io::Result<Facts>
        ensures { IfOk result (λ f. f.is_file ≡ true → IsPlain self.now) };

    /// Goes to a place of the file, and answers it.
    fn go_to(&mut self, at: u64) -> io::Result<u64>
        ensures place { OnOk result ((file : List ℕ) (before : ℕ) → StandsAt self.old file before → StandsAt self.new file at) }
        ensures plain { IsPlain self.old → IsPlain self.new };

    /// Reads the next bytes, and answers how many; 0 exactly at the end.
    fn read_piece(&mut self, into: &mut [u8]) -> io::Result<usize>
        requires some { 0 < length into.old }
        requires plain { IsPlain self.old }
        ensures plain { IsPlain self.new }
        ensures within { IfOk result (λ k. k ≤ length into.new) }
        ensures bytes { IfOk result (λ k. (file : List ℕ) (at : ℕ) → StandsAt self.old file at → ReadsFrom file at k into.new) }
        ensures place { IfOk result (λ k. (file : List ℕ) (at : ℕ) → StandsAt self.old file at → StandsAt self.new file (at + k)) };
}

/// What opens files by their names.
pub trait Source {
    type File: Reader + Drop;

    /// The file of this name has these bytes. Of a source that tells nothing it never holds.
    ghost Holds: { Self → List ℕ → List ℕ → Type 0 };

    /// A plain file has this name, or a link to one, so that to open it waits for nobody.
    ghost IsPlain: { Self → List ℕ → Type 0 };

    /// What is found of the file of this name, where links are followed. It isn't opened for that.
    fn facts(&self, name: &str) -> io::Result<Facts>
        ensures { IfOk result (λ f. f.is_file ≡ true → IsPlain self.now name.now) };

    fn open(&self, name: &str) -> io::Result<Self::File>
        requires { IsPlain self.now name.now }
        ensures { IfOk result (λ opened. (file : List ℕ) → Holds self.now name.now file → Self.File.StandsAt opened file 0) };
}

/// The file whose piece was read last. It stays open up to its end, so that a long one is opened once.
#[derive(Drop)]
pub struct Reading<F> {
    name: String,
    file: Option<F>,
    at: u64,
}

impl<F: Drop> Reading<F> {
    /// No file yet, and room for a name.
    pub fn new(alloc: Global) -> Result<Reading<F>, AllocError>
        ensures { IfOk result (λ reading. reading.file ≡ None) }
    {
        Ok(Reading {
            name: String::with_capacity(alloc, LONGEST_NAME)?,
            file: None,
            at: 0,
        })
    }

    /// Keeps no file open.
    pub fn close(&mut self)
        ensures { self.new.file ≡ None }
    {
        self.file = None;
    }

    /// The file that is open, if it is this one and stands at this place.
    fn take_at(&mut self, name: &str, at: u64) -> Option<F>
        ensures file { IfSome result (λ f. self.old.file ≡ Some f) }
        ensures name { IfSome result (λ f. string_bytes self.old.name ≡ name.now) }
        ensures place { IfSome result (λ f. self.old.at ≡ at) }
        ensures closed { self.new.file ≡ None }
    {
        let kept = self.file.take();
        if self.at == at && self.name.as_str() == name {
            kept
        } else {
            None
        }
    }

    /// Keeps a file open that stands at a place.
    fn keep(&mut self, name: &str, file: F, at: u64)
        ensures file { IfSome self.new.file (λ f. f ≡ file) }
        ensures name { IfSome self.new.file (λ f. string_bytes self.new.name ≡ name.now) }
        ensures place { IfSome self.new.file (λ f. self.new.at ≡ at) }
    {
        self.name.clear();
        self.at = at;
        self.file = match self.name.push_str(name) {
            Ok(()) => Some(file),
            Err(_) => None,
        };
    }
}

/// Refuses what is no plain file: to open a pipe waits for who writes to it, and a device may have no end.
fn check_plain(found: Facts) -> io::Result<()>
    ensures { OnOk result (found.is_file ≡ true) }
{
    if found.is_file {
        Ok(())
    } else {
        Err(io::Error::from(ErrorKind::InvalidInput))
    }
}

/// Opens a plain file for a piece that begins at a place. The file that is open is looked at too, since another one may
/// have got the name meanwhile.
fn opened_at<S: Source>(source: &S, name: &str, at: u64) -> io::Result<S::File>
    ensures place { IfOk result (λ opened. (file : List ℕ) → S.Holds source.now name.now file → S.File.StandsAt opened file at) }
    ensures named { OnOk result (S.IsPlain source.now name.now) }
    ensures plain { IfOk result (λ opened. S.File.IsPlain opened) }
{
    check_plain(source.facts(name)?)?;
    let mut file = source.open(name)?;
    check_plain(file.facts()?)?;
    file.go_to(at)?;
    Ok(file)
}

/// The file that is open, if it is this one and stands at this place, or the file opened.
fn open_at<S: Source>(
    source: &S,
    reading: &mut Reading<S::File>,
    name: &str,
    at: u64,
) -> io::Result<S::File>
    requires kept { IsKept (S.Holds source.now) S.File.StandsAt reading.old }
    requires kept_plain { IsKeptPlain (S.IsPlain source.now) S.File.IsPlain reading.old }
    ensures place { IfOk result (λ opened. (file : List ℕ) → S.Holds source.now name.now file → S.File.StandsAt opened file at) }
    ensures named { OnOk result (S.IsPlain source.now name.now) }
    ensures plain { IfOk result (λ opened. S.File.IsPlain opened) }
    ensures closed { reading.new.file ≡ None }
{
    match reading.take_at(name, at) {
        Some(file) => Ok(file),
        None => opened_at(source, name, at),
    }
}

/// Reads the next piece of the file that is open, or opens the file. None of what is no plain file is read.
fn read_on<S: Source>(
    source: &S,
    reading: &mut Reading<S::File>,
    name: &str,
    into: &mut [u8],
    at: u64,
) -> io::Result<usize>
    requires some { 0 < length into.old }
    requires kept { IsKept (S.Holds source.now) S.File.StandsAt reading.old }
    requires kept_plain { IsKeptPlain (S.IsPlain source.now) S.File.IsPlain reading.old }
    ensures within { IfOk result (λ k. k ≤ length into.new) }
    ensures bytes { IfOk result (λ k. (file : List ℕ) → S.Holds source.now name.now file → ReadsFrom file at k into.new) }
    ensures plain { OnOk result (S.IsPlain source.now name.now) }
    ensures kept { IsKept (S.Holds source.now) S.File.StandsAt reading.new }
    ensures kept_plain { IsKeptPlain (S.IsPlain source.now) S.File.IsPlain reading.new }
{
    let mut file = open_at(source, reading, name, at)?;
    let count = file.read_piece(into)?;
    if count > 0
        && let Some(next) = at.checked_add(count as u64)
    {
        reading.keep(name, file, next);
    }
    Ok(count)
}

/// Reads a piece of a plain file. One that isn't read, as of a pipe, is a failed read, and counted.
pub fn read_counted<S: Source>(
    source: &S,
    reading: &mut Reading<S::File>,
    faults: &mut u64,
    name: &str,
    into: &mut [u8],
    at: u64,
) -> Result<usize, FileEnd>
    requires some { 0 < length into.old }
    requires kept { IsKept (S.Holds source.now) S.File.StandsAt reading.old }
    requires kept_plain { IsKeptPlain (S.IsPlain source.now) S.File.IsPlain reading.old }
    ensures within { IfOk result (λ k. k ≤ length into.new) }
    ensures bytes { IfOk result (λ k. (file : List ℕ) → S.Holds source.now name.now file → ReadsFrom file at k into.new) }
    ensures plain { OnOk result (S.IsPlain source.now name.now) }
    ensures kept { IsKept (S.Holds source.now) S.File.StandsAt reading.new }
    ensures kept_plain { IsKeptPlain (S.IsPlain source.now) S.File.IsPlain reading.new }
    ensures counted { faults.new ≡ count_if (is_err result) faults.old }
    ensures rises { faults.old ≤ faults.new }
    ensures not_memory { IsErrOf result FileEnd.Memory → ⊥ }
{
    match read_on(source, reading, name, into, at) {
        Ok(count) => Ok(count),
        Err(_) => {
            *faults = faults.saturating_add(1);
            Err(FileEnd::Failed)
        }
    }
}
