//! Files and outputs in memory and of the system, whole reads and whole writes.

use outer_edge::{
    Failed, FileEnd, Files, MemFiles, MemSink, ReadEnd, RealFiles, RealOut, Sink, SureFiles,
    SureSink, read_whole, write_whole,
};
use std::alloc::{Allocator, Global};
use std::cell::Cell;
use std::fmt::Display;
use std::fs::{Metadata, OpenFile, OpenOptions, Permissions};
use std::io::{ErrorKind, Read, Seek, SeekFrom, Write};
use std::os::unix::fs::{MetadataExt, OpenOptionsExt, PermissionsExt, chown, symlink};
use std::test::Fail;
use std::{fs, io, rt};

/// A pipe that takes at most four bytes a call and sixteen in all, and is broken then. It tells how many it took.
#[derive(Clone, Drop)]
struct NarrowReads<'a> {
    taken: &'a Cell<usize>,
}

impl Print for NarrowReads<'_> {
    fn print<D: Display + Drop>(&self, value: D) -> io::Result<()> {
        let _ = value;
        Ok(())
    }

    fn println<D: Display + Drop>(&self, value: D) -> io::Result<()> {
        let _ = value;
        Ok(())
    }

    fn write_all(&self, bytes: &[u8]) -> io::Result<()> {
        let _ = bytes;
        Ok(())
    }

    fn write_some(&self, bytes: &[u8]) -> io::Result<usize> {
        let before = self.taken.get();
        if before == 16 {
            return Err(io::Error::from(ErrorKind::BrokenPipe));
        }
        let count = bytes.len().min(4).min(16usize.saturating_sub(before));
        self.taken.set(before.saturating_add(count));
        Ok(count)
    }
}

/// What is wrong with a disk.
#[derive(Clone, Copy, PartialEq, Eq)]
enum Fault {
    Nothing,
    /// Each file takes four bytes more.
    Full,
    /// No new file can be made, since the disk is full.
    FullForNew,
    /// No new file may be made.
    Unmakeable,
    /// No file can be stored.
    FullForStoring,
    /// No file that stands there may be written to.
    NotWritable,
    /// New files are the superuser's, and all others somebody else's.
    OtherOwner,
    /// New files are the superuser's too, but not of their group, as all others are.
    OtherGroup,
    /// The permissions of a file that is there can't be set.
    Unsettable,
    /// Each file is a folder by the time that it is open.
    Exchanged,
    /// A file's first piece can be read, and no more of it.
    Unreadable,
}

/// The system's files on a disk of which something is wrong. It counts how often a file is opened.
#[derive(Clone, Drop)]
struct FaultyDisk<'a> {
    rt: &'a HostRuntime,
    fault: Fault,
    opened: &'a Cell<u64>,
}

#[derive(Drop)]
struct FaultyFile {
    file: fs::File,
    fault: Fault,
    room: usize,
    /// What it tells of itself, where that isn't what the system tells.
    told: Option<Metadata>,
}

fn full() -> io::Error {
    io::Error::from(ErrorKind::StorageFull)
}

fn denied() -> io::Error {
    io::Error::from(ErrorKind::PermissionDenied)
}

impl Read for FaultyFile {
    fn read(&mut self, buf: &mut [u8]) -> io::Result<usize> {
        if self.fault == Fault::Unreadable && self.room == 0 {
            return Err(io::Error::from(ErrorKind::Other));
        }
        self.room = 0;
        self.file.read(buf)
    }
}

impl Write for FaultyFile {
    fn write(&mut self, buf: &[u8]) -> io::Result<usize> {
        if self.fault != Fault::Full {
            return self.file.write(buf);
        }
        if self.room == 0 {
            return Err(full());
        }
        let count = self.file.write(&buf[..buf.len().min(self.room)])?;
        self.room = self.room.saturating_sub(count);
        Ok(count)
    }

    fn flush(&mut self) -> io::Result<()> {
        Ok(())
    }
}

impl Seek for FaultyFile {
    fn seek(&mut self, to: SeekFrom) -> io::Result<u64> {
        self.file.seek(to)
    }
}

impl OpenFile for FaultyFile {
    fn metadata(&self) -> io::Result<Metadata> {
        match &self.told {
            Some(told) => Ok(told.clone()?),
            None => self.file.metadata(),
        }
    }

    fn set_len(&self, size: u64) -> io::Result<()> {
        self.file.set_len(size)
    }

    fn sync_all(&self) -> io::Result<()> {
        if self.fault == Fault::FullForStoring {
            return Err(full());
        }
        self.file.sync_all()
    }

    fn sync_data(&self) -> io::Result<()> {
        self.file.sync_data()
    }

    fn set_permissions(&self, permissions: Permissions) -> io::Result<()> {
        if self.fault == Fault::Unsettable {
            return Err(denied());
        }
        self.file.set_permissions(permissions)
    }
}

fn refuses(fault: Fault, how: &OpenOptions) -> Option<io::Error> {
    match fault {
        Fault::FullForNew if how.asks_create_new() => Some(full()),
        Fault::Unmakeable if how.asks_create_new() => Some(denied()),
        Fault::NotWritable if how.asks_write() && !how.asks_create_new() => Some(denied()),
        _ => None,
    }
}

/// Names that a system has, of which one or the other is the superuser's and not of their group.
static OF_OTHER_GROUPS: [&str; 3] = ["/etc/shadow", "/var/mail", "/dev/tty"];

fn of_other_group(rt: &HostRuntime) -> Option<Metadata> {
    for name in &OF_OTHER_GROUPS {
        if let Ok(found) = fs::metadata(rt, *name)
            && found.uid() == 0
            && found.gid() != 0
        {
            return Some(found);
        }
    }
    None
}

/// What an open file tells of itself, where that isn't what the system tells.
fn told_of_open(rt: &HostRuntime, fault: Fault) -> Option<Metadata> {
    match fault {
        Fault::OtherOwner => Some(Metadata::of_file(0)),
        Fault::OtherGroup => of_other_group(rt),
        Fault::Exchanged => Some(Metadata::of_dir()),
        _ => None,
    }
}

impl rt::Files for FaultyDisk<'_> {
    type File = FaultyFile;

    type Dir = FaultyFile;

    fn open_file(&self, how: &OpenOptions, path: &str) -> io::Result<FaultyFile> {
        if let Some(error) = refuses(self.fault, how) {
            return Err(error);
        }
        self.opened.set(self.opened.get().saturating_add(1));
        Ok(FaultyFile {
            file: self.rt.open_file(how, path)?,
            fault: self.fault,
            room: 4,
            told: told_of_open(self.rt, self.fault),
        })
    }

    fn open_dir(&self, path: &str) -> io::Result<FaultyFile> {
        let _ = path;
        Err(io::Error::from(ErrorKind::Unsupported))
    }

    fn metadata(&self, path: &str) -> io::Result<Metadata> {
        if self.fault == Fault::OtherGroup {
            return Ok(Metadata::of_file(0));
        }
        self.rt.metadata(path)
    }

    fn symlink_metadata(&self, path: &str) -> io::Result<Metadata> {
        self.rt.symlink_metadata(path)
    }

    fn copy(&self, from: &str, to: &str) -> io::Result<u64> {
        self.rt.copy(from, to)
    }

    fn rename(&self, from: &str, to: &str) -> io::Result<()> {
        self.rt.rename(from, to)
    }

    fn remove_file(&self, path: &str) -> io::Result<()> {
        self.rt.remove_file(path)
    }

    fn create_dir(&self, path: &str) -> io::Result<()> {
        self.rt.create_dir(path)
    }

    fn remove_dir(&self, path: &str) -> io::Result<()> {
        self.rt.remove_dir(path)
    }

    fn remove_dir_all<B: Allocator>(&self, alloc: B, path: &str) -> io::Result<()> {
        self.rt.remove_dir_all(alloc, path)
    }
}

// The helpers below have no clauses, so that the tests' proofs don't carry the contracts of what they call.

/// A call on files, and its answer.
#[derive(Clone, Copy)]
enum EdgeStep {
    Put(&'static str, &'static [u8], Result<(), FileEnd>),
    /// Reads up to four bytes from a place on: how many, and what the buffer holds then.
    Read(&'static str, u64, Result<(usize, [u8; 4]), FileEnd>),
    /// Reads the whole of a file that has at most so many bytes.
    Whole(&'static str, u32, Result<&'static [u8], ReadEnd>),
}

fn read_four<F: Files>(files: &mut F, name: &str, at: u64) -> Result<(usize, [u8; 4]), FileEnd> {
    let mut into = [0; 4];
    let count = files.read(name, &mut into, at)?;
    Ok((count, into))
}

fn reads_whole<F: Files>(
    alloc: Global,
    files: &mut F,
    name: &str,
    limit: u32,
    answer: Result<&[u8], ReadEnd>,
) -> bool {
    match read_whole(alloc, files, name, u64::from(limit)) {
        Ok(all) => answer == Ok(all.as_slice()),
        Err(end) => answer == Err(end),
    }
}

fn is_answered<F: Files>(alloc: Global, files: &mut F, step: EdgeStep) -> bool {
    match step {
        EdgeStep::Put(name, bytes, answer) => files.put(name, bytes) == answer,
        EdgeStep::Read(name, at, answer) => read_four(files, name, at) == answer,
        EdgeStep::Whole(name, limit, answer) => reads_whole(alloc, files, name, limit, answer),
    }
}

/// How many of the calls, one after the other, are answered so up to the first that isn't.
fn answered<F: Files>(alloc: Global, files: &mut F, steps: &[EdgeStep]) -> u64 {
    let mut count = 0u64;
    for step in steps {
        if !is_answered(alloc, files, *step) {
            return count;
        }
        count = count.saturating_add(1);
    }
    count
}

/// Files of which one call fails, with one file added.
fn mem_files(alloc: Global, fail: u64, name: &str, bytes: &[u8]) -> Result<MemFiles, Fail> {
    let mut files = MemFiles::new(alloc, vec![in alloc; fail]?);
    files.add(name, bytes)?;
    Ok(files)
}

// `answered` at each kind of files, so that it is instantiated once and not in each test.

fn mem_answered(alloc: Global, files: &mut MemFiles, steps: &[EdgeStep]) -> u64 {
    answered(alloc, files, steps)
}

fn system_answered(alloc: Global, files: &mut RealFiles<HostRuntime>, steps: &[EdgeStep]) -> u64 {
    answered(alloc, files, steps)
}

fn faulty_answered(
    alloc: Global,
    files: &mut RealFiles<FaultyDisk<'_>>,
    steps: &[EdgeStep],
) -> u64 {
    answered(alloc, files, steps)
}

/// A text of more than a mebibyte.
fn long_text(alloc: Global) -> Result<Vec<u8>, Fail> {
    Ok(vec![in alloc; b'x'; 1_048_580]?)
}

fn system_files(rt: &HostRuntime) -> Result<RealFiles<HostRuntime>, Fail> {
    Ok(RealFiles::new(rt, rt.alloc())?)
}

fn mem_file_is(files: &MemFiles, name: &str, bytes: &[u8]) -> bool {
    files.bytes(name) == Some(bytes)
}

/// Makes so much room, and answers whether one write ends so.
fn writes_once<K: Sink>(
    out: &mut K,
    room: u64,
    bytes: &[u8],
    answer: Result<usize, Failed>,
) -> bool {
    !bytes.is_empty()
        && bytes.len() as u64 <= room
        && out.reserve(room).is_ok()
        && out.write(bytes) == answer
}

/// Makes so much room, and answers whether a write of all ends so.
fn writes_whole<K: Sink>(out: &mut K, room: u64, bytes: &[u8], answer: Result<(), Failed>) -> bool {
    bytes.len() as u64 <= room && out.reserve(room).is_ok() && write_whole(out, bytes) == answer
}

/// Whether the file of the system holds these bytes.
fn system_file_is(rt: &HostRuntime, name: &str, bytes: &[u8]) -> bool {
    match fs::read(rt, name) {
        Ok(found) => found.as_slice() == bytes,
        Err(_) => false,
    }
}

fn is_absent(rt: &HostRuntime, name: &str) -> bool {
    matches!(fs::exists(rt, name), Ok(false))
}

fn is_removed(rt: &HostRuntime, name: &str) -> bool {
    fs::remove_file(rt, name).is_ok()
}

static SURE_STEPS: [EdgeStep; 4] = [
    EdgeStep::Put("notes", b"second", Ok(())),
    EdgeStep::Whole("notes", 100, Ok(b"second")),
    EdgeStep::Read("notes", 2, Ok((4, *b"cond"))),
    EdgeStep::Read("absent", 0, Ok((0, [0; 4]))),
];

fn sure_files(alloc: Global, name: &str, bytes: &[u8]) -> Result<SureFiles, Fail> {
    let mut files = SureFiles::new(alloc);
    files.add(name, bytes)?;
    Ok(files)
}

fn hold_what_is_put(alloc: Global, files: &mut SureFiles) -> bool {
    answered(alloc, files, &SURE_STEPS) == 4 && files.bytes("absent").is_none()
}

#[test]
fn sure_files_hold_what_was_put(rt: HostRuntime) -> Result<(), Fail> {
    let mut files = sure_files(rt.alloc(), "notes", b"first")?;
    assert!(rt; hold_what_is_put(rt.alloc(), &mut files));
    Ok(())
}

static TO_THE_THIRD: [EdgeStep; 3] = [
    EdgeStep::Read("notes", 1, Ok((2, *b"ld\0\0"))),
    EdgeStep::Put("other", b"kept", Ok(())),
    EdgeStep::Put("notes", b"new", Err(FileEnd::Failed)),
];

static AFTER_THE_THIRD: [EdgeStep; 2] = [
    EdgeStep::Read("absent", 0, Err(FileEnd::Failed)),
    EdgeStep::Put("notes", b"new", Ok(())),
];

/// Whether the third call leaves the old file, and the fifth puts the new one.
fn fail_third(alloc: Global, files: &mut MemFiles) -> bool {
    mem_answered(alloc, files, &TO_THE_THIRD) == 3
        && mem_file_is(files, "notes", b"old")
        && mem_answered(alloc, files, &AFTER_THE_THIRD) == 2
        && mem_file_is(files, "notes", b"new")
}

#[test]
fn the_third_call_is_a_put_that_fails(rt: HostRuntime) -> Result<(), Fail> {
    let mut files = mem_files(rt.alloc(), 3, "notes", b"old")?;
    assert!(rt; fail_third(rt.alloc(), &mut files));
    Ok(())
}

const LONG_TEXT: &[u8] = b"the first sixteen, and then some more";

/// Whether an output of sixteen bytes a call, of which these calls fail, ends the long text so and takes this of it.
fn takes(alloc: Global, fail: Vec<u64>, answer: Result<(), Failed>, taken: &[u8]) -> bool {
    let mut out = MemSink::new(alloc, 16, fail);
    writes_whole(&mut out, 100, LONG_TEXT, answer) && out.bytes() == taken
}

#[test]
fn the_second_piece_of_sixteen_fails(rt: HostRuntime) -> Result<(), Fail> {
    let second = vec![in rt.alloc(); 2]?;
    assert!(rt; takes(rt.alloc(), second, Err(Failed), b"the first sixtee"));
    assert!(rt; takes(rt.alloc(), Vec::new(rt.alloc()), Ok(()), LONG_TEXT));
    Ok(())
}

#[test]
fn a_sure_output_takes_all_at_once(rt: HostRuntime) {
    let mut out = SureSink::new(rt.alloc());
    assert!(rt; writes_once(&mut out, 5, b"hello", Ok(5)));
    assert!(rt; out.bytes() == b"hello".as_slice());
}

// Calls 1 and 2 read the file, 3 found it too long, 4 found no file, 5 read: the sixth fails.
static TEN_BYTES: [EdgeStep; 4] = [
    EdgeStep::Whole("ten", 10, Ok(b"0123456789")),
    EdgeStep::Whole("ten", 9, Err(ReadEnd::TooLong)),
    EdgeStep::Whole("absent", 9, Err(ReadEnd::ReadFault)),
    EdgeStep::Whole("ten", 10, Err(ReadEnd::ReadFault)),
];

#[test]
fn ten_bytes_are_too_long_for_a_limit_of_nine(rt: HostRuntime) -> Result<(), Fail> {
    let mut files = mem_files(rt.alloc(), 6, "ten", b"0123456789")?;
    assert!(rt; mem_answered(rt.alloc(), &mut files, &TEN_BYTES) == 4);
    Ok(())
}

static PUT_AND_READ: [EdgeStep; 4] = [
    EdgeStep::Put("outer_edge.trial", b"put and read", Ok(())),
    EdgeStep::Whole("outer_edge.trial", 100, Ok(b"put and read")),
    EdgeStep::Put("outer_edge.trial", b"", Ok(())),
    EdgeStep::Whole("outer_edge.trial", 100, Ok(b"")),
];

static ABSENT: [EdgeStep; 2] = [
    EdgeStep::Read("outer_edge.trial", 0, Err(FileEnd::Failed)),
    EdgeStep::Put("no/such/folder", b"x", Err(FileEnd::Failed)),
];

fn is_read_back(rt: &HostRuntime, files: &mut RealFiles<HostRuntime>, long: &[u8]) -> bool {
    system_answered(rt.alloc(), files, &PUT_AND_READ) == 4
        && files.put("outer_edge.trial", long) == Ok(())
        && system_file_is(rt, "outer_edge.trial", long)
        && is_removed(rt, "outer_edge.trial")
        && system_answered(rt.alloc(), files, &ABSENT) == 2
}

#[test]
fn a_file_of_the_system_is_read_back(rt: HostRuntime) -> Result<(), Fail> {
    let mut files = system_files(&rt)?;
    let long = long_text(rt.alloc())?;
    assert!(rt; is_read_back(&rt, &mut files, long.as_slice()));
    Ok(())
}

const NEWER: EdgeStep = EdgeStep::Put("outer_edge.full", b"newer", Err(FileEnd::Failed));

static OLD_AND_NEWER: [EdgeStep; 2] = [EdgeStep::Put("outer_edge.full", b"old", Ok(())), NEWER];

static AGAIN: [EdgeStep; 1] = [NEWER];

/// Whether the old file stands there, which is removed then, and no new one.
fn is_old_alone(rt: &HostRuntime) -> bool {
    system_file_is(rt, "outer_edge.full", b"old")
        && is_absent(rt, "outer_edge.full.new1")
        && is_removed(rt, "outer_edge.full")
}

/// Whether an old file is left, and no new one where there is none.
fn leave_old(rt: &HostRuntime, files: &mut RealFiles<FaultyDisk<'_>>) -> bool {
    faulty_answered(rt.alloc(), files, &OLD_AND_NEWER) == 2
        && is_old_alone(rt)
        && faulty_answered(rt.alloc(), files, &AGAIN) == 1
        && is_absent(rt, "outer_edge.full")
}

#[test]
fn a_full_disk_leaves_the_old_file(rt: HostRuntime) -> Result<(), Fail> {
    let opened = Cell::new(0);
    let mut files = faulty_files(&rt, Fault::Full, &opened)?;
    assert!(rt; leave_old(&rt, &mut files));
    Ok(())
}

fn faulty_files<'a>(
    rt: &'a HostRuntime,
    fault: Fault,
    opened: &'a Cell<u64>,
) -> Result<RealFiles<FaultyDisk<'a>>, Fail> {
    let disk = FaultyDisk { rt, fault, opened };
    Ok(RealFiles::new(&disk, rt.alloc())?)
}

/// The number by which the system knows a file.
fn number_of(rt: &HostRuntime, name: &str) -> Option<u64> {
    match fs::metadata(rt, name) {
        Ok(found) => Some(found.ino()),
        Err(_) => None,
    }
}

/// A put of new bytes to an old file: its answer, what the file holds then, and whether it is another file.
type FaultyPut = (Fault, Result<(), FileEnd>, &'static [u8], bool);

const NOT_PUT: Result<(), FileEnd> = Err(FileEnd::Failed);

const LONGER: &[u8] = b"what was there";

static FAULTY_PUTS: [FaultyPut; 9] = [
    (Fault::Nothing, Ok(()), b"newer", true),
    (Fault::Full, NOT_PUT, LONGER, false),
    (Fault::FullForNew, NOT_PUT, LONGER, false),
    (Fault::FullForStoring, NOT_PUT, LONGER, false),
    (Fault::NotWritable, NOT_PUT, LONGER, false),
    (Fault::Unmakeable, Ok(()), b"newer", false),
    (Fault::OtherOwner, Ok(()), b"newer", false),
    (Fault::OtherGroup, Ok(()), b"newer", false),
    (Fault::Unsettable, Ok(()), b"newer", true),
];

const FAULTY: &str = "outer_edge.faulty";

/// Makes an old file, which isn't the superuser's where new files are. Where a new file's permissions can't be set it is
/// private, so that the new one has to be made so.
fn make_old(rt: &HostRuntime, fault: Fault) -> bool {
    if fault == Fault::Unsettable {
        return make_private(rt, FAULTY);
    }
    let is_made = fs::write(rt, FAULTY, LONGER).is_ok();
    if fault == Fault::OtherOwner {
        let _ = chown(rt, FAULTY, Some(1), Some(1));
    }
    is_made
}

fn are_put_so(rt: &HostRuntime, files: &mut RealFiles<FaultyDisk<'_>>, put: &FaultyPut) -> bool {
    let before = number_of(rt, FAULTY);
    let steps = [EdgeStep::Put(FAULTY, b"newer", put.1)];
    faulty_answered(rt.alloc(), files, &steps) == 1
        && (number_of(rt, FAULTY) != before) == put.3
        && system_file_is(rt, FAULTY, put.2)
}

fn is_put_so(rt: &HostRuntime, put: &FaultyPut) -> Result<bool, Fail> {
    let opened = Cell::new(0);
    let mut files = faulty_files(rt, put.0, &opened)?;
    Ok(make_old(rt, put.0) && are_put_so(rt, &mut files, put))
}

/// Whether no new file stands beside the named one, which is removed then.
fn is_alone(rt: &HostRuntime) -> bool {
    is_absent(rt, "outer_edge.faulty.new1") && is_removed(rt, FAULTY)
}

#[test]
fn a_put_replaces_only_what_may_be_replaced(rt: HostRuntime) -> Result<(), Fail> {
    for put in &FAULTY_PUTS {
        assert!(rt; is_put_so(&rt, put)? && is_alone(&rt));
    }
    Ok(())
}

/// Makes an old file of two names.
fn make_two_names(rt: &HostRuntime) -> bool {
    fs::write(rt, "outer_edge.first", LONGER).is_ok()
        && fs::hard_link(rt, "outer_edge.first", "outer_edge.second").is_ok()
}

fn are_removed(rt: &HostRuntime, names: &[&str]) -> bool {
    for name in names {
        if !is_removed(rt, name) {
            return false;
        }
    }
    true
}

static NEWER_FIRST: [EdgeStep; 1] = [EdgeStep::Put("outer_edge.first", b"newer", Ok(()))];

fn keep_two_names(rt: &HostRuntime, files: &mut RealFiles<HostRuntime>, long: &[u8]) -> bool {
    make_two_names(rt)
        && system_answered(rt.alloc(), files, &NEWER_FIRST) == 1
        && system_file_is(rt, "outer_edge.second", b"newer")
        && files.put("outer_edge.first", long) == Ok(())
        && system_file_is(rt, "outer_edge.second", long)
        && are_removed(rt, &["outer_edge.first", "outer_edge.second"])
}

#[test]
fn a_file_of_two_names_keeps_them(rt: HostRuntime) -> Result<(), Fail> {
    let mut files = system_files(&rt)?;
    let long = long_text(rt.alloc())?;
    assert!(rt; keep_two_names(&rt, &mut files, long.as_slice()));
    Ok(())
}

/// Makes a file of a mebibyte of zeros and four bytes more.
fn make_long(rt: &HostRuntime, name: &str) -> io::Result<()> {
    let mut long = fs::create(rt, name)?;
    long.set_len(1_048_576)?;
    long.seek(SeekFrom::End(0))?;
    long.write_all(b"tail")
}

const LONG: &str = "outer_edge.long";

static TOO_LONG: [EdgeStep; 1] = [EdgeStep::Whole(LONG, 1_048_576, Err(ReadEnd::TooLong))];

// Each read begins where the one before ended, but the fourth, which goes back, and the last, which follows a put.
static LONG_STEPS: [EdgeStep; 8] = [
    EdgeStep::Read(LONG, 1_048_570, Ok((4, [0; 4]))),
    EdgeStep::Read(LONG, 1_048_574, Ok((4, *b"\0\0ta"))),
    EdgeStep::Read(LONG, 1_048_578, Ok((2, *b"il\0\0"))),
    EdgeStep::Read(LONG, 1_048_577, Ok((3, *b"ail\0"))),
    EdgeStep::Read(LONG, 1_048_580, Ok((0, [0; 4]))),
    EdgeStep::Read(LONG, 0, Ok((4, [0; 4]))),
    EdgeStep::Put(LONG, b"and short", Ok(())),
    EdgeStep::Read(LONG, 4, Ok((4, *b"shor"))),
];

fn are_read_on(
    rt: &HostRuntime,
    files: &mut RealFiles<FaultyDisk<'_>>,
    opened: &Cell<u64>,
) -> bool {
    make_long(rt, LONG).is_ok()
        && faulty_answered(rt.alloc(), files, &TOO_LONG) == 1
        && opened.get() == 1
        && faulty_answered(rt.alloc(), files, &LONG_STEPS) == 8
        && is_removed(rt, LONG)
}

#[test]
fn a_long_file_is_opened_once_and_read_on(rt: HostRuntime) -> Result<(), Fail> {
    let opened = Cell::new(0);
    let mut files = faulty_files(&rt, Fault::Nothing, &opened)?;
    assert!(rt; are_read_on(&rt, &mut files, &opened));
    Ok(())
}

static CUT: [EdgeStep; 1] = [EdgeStep::Whole("outer_edge.cut", 2_000_000, Err(ReadEnd::ReadFault))];

fn are_cut(rt: &HostRuntime, files: &mut RealFiles<FaultyDisk<'_>>) -> bool {
    make_long(rt, "outer_edge.cut").is_ok()
        && faulty_answered(rt.alloc(), files, &CUT) == 1
        && is_removed(rt, "outer_edge.cut")
}

#[test]
fn a_read_that_fails_in_the_midst_is_no_end(rt: HostRuntime) -> Result<(), Fail> {
    let opened = Cell::new(0);
    let mut files = faulty_files(&rt, Fault::Unreadable, &opened)?;
    assert!(rt; are_cut(&rt, &mut files));
    Ok(())
}

/// Makes an empty file that only its owner may read and write.
fn make_private(rt: &HostRuntime, name: &str) -> bool {
    let mut private = OpenOptions::new();
    private.write(true).create_new(true).mode(0o600);
    private.open(rt, name).is_ok()
}

/// Makes a link to a private file, beside which another's stands, and one to no file.
fn make_links(rt: &HostRuntime) -> bool {
    make_private(rt, "outer_edge.kept")
        && fs::write(rt, "outer_edge.kept.new1", b"another's").is_ok()
        && symlink(rt, "outer_edge.kept", "outer_edge.link").is_ok()
        && symlink(rt, "outer_edge.nowhere", "outer_edge.dangling").is_ok()
}

fn is_link(rt: &HostRuntime, name: &str) -> bool {
    match fs::symlink_metadata(rt, name) {
        Ok(found) => found.is_symlink(),
        Err(_) => false,
    }
}

/// The permissions of a file.
fn mode_of(rt: &HostRuntime, name: &str) -> Option<u32> {
    match fs::metadata(rt, name) {
        Ok(found) => Some(found.mode() & 0o777),
        Err(_) => None,
    }
}

static THROUGH_THE_LINKS: [EdgeStep; 3] = [
    EdgeStep::Put("outer_edge.link", b"through the link", Ok(())),
    EdgeStep::Whole("outer_edge.link", 100, Ok(b"through the link")),
    EdgeStep::Put("outer_edge.dangling", b"made", Ok(())),
];

/// Whether the links are still links, and the files behind them hold what was put. The first is another file than it was, and
/// private too.
fn are_kept(rt: &HostRuntime, before: Option<u64>) -> bool {
    is_link(rt, "outer_edge.link")
        && system_file_is(rt, "outer_edge.kept", b"through the link")
        && number_of(rt, "outer_edge.kept") != before
        && mode_of(rt, "outer_edge.kept") == Some(0o600)
        && is_link(rt, "outer_edge.dangling")
        && system_file_is(rt, "outer_edge.nowhere", b"made")
}

/// Whether another's file stands there as it was, and no second new one.
fn is_untouched(rt: &HostRuntime) -> bool {
    system_file_is(rt, "outer_edge.kept.new1", b"another's")
        && is_absent(rt, "outer_edge.kept.new2")
}

static LINKED: [&str; 5] = [
    "outer_edge.link",
    "outer_edge.kept",
    "outer_edge.kept.new1",
    "outer_edge.dangling",
    "outer_edge.nowhere",
];

fn keep_links(rt: &HostRuntime, files: &mut RealFiles<HostRuntime>) -> bool {
    let is_made = make_links(rt);
    let before = number_of(rt, "outer_edge.kept");
    is_made
        && system_answered(rt.alloc(), files, &THROUGH_THE_LINKS) == 3
        && are_kept(rt, before)
        && is_untouched(rt)
        && are_removed(rt, &LINKED)
}

#[test]
fn a_put_keeps_links_and_other_files(rt: HostRuntime) -> Result<(), Fail> {
    let mut files = system_files(&rt)?;
    assert!(rt; keep_links(&rt, &mut files));
    Ok(())
}

static MODES: [EdgeStep; 2] = [
    EdgeStep::Put("outer_edge.shared", b"newer", Ok(())),
    EdgeStep::Put("outer_edge.made", b"new", Ok(())),
];

/// Whether a file that all may write stays so, and one that wasn't there is made as the system makes one.
fn keep_modes(rt: &HostRuntime, files: &mut RealFiles<HostRuntime>) -> bool {
    let is_made = fs::write(rt, "outer_edge.shared", b"old").is_ok();
    let usual = mode_of(rt, "outer_edge.shared");
    is_made
        && fs::set_permissions(rt, "outer_edge.shared", Permissions::from_mode(0o666)).is_ok()
        && system_answered(rt.alloc(), files, &MODES) == 2
        && mode_of(rt, "outer_edge.shared") == Some(0o666)
        && mode_of(rt, "outer_edge.made") == usual
        && are_removed(rt, &["outer_edge.shared", "outer_edge.made"])
}

#[test]
fn a_put_keeps_permissions(rt: HostRuntime) -> Result<(), Fail> {
    let mut files = system_files(&rt)?;
    assert!(rt; keep_modes(&rt, &mut files));
    Ok(())
}

static NOT_PLAIN: [EdgeStep; 2] = [
    EdgeStep::Read("/dev/null", 0, Err(FileEnd::Failed)),
    EdgeStep::Read(".", 0, Err(FileEnd::Failed)),
];

#[test]
fn what_is_no_plain_file_is_not_opened(rt: HostRuntime) -> Result<(), Fail> {
    let opened = Cell::new(0);
    let mut files = faulty_files(&rt, Fault::Nothing, &opened)?;
    assert!(rt; faulty_answered(rt.alloc(), &mut files, &NOT_PLAIN) == 2);
    assert!(rt; opened.get() == 0);
    Ok(())
}

static EXCHANGED: [EdgeStep; 1] = [EdgeStep::Read(FAULTY, 0, Err(FileEnd::Failed))];

fn is_exchanged(rt: &HostRuntime, files: &mut RealFiles<FaultyDisk<'_>>) -> bool {
    make_old(rt, Fault::Exchanged)
        && faulty_answered(rt.alloc(), files, &EXCHANGED) == 1
        && is_removed(rt, FAULTY)
}

#[test]
fn what_is_no_plain_file_once_open_is_not_read(rt: HostRuntime) -> Result<(), Fail> {
    let opened = Cell::new(0);
    let mut files = faulty_files(&rt, Fault::Exchanged, &opened)?;
    assert!(rt; is_exchanged(&rt, &mut files));
    Ok(())
}

#[test]
fn standard_output_takes_bytes(rt: HostRuntime) -> Result<(), Fail> {
    let mut out = RealOut::new(&rt, rt.alloc())?;
    assert!(rt; writes_once(&mut out, 100, b"three\n", Ok(6)));
    Ok(())
}

fn narrow_out<'a>(alloc: Global, taken: &'a Cell<usize>) -> Result<RealOut<NarrowReads<'a>>, Fail> {
    Ok(RealOut::new(&NarrowReads { taken }, alloc)?)
}

/// Whether a call takes four bytes of a long text, one of nine goes in pieces, and the last has room for three of its four.
fn takes_pieces(out: &mut RealOut<NarrowReads<'_>>, taken: &Cell<usize>, long: &[u8]) -> bool {
    writes_once(out, 2_000_000, long, Ok(4))
        && writes_whole(out, 100, b"nine more", Ok(()))
        && taken.get() == 13
        && writes_whole(out, 100, b"full", Err(Failed))
        && taken.get() == 16
}

#[test]
fn a_narrow_pipe_takes_a_text_in_pieces(rt: HostRuntime) -> Result<(), Fail> {
    let taken = Cell::new(0);
    let mut out = narrow_out(rt.alloc(), &taken)?;
    let long = long_text(rt.alloc())?;
    assert!(rt; takes_pieces(&mut out, &taken, long.as_slice()));
    Ok(())
}
