//! The files that a command reads, one after the other: a list of types, each with its reader.

ghost use Rattle.std.specs.Prelude.{◌≡◌, ◌+◌, ◌<◌, List, [], ◌∷◌, None, IfOk, IfErr, OnOk, length, map, string_bytes};
ghost use Rattle.outer_edge.specs.Counts.{SameCounts};
ghost use Rattle.run_inputs.specs.Reading.{Values, most_bytes, end_of, IsWithinLimit, LeavesFiles, LeavesAlone, WereRead, WasUnread};
ghost use Rattle.run_inputs.specs.declared.reader.ReadAs.{ReadAs};
ghost use Rattle.run_inputs.specs.Lines.{too_long_line};

use crate::cause::Cause;
use crate::found::{Unread, told};
use crate::lines::{cannot_read_line, too_long_line};
use crate::readable::Readable;
use outer_edge::{Files, ReadEnd, read_whole};
use std::alloc::Global;

/// What is told of a file with more bytes than its limit.
fn too_long(alloc: Global, name: &str, place: u8) -> Unread
    ensures cause { IfOk (end_of result) (λ a. a.cause ≡ Cause.TooLong place) }
    ensures lines { IfOk (end_of result) (λ a. a.lines.items ≡ too_long_line name.now) }
    ensures no_put { IfOk (end_of result) (λ a. a.bytes ≡ None) }
{
    match too_long_line(alloc, name) {
        Ok(line) => Unread::Told(told(Cause::TooLong { file: place }, line)),
        Err(_) => Unread::Memory,
    }
}

/// The bytes of the file that is read at this place as a `T`, or why it isn't read. The line of a read that fails is made before
/// the read, so that want of memory can't hide a fault that was counted.
fn bytes_of<T: Readable, F: Files>(
    alloc: Global,
    files: &mut F,
    name: &str,
    place: u8,
) -> Result<Vec<u8>, Unread>
    ensures ok { IfOk result (λ bytes. IsWithinLimit (most_bytes T.reader) (F.holds files.old name.now) bytes.items) }
    ensures none_failed { OnOk result (SameCounts (F.read_faults files.old) (F.read_faults files.new)) }
    ensures unread { IfErr result (WasUnread F.Files files.old files.new (T.reader ∷ []) (name.now ∷ []) place) }
    ensures kept { LeavesFiles F.Files files.old files.new }
{
    let Ok(line) = cannot_read_line(alloc, name) else {
        return Err(Unread::Memory);
    };
    match read_whole(alloc, files, name, T::most_bytes()) {
        Ok(bytes) => Ok(bytes),
        Err(ReadEnd::ReadFault) => Err(Unread::Told(told(Cause::ReadFault { file: place }, line))),
        Err(ReadEnd::TooLong) => Err(too_long(alloc, name, place)),
        Err(ReadEnd::Memory) => Err(Unread::Memory),
    }
}

/// What the file that is read at this place is read as, or why it isn't read.
fn read_at<T: Readable, F: Files>(
    alloc: Global,
    files: &mut F,
    name: &str,
    place: u8,
) -> Result<T, Unread>
    ensures read { IfOk result (λ v. WereRead F.Files files.old files.new (T.reader ∷ []) (name.now ∷ []) (T.value v, tt)) }
    ensures unread { IfErr result (WasUnread F.Files files.old files.new (T.reader ∷ []) (name.now ∷ []) place) }
    ensures kept { LeavesFiles F.Files files.old files.new }
{
    let bytes = bytes_of::<T, F>(alloc, files, name, place)?;
    if T::are_too_many(bytes.as_slice()) {
        return Err(too_long(alloc, name, place));
    }
    T::read(alloc, bytes)
}

/// Values that files are read as, the first in the first place: `(Artery, (Timing, ()))` are an artery and a timing.
pub trait Inputs: Drop {
    /// Their readers.
    ghost readers: { List ReadAs };

    /// The values, as these readers have them.
    ghost values: { Self → Values readers };

    /// What the files of these names are read as, or why one of them isn't read. The first is read at this place.
    fn read<F: Files>(
        alloc: Global,
        files: &mut F,
        names: &[String],
        place: u8,
    ) -> Result<Self, Unread>
        requires each { length names.now ≡ length readers }
        requires few { place + length readers < 256 }
        ensures read { IfOk result (λ v. WereRead F.Files files.old files.new readers (map string_bytes names.now) (values v)) }
        ensures unread { IfErr result (WasUnread F.Files files.old files.new readers (map string_bytes names.now) place) }
        ensures kept { LeavesFiles F.Files files.old files.new }
        ensures alone { LeavesAlone readers None files.old files.new };
}

impl Inputs for () {
    ghost readers = { [] };

    ghost values = { λ v. tt };

    fn read<F: Files>(
        _alloc: Global,
        _files: &mut F,
        _names: &[String],
        _place: u8,
    ) -> Result<(), Unread> {
        Ok(())
    }
}

/// What a file and those behind it are read as, or why one of them isn't read.
#[tactic(auto, using(crate::proofs::Next::first_unread))]
fn read_next<T: Readable, R: Inputs, F: Files>(
    alloc: Global,
    files: &mut F,
    name: &str,
    names: &[String],
    place: u8,
) -> Result<(T, R), Unread>
    requires each { length names.now ≡ length R.readers }
    requires few { place + 1 + length R.readers < 256 }
    ensures read { IfOk result (λ v. WereRead F.Files files.old files.new (T.reader ∷ R.readers) (name.now ∷ map string_bytes names.now) (T.value v.0, R.values v.1)) }
    ensures unread { IfErr result (WasUnread F.Files files.old files.new (T.reader ∷ R.readers) (name.now ∷ map string_bytes names.now) place) }
    ensures kept { LeavesFiles F.Files files.old files.new }
{
    let one = read_at::<T, F>(alloc, files, name, place)?;
    let more = R::read(alloc, files, names, place + 1)?;
    Ok((one, more))
}

impl<T: Readable, R: Inputs> Inputs for (T, R) {
    ghost readers = { T.reader ∷ R.readers };

    ghost values = { λ v. (T.value v.0, R.values v.1) };

    fn read<F: Files>(
        alloc: Global,
        files: &mut F,
        names: &[String],
        place: u8,
    ) -> Result<(T, R), Unread> {
        match names {
            [name, names @ ..] => read_next(alloc, files, name.as_str(), names, place),
            [] => unreachable!(),
        }
    }
}
