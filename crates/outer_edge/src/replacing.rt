//! Files that are replaced by whole new ones: when, and in which order.

ghost use Rattle.std.specs.Prelude.{◌≡◌, ◌≤◌, [], true, false, List, ℕ, IfOk, IfErr, IsErrOf, OnOk, OnErr, MatchOption};
ghost use Rattle.outer_edge.specs.{Counts.{next_count}, Replaced.{new_mode}};

use crate::facts::{Facts, is_absence, is_of_system, is_taken, is_want_of_room};
use crate::files::FileEnd;
use crate::place::Place;
use std::alloc::Global;
use std::io::ErrorKind;

/// The new file's name is the file's with `.new1` at its end, or with the next number that is free up to this one.
const GREATEST_NUMBER: u32 = 100;

/// The bits of a file's mode with which one is made.
const PERMISSIONS: u32 = 0o777;

/// The permissions of a file where there was none, from which the system takes those that the user's mask names.
const USUAL: u32 = 0o666;

/// Why a file was not replaced. It is as before, and the new one is gone.
#[derive(Clone, Copy, Debug, PartialEq, Eq)]
pub enum Unreplaced {
    /// No new file may take the place of what stands there.
    Unfit,
    /// The disk is full, or the new file didn't become whole.
    Failed,
    /// Memory was wanting, before there was a new file.
    Memory,
}

/// Follows a link to the file that it names, but none of the system.
fn followed<P: Place>(place: &mut P) -> Result<(), Unreplaced>
    ensures itself { OnOk result (P.IsItself place.new) }
    ensures not_failed { IsErrOf result Unreplaced.Failed → ⊥ }
    ensures unfit { IsErrOf result Unreplaced.Unfit → P.MayWriteOver place.new }
{
    if !place.is_link() {
        return Ok(());
    }
    if is_of_system(place.name()) {
        return Err(Unreplaced::Unfit);
    }
    match place.follow() {
        Ok(()) => Ok(()),
        Err(error) if error.kind() == ErrorKind::OutOfMemory => Err(Unreplaced::Memory),
        Err(_) => Err(Unreplaced::Unfit),
    }
}

/// What stands under the name and may give way to a new file; None where nothing stands there.
fn giving_way<P: Place>(place: &P) -> Result<Option<Facts>, Unreplaced>
    ensures gives_way { OnOk result (P.MayGiveWay place.now) }
    ensures found { IfOk result (λ old. MatchOption old (P.IsAbsent place.now) (λ f. P.IsFound place.now f)) }
    ensures mode { IfOk result (λ old. P.MayHaveMode place.now (new_mode old)) }
    ensures unfit { OnErr result (P.MayWriteOver place.now) }
    ensures end { IfErr result (λ end. end ≡ Unreplaced.Unfit) }
{
    match place.facts() {
        Ok(found) if found.is_regular() && place.opens() => Ok(Some(found)),
        Err(error) if is_absence(error.kind()) => Ok(None),
        _ => Err(Unreplaced::Unfit),
    }
}

/// The permissions with which a new file is made.
fn new_mode(old: Option<Facts>) -> u32
    ensures { result ≡ new_mode old }
{
    old.map_or(USUAL, |old| old.mode & PERMISSIONS)
}

/// Makes an empty file beside the named one.
fn new_beside<P: Place>(place: &P, alloc: Global, old: Option<Facts>) -> Result<P::New, Unreplaced>
    requires mode { P.MayHaveMode place.now (new_mode old) }
    ensures empty { IfOk result (λ new. P.Holds new []) }
    ensures alike { IfOk result (λ new. P.IsAbsent place.now → P.IsAlike place.now new) }
    ensures unfit { IsErrOf result Unreplaced.Unfit → P.MayWriteOver place.now }
    ensures failed { IsErrOf result Unreplaced.Failed → P.MayFail place.now }
{
    let name = place.name();
    let mode = new_mode(old);
    'numbers: for number in 1..=GREATEST_NUMBER {
        let Ok(path) = format!(in alloc; "{name}.new{number}") else {
            return Err(Unreplaced::Memory);
        };
        match place.make(path, mode) {
            Ok(new) => return Ok(new),
            Err(error) if is_want_of_room(error.kind()) => return Err(Unreplaced::Failed),
            Err(error) if is_taken(error.kind()) => {}
            Err(_) => return Err(Unreplaced::Unfit),
        }
    }
    Err(Unreplaced::Unfit)
}

/// Makes the new file like what stands under the name, and answers whether it is.
fn is_made_alike<P: Place>(place: &P, new: &mut P::New, old: Option<Facts>) -> bool
    requires { MatchOption old (P.IsAlike place.now new.old) (λ f. P.IsFound place.now f) }
    ensures alike { result ≡ true → P.IsAlike place.now new.new }
    ensures unfit { result ≡ false → P.MayWriteOver place.now }
    ensures bytes { (bytes : List ℕ) → P.Holds new.old bytes → P.Holds new.new bytes }
{
    let Some(old) = old else {
        return true;
    };
    match place.new_facts(new) {
        Ok(made) if old.is_of_one_owner(made) => {
            made.mode == old.mode || place.set_mode(new, old.mode).is_ok()
        }
        _ => false,
    }
}

/// Makes the new file whole: like the old one, with these bytes, and stored.
fn made_whole<P: Place>(
    place: &P,
    new: &mut P::New,
    old: Option<Facts>,
    bytes: &[u8],
) -> Result<(), Unreplaced>
    requires old { MatchOption old (P.IsAlike place.now new.old) (λ f. P.IsFound place.now f) }
    requires empty { P.Holds new.old [] }
    ensures alike { OnOk result (P.IsAlike place.now new.new) }
    ensures bytes { OnOk result (P.Holds new.new bytes.now) }
    ensures stored { OnOk result (P.IsStored new.new) }
    ensures unfit { IsErrOf result Unreplaced.Unfit → P.MayWriteOver place.now }
    ensures failed { IsErrOf result Unreplaced.Failed → P.MayFail place.now }
{
    if !is_made_alike(place, new, old) {
        return Err(Unreplaced::Unfit);
    }
    if place.fill(new, bytes).is_err() || place.store(new).is_err() {
        return Err(Unreplaced::Failed);
    }
    Ok(())
}

/// Makes the new file whole and gives it the name, or removes it.
fn named<P: Place>(
    place: &P,
    mut new: P::New,
    old: Option<Facts>,
    bytes: &[u8],
) -> Result<(), Unreplaced>
    requires itself { P.IsItself place.now }
    requires gives_way { P.MayGiveWay place.now }
    requires old { MatchOption old (P.IsAlike place.now new) (λ f. P.IsFound place.now f) }
    requires empty { P.Holds new [] }
    ensures has { OnOk result (P.Has place.now bytes.now) }
    ensures unfit { IsErrOf result Unreplaced.Unfit → P.MayWriteOver place.now }
    ensures failed { IsErrOf result Unreplaced.Failed → P.MayFail place.now }
{
    if let Err(end) = made_whole(place, &mut new, old, bytes) {
        place.remove(new);
        return Err(end);
    }
    match place.take_name(new) {
        Ok(()) => Ok(()),
        Err(new) => {
            place.remove(new);
            Err(Unreplaced::Unfit)
        }
    }
}

/// Writes the bytes into a new file beside the named one, and gives it the name when it is whole. A symbolic link stays
/// and is followed.
fn replace<P: Place>(place: &mut P, alloc: Global, bytes: &[u8]) -> Result<(), Unreplaced>
    ensures has { OnOk result (P.Has place.new bytes.now) }
    ensures unfit { IsErrOf result Unreplaced.Unfit → P.MayWriteOver place.new }
    ensures failed { IsErrOf result Unreplaced.Failed → P.MayFail place.new }
{
    followed(place)?;
    let old = giving_way(place)?;
    let new = new_beside(place, alloc, old)?;
    named(place, new, old, bytes)
}

/// Replaces the file by a new one, or writes it in place where none may take its place. A put that fails is counted.
pub fn put_counted<P: Place>(
    place: &mut P,
    alloc: Global,
    faults: &mut u64,
    bytes: &[u8],
) -> Result<(), FileEnd>
    ensures has { OnOk result (P.Has place.new bytes.now) }
    ensures failed { IsErrOf result FileEnd.Failed → P.MayFail place.new }
    ensures none_failed { OnOk result (faults.new ≡ faults.old) }
    ensures counted { IsErrOf result FileEnd.Failed → faults.new ≡ next_count faults.old }
    ensures memory { IsErrOf result FileEnd.Memory → faults.new ≡ faults.old }
    ensures rises { faults.old ≤ faults.new }
{
    let is_put = match replace(place, alloc, bytes) {
        Ok(()) => true,
        Err(Unreplaced::Unfit) => place.write_over(bytes).is_ok(),
        Err(Unreplaced::Failed) => false,
        Err(Unreplaced::Memory) => return Err(FileEnd::Memory),
    };
    if is_put {
        return Ok(());
    }
    *faults = faults.saturating_add(1);
    Err(FileEnd::Failed)
}
