//! Files kept in memory, found by their names.

ghost use Rattle.std.specs.Prelude.{◌≡◌, ◌<◌, ◌≤◌, Some, None, MatchOption, OnOk, OnErr, length};
ghost use Rattle.outer_edge.specs.{Held.{ReadsFrom}, Named.{stored}, Store.{found, OthersKept}};

use narrow_fraction::Memory;
use std::alloc::Global;

/// A file in memory.
#[derive(Drop)]
pub(crate) struct Named {
    name: String,
    bytes: Vec<u8>,
}

/// The bytes of a name, where it is there.
pub(crate) fn find<'a>(files: &'a [Named], name: &str) -> Option<&'a [u8]>
    ensures { MatchOption result (found (stored files.now) name.now ≡ None) (λ bytes. found (stored files.now) name.now ≡ Some bytes.now) }
{
    for file in files {
        if file.name.as_str() == name {
            return Some(file.bytes.as_slice());
        }
    }
    None
}

/// Copies what fits of a file from a place on, and answers how many bytes.
pub(crate) fn copy_from(file: &[u8], into: &mut [u8], at: u64) -> usize
    requires { 0 < length into.old }
    ensures bytes { ReadsFrom file.now at result into.new }
    ensures within { result ≤ length into.new }
{
    if at >= file.len() as u64 {
        return 0;
    }
    let rest = &file[at as usize..];
    let count = rest.len().min(into.len());
    into[..count].copy_from_slice(&rest[..count]);
    count
}

/// Puts a file in front of all others, where it hides an older one of its name.
pub(crate) fn put_copy(
    alloc: Global,
    files: &mut Vec<Named>,
    name: &str,
    bytes: &[u8],
) -> Result<(), Memory>
    ensures put { OnOk result (found (stored files.new.items) name.now ≡ Some bytes.now) }
    ensures others { OthersKept (stored files.old.items) (stored files.new.items) name.now }
    ensures err { OnErr result (files.new.items ≡ files.old.items) }
{
    let name = String::from_str(alloc, name)?;
    let bytes = bytes.to_vec(alloc)?;
    match files.insert(0, Named { name, bytes }) {
        Ok(()) => Ok(()),
        Err(_) => Err(Memory),
    }
}
