//! What is found of a file, and what follows from it.

ghost use Rattle.std.specs.{Prelude.{◌≡◌, ◌↔◌, IsTrue}, Fs.{metadata_mode, file_type, IsFile}};
ghost use Rattle.outer_edge.specs.Replaced.{is_of_system, is_regular, is_of_one_owner, is_absence, is_taken, is_want_of_room};

use std::fs::Metadata;
use std::io::ErrorKind;
use std::os::unix::fs::MetadataExt;

/// What is found of a file.
#[derive(Clone, Copy, Debug)]
pub struct Facts {
    /// Whether it is a regular file, and no folder, device or pipe.
    pub is_file: bool,
    /// How many names it has.
    pub names: u64,
    pub owner: u32,
    pub group: u32,
    /// Its kind and its permissions.
    pub mode: u32,
}

impl Facts {
    /// Of what the system tells.
    pub fn of(found: &Metadata) -> Facts
        ensures is_file { IsTrue result.is_file ↔ IsFile (file_type found.now) }
        ensures mode { result.mode ≡ metadata_mode found.now }
    {
        Facts {
            is_file: found.is_file(),
            names: found.nlink(),
            owner: found.uid(),
            group: found.gid(),
            mode: found.mode(),
        }
    }

    /// Whether it is a regular file of one name.
    pub fn is_regular(self) -> bool
        ensures { result ≡ is_regular self }
    {
        self.is_file && self.names <= 1
    }

    /// Whether the other file has the same owner and group.
    pub fn is_of_one_owner(self, other: Facts) -> bool
        ensures { result ≡ is_of_one_owner self other }
    {
        self.owner == other.owner && self.group == other.group
    }
}

/// Whether an error says that there is no such file.
pub fn is_absence(kind: ErrorKind) -> bool
    ensures { result ≡ is_absence kind }
{
    matches!(kind, ErrorKind::NotFound)
}

/// Whether an error says that a name is taken.
pub fn is_taken(kind: ErrorKind) -> bool
    ensures { result ≡ is_taken kind }
{
    matches!(kind, ErrorKind::AlreadyExists)
}

/// Whether an error says that the disk is full.
pub fn is_want_of_room(kind: ErrorKind) -> bool
    ensures { result ≡ is_want_of_room kind }
{
    matches!(kind, ErrorKind::StorageFull | ErrorKind::QuotaExceeded)
}

/// Whether a link is one of the system, as `/dev/stdout`. Such stand for files that are open: a new one would not be what
/// is open there.
pub fn is_of_system(link: &str) -> bool
    ensures { result ≡ is_of_system link.now }
{
    let link = link.as_bytes();
    link.starts_with(b"/dev/") || link.starts_with(b"/proc/")
}
