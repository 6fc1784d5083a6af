//! What is told of a file, by what it is.

ghost use Rattle.std.specs.Prelude.{◌≡◌, None, IfOk};
ghost use Rattle.file_words.specs.Explained.{TellsAs, Tells};

use crate::reading::{explain_certificate, explain_links, explain_timing};
use crate::refusing::{explain_description, explain_plan};
use file_kind::{FileKind, file_kind};
use narrow_fraction::Memory;
use run_inputs::Found;
use std::alloc::Global;

/// What is told of bytes as a file of this kind.
fn explained_as(alloc: Global, kind: FileKind, bytes: &[u8]) -> Result<Found, Memory>
    ensures told { IfOk result (λ a. TellsAs kind bytes.now a.cause a.lines.items) }
    ensures no_put { IfOk result (λ a. a.bytes ≡ None) }
{
    match kind {
        FileKind::Timing => explain_timing(alloc, bytes),
        FileKind::Certificate => explain_certificate(alloc, bytes),
        FileKind::LinkCertificate => explain_links(alloc, bytes),
        FileKind::Plan => explain_plan(alloc, bytes),
        FileKind::Description => explain_description(alloc, bytes),
    }
}

/// What is told of the bytes of a file: what they are and what stands there, or the line with which other commands refuse them, with what is
/// wrong and what is wanted. The error is want of memory.
pub fn explained(alloc: Global, bytes: &[u8]) -> Result<Found, Memory>
    ensures told { IfOk result (λ a. Tells bytes.now a.cause a.lines.items) }
    ensures no_put { IfOk result (λ a. a.bytes ≡ None) }
{
    let kind = file_kind(alloc, bytes)?;
    explained_as(alloc, kind, bytes)
}
