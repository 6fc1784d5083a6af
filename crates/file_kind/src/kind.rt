//! What a file is.

ghost use Rattle.std.specs.Prelude.{◌≡◌, IfOk};
ghost use Rattle.toml.specs.View.{view};
ghost use Rattle.file_kind.specs.Kinds.{first_line, format_of_line, text_format, format_kind, text_kind, document_kind, root_kind, root_of, kind_of};

use crate::cut::before;
use artery_model::Flaw;
use description_reader::{read_root, value_at};
use narrow_fraction::Memory;
use std::alloc::Global;
use toml::Value;

/// What a file is.
#[derive(Clone, Copy, Debug, PartialEq, Eq)]
pub enum FileKind {
    Timing,
    /// A certificate, in either format.
    Certificate,
    /// A certificate of link timings.
    LinkCertificate,
    /// A plan as people type it.
    Plan,
    /// The description of a street, or what is none of the others.
    Description,
}

/// Which text begins with a line: the format of its first line.
#[derive(Clone, Copy, Debug, PartialEq, Eq)]
pub enum TextFormat {
    Timing,
    FirstCertificate,
    SecondCertificate,
    Links,
}

/// What stands before the first line feed, all where there is none.
pub(crate) fn first_line(bytes: &[u8]) -> &[u8]
    ensures { result.now ≡ first_line bytes.now }
{
    before(bytes, b'\n')
}

fn format_of_line(line: &[u8]) -> Option<TextFormat>
    ensures { result ≡ format_of_line line.now }
{
    if line == b"maxband-timing 1".as_slice() {
        Some(TextFormat::Timing)
    } else if line == b"maxband-certificate 1".as_slice() {
        Some(TextFormat::FirstCertificate)
    } else if line == b"maxband-certificate 2".as_slice() {
        Some(TextFormat::SecondCertificate)
    } else if line == b"maxband-links 1".as_slice() {
        Some(TextFormat::Links)
    } else {
        None
    }
}

/// The format of the text that begins with the first line, none where that is the one of no text.
pub fn text_format(bytes: &[u8]) -> Option<TextFormat>
    ensures { result ≡ text_format bytes.now }
{
    format_of_line(first_line(bytes))
}

fn format_kind(format: TextFormat) -> FileKind
    ensures { result ≡ format_kind format }
{
    match format {
        TextFormat::Timing => FileKind::Timing,
        TextFormat::FirstCertificate => FileKind::Certificate,
        TextFormat::SecondCertificate => FileKind::Certificate,
        TextFormat::Links => FileKind::LinkCertificate,
    }
}

/// The text that the bytes are by their first line, none where it is that of no text.
pub fn text_kind(bytes: &[u8]) -> Option<FileKind>
    ensures { result ≡ text_kind bytes.now }
{
    match text_format(bytes) {
        Some(format) => Some(format_kind(format)),
        None => None,
    }
}

fn document_kind(root: &Value) -> FileKind
    ensures { result ≡ document_kind (view root.now) }
{
    if value_at(root, "plan").is_some() && value_at(root, "artery").is_none() {
        FileKind::Plan
    } else {
        FileKind::Description
    }
}

/// What the bytes are. The error is want of memory.
pub fn file_kind(alloc: Global, bytes: &[u8]) -> Result<FileKind, Memory>
    ensures { IfOk result (λ kind. kind ≡ kind_of bytes.now) }
{
    match text_kind(bytes) {
        Some(kind) => Ok(kind),
        None => document_in(alloc, bytes),
    }
}

/// What bytes are that no text begins.
#[tactic(auto, using(crate::proofs::Roots::kind_read, crate::proofs::Roots::kind_refused))]
fn document_in(alloc: Global, bytes: &[u8]) -> Result<FileKind, Memory>
    ensures { IfOk result (λ kind. kind ≡ root_kind (root_of bytes.now)) }
{
    match read_root(alloc, bytes) {
        Ok(root) => Ok(document_kind(&root)),
        Err(Flaw::Refused(_)) => Ok(FileKind::Description),
        Err(Flaw::Memory) => Err(Memory),
    }
}
