//! What is told of a timing and of certificates, and of bytes that are refused as such a text.

ghost use Rattle.std.specs.Prelude.{◌≡◌, ◌++◌, None, IfOk, OnOk};
ghost use Rattle.file_kind.specs.declared.kind.FileKind.TheVariants as kind;
ghost use Rattle.text_words.specs.{Claims.{timing_words, certificate_words, link_words}, Faults.{bad_text_words}};
ghost use Rattle.run_inputs.specs.Lines.{bad_text_line};
ghost use Rattle.file_words.specs.Explained.{kind_words, read_as_line, TellsAs};

use file_kind::FileKind;
use link_proof::{LinkCertificate, read_links};
use narrow_fraction::Memory;
use plan_text::{BadText, Certificate, TextEnd, read_certificate, read_timing};
use quantity_text::push_text;
use run_inputs::{Cause, Found, bad_text_line, told};
use std::alloc::Global;
use text_words::{
    push_bad_text, push_certificate_words, push_link_certificate_words, push_timing_words,
};
use time_space::Timing;

/// What a file is, as the first line of what is told of one that is read.
pub fn kind_words(kind: FileKind) -> &'static str
    ensures { result.now ≡ kind_words kind }
{
    match kind {
        FileKind::Timing => "a timing\n",
        FileKind::Certificate => "a certificate of solve\n",
        FileKind::LinkCertificate => "a certificate of links\n",
        FileKind::Plan => "a plan typed in seconds\n",
        FileKind::Description => "the description of a street\n",
    }
}

/// Writes as what a file was read.
pub fn push_read_as(out: &mut Vec<u8>, kind: FileKind) -> Result<(), Memory>
    ensures { OnOk result (out.new.items ≡ out.old.items ++ read_as_line kind) }
{
    push_text(out, "read as ")?;
    push_text(out, kind_words(kind))
}

/// The lines of bytes that are refused as a text of this kind.
fn bad_lines(alloc: Global, kind: FileKind, bytes: &[u8], bad: BadText) -> Result<Vec<u8>, Memory>
    ensures { IfOk result (λ lines. lines.items ≡ bad_text_line bad ++ (read_as_line kind ++ bad_text_words bytes.now bad)) }
{
    let mut lines = bad_text_line(alloc, bad)?;
    push_read_as(&mut lines, kind)?;
    push_bad_text(&mut lines, bytes, bad)?;
    Ok(lines)
}

/// What is told of bytes that are refused as a text of this kind.
fn explain_bad(alloc: Global, kind: FileKind, bytes: &[u8], bad: BadText) -> Result<Found, Memory>
    ensures cause { IfOk result (λ a. a.cause ≡ Cause.BadText bad) }
    ensures lines { IfOk result (λ a. a.lines.items ≡ bad_text_line bad ++ (read_as_line kind ++ bad_text_words bytes.now bad)) }
    ensures no_put { IfOk result (λ a. a.bytes ≡ None) }
{
    let lines = bad_lines(alloc, kind, bytes, bad)?;
    Ok(told(Cause::BadText(bad), lines))
}

fn timing_lines(alloc: Global, timing: &Timing) -> Result<Vec<u8>, Memory>
    ensures { IfOk result (λ lines. lines.items ≡ kind_words kind.Timing ++ timing_words timing.now) }
{
    let mut lines = Vec::new(alloc);
    push_text(&mut lines, kind_words(FileKind::Timing))?;
    push_timing_words(&mut lines, timing)?;
    Ok(lines)
}

fn certificate_lines(alloc: Global, certificate: &Certificate) -> Result<Vec<u8>, Memory>
    ensures { IfOk result (λ lines. lines.items ≡ kind_words kind.Certificate ++ certificate_words certificate.now) }
{
    let mut lines = Vec::new(alloc);
    push_text(&mut lines, kind_words(FileKind::Certificate))?;
    push_certificate_words(&mut lines, certificate)?;
    Ok(lines)
}

fn link_lines(alloc: Global, certificate: &LinkCertificate) -> Result<Vec<u8>, Memory>
    ensures { IfOk result (λ lines. lines.items ≡ kind_words kind.LinkCertificate ++ link_words certificate.now) }
{
    let mut lines = Vec::new(alloc);
    push_text(&mut lines, kind_words(FileKind::LinkCertificate))?;
    push_link_certificate_words(&mut lines, certificate)?;
    Ok(lines)
}

/// What is told of bytes as a timing.
pub fn explain_timing(alloc: Global, bytes: &[u8]) -> Result<Found, Memory>
    ensures told { IfOk result (λ a. TellsAs kind.Timing bytes.now a.cause a.lines.items) }
    ensures no_put { IfOk result (λ a. a.bytes ≡ None) }
{
    match read_timing(alloc, bytes) {
        Ok(timing) => Ok(told(Cause::Done, timing_lines(alloc, &timing)?)),
        Err(TextEnd::Bad(bad)) => explain_bad(alloc, FileKind::Timing, bytes, bad),
        Err(TextEnd::Memory) => Err(Memory),
    }
}

/// The same as a certificate, in either format.
#[tactic(auto, using(crate::proofs::Telling::certificate_told))]
pub fn explain_certificate(alloc: Global, bytes: &[u8]) -> Result<Found, Memory>
    ensures told { IfOk result (λ a. TellsAs kind.Certificate bytes.now a.cause a.lines.items) }
    ensures no_put { IfOk result (λ a. a.bytes ≡ None) }
{
    match read_certificate(alloc, bytes) {
        Ok(certificate) => Ok(told(Cause::Done, certificate_lines(alloc, &certificate)?)),
        Err(TextEnd::Bad(bad)) => explain_bad(alloc, FileKind::Certificate, bytes, bad),
        Err(TextEnd::Memory) => Err(Memory),
    }
}

/// The same as a certificate of links.
#[tactic(auto, using(crate::proofs::Telling::links_told))]
pub fn explain_links(alloc: Global, bytes: &[u8]) -> Result<Found, Memory>
    ensures told { IfOk result (λ a. TellsAs kind.LinkCertificate bytes.now a.cause a.lines.items) }
    ensures no_put { IfOk result (λ a. a.bytes ≡ None) }
{
    match read_links(alloc, bytes) {
        Ok(certificate) => Ok(told(Cause::Done, link_lines(alloc, &certificate)?)),
        Err(TextEnd::Bad(bad)) => explain_bad(alloc, FileKind::LinkCertificate, bytes, bad),
        Err(TextEnd::Memory) => Err(Memory),
    }
}
