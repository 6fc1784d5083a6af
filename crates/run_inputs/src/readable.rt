//! What a file can be read as.

ghost use Rattle.std.specs.Prelude.{◌≡◌, ◌↔◌, ◌<◌, ◌^◌, None, IfOk, IfErr, IsTrue};
ghost use Rattle.run_inputs.specs.{Lines.{refused_line, bad_text_line}, Timed.{is_timing, is_certificate}};
ghost use Rattle.run_inputs.specs.Reading.{Value, most_bytes, end_of, IsReadAs, IsRefusedFor, IsLongFor};
ghost use Rattle.run_inputs.specs.declared.reader.ReadAs.{ReadAs};
ghost use Rattle.run_inputs.specs.declared.reader.ReadAs.TheVariants as reader;

use crate::cause::Cause;
use crate::found::{Unread, told};
use crate::lines::{bad_text_line, refused_line};
use crate::reader::{ReadAs, SHORT_FILE};
use artery_model::{Artery, Flaw, Refusal};
use description_reader::{TypedPlan, read_artery, read_plan};
use link_proof::{LinkCertificate, read_links};
use plan_text::{BadText, Certificate, TextEnd, read_certificate, read_timing};
use std::alloc::Global;
use time_space::Timing;

/// A value that a file is read as.
pub trait Readable: Drop {
    /// The kind of such files.
    ghost reader: { ReadAs };

    /// The value, as that kind has it.
    ghost value: { Self → Value reader };

    /// The most bytes of such a file.
    fn most_bytes() -> u64
        ensures most { result ≡ most_bytes reader }
        ensures few { result < 2 ^ 63 };

    /// Whether bytes within that limit are too many for what they begin with.
    fn are_too_many(bytes: &[u8]) -> bool
        ensures { IsTrue result ↔ IsLongFor reader bytes.now };

    /// The value that the bytes are read as, or why they are refused.
    fn read(alloc: Global, bytes: Vec<u8>) -> Result<Self, Unread>
        requires { IsLongFor reader bytes.items → ⊥ }
        ensures value { IfOk result (λ v. IsReadAs reader bytes.items (value v)) }
        ensures refused { IfErr result (λ end. IfOk (end_of end) (λ a. IsRefusedFor reader bytes.items a.cause a.lines.items)) }
        ensures no_put { IfErr result (λ end. IfOk (end_of end) (λ a. a.bytes ≡ None)) };
}

/// What is told of a description or a typed plan that is refused.
fn refused(alloc: Global, refusal: Refusal) -> Unread
    ensures cause { IfOk (end_of result) (λ a. a.cause ≡ Cause.Refused refusal) }
    ensures lines { IfOk (end_of result) (λ a. a.lines.items ≡ refused_line refusal) }
    ensures no_put { IfOk (end_of result) (λ a. a.bytes ≡ None) }
{
    match refused_line(alloc, &refusal) {
        Ok(line) => Unread::Told(told(Cause::Refused(refusal), line)),
        Err(_) => Unread::Memory,
    }
}

/// What is told of a text with a bad line.
fn bad_text(alloc: Global, bad: BadText) -> Unread
    ensures cause { IfOk (end_of result) (λ a. a.cause ≡ Cause.BadText bad) }
    ensures lines { IfOk (end_of result) (λ a. a.lines.items ≡ bad_text_line bad) }
    ensures no_put { IfOk (end_of result) (λ a. a.bytes ≡ None) }
{
    match bad_text_line(alloc, bad) {
        Ok(line) => Unread::Told(told(Cause::BadText(bad), line)),
        Err(_) => Unread::Memory,
    }
}

/// The artery that a description describes.
impl Readable for Artery {
    ghost reader = { reader.Description };

    ghost value = { λ a. a };

    fn most_bytes() -> u64 {
        ReadAs::Description.most_bytes()
    }

    fn are_too_many(_bytes: &[u8]) -> bool {
        false
    }

    fn read(alloc: Global, bytes: Vec<u8>) -> Result<Artery, Unread> {
        match read_artery(alloc, bytes.as_slice()) {
            Ok(artery) => Ok(artery),
            Err(Flaw::Refused(refusal)) => Err(refused(alloc, refusal)),
            Err(Flaw::Memory) => Err(Unread::Memory),
        }
    }
}

/// The plan that a text gives, typed in seconds.
impl Readable for TypedPlan {
    ghost reader = { reader.TypedPlan };

    ghost value = { λ p. p };

    fn most_bytes() -> u64 {
        ReadAs::TypedPlan.most_bytes()
    }

    fn are_too_many(_bytes: &[u8]) -> bool {
        false
    }

    fn read(alloc: Global, bytes: Vec<u8>) -> Result<TypedPlan, Unread> {
        match read_plan(alloc, bytes.as_slice()) {
            Ok(plan) => Ok(plan),
            Err(Flaw::Refused(refusal)) => Err(refused(alloc, refusal)),
            Err(Flaw::Memory) => Err(Unread::Memory),
        }
    }
}

impl Readable for Timing {
    ghost reader = { reader.Timing };

    ghost value = { λ t. t };

    fn most_bytes() -> u64 {
        ReadAs::Timing.most_bytes()
    }

    fn are_too_many(_bytes: &[u8]) -> bool {
        false
    }

    fn read(alloc: Global, bytes: Vec<u8>) -> Result<Timing, Unread> {
        match read_timing(alloc, bytes.as_slice()) {
            Ok(timing) => Ok(timing),
            Err(TextEnd::Bad(bad)) => Err(bad_text(alloc, bad)),
            Err(TextEnd::Memory) => Err(Unread::Memory),
        }
    }
}

impl Readable for Certificate {
    ghost reader = { reader.Certificate };

    ghost value = { λ w. w };

    fn most_bytes() -> u64 {
        ReadAs::Certificate.most_bytes()
    }

    fn are_too_many(_bytes: &[u8]) -> bool {
        false
    }

    fn read(alloc: Global, bytes: Vec<u8>) -> Result<Certificate, Unread> {
        match read_certificate(alloc, bytes.as_slice()) {
            Ok(certificate) => Ok(certificate),
            Err(TextEnd::Bad(bad)) => Err(bad_text(alloc, bad)),
            Err(TextEnd::Memory) => Err(Unread::Memory),
        }
    }
}

/// The timing that a file has: the text of a timing, or a certificate, which may have none.
#[derive(Drop)]
pub struct Timed {
    pub timing: Option<Timing>,
}

/// Whether the first line is that of a timing.
fn is_timing(bytes: &[u8]) -> bool
    ensures { result ≡ is_timing bytes.now }
{
    bytes.starts_with(b"maxband-timing 1\n")
}

impl Readable for Timed {
    ghost reader = { reader.Timed };

    ghost value = { λ t. t.timing };

    fn most_bytes() -> u64 {
        ReadAs::Timed.most_bytes()
    }

    fn are_too_many(_bytes: &[u8]) -> bool {
        false
    }

    #[tactic(auto, using(crate::proofs::Timing::timing_read, crate::proofs::Timing::certificate_read))]
    fn read(alloc: Global, bytes: Vec<u8>) -> Result<Timed, Unread> {
        if is_timing(bytes.as_slice()) {
            let timing = <Timing as Readable>::read(alloc, bytes)?;
            return Ok(Timed {
                timing: Some(timing),
            });
        }
        let warrant = <Certificate as Readable>::read(alloc, bytes)?;
        let Certificate { timing, .. } = warrant;
        Ok(Timed { timing })
    }
}

impl Readable for LinkCertificate {
    ghost reader = { reader.LinkCertificate };

    ghost value = { λ w. w };

    fn most_bytes() -> u64 {
        ReadAs::LinkCertificate.most_bytes()
    }

    fn are_too_many(_bytes: &[u8]) -> bool {
        false
    }

    fn read(alloc: Global, bytes: Vec<u8>) -> Result<LinkCertificate, Unread> {
        match read_links(alloc, bytes.as_slice()) {
            Ok(certificate) => Ok(certificate),
            Err(TextEnd::Bad(bad)) => Err(bad_text(alloc, bad)),
            Err(TextEnd::Memory) => Err(Unread::Memory),
        }
    }
}

/// The bytes of a file of any kind.
#[derive(Drop)]
pub struct AnyFile {
    pub bytes: Vec<u8>,
}

/// Whether the first line is that of a certificate, in either format, or of one of links.
fn is_certificate(bytes: &[u8]) -> bool
    ensures { result ≡ is_certificate bytes.now }
{
    bytes.starts_with(b"maxband-certificate 1\n")
        || bytes.starts_with(b"maxband-certificate 2\n")
        || bytes.starts_with(b"maxband-links 1\n")
}

impl Readable for AnyFile {
    ghost reader = { reader.AnyFile };

    ghost value = { λ file. file.bytes.items };

    fn most_bytes() -> u64 {
        ReadAs::AnyFile.most_bytes()
    }

    fn are_too_many(bytes: &[u8]) -> bool {
        SHORT_FILE < bytes.len() as u64 && !is_certificate(bytes)
    }

    fn read(_alloc: Global, bytes: Vec<u8>) -> Result<AnyFile, Unread> {
        Ok(AnyFile { bytes })
    }
}
