//! What is told of the description of a street and of a typed plan, and of bytes that are refused as one.

ghost use Rattle.std.specs.Prelude.{◌≡◌, ◌++◌, None, IfOk, OnOk};
ghost use Rattle.file_kind.specs.declared.kind.FileKind.TheVariants as kind;
ghost use Rattle.fault_words.specs.TextWords.{Adds};
ghost use Rattle.text_words.specs.Plans.{plan_words};
ghost use Rattle.run_inputs.specs.Lines.{refused_line};
ghost use Rattle.file_words.specs.Explained.{kind_words, read_as_line, described_words, AreFaultWords, TellsAs};

use crate::reading::{kind_words, push_read_as};
use artery_model::{Artery, Flaw, Refusal};
use description_reader::{TypedPlan, read_artery, read_plan};
use fault_words::{Document, push_fault_words};
use file_kind::{FileKind, look_line, looks_like};
use narrow_fraction::Memory;
use quantity_text::push_text;
use run_inputs::{Cause, Found, refused_line, told};
use std::alloc::Global;
use street_words::{push_bounds, push_street, push_warnings};
use text_words::push_plan_words;

/// Writes what is wrong with bytes that are refused as such a document.
#[tactic(auto, using(crate::proofs::Telling::look_added))]
fn push_words(
    out: &mut Vec<u8>,
    document: Document,
    bytes: &[u8],
    refusal: &Refusal,
) -> Result<(), Memory>
    ensures { OnOk result (Adds (AreFaultWords document bytes.now refusal.now) out.old.items out.new.items) }
{
    push_fault_words(out, document, bytes, refusal)?;
    push_text(out, look_line(looks_like(bytes)))
}

/// The lines of bytes that are refused as such a document.
fn refused_lines(
    alloc: Global,
    kind: FileKind,
    document: Document,
    bytes: &[u8],
    refusal: &Refusal,
) -> Result<Vec<u8>, Memory>
    ensures { IfOk result (λ lines. Adds (AreFaultWords document bytes.now refusal.now) (refused_line refusal.now ++ read_as_line kind) lines.items) }
{
    let mut lines = refused_line(alloc, refusal)?;
    push_read_as(&mut lines, kind)?;
    push_words(&mut lines, document, bytes, refusal)?;
    Ok(lines)
}

/// What is told of bytes that are refused as such a document.
fn explain_refused(
    alloc: Global,
    kind: FileKind,
    document: Document,
    bytes: &[u8],
    refusal: Refusal,
) -> Result<Found, Memory>
    ensures cause { IfOk result (λ a. a.cause ≡ Cause.Refused refusal) }
    ensures lines { IfOk result (λ a. Adds (AreFaultWords document bytes.now refusal) (refused_line refusal ++ read_as_line kind) a.lines.items) }
    ensures no_put { IfOk result (λ a. a.bytes ≡ None) }
{
    let lines = refused_lines(alloc, kind, document, bytes, &refusal)?;
    Ok(told(Cause::Refused(refusal), lines))
}

/// The lines of a street that is described.
fn street_lines(alloc: Global, artery: &Artery) -> Result<Vec<u8>, Memory>
    ensures { IfOk result (λ lines. lines.items ≡ kind_words kind.Description ++ described_words artery.now) }
{
    let mut lines = Vec::new(alloc);
    push_text(&mut lines, kind_words(FileKind::Description))?;
    push_street(&mut lines, artery)?;
    push_bounds(&mut lines, artery)?;
    push_warnings(&mut lines, artery)?;
    Ok(lines)
}

fn plan_lines(alloc: Global, plan: &TypedPlan) -> Result<Vec<u8>, Memory>
    ensures { IfOk result (λ lines. lines.items ≡ kind_words kind.Plan ++ plan_words plan.now) }
{
    let mut lines = Vec::new(alloc);
    push_text(&mut lines, kind_words(FileKind::Plan))?;
    push_plan_words(&mut lines, plan)?;
    Ok(lines)
}

/// What is told of bytes as the description of a street.
pub fn explain_description(alloc: Global, bytes: &[u8]) -> Result<Found, Memory>
    ensures told { IfOk result (λ a. TellsAs kind.Description bytes.now a.cause a.lines.items) }
    ensures no_put { IfOk result (λ a. a.bytes ≡ None) }
{
    match read_artery(alloc, bytes) {
        Ok(artery) => {
            artery.known_valid();
            Ok(told(Cause::Done, street_lines(alloc, &artery)?))
        }
        Err(Flaw::Refused(refusal)) => {
            explain_refused(
                alloc,
                FileKind::Description,
                Document::Street,
                bytes,
                refusal,
            )
        }
        Err(Flaw::Memory) => Err(Memory),
    }
}

/// The same as a plan typed in seconds.
pub fn explain_plan(alloc: Global, bytes: &[u8]) -> Result<Found, Memory>
    ensures told { IfOk result (λ a. TellsAs kind.Plan bytes.now a.cause a.lines.items) }
    ensures no_put { IfOk result (λ a. a.bytes ≡ None) }
{
    match read_plan(alloc, bytes) {
        Ok(plan) => Ok(told(Cause::Done, plan_lines(alloc, &plan)?)),
        Err(Flaw::Refused(refusal)) => {
            explain_refused(alloc, FileKind::Plan, Document::Plan, bytes, refusal)
        }
        Err(Flaw::Memory) => Err(Memory),
    }
}
