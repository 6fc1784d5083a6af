//! The text of a certificate, written.

ghost use Rattle.std.specs.Prelude.{◌≡◌, ◌++◌, ◌∷◌, [], ◌<◌, ◌^◌, Ok, IfOk, OnOk};
ghost use Rattle.narrow_fraction.specs.Fraction.{FitsFrac};
ghost use Rattle.search_box.specs.declared.span.At.TheVariants.{Loop, Turn};
ghost use Rattle.certificate_model.specs.{Words.{line_of}, Families.{table_of, row_words_in, IsNamedIn}};
ghost use Rattle.certificate_model.specs.Warrants.{SplitAt, warrant_of, HasTiming, IsCertificateIn};
ghost use Rattle.plan_text.specs.{Spelling.{ended}, FirstText.{first_text, certificate_text}, CertificateReading.{certificate_of}};
ghost use Rattle.plan_text.specs.CertificateText.{fraction_words, split_words, timing_part, claim_lines, IsHeldClaim, IsHeldTiming, IsHeldNode, IsHeldWith};

use crate::kind::CertificateKind;
use crate::writing::push_spaced;
use certificate_model::{CertNode, Certificate, Claim, FamilyName, family_name_in, is_lone_in};
use named_row::RowId;
use narrow_fraction::{Frac, Memory};
use quantity_text::{push_bytes, push_exact, push_number, push_text, push_whole};
use search_box::At;
use std::alloc::Global;

/// Writes a line at the end.
pub fn push_line(out: &mut Vec<u8>, line: &[u8]) -> Result<(), Memory>
    ensures { OnOk result (out.new.items ≡ out.old.items ++ ended (line.now ∷ [])) }
{
    push_bytes(out, line)?;
    push_text(out, "\n")
}

/// Writes a line of a key and a fraction at the end.
fn push_value(out: &mut Vec<u8>, key: &[u8], value: Frac) -> Result<(), Memory>
    ensures text { OnOk result (out.new.items ≡ out.old.items ++ ended (line_of (fraction_words key.now value) ∷ [])) }
    ensures held { OnOk result (FitsFrac value) }
{
    push_bytes(out, key)?;
    push_text(out, " ")?;
    push_exact(out, value.fitting())?;
    push_text(out, "\n")
}

/// Writes the name of a row.
pub(crate) fn push_name(out: &mut Vec<u8>, names: &[FamilyName], row: RowId) -> Result<(), Memory>
    requires { IsNamedIn (table_of names.now) row }
    ensures text { OnOk result (out.new.items ≡ out.old.items ++ line_of (row_words_in (table_of names.now) row)) }
    ensures held { row.index < 2 ^ 32 }
{
    push_text(out, family_name_in(names, row.family))?;
    if is_lone_in(names, row.family) {
        Ok(())
    } else {
        push_spaced(out, row.index as u128)
    }
}

/// Writes the words of a split of a loop.
fn push_loop(out: &mut Vec<u8>, link: u32, at: i64) -> Result<(), Memory>
    ensures { OnOk result (out.new.items ≡ out.old.items ++ line_of (split_words (Loop link at))) }
{
    push_text(out, "split loop")?;
    push_spaced(out, link as u128)?;
    push_text(out, " ")?;
    push_whole(out, at as i128)
}

/// Writes the words of a split of a turn.
fn push_turn(out: &mut Vec<u8>, signal: u32, rank: u32) -> Result<(), Memory>
    ensures { OnOk result (out.new.items ≡ out.old.items ++ line_of (split_words (Turn signal rank))) }
{
    push_text(out, "split turn")?;
    push_spaced(out, signal as u128)?;
    push_text(out, " ")?;
    push_number(out, rank as u128)
}

/// Writes the words of a split.
fn push_place(out: &mut Vec<u8>, place: At) -> Result<(), Memory>
    ensures text { OnOk result (out.new.items ≡ out.old.items ++ line_of (split_words place)) }
    ensures held { IsHeldNode (SplitAt place) }
{
    match place {
        At::Loop { link, at } => push_loop(out, link, at),
        At::Turn { signal, rank } => push_turn(out, signal, rank),
    }
}

/// Writes the line of a split.
pub(crate) fn push_split(out: &mut Vec<u8>, place: At) -> Result<(), Memory>
    ensures text { OnOk result (out.new.items ≡ out.old.items ++ ended (line_of (split_words place) ∷ [])) }
    ensures held { IsHeldNode (SplitAt place) }
{
    push_place(out, place)?;
    push_text(out, "\n")
}

/// Writes the lines of a timing, if there is one.
fn push_timing<K: CertificateKind>(
    out: &mut Vec<u8>,
    timing: &Option<K::Timing>,
) -> Result<(), Memory>
    ensures text { OnOk result (out.new.items ≡ out.old.items ++ ended (timing_part K.text timing.now)) }
    ensures held { OnOk result (IsHeldTiming K.text timing.now) }
{
    match timing {
        Some(timing) => K::push_timing(out, timing),
        None => Ok(()),
    }
}

/// Writes the lines of a claim and its timing, from the second line of a certificate on.
#[tactic(auto, unfolding(crate::specs::CertificateText::claim_lines))]
pub fn push_claim<K: CertificateKind>(
    out: &mut Vec<u8>,
    claim: &Claim,
    timing: &Option<K::Timing>,
) -> Result<(), Memory>
    requires { HasTiming claim.now timing.now }
    ensures text { OnOk result (out.new.items ≡ out.old.items ++ ended (claim_lines K.text claim.now timing.now)) }
    ensures claim { OnOk result (IsHeldClaim claim.now) }
    ensures timing { OnOk result (IsHeldTiming K.text timing.now) }
{
    match claim {
        Claim::Best { value } => {
            push_line(out, b"verdict best")?;
            push_value(out, b"value", *value)?;
            push_timing::<K>(out, timing)
        }
        Claim::NoTiming => push_line(out, b"verdict none"),
        Claim::Stopped { bound, value } => {
            push_line(out, b"verdict open")?;
            push_value(out, b"bound", *bound)?;
            match value {
                Some(value) => {
                    push_value(out, b"value", *value)?;
                    push_timing::<K>(out, timing)
                }
                None => push_line(out, b"no timing"),
            }
        }
    }
}

/// The text of a certificate of a kind, with this first line and the rows named in each leaf.
pub fn write_named<K: CertificateKind>(
    alloc: Global,
    head: &[u8],
    claim: &Claim,
    timing: &Option<K::Timing>,
    nodes: &[CertNode],
) -> Result<Vec<u8>, Memory>
    requires { IsCertificateIn K.table (warrant_of claim.now timing.now nodes.now) }
    ensures text { IfOk result (λ v. v.items ≡ first_text K.text K.table head.now (warrant_of claim.now timing.now nodes.now)) }
    ensures held { OnOk result (IsHeldWith K.text K.table (warrant_of claim.now timing.now nodes.now)) }
{
    let mut out = Vec::new(alloc);
    push_line(&mut out, head)?;
    push_claim::<K>(&mut out, claim, timing)?;
    K::push_named_tree(&mut out, nodes)?;
    Ok(out)
}

/// The text of a certificate that names its rows in each leaf, which is read again as that very certificate.
pub fn write_certificate(alloc: Global, certificate: &Certificate) -> Result<Vec<u8>, Memory>
    ensures text { IfOk result (λ v. v.items ≡ certificate_text certificate.now) }
    ensures read_back { IfOk result (λ v. certificate_of v.items ≡ Ok certificate.now) }
{
    write_named::<Certificate>(
        alloc,
        b"maxband-certificate 1",
        &certificate.claim,
        &certificate.timing,
        certificate.nodes.as_slice(),
    )
}
