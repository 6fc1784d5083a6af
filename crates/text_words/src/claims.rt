//! What a certificate claims.

ghost use Rattle.std.specs.Prelude.{◌≡◌, ◌++◌, OnOk, true, false};
ghost use Rattle.text_words.specs.Claims.{is_cut, cut_text, number_text, before_bound, none_claim, bound_text};
ghost use Rattle.text_words.specs.Claims.{between_text, stopped_line, claim_line, tree_line, timing_part, certificate_words, link_words};

use crate::timings::{push_bands, push_grid};
use crate::trees::push_tree;
use certificate_model::{Certificate, Claim};
use link_proof::LinkCertificate;
use narrow_fraction::{Frac, Memory};
use quantity_text::{push_decimal, push_exact, push_text};
use time_space::Timing;

/// The greatest denominator of a number that is cut at a decimal place.
const MOST_CUT: i128 = 1 << 120;

fn is_cut(value: Frac) -> bool
    ensures { result ≡ is_cut value }
{
    0 <= value.num() && value.den() <= MOST_CUT
}

fn push_cut(out: &mut Vec<u8>, value: Frac) -> Result<(), Memory>
    ensures { OnOk result (out.new.items ≡ out.old.items ++ cut_text value) }
{
    if !is_cut(value) {
        return Ok(());
    }
    push_text(out, " = ")?;
    push_decimal(out, value, 6)
}

#[tactic(auto, unfolding(crate::specs::Claims::number_text))]
fn push_value(out: &mut Vec<u8>, value: Frac) -> Result<(), Memory>
    ensures { OnOk result (out.new.items ≡ out.old.items ++ number_text value) }
{
    push_exact(out, value)?;
    push_cut(out, value)
}

fn before_bound(links: bool) -> &'static str
    ensures { result.now ≡ before_bound links }
{
    if links {
        "it claims: no link timing of its street has a value above "
    } else {
        "it claims: no timing of its street has a weighted band above "
    }
}

fn none_claim(links: bool) -> &'static str
    ensures { result.now ≡ none_claim links }
{
    if links {
        "it claims: no link timing of its street keeps all rules\n"
    } else {
        "it claims: no timing of its street keeps all rules\n"
    }
}

/// Writes that nothing is above a bound, and an end.
#[tactic(auto, unfolding(crate::specs::Claims::bound_text))]
fn push_bound(out: &mut Vec<u8>, links: bool, bound: Frac, end: &str) -> Result<(), Memory>
    ensures { OnOk result (out.new.items ≡ out.old.items ++ bound_text links bound end.now) }
{
    push_text(out, before_bound(links))?;
    push_value(out, bound)?;
    push_text(out, end)
}

/// Writes that nothing is above a bound, and what value there is.
#[tactic(auto, unfolding(crate::specs::Claims::between_text))]
fn push_between(out: &mut Vec<u8>, links: bool, bound: Frac, value: Frac) -> Result<(), Memory>
    ensures { OnOk result (out.new.items ≡ out.old.items ++ between_text links bound value) }
{
    push_bound(out, links, bound, ", and its own has ")?;
    push_value(out, value)?;
    push_text(out, "\n")
}

/// Writes the claim of a search that stopped.
fn push_stopped(
    out: &mut Vec<u8>,
    links: bool,
    bound: Frac,
    value: Option<Frac>,
) -> Result<(), Memory>
    ensures { OnOk result (out.new.items ≡ out.old.items ++ stopped_line links bound value) }
{
    match value {
        Some(value) => push_between(out, links, bound, value),
        None => push_bound(out, links, bound, ", and it has none\n"),
    }
}

/// Writes a claim in a sentence.
fn push_claim(out: &mut Vec<u8>, links: bool, claim: Claim) -> Result<(), Memory>
    ensures { OnOk result (out.new.items ≡ out.old.items ++ claim_line links claim) }
{
    match claim {
        Claim::Best { value } => push_bound(out, links, value, ", and its own has that\n"),
        Claim::NoTiming => push_text(out, none_claim(links)),
        Claim::Stopped { bound, value } => push_stopped(out, links, bound, value),
    }
}

fn push_timing_part(out: &mut Vec<u8>, timing: &Option<Timing>) -> Result<(), Memory>
    ensures { OnOk result (out.new.items ≡ out.old.items ++ timing_part timing.now) }
{
    match timing {
        Some(timing) => {
            push_grid(out, timing)?;
            push_bands(out, timing)
        }
        None => Ok(()),
    }
}

/// Writes what a certificate claims.
fn push_its_claim(out: &mut Vec<u8>, certificate: &Certificate) -> Result<(), Memory>
    ensures { OnOk result (out.new.items ≡ out.old.items ++ claim_line false certificate.now.claim) }
{
    push_claim(out, false, certificate.claim)
}

/// Writes the numbers of its timing.
fn push_its_timing(out: &mut Vec<u8>, certificate: &Certificate) -> Result<(), Memory>
    ensures { OnOk result (out.new.items ≡ out.old.items ++ timing_part certificate.now.timing) }
{
    push_timing_part(out, &certificate.timing)
}

/// Writes what a certificate of links claims.
fn push_link_claim(out: &mut Vec<u8>, certificate: &LinkCertificate) -> Result<(), Memory>
    ensures { OnOk result (out.new.items ≡ out.old.items ++ claim_line true certificate.now.claim) }
{
    push_claim(out, true, certificate.claim)
}

/// Writes how large the tree is.
fn push_nodes(out: &mut Vec<u8>, certificate: &Certificate) -> Result<(), Memory>
    ensures { OnOk result (out.new.items ≡ out.old.items ++ tree_line certificate.now.nodes) }
{
    push_tree(out, certificate.nodes.as_slice())
}

/// The same of a certificate of links.
fn push_link_nodes(out: &mut Vec<u8>, certificate: &LinkCertificate) -> Result<(), Memory>
    ensures { OnOk result (out.new.items ≡ out.old.items ++ tree_line certificate.now.nodes) }
{
    push_tree(out, certificate.nodes.as_slice())
}

/// Writes what stands in a certificate: its claim in a sentence, the numbers of its timing, how large its tree is, and which commands say
/// more with its street. The error is want of memory.
#[tactic(auto, unfolding(crate::specs::Claims::certificate_words))]
pub fn push_certificate_words(out: &mut Vec<u8>, certificate: &Certificate) -> Result<(), Memory>
    ensures { OnOk result (out.new.items ≡ out.old.items ++ certificate_words certificate.now) }
{
    push_its_claim(out, certificate)?;
    push_its_timing(out, certificate)?;
    push_nodes(out, certificate)?;
    push_text(
        out,
        "whether that follows wants the street: `maxband check STREET FILE`; its timing in seconds: `maxband sheet STREET FILE SHEET`\n",
    )
}

/// The same of a certificate of links. The error is want of memory.
#[tactic(auto, unfolding(crate::specs::Claims::link_words))]
pub fn push_link_certificate_words(
    out: &mut Vec<u8>,
    certificate: &LinkCertificate,
) -> Result<(), Memory>
    ensures { OnOk result (out.new.items ≡ out.old.items ++ link_words certificate.now) }
{
    push_link_claim(out, certificate)?;
    push_link_nodes(out, certificate)?;
    push_text(
        out,
        "whether that follows wants the street: `maxband check-links STREET FILE`\n",
    )
}
