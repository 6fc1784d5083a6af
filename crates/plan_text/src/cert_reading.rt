//! The text of a certificate, read.

ghost use Rattle.std.specs.Prelude.{◌≡◌, ◌+◌, ◌≤◌, ◌⊎◌, length, IfOk, Ok};
ghost use Rattle.plan_text.specs.{Lines.{Gives}, FirstText.{certificate_text}, SecondText.{second_text}, CertificateText.{IsHeldWarrant}};
ghost use Rattle.certificate_model.specs.{Families.{ordinary}, Warrants.{Warrant, warrant_of}};
ghost use Rattle.plan_text.specs.CertificateReading.{rows_at, first_of, second_of, certificate_of, headed_of};

use crate::claim::{ClaimParts, claim_at};
use crate::fault::{TextEnd, TextFault};
use crate::kind::CertificateKind;
use crate::lines::{bad, fixed_at, line_at};
use crate::naming::Naming;
use crate::row_list::rows_at;
use crate::tree::tree_at;
use certificate_model::{Certificate, FAMILIES};
use named_row::RowId;
use std::alloc::Global;
use time_space::Timing;

/// The list of rows of an ordinary certificate, the number of the line after it, and what follows.
#[tactic(auto, unfolding(certificate_model::specs::Families::ordinary))]
fn ordinary_rows_at(
    alloc: Global,
    line: u64,
    bytes: &[u8],
) -> Result<(Vec<RowId>, u64, &[u8]), TextEnd>
    requires { line ≤ 21 }
    ensures exact { Gives (λ x. (x.0.items, x.1, x.2.now)) result (rows_at ordinary line bytes.now) }
    ensures lines { IfOk result (λ x. x.1 + length x.2.now ≤ line + length bytes.now) }
{
    rows_at(alloc, &FAMILIES, line, bytes)
}

/// What follows the first line of a certificate that names its rows.
#[tactic(auto, unfolding(crate::specs::CertificateReading::first_of))]
fn first_of<K: CertificateKind>(
    alloc: Global,
    bytes: &[u8],
) -> Result<ClaimParts<K::Timing>, TextEnd>
    ensures { Gives (λ p. warrant_of p.claim p.timing p.nodes.items) result (first_of K.text K.table bytes.now) }
{
    let opening = claim_at::<K>(alloc, bytes)?;
    let nodes = K::named_tree_at(alloc, opening.line, opening.rest)?;
    Ok(opening.and_nodes(nodes))
}

/// What follows the first line of a certificate that lists its rows.
#[tactic(auto, unfolding(crate::specs::CertificateReading::second_of))]
fn second_of(alloc: Global, bytes: &[u8]) -> Result<ClaimParts<Timing>, TextEnd>
    ensures { Gives (λ p. warrant_of p.claim p.timing p.nodes.items) result (second_of bytes.now) }
{
    let opening = claim_at::<Certificate>(alloc, bytes)?;
    let (rows, line, rest) = ordinary_rows_at(alloc, opening.line, opening.rest)?;
    let nodes = tree_at(alloc, Naming::Listed(rows.as_slice()), line, rest)?;
    Ok(opening.and_nodes(nodes))
}

/// The parts of an ordinary certificate, which has either text.
#[tactic(auto, unfolding(crate::specs::CertificateReading::certificate_of))]
fn parts_of(alloc: Global, bytes: &[u8]) -> Result<ClaimParts<Timing>, TextEnd>
    ensures { Gives (λ p. warrant_of p.claim p.timing p.nodes.items) result (certificate_of bytes.now) }
{
    let (first, rest) = line_at(1, bytes)?;
    if first == b"maxband-certificate 1".as_slice() {
        first_of::<Certificate>(alloc, rest)
    } else if first == b"maxband-certificate 2".as_slice() {
        second_of(alloc, rest)
    } else {
        Err(bad(1, TextFault::Shape))
    }
}

fn certificate_of(alloc: Global, bytes: &[u8]) -> Result<Certificate, TextEnd>
    ensures { Gives (λ c. c) result (certificate_of bytes.now) }
{
    let parts = parts_of(alloc, bytes)?;
    Ok(Certificate {
        claim: parts.claim,
        timing: parts.timing,
        nodes: parts.nodes,
    })
}

/// The parts of a certificate of a kind that names its rows, which has one text, with this first line.
#[tactic(auto, unfolding(crate::specs::CertificateReading::headed_of))]
pub fn headed_at<K: CertificateKind>(
    alloc: Global,
    head: &[u8],
    bytes: &[u8],
) -> Result<ClaimParts<K::Timing>, TextEnd>
    ensures { Gives (λ p. warrant_of p.claim p.timing p.nodes.items) result (headed_of K.text K.table head.now bytes.now) }
{
    let rest = fixed_at(1, head, bytes)?;
    first_of::<K>(alloc, rest)
}

/// The certificate that a text spells, all of its bytes: a certificate has two texts, one that names its rows in each
/// leaf, and one that lists them first.
///
/// Of a text that spells none the first bad line is named, with the first fault that applies to it.
pub fn read_certificate(alloc: Global, bytes: &[u8]) -> Result<Certificate, TextEnd>
    // What is read is spelled so.
    ensures found { IfOk result (λ c. (bytes.now ≡ certificate_text c) ⊎ (bytes.now ≡ second_text c)) }
    // What spells a certificate is read, unless memory runs out.
    ensures only { (c : Warrant) → IsHeldWarrant c → bytes.now ≡ certificate_text c → Gives (λ c. c) result (Ok c) }
    ensures only_second { (c : Warrant) → IsHeldWarrant c → bytes.now ≡ second_text c → Gives (λ c. c) result (Ok c) }
    // Which fault it is, and at which line.
    ensures exact { Gives (λ c. c) result (certificate_of bytes.now) }
{
    certificate_of(alloc, bytes)
}
