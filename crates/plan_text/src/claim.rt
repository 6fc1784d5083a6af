//! The claim of a certificate, with its timing.

ghost use Rattle.std.specs.Prelude.{◌≡◌, ◌≤◌, map, IfOk};
ghost use Rattle.plan_text.specs.Lines.{Gives};
ghost use Rattle.certificate_model.specs.Warrants.{warrant_of};
ghost use Rattle.plan_text.specs.CertificateReading.{begins_with, claim_with, valued_at, missing_at, open_at, verdict_of, claim_at};

use crate::fault::{TextEnd, TextFault};
use crate::fraction::fraction_of;
use crate::kind::CertificateKind;
use crate::lines::{bad, fixed_at, line_at, words_at};
use certificate_model::{CertNode, Claim};
use narrow_fraction::Frac;
use std::alloc::Global;

/// A claim with its timing, the number of the line after them, and what follows.
#[derive(Drop)]
pub struct Beginning<'a, T> {
    pub claim: Claim,
    pub timing: Option<T>,
    pub line: u64,
    pub rest: &'a [u8],
}

/// A claim with its timing and its tree.
#[derive(Drop)]
pub struct ClaimParts<T> {
    pub claim: Claim,
    pub timing: Option<T>,
    pub nodes: Vec<CertNode>,
}

impl<T: Drop> Beginning<'_, T> {
    /// The claim and its timing with the nodes of their tree.
    pub(crate) fn and_nodes(self, nodes: Vec<CertNode>) -> ClaimParts<T>
        ensures { warrant_of result.claim result.timing result.nodes.items ≡ warrant_of self.entry.claim self.entry.timing nodes.items }
    {
        ClaimParts {
            claim: self.claim,
            timing: self.timing,
            nodes,
        }
    }
}

/// The claim of a timing with this value, beside a bound or best without one.
fn claim_with(bound: Option<Frac>, value: Frac) -> Claim
    ensures { result ≡ claim_with bound value }
{
    match bound {
        None => Claim::Best { value },
        Some(bound) => Claim::Stopped {
            bound,
            value: Some(value),
        },
    }
}

/// The value in the words of this line, and its timing in the lines after it.
fn valued_at<'a, K: CertificateKind>(
    alloc: Global,
    bound: Option<Frac>,
    line: u64,
    words: &[&[u8]],
    bytes: &'a [u8],
) -> Result<Beginning<'a, K::Timing>, TextEnd>
    requires { line ≤ 4 }
    ensures exact { Gives (λ x. (x.claim, x.timing, x.line, x.rest.now)) result (valued_at K.text bound line (map (λ w. w.now) words.now) bytes.now) }
    ensures line { IfOk result (λ x. x.line ≤ 21) }
{
    let value = fraction_of(b"value", line, words)?;
    let (timing, rest) = K::timing_at(alloc, line + 1, bytes)?;
    Ok(Beginning {
        claim: claim_with(bound, value),
        timing: Some(timing),
        line: line + 1 + K::height(),
        rest,
    })
}

fn begins_with(key: &[u8], words: &[&[u8]]) -> bool
    ensures { result ≡ begins_with key.now (map (λ w. w.now) words.now) }
{
    match words {
        [] => false,
        [first, ..] => *first == key,
    }
}

/// What follows the bound where none was found.
#[tactic(auto, unfolding(crate::specs::CertificateReading::missing_at))]
fn missing_at<K: CertificateKind>(
    bound: Frac,
    bytes: &[u8],
) -> Result<Beginning<'_, K::Timing>, TextEnd>
    ensures exact { Gives (λ x. (x.claim, x.timing, x.line, x.rest.now)) result (missing_at bound bytes.now) }
    ensures line { IfOk result (λ x. x.line ≤ 21) }
{
    let rest = fixed_at(4, b"no timing", bytes)?;
    let value = None;
    Ok(Beginning {
        claim: Claim::Stopped { bound, value },
        timing: None,
        line: 5,
        rest,
    })
}

/// What follows `verdict open`.
#[tactic(auto, unfolding(crate::specs::CertificateReading::open_at, crate::specs::CertificateReading::found_at))]
fn open_at<K: CertificateKind>(
    alloc: Global,
    bytes: &[u8],
) -> Result<Beginning<'_, K::Timing>, TextEnd>
    ensures exact { Gives (λ x. (x.claim, x.timing, x.line, x.rest.now)) result (open_at K.text bytes.now) }
    ensures line { IfOk result (λ x. x.line ≤ 21) }
{
    let (words, rest) = words_at(alloc, 3, bytes)?;
    let bound = fraction_of(b"bound", 3, words.as_slice())?;
    let (words, after) = words_at(alloc, 4, rest)?;
    if begins_with(b"value", words.as_slice()) {
        valued_at::<K>(alloc, Some(bound), 4, words.as_slice(), after)
    } else {
        missing_at::<K>(bound, rest)
    }
}

/// What follows the verdict.
#[tactic(auto, unfolding(crate::specs::CertificateReading::verdict_of, crate::specs::CertificateReading::best_at))]
fn verdict_of<'a, K: CertificateKind>(
    alloc: Global,
    verdict: &[u8],
    bytes: &'a [u8],
) -> Result<Beginning<'a, K::Timing>, TextEnd>
    ensures exact { Gives (λ x. (x.claim, x.timing, x.line, x.rest.now)) result (verdict_of K.text verdict.now bytes.now) }
    ensures line { IfOk result (λ x. x.line ≤ 21) }
{
    if verdict == b"verdict best".as_slice() {
        let (words, rest) = words_at(alloc, 3, bytes)?;
        valued_at::<K>(alloc, None, 3, words.as_slice(), rest)
    } else if verdict == b"verdict none".as_slice() {
        Ok(Beginning {
            claim: Claim::NoTiming,
            timing: None,
            line: 3,
            rest: bytes,
        })
    } else if verdict == b"verdict open".as_slice() {
        open_at::<K>(alloc, bytes)
    } else {
        Err(bad(2, TextFault::Shape))
    }
}

/// The claim of a certificate and its timing, from the second line on.
#[tactic(auto, unfolding(crate::specs::CertificateReading::claim_at))]
pub fn claim_at<K: CertificateKind>(
    alloc: Global,
    bytes: &[u8],
) -> Result<Beginning<'_, K::Timing>, TextEnd>
    ensures exact { Gives (λ x. (x.claim, x.timing, x.line, x.rest.now)) result (claim_at K.text bytes.now) }
    ensures line { IfOk result (λ x. x.line ≤ 21) }
{
    let (verdict, rest) = line_at(2, bytes)?;
    verdict_of::<K>(alloc, verdict, rest)
}
