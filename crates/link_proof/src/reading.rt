//! The text of a link certificate, read.

ghost use Rattle.std.specs.Prelude.{◌≡◌, IfOk, Ok};
ghost use Rattle.plan_text.specs.Lines.{Gives};
ghost use Rattle.link_proof.specs.LinkWarrants.{LinkWarrant, IsHeldLinkWarrant, links_text, links_of};

use crate::certificate::LinkCertificate;
use plan_text::{TextEnd, headed_at};
use std::alloc::Global;

fn links_of(alloc: Global, bytes: &[u8]) -> Result<LinkCertificate, TextEnd>
    ensures { Gives (λ c. c) result (links_of bytes.now) }
{
    let parts = headed_at::<LinkCertificate>(alloc, b"maxband-links 1", bytes)?;
    Ok(LinkCertificate {
        claim: parts.claim,
        timing: parts.timing,
        nodes: parts.nodes,
    })
}

/// The link certificate that a text spells, all of its bytes.
///
/// Of a text that spells none the first bad line is named, with the first fault that applies to it.
pub fn read_links(alloc: Global, bytes: &[u8]) -> Result<LinkCertificate, TextEnd>
    // What is read is spelled so.
    ensures found { IfOk result (λ c. bytes.now ≡ links_text c) }
    // What spells a link certificate is read, unless memory runs out.
    ensures only { (c : LinkWarrant) → IsHeldLinkWarrant c → bytes.now ≡ links_text c → Gives (λ c. c) result (Ok c) }
    // Which fault it is, and at which line.
    ensures exact { Gives (λ c. c) result (links_of bytes.now) }
{
    links_of(alloc, bytes)
}
