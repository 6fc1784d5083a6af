//! The text of a link certificate, written.

ghost use Rattle.std.specs.Prelude.{◌≡◌, Ok, IfOk};
ghost use Rattle.link_proof.specs.LinkWarrants.{links_text, links_of};

use crate::certificate::LinkCertificate;
use narrow_fraction::Memory;
use plan_text::write_named;
use std::alloc::Global;

/// The one text of a link certificate, which is read again as that very certificate.
pub fn write_links(alloc: Global, certificate: &LinkCertificate) -> Result<Vec<u8>, Memory>
    ensures text { IfOk result (λ v. v.items ≡ links_text certificate.now) }
    ensures read_back { IfOk result (λ v. links_of v.items ≡ Ok certificate.now) }
{
    let nodes = certificate.nodes.as_slice();
    write_named::<LinkCertificate>(
        alloc,
        b"maxband-links 1",
        &certificate.claim,
        &certificate.timing,
        nodes,
    )
}
