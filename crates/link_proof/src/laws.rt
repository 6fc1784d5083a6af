//! The laws of the text of a link certificate.

ghost use Rattle.link_proof.specs.{Promises.{OneLinksText, LinksReadBack}, FirstBad.{FirstBadOfLinks}};

/// A text is read as a link certificate exactly where it is that one's text, what is written is read again, and of any
/// other text the first bad line is named.
pub fn law_links_text()
    ensures one { OneLinksText }
    ensures again { LinksReadBack }
    ensures bad { FirstBadOfLinks }
{}
