//! Certificates of link timings: a claim of an artery's link timings, and a tree of boxes that proves it.
//!
//! Contracts see one as a `LinkWarrant`. Its text is that of an ordinary certificate that names its rows (`plan_text`), with a
//! first line of its own, with link timings (`specs/LinkTimingTexts`) and with the families of links besides those of an
//! artery (`specs/LinkFamilies`). Start with `read_links` and `write_links`.
//!
//! `link_check` answers Ok exactly for the accepted ones (`specs/LinkAccepted`) and else the first refusal (`specs/LinkRefusals`). Where
//! it answers Ok, what is claimed holds of the artery (`specs/LinkClaims`), on any grid.
//!
//! `read_links` answers a certificate exactly where the bytes are its one text (`found`, `only`), and otherwise the first bad line
//! with the first fault that applies to it (`exact`); what `write_links` writes is read back as that very certificate
//! (`read_back`). `law_links_text` says of its text what `plan_text` says of the others. The refusals come in their order: the link timing, its value, the bound, and then the nodes in theirs.
//! `law_link_accepted_or_refused` says how acceptance and refusals fit together. It stands on the readers of trees and texts of
//! `plan_text` and `certificate_checker`, and on no tableau and no search.
#![tactic(auto)]

mod certificate;
mod checking;
mod families;
mod laws;
mod reading;
mod timing_text;
mod writing;

pub use certificate::LinkCertificate;
pub use checking::{LinkReject, law_link_accepted_or_refused, link_check};
pub use families::link_families;
pub use laws::law_links_text;
pub use reading::read_links;
pub use writing::write_links;
