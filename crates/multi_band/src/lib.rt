//! A band for each link of an artery in each direction: the linear program of links over boxes, what becomes of its vertices, and
//! the search of an artery's best link timing.
//!
//! Begin with `search_links_and_check`, which answers what `link_search` found once its certificate was accepted, or with
//! `link_search` and `link_certificate`. What is found is `IsLinksSearched` (`specs/LinksSearched.antt`): what the search says, and
//! what its accepted certificate proves of every link timing on any grid.
//!
//! - The program: `specs/LinkTables.antt` has its rows, `specs/LinkOpening.antt` the tableau that each box begins from, which
//!   `reset_links` makes, and `specs/LinkStarts.antt` the leaf that bounds the root before any step.
//! - What becomes of a vertex is a function of the artery, the box and the point: `link_recovered`, in
//!   `specs/LinkRecovered.antt`, a list of tests in their order. `recover_links` answers what it says, but for want of memory; a
//!   timing is good and its value is the vertex's goal, and a place lies inside the box.
//! - The search: `ArteryLinks` is what is sought, `specs/LinkProgram.antt` and `specs/LinkRules.antt` are the links of an artery as a program
//!   over boxes and as a relaxation (`box_search`, `branch_and_bound`). What is answered stands in `specs/LinkSearches.antt`, `LinkTold.antt`, `LinkSites.antt`,
//!   `LinkEnough.antt` and `LinkCertified.antt`.
//! - The report: `link_report` writes the lines of what was found, each a function to bytes (`specs/LinkReport.antt`); what they share
//!   with the report of whole bands is `diagram_print`'s.
//!
//! Each box begins from its own opening tableau, after two pivots for each link, which bring its halves into the basis, and keeps
//! nothing for its parts; it is dual feasible for each ratio, and no operation of the start leaves 128 bits. No step takes the
//! columns of the artery's own two bands (`specs/laws/IdleBands.antt`). The answer is pinned as that of `search_sought` of `box_search`
//! is: tree, units and stop are those of the stated rule, and a stop by work comes only under a limit that is less than enough.
//! `law_link_outcomes_mean` says in the model's words when each outcome of a vertex comes, and `law_link_outcomes_are_sound` what
//! follows; two laws decide vertices and outcomes that were worked by hand. That the check of `search_links_and_check` never
//! refuses is proved, and that it ran no clause says. `link_report` asks that a link timing that stands is good, and that a site
//! that the verdict names has a box of the artery, and a row, a column or a link of its links.
#![tactic(auto)]

mod band_lines;
mod building;
mod certifying;
mod checked;
mod copying;
mod found;
mod laws;
mod program;
mod recovery;
mod report;
mod searching;
mod starting;

pub use certifying::link_certificate;
pub use checked::{SearchedLinks, search_links_and_check};
pub use found::LinkFound;
pub use laws::{
    law_link_outcomes_are_sound, law_link_outcomes_mean, law_worked_link_outcomes,
    law_worked_link_vertices,
};
pub use program::ArteryLinks;
pub use recovery::{RecoveredLinks, recover_links};
pub use report::link_report;
pub use searching::link_search;
pub use starting::start_link_leaf;
