//! The search of an artery's best timing: branch and bound over boxes of block sums and shift ranks, each solved by the dual
//! simplex method, the root from its opening tableau on and a part from the basis where the box above it ended.
//!
//! Begin with `search_and_check`, which searches, makes the certificate of what was found and checks it. What it answers is
//! `IsSearched` (`specs/Searched.antt`): what the search says, and what its accepted certificate proves of every timing on any
//! grid. `specs/Told.antt` and `specs/SiteNames.antt` say what else follows of an answer. `search` does the first alone; what it
//! answers is `IsSearch` (`specs/Searches.antt`): a tree of boxes that proves the verdict, each box of which was needed, the
//! units that it took, and why the search stopped. `certificate_of` makes the certificate of that, which `certificate_checker` accepts.
//!
//! The search itself is that of `box_search`, which searches any kind of timing; here stands the kind whose timings have one band a
//! direction, and its code is `WholeBands`.
//!
//! - `specs/ArteryProgram.antt`: `program_of`, an artery as a program over boxes. `specs/ArteryRules.antt`: `meaning_of` and
//!   `rules_of`, what it means to a search, over the words of `specs/Relaxed.antt`. `specs/WholeBands.antt` is the kind.
//! - `specs/Starts.antt`: the leaf that bounds the root before any step.
//! - `specs/Enough.antt`: how many units of work are enough for an artery.
//! - What is promised of lines of boxes stands in `specs/Promises.antt`, and `law_boxes_end` keeps it. The files of `specs/laws` are lemmas alone, which `program_of` and `rules_of` carry.
//!
//! Proved of the runs are the engine's laws (`law_boxes_end`), that along a line no set of basic variables comes twice, wherever it
//! began, and so that a box takes fewer steps than there are such sets, by which the units of a search are bounded: a stop by work
//! comes only where there is a limit, and it is less than `enough_of` of the artery, which is a clause of `search`. Where an entry is
//! refused, the part begins from its opening tableau, and nothing is told of that. `law_trees_are_proofs`: the certificate of an
//! answer of `search` is accepted by the checker's definition. So the check that `search_and_check` makes before it answers never
//! refuses, and the arm of a refusal is unreachable; that it ran, no clause says.
#![tactic(auto)]

mod artery;
mod certifying;
mod checked;
mod copying;
mod found;
mod kept;
mod laws;
mod searching;
mod starting;

pub use box_search::{
    FoundOf, Read, Room, SearchedOf, Site, SitePart, Sought, Stop, Summed, TreeNode, Verdict,
    certificate_for, search_and_confirm, search_sought,
};
pub use certifying::{certificate_of, value_of};
pub use checked::{Searched, search_and_check};
pub use found::Found;
pub use kept::KeptBasis;
pub use laws::{law_boxes_end, law_trees_are_proofs};
pub use searching::search;
