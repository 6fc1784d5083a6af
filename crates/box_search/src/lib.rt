//! The search of a best timing of any kind, by boxes: branch and bound over boxes of block sums and shift ranks, each solved by the
//! dual simplex method.
//!
//! `Sought` is the code of a kind of timing that is sought, with its certificates: what its boxes begin from, how the leaf of an end
//! is summed, what a vertex is, and what an end keeps for its parts. Begin with `search_and_confirm`, which searches, makes the
//! certificate of what was found and checks it, for any kind; `search_sought` does the first alone and `certificate_for` the second.
//! `specs/Kinds.antt` says what a kind is, what a search of it rests on and what it answers: a tree of boxes that proves the verdict,
//! each box of which was needed, the units that it took, why the search stopped (`specs/Told.antt`, `specs/SiteNames.antt`), and what
//! its accepted certificate proves of every good timing.
//!
//! - `specs/Program.antt`: what a program over boxes is, of which all runs are told; its lines are those of `branch_and_bound`, a box
//!   with the boxes above it.
//! - `specs/Ends.antt`: of a program and a line, how many steps lead to the end (`steps_of`), the last tableau, its leaf
//!   (`end_leaf`), vertex (`end_point`) and bound (`end_bound`), and how the box is searched on (`ending_of`). `specs/Runs.antt`: what
//!   the steps of a line come to.
//! - `specs/Sites.antt`: where a run may stop, as a pivot that is due or as the first operation that leaves 128 bits; a
//!   `SitePart` names it.
//! - `specs/Meaning.antt`: what a program means to a search, and `rules_from`, both as a relaxation for `branch_and_bound`.
//!   `specs/Trees.antt`: its trees as a certificate has them. `open` opens a box of any; `specs/BoxRuns.antt` has what it answers.
//! - `specs/Enough.antt`: how many units of work are enough for a program. `specs/Searchable.antt`: when the boxes of an artery can be
//!   searched, which its type keeps (`known_searchable`).
//! - The files of `specs/laws` are lemmas alone: of ends and of lines of boxes of any program, which kinds build theirs on.
//!
//! Proved of the runs is that along a line no set of basic variables comes twice, wherever it began, and so that a box takes fewer
//! steps than there are such sets, by which the units of a search are bounded: a stop by work comes only where there is a limit, and
//! it is less than `enough_for` of the program, which is a clause of `search_sought`. Also at an infeasible end the sum of the leaf is
//! made; where it leaves 128 bits, the search stops there, after as many pivots as the box took. The certificate of an answer of
//! `search_sought` is one that the kind accepts. So the check that `search_and_confirm` makes before it answers never refuses; that it
//! ran, no clause says. `branch_tree` is this search for the timings of an artery, `multi_band` for its link timings.
#![tactic(auto)]

mod certifying;
mod checked;
mod copying;
mod found;
mod opening;
mod program;
mod relaxed;
mod room;
mod roots;
mod searching;
mod site;
mod sought;

pub use certifying::certificate_for;
pub use checked::{SearchedOf, search_and_confirm};
pub use found::{FoundOf, Site, Stop, TreeNode, Verdict};
pub use program::{Read, Summed};
pub use room::Room;
pub use roots::known_searchable;
pub use searching::search_sought;
pub use site::SitePart;
pub use sought::Sought;
