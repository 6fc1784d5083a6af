//! Best-first branch and bound over boxes of block sums and shift ranks, for any relaxation that can be solved over one
//! box at a time.
//!
//! Start with `Relaxation`, which says what is asked of a problem, and `search`. Everything that `search` needs to know
//! of the problem stands in one record of numbers, facts and laws, `specs/Rules.antt`; what it answers is one clause,
//! `IsFound` of `specs/Answer.antt`: the tree proves the verdict, every split and leaf of it was needed, the units of
//! work are those of its boxes and at most the limit, and a stop has one cause at one place.
//!
//! - `Lines`: a tree is the list of its nodes in preorder, read with the list of the lines that still want a tree, a line
//!   being a box with the boxes above it: `BoxLine`, `Fills`, `Finds`, `total`, `line_after`. `Matchings`: trees whose nodes correspond.
//! - `Choices`: how many choices of block sums and ranks a box has; each split shares them out.
//! - `Lineages`: how the pivots of a box end, and `IsLineage`, the lines of boxes that a search can meet.
//! - `Rules`: the record, with its six laws. `Unfinished`: boxes whose steps didn't come to a leaf. `OpenedNodes`: what opening
//!   a box answers, in units of work, which the `Meter` of `work_meter` counts.
//! - `Answer`: `IsAccepted`, `IsSorted`, `StopCase`, `IsNeeded`, `IsOpenBound`, and the three verdicts.
//! - `Enough`: how many units are enough.
//! - `State`, `Volumes` and `Greatest` are what the search keeps true; nothing above rests on them.
//!
//! It is Little's (1966), for anything that implements `Relaxation` and keeps its laws: the bound of a part is at most that of its
//! box, a place to split lies in its box, and the leaf of an optimal end doesn't refute. They are asked of sound problems alone.
//! `search` answers, in one clause, a tree whose leaves prove the verdict, each split and leaf of which is what the relaxation's
//! end says, with a timing exactly where a leaf has one; the units of work that it took; and for a search that stopped, by one
//! witness of where it did, its bound, the undone split and the cause. Of waiting nodes with equal bounds the first in preorder is
//! split, a timing replaces the best so far only where its value is greater, and nodes whose bound the best value reaches become
//! closed when the answer is made; the node of an undone split waits all the same.
//!
//! The bound from before any step stands only for a root that wasn't finished: steps were left, or the leaf of its end is no proof
//! (`specs/Unfinished.antt`); a root of which only the vertex couldn't be read has its own leaf and bound. Where the stop fell in a
//! part of the undone split, that part wasn't finished after the pivots that are named, and a low part before it was read to its
//! end: it is empty, or its vertex gave a timing or a place to split. Nothing is claimed of a stop but by work with all units
//! spent, or by a named refused operation. `law_enough`: where each box costs so many units at most, that number for each node of a
//! tree with a leaf for each choice of block sums and ranks in the root box (an empty span counting 0), or of the root alone where
//! it has none, is enough; so without a limit no search stops by work.
#![tactic(auto)]

mod best_first;
mod found;
mod greatest;
mod grow;
mod incumbent;
mod laws;
mod node;
mod open;
mod opened;
mod progress;
mod relaxation;
mod settle;
mod shown;

pub use best_first::search;
pub use found::{Found, Site, Stop, Verdict};
pub use incumbent::Incumbent;
pub use laws::{law_choices_are_shared, law_enough};
pub use node::TreeNode;
pub use opened::Opened;
pub use relaxation::Relaxation;
pub use work_meter::Meter;
