//! Link timings: each link has a band of its own, symmetric about one progression line a direction. Here stands when such a
//! timing is good and when it is best, the rows that the points of good ones meet, and how a vertex of such rows becomes a link
//! timing, for contracts and proofs alone. This crate has no code but its laws and the type `LinkEnd`. All holds of timings of any size.
//!
//! Begin with `specs/Promises.antt`, which `law_no_link_timing_is_lost` and `law_link_vertices_recover` keep.
//!
//! Definitions, in the order in which they stand on each other:
//!
//! - `LinkRecord`: a link timing, its base `link_base t`, the link timing of a base, `link_banded`, and the two lines as a timing of
//!   `progression`, `lines t`. `GoodLinks a t`. `BestLinks a t`, with `link_value`, `BoundedLinks`, `NoLinks`.
//! - `Plain`: `plain a`, the artery without least bands and equal bands, of which the lines are a good timing.
//! - `LinkColumns`: `link_width n`, `half_place n d i`, `link_point a t`. `LinkRows`: `LinkForm`, `link_line`, a form for
//!   each family, `link_goal`.
//! - `LinkNames`: `LinkName`; the table `link_families`, numbered on from the artery's families, which `link_name_of family index` and
//!   `last_link_family` are read off; `HasLinkRow a n` and `link_row a box n`.
//! - `LinkCounts a box t`, `IsGoodLinkPoint a box x`. `LinkTrees`: `link_sum`, `CoveringLeaf`, `RefutingLeaf`.
//! - `LinkVertices`: `IsLinkVertex a box x`, `link_timing_of a x`. `Promises`. `Worked`: link timings and rows worked by hand.
//!
//! Lemmas, by what one asks, in `proofs/`:
//!
//! - When is a band about a line green? `SymmetricWindows`, `Surroundings` (at a signal), `LinkTicks` (in fractions of the cycle).
//! - What is known of the lines? `LinesAreGood`: they are a good timing of the plain artery, so all of `linear_theory` holds of them;
//!   `PlainStreets`: boxes, runs, forms and points are the same for both arteries.
//! - Which rows are met? `LinkPoints` (what the point has in each column), `LinkRowLaws` (both ways), `NamedLinkRows`: `link_row_law`.
//! - Which numbers and indices do rows have? `LinkFamilies`: `link_family_least`, `link_family_most`, `link_index_most`.
//! - What does a sum of rows prove? `LinkGoals`, `LinkTreeLaws`: `bounded`, `no_timing`.
//! - What is a vertex? `LinesOfVertices`: a vertex of the plain artery; `PlainVertices`; `Recovered`: `point_is`, `links_good`, `value_is_goal`.
//!
//! What is promised: the two lines of a good link timing are a good timing, with bands of no width, of the same street without
//! least bands and equal bands, so their block sums are whole and lie in the root box with the shifts; the timing's point meets
//! every row, the goal there is its value, and a tree whose leaves cover the goal or refute bounds every good link timing on every
//! grid. A link's band is green at an end exactly where the point meets the two rows of that end, and keeps the ratio exactly where
//! it meets the row of the ratio; so a vertex of these rows with whole block sums and ranked shifts is the point of a good link
//! timing of its value, and each other one names a place inside its box. `law_worked_links` decides link timings and rows that were
//! worked by hand. The idea is that of MULTIBAND (Gartner, Assmann, Lasaga and Hou 1991).
#![tactic(auto)]

mod ends;
mod laws;

pub use ends::LinkEnd;
pub use laws::{law_link_vertices_recover, law_no_link_timing_is_lost, law_worked_links};
