//! What the definitions promise, and what they decide.

ghost use Rattle.link_theory.specs.{Promises.{NoLinkTimingIsLost, LinkVerticesRecover}, Worked.{WorkedLinks}};

/// No good link timing is lost: its lines lie in the root box and in one part of each split, its point meets every row, and
/// what an accepted tree of boxes says holds of it.
#[tactic(auto, using(crate::proofs::Kept::no_link_timing_is_lost))]
pub fn law_no_link_timing_is_lost()
    ensures { NoLinkTimingIsLost }
{}

/// A vertex with whole block sums and ranked shifts is the point of a good link timing of its value, and each other one names
/// a place inside the box.
#[tactic(auto, using(crate::proofs::Kept::link_vertices_recover))]
pub fn law_link_vertices_recover()
    ensures { LinkVerticesRecover }
{}

/// Link timings that were worked by hand are good or not as they should be.
#[tactic(auto, using(crate::proofs::WorkedLemmas::worked_links))]
pub fn law_worked_links()
    ensures { WorkedLinks }
{}
