//! What the definition of an outcome decides.

ghost use Rattle.multi_band.specs.{LinkMeaning.{LinkOutcomesMean}, LinkSoundness.{LinkOutcomesAreSound}};
ghost use Rattle.multi_band.specs.Worked.{WorkedLinkVertices, WorkedLinkOutcomes};

/// A link timing that a vertex of links gives is good and has the vertex's goal as its value, and a place where it splits the
/// box lies inside the box.
#[tactic(auto, using(crate::proofs::LinkSoundness::link_outcomes_are_sound))]
pub fn law_link_outcomes_are_sound()
    ensures { LinkOutcomesAreSound }
{}

/// A box is split as at a vertex of the artery: at a link exactly where its block sum isn't whole, at its floor, and the block
/// sums before it are; at a signal exactly where all block sums are whole and its shift is none of its own, at the greatest rank
/// below, and the shifts before it are the signals'. A link timing comes exactly where nothing of this is so and every number
/// fits, those of the halves too.
#[tactic(auto, using(crate::proofs::LinkMeant::link_outcomes_mean))]
pub fn law_link_outcomes_mean()
    ensures { LinkOutcomesMean }
{}

/// Points that were worked by hand are vertices of links.
#[tactic(auto, using(crate::proofs::WorkedVerticesKept::worked_link_vertices))]
pub fn law_worked_link_vertices()
    ensures { WorkedLinkVertices }
{}

/// What becomes of points that were worked by hand is as it should be: timings, a split, and refusals.
#[tactic(auto, using(crate::proofs::WorkedOutcomesKept::worked_link_outcomes))]
pub fn law_worked_link_outcomes()
    ensures { WorkedLinkOutcomes }
{}
