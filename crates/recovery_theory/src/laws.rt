//! What the definitions promise, and what they decide.

ghost use Rattle.recovery_theory.specs.{Promises.{VerticesRecover, LongVerticesRecover}, Worked.{WorkedVertices}};

/// A vertex with whole block sums and ranked shifts becomes a good timing of its weighted band, and each other one names a
/// place inside the box; the same with further columns, of which no row speaks.
#[tactic(auto, using(crate::proofs::Kept::vertices_recover, crate::proofs::Kept::long_vertices_recover))]
pub fn law_vertices_recover()
    ensures vertices { VerticesRecover }
    ensures long { LongVerticesRecover }
{}

/// A vertex that was worked by hand becomes the timing that it should.
#[tactic(auto, using(crate::proofs::WorkedLemmas::worked_vertices))]
pub fn law_worked_vertices()
    ensures { WorkedVertices }
{}
