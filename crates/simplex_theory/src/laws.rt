//! What the method promises.

ghost use Rattle.simplex_theory.specs.Promises.{LoadingStarts, ExchangeKeeps, StepKeeps, MoveSays, StepsEnd, GoalRowCovers, NegativeRowRefutes, VertexIsOptimal};

/// A tableau that holds rows and a goal as they were loaded has each variable once, and stands for them.
pub fn law_loading_starts()
    ensures { LoadingStarts }
{}

/// An exchange keeps which assignments of all variables meet a tableau, both ways, and the goal on them.
pub fn law_exchange_keeps()
    ensures { ExchangeKeeps }
{}

/// A step at a place that Bland's rule chooses keeps a tableau dual feasible, and the goal row's bound does not rise.
pub fn law_step_keeps()
    ensures { StepKeeps }
{}

/// Bland's move is optimal where no bound is negative, infeasible at a row with a negative bound and no negative cell,
/// and else a place that the rule chooses.
#[tactic(auto, using(crate::proofs::Promises::move_says))]
pub fn law_move_says()
    ensures { MoveSays }
{}

/// No set of basic variables comes twice, and an end comes after fewer than 2 to the power of rows plus width steps.
#[tactic(auto, using(crate::proofs::Promises::steps_end))]
pub fn law_steps_end()
    ensures { StepsEnd }
{}

/// The multipliers of the goal row cover the goal with the goal row's bound.
pub fn law_goal_row_covers()
    ensures { GoalRowCovers }
{}

/// The multipliers of a row without negative cells refute where its bound is negative.
pub fn law_negative_row_refutes()
    ensures { NegativeRowRefutes }
{}

/// At an optimal end the vertex meets the rows, and the goal at it is the goal row's bound.
#[tactic(auto, using(crate::proofs::Promises::vertex_is_optimal))]
pub fn law_vertex_is_optimal()
    ensures { VertexIsOptimal }
{}
