//! What a step comes to, and what the steps of a node do.

use fraction_tableau::WideCell;

/// What one step of the dual method came to. `ratio` says whether it was a ratio that left 128 bits, or an operation of the
/// pivot.
#[derive(Debug, Clone, Copy, PartialEq, Eq)]
pub enum Step {
    Optimal,
    Infeasible { row: u32 },
    Pivoted { row: u32, col: u32 },
    Wide { ratio: bool, cell: WideCell },
}

/// How the steps of a node ended.
#[derive(Debug, Clone, Copy, PartialEq, Eq)]
pub enum NodeEnd {
    Optimal,
    Infeasible { row: u32 },
    WorkOut,
    Wide { ratio: bool, cell: WideCell },
}
