//! Laws over the definitions alone.

ghost use Rattle.fraction_tableau.specs.Operations.{FirstIsRefused};

/// Of a pivot's operations, listed in their order, the one that is refused is the first that leaves 128 bits; none is
/// refused exactly where all fit.
pub fn law_first_refused()
    ensures { FirstIsRefused }
{}
