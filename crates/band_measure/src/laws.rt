//! Laws of the definitions.

ghost use Rattle.band_measure.specs.{Pairs.{FinerPairs}, Widest.{OneWidest}};

/// A pair runs exactly where, on every finer grid, as many times it runs.
pub fn law_finer_pairs()
    ensures { FinerPairs }
{}

/// At most one pair is the widest.
pub fn law_one_widest()
    ensures { OneWidest }
{}
