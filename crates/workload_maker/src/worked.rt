//! A worked draw, decided by the definitions.

ghost use Rattle.workload_maker.specs.SeedZero.{SeedZero};

/// A law over the definitions alone: the first draw of seed 0 is what was worked by hand, so the
/// first red of that seed is 32.
pub fn law_seed_zero()
    ensures { SeedZero }
{}
