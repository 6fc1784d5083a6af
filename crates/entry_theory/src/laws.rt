//! What the entry promises.

ghost use Rattle.entry_theory.specs.Promises.{EntryKeeps, BasicsAreListed};

/// The entry of the basic variables of a dual feasible tableau is by the rule and the only one that is; it has exactly these
/// variables basic, is dual feasible, and stands for the rows and the goal that were loaded.
pub fn law_entry_keeps()
    ensures { EntryKeeps }
{}

/// The basic variables in ascending order are one list, which a sort of them gives.
pub fn law_basics_are_listed()
    ensures { BasicsAreListed }
{}
