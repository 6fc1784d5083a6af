//! The basis of a tableau.

ghost use Rattle.std.specs.{Prelude.{◌≡◌, IfOk}, List.Sorted.{IsPermutation, IsSorted}, Ordering.{nat_cmp}};
ghost use Rattle.simplex_theory.specs.DualSteps.{IsPlaced};
ghost use Rattle.entry_theory.specs.Basics.{basics_of};

use crate::tableau::Tableau;
use narrow_fraction::Memory;
use std::alloc::Global;

/// The basic variables in the order of their rows.
fn basic_variables(alloc: Global, tableau: &Tableau) -> Result<Vec<u32>, Memory>
    ensures { IfOk result (λ list. list.items ≡ tableau.now.table.basic) }
{
    let mut list = Vec::new(alloc);
    for row in 0..tableau.rows() {
        list.push(tableau.basic(row))?;
    }
    Ok(list)
}

impl Tableau {
    /// The basic variables, ascending: where no variable is in two rows, the list that an entry takes. The error is want of
    /// memory.
    pub fn basis(&self, alloc: Global) -> Result<Vec<u32>, Memory>
        ensures permuted { IfOk result (λ list. IsPermutation self.now.table.basic list.items) }
        ensures sorted { IfOk result (λ list. IsSorted nat_cmp list.items) }
        ensures listed { IsPlaced self.now.table → IfOk result (λ list. list.items ≡ basics_of self.now.table) }
    {
        self.known_named();
        let mut list = basic_variables(alloc, self)?;
        list.sort()?;
        Ok(list)
    }
}
