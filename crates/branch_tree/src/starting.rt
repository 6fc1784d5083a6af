//! The leaf that bounds the root before any pivot.

ghost use Rattle.std.specs.Prelude.{◌≡◌, ◌++◌, [], ◌∷◌, IfOk, OnOk};
ghost use Rattle.linear_theory.specs.Boxes.{root_box};
ghost use Rattle.dual_leaf.specs.Leaves.{multiplier};
ghost use Rattle.branch_tree.specs.{Starts.{start_bound}, Relaxed.{IsStartLeaf, CoversBox}};

use artery_model::Artery;
use loop_rows::family_numbers::{WAIT_IN, WAIT_OUT};
use loop_rows::{SumFault, leaf_sum};
use named_row::{Leaf, Place, RowId, Weight};
use narrow_fraction::{Frac, Memory};
use search_box::SearchBox;
use std::alloc::Global;

/// One more row of the first wait in a family.
fn push_row(list: &mut Vec<Weight>, family: u8, by: Frac) -> Result<(), Memory>
    ensures { OnOk result (list.new.items ≡ list.old.items ++ record { row = record { family = family; index = 1 }; by = by } ∷ []) }
{
    let row = RowId { family, index: 1 };
    list.push(Weight { row, by })?;
    Ok(())
}

/// The same, unless its multiplier is 0.
fn push_multiplier(list: &mut Vec<Weight>, family: u8, by: Frac) -> Result<(), Memory>
    ensures { OnOk result (list.new.items ≡ list.old.items ++ multiplier (record { family = family; index = 1 }) by) }
{
    if by == Frac::whole(0) {
        return Ok(());
    }
    push_row(list, family, by)
}

/// The rows of the first waits, the inbound one as often as the ratio says.
fn first_waits(alloc: Global, artery: &Artery) -> Result<Leaf, Memory>
    ensures { IfOk result (λ leaf. IsStartLeaf artery.now leaf) }
{
    let mut multipliers = Vec::new(alloc);
    push_row(&mut multipliers, WAIT_OUT, Frac::whole(1))?;
    push_multiplier(&mut multipliers, WAIT_IN, artery.ratio())?;
    Ok(Leaf { multipliers })
}

/// The bound of the sum of these rows over the root box, which fits.
fn first_bound(alloc: Global, artery: &Artery, leaf: &Leaf) -> Result<Frac, Memory>
    requires { IsStartLeaf artery.now leaf.now }
    ensures { IfOk result (λ bound. bound ≡ start_bound artery.now) }
{
    // its contract says that the artery is valid
    artery.known_valid();
    let area = SearchBox::root(alloc, artery)?;
    match leaf_sum(alloc, artery, &area, leaf) {
        Ok(sum) => Ok(sum.get(Place::Bound)),
        Err(SumFault::Memory) => Err(Memory),
        Err(SumFault::NoSuchRow { .. }) => unreachable!(),
        Err(SumFault::Negative { .. }) => unreachable!(),
        Err(SumFault::Wide { .. }) => unreachable!(),
    }
}

/// The leaf that bounds the root box before any pivot, and its bound: at each first signal a wait and its band fit into the
/// green.
pub fn start_leaf(alloc: Global, artery: &Artery) -> Result<(Leaf, Frac), Memory>
    ensures leaf { IfOk result (λ start. IsStartLeaf artery.now start.0) }
    ensures bound { IfOk result (λ start. start.1 ≡ start_bound artery.now) }
    ensures covers { IfOk result (λ start. CoversBox artery.now (root_box artery.now) start.0 start.1) }
{
    // its contract says that the artery is valid
    artery.known_valid();
    let leaf = first_waits(alloc, artery)?;
    let bound = first_bound(alloc, artery, &leaf)?;
    Ok((leaf, bound))
}
