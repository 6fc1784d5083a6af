//! Copies.

ghost use Rattle.std.specs.Prelude.{◌≡◌, IfOk};

use named_row::Leaf;
use narrow_fraction::{Memory, copied};
use std::alloc::Global;

/// The same leaf again.
pub fn copied_leaf(alloc: Global, leaf: &Leaf) -> Result<Leaf, Memory>
    ensures { IfOk result (λ copy. copy.multipliers.items ≡ leaf.now.multipliers.items) }
{
    let multipliers = copied(alloc, leaf.multipliers.as_slice())?;
    Ok(Leaf { multipliers })
}
