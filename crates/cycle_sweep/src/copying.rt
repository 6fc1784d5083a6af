//! The street at one cycle.

ghost use Rattle.std.specs.Prelude.{◌≡◌, IfOk};
ghost use Rattle.artery_model.specs.{Bounds.{least_cycle, most_cycle}, Valid.{IsQuantity}};
ghost use Rattle.cycle_sweep.specs.Rows.{head_at, at_cycle};

use artery_model::{Artery, Head, Pair};
use artery_parts::{artery_of, copied_head, copied_links, copied_signals};
use narrow_fraction::{Frac, Memory};
use std::alloc::Global;

/// The same head with this cycle alone.
fn head_at(alloc: Global, head: &Head, cycle: Frac) -> Result<Head, Memory>
    ensures { IfOk result (λ copy. copy ≡ head_at head.now cycle) }
{
    let mut copy = copied_head(alloc, head)?;
    copy.cycle = Pair {
        least: cycle,
        most: cycle,
    };
    Ok(copy)
}

/// The street with this cycle alone: a valid street is valid with any cycle that an artery may have.
pub fn artery_at(alloc: Global, artery: &Artery, cycle: Frac) -> Result<Artery, Memory>
    requires { IsQuantity least_cycle most_cycle cycle }
    ensures { IfOk result (λ a. a ≡ at_cycle artery.now cycle) }
{
    artery.known_valid();
    let head = head_at(alloc, artery.head(), cycle)?;
    let signals = copied_signals(alloc, artery.signals())?;
    let links = copied_links(alloc, artery.links())?;
    artery_of(alloc, head, signals, links)
}
