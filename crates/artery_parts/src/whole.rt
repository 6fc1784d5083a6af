//! The artery of parts that break no rule.

ghost use Rattle.std.specs.Prelude.{◌≡◌, None, IfOk};
ghost use Rattle.artery_model.specs.Limits.{artery_fault};

use artery_model::{Artery, Flaw};
use narrow_fraction::Memory;
use progression::{Head, Link, Signal};
use std::alloc::Global;

/// The artery of these parts, on which no test fails.
pub fn artery_of(
    alloc: Global,
    head: Head,
    signals: Vec<Signal>,
    links: Vec<Link>,
) -> Result<Artery, Memory>
    requires { artery_fault (record { head = head; signals = signals.items; links = links.items }) ≡ None }
    ensures { IfOk result (λ a. a ≡ record { head = head; signals = signals.items; links = links.items }) }
{
    match Artery::new(alloc, head, signals, links) {
        Ok(artery) => Ok(artery),
        Err(Flaw::Memory) => Err(Memory),
        Err(Flaw::Refused(_)) => unreachable!(),
    }
}
