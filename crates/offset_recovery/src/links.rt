//! Columns of which each link has one, side by side in the order of the links.

ghost use Rattle.std.specs.Prelude.{◌≡◌, ◌<◌, ◌≤◌, ◌+◌, ◌^◌, ℕ, length, IfOk};
ghost use Rattle.narrow_fraction.specs.Attempt.{attempt};
ghost use Rattle.progression.specs.Street.{count, HasLink};
ghost use Rattle.recovery_theory.specs.Ticks.{unit_of, ticks_in};
ghost use Rattle.offset_recovery.specs.{Numbers.{IsReady}, ByLink.{tests_by_link, ticks_by_link, from_first}};

use crate::outcome::WideTiming;
use crate::ticks::{check_number, column_ticks};
use artery_model::Artery;
use named_row::Point;
use narrow_fraction::{Memory, push};
use std::alloc::Global;

/// Whether the columns from that of link 1 on, of which each link has one, fit a timing: each is below `2^80` ticks. The error is the
/// first that isn't.
pub fn check_by_link(
    artery: &Artery,
    point: &Point,
    unit: u128,
    first: u32,
) -> Result<(), WideTiming>
    requires ready { IsReady artery.now point.now.values.items }
    requires unit { unit ≡ unit_of artery.now point.now.values.items }
    requires columns { first + count artery.now ≤ length point.now.values.items + 1 }
    requires ticks { (i : ℕ) → HasLink artery.now i → ticks_in artery.now point.now.values.items (from_first first i) < 2 ^ 127 }
    requires numbers { first + count artery.now < 2 ^ 32 }
    ensures { result ≡ attempt (tests_by_link artery.now point.now.values.items (from_first first)) tt }
{
    for link in 1..artery.count() {
        let column = first + (link - 1);
        let ticks = column_ticks(artery, point, unit, column);
        check_number(column, ticks)?;
    }
    Ok(())
}

/// The ticks of the columns from that of link 1 on, link by link.
pub fn ticks_by_link(
    alloc: Global,
    artery: &Artery,
    point: &Point,
    unit: u128,
    first: u32,
) -> Result<Vec<u128>, Memory>
    requires ready { IsReady artery.now point.now.values.items }
    requires unit { unit ≡ unit_of artery.now point.now.values.items }
    requires columns { first + count artery.now ≤ length point.now.values.items + 1 }
    requires ticks { (i : ℕ) → HasLink artery.now i → ticks_in artery.now point.now.values.items (from_first first i) < 2 ^ 127 }
    requires numbers { first + count artery.now < 2 ^ 32 }
    ensures { IfOk result (λ ticks. ticks.items ≡ ticks_by_link artery.now point.now.values.items (from_first first)) }
{
    let mut ticks = Vec::new(alloc);
    for link in 1..artery.count() {
        push(
            &mut ticks,
            column_ticks(artery, point, unit, first + (link - 1)),
        )?;
    }
    Ok(ticks)
}
