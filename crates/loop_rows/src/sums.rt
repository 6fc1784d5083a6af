//! Block sums at a point.

ghost use Rattle.std.specs.Prelude.{◌≡◌, ◌≤◌, length};
ghost use Rattle.narrow_fraction.specs.Attempt.{attempt};
ghost use Rattle.progression.specs.{Street.{count, HasLink, HasSignal}, Columns.{WaitOf, RunOf, ShiftOf}};
ghost use Rattle.linear_theory.specs.{Places.{width, value_at}, Blocks.{block_sum}};
ghost use Rattle.loop_rows.specs.Totals.{after_step, step_wide, after_steps, first_wide, block_wide};

use crate::columns::{next_of, run_column, shift_column, wait_column};
use crate::numbers::part;
use artery_model::{Artery, Dir};
use named_row::Point;
use narrow_fraction::{Frac, Wide};

/// A term of a sum: added, or taken away.
#[derive(Clone, Copy)]
enum Term {
    Plus(Frac),
    Minus(Frac),
}

/// The sum after one more term.
fn put(sum: Frac, step: Term) -> Result<Frac, Wide>
    ensures { result ≡ attempt (step_wide sum step) (after_step sum step) }
{
    match step {
        Term::Plus(term) => sum.plus(term),
        Term::Minus(term) => sum.minus(term),
    }
}

/// The sum after several more terms.
fn put_all(first: Frac, steps: &[Term]) -> Result<Frac, Wide>
    ensures { result ≡ attempt (first_wide first steps.now) (after_steps first steps.now) }
{
    let mut sum = first;
    for step in steps {
        sum = put(sum, *step)?;
    }
    Ok(sum)
}

/// A signal's wait at a point.
fn wait_at(artery: &Artery, point: &Point, dir: Dir, signal: u32) -> Frac
    requires signal { HasSignal artery.now signal }
    requires columns { width (count artery.now) ≤ length point.now.values.items }
    ensures { result ≡ value_at (count artery.now) point.now.values.items (WaitOf dir signal) }
{
    point.values[wait_column(artery, dir, signal) as usize]
}

/// A link's run at a point.
fn run_at(artery: &Artery, point: &Point, dir: Dir, link: u32) -> Frac
    requires link { HasLink artery.now link }
    requires columns { width (count artery.now) ≤ length point.now.values.items }
    ensures { result ≡ value_at (count artery.now) point.now.values.items (RunOf dir link) }
{
    point.values[run_column(artery, dir, link) as usize]
}

/// A signal's shift at a point.
fn shift_of(artery: &Artery, point: &Point, signal: u32) -> Frac
    requires signal { HasSignal artery.now signal }
    requires columns { width (count artery.now) ≤ length point.now.values.items }
    ensures { result ≡ value_at (count artery.now) point.now.values.items (ShiftOf signal) }
{
    point.values[shift_column(artery, signal) as usize]
}

/// A link's block sum at a point: the waits at its two signals, the runs, the shifts, the common reds and the
/// clearances, added and taken away one after another. The refusal is that of the first of these operations that leaves
/// 128 bits.
pub fn block_sum(artery: &Artery, point: &Point, link: u32) -> Result<Frac, Wide>
    requires link { HasLink artery.now link }
    requires columns { width (count artery.now) ≤ length point.now.values.items }
    ensures { result ≡ attempt (block_wide artery.now point.now.values.items link) (block_sum artery.now point.now.values.items link) }
{
    let next = next_of(artery, link);
    let steps = [
        Term::Plus(wait_at(artery, point, Dir::Inbound, link)),
        Term::Minus(wait_at(artery, point, Dir::Outbound, next)),
        Term::Minus(wait_at(artery, point, Dir::Inbound, next)),
        Term::Plus(run_at(artery, point, Dir::Outbound, link)),
        Term::Plus(run_at(artery, point, Dir::Inbound, link)),
        Term::Plus(shift_of(artery, point, link)),
        Term::Minus(shift_of(artery, point, next)),
        Term::Plus(part(artery, artery.common_red(link))),
        Term::Minus(part(artery, artery.common_red(next))),
        Term::Minus(part(artery, artery.clearance(Dir::Outbound, next))),
        Term::Minus(part(artery, artery.clearance(Dir::Inbound, link))),
    ];
    put_all(wait_at(artery, point, Dir::Outbound, link), &steps)
}
