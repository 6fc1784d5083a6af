//! The root box, which has room for every good timing.

ghost use Rattle.std.specs.Prelude.{◌≡◌, ◌+◌, ◌-◌, ◌*◌, ◌<◌, ◌≤◌, ◌^◌, ℕ, map, pos, neg_ℤ, ◌*ℤ◌, ◌≤ℤ◌, unsigned_abs, IfOk};
ghost use Rattle.std.specs.Int.{int_div_euclid};
ghost use Rattle.rational_theory.specs.Floor.{floor_ℚ, ceil_ℚ};
ghost use Rattle.progression.specs.{Street.{count, HasSignal, HasLink}, Columns.{numbered}};
ghost use Rattle.linear_theory.specs.{Shifts.{shift_count}, Boxes.{root_span, root_ranks}};
ghost use Rattle.search_box.specs.{Seen.{span_of, ranks_of}, Sums.{share_of, top_of, bottom_of, run_at, sum_at}};

use crate::area::{RankSpan, SearchBox};
use crate::share::{Share, run_share};
use crate::shifts::shift_count;
use crate::span::Span;
use crate::whole_parts::{End, parts_at};
use artery_model::Artery;
use narrow_fraction::{Memory, push};
use progression::Dir;
use std::alloc::Global;

/// The product of the denominators.
fn bottoms(first: Share, second: Share) -> u128
    ensures value { result ≡ first.bottom * second.bottom }
    ensures size { result < 2 ^ 76 }
{
    u128::from(first.bottom) * u128::from(second.bottom)
}

/// The numerator of two shares together, over the product of the denominators.
fn tops(first: Share, second: Share) -> u128
    ensures value { result ≡ first.top * second.bottom + second.top * first.bottom }
    ensures size { result < 2 ^ 78 }
{
    let left = u128::from(first.top) * u128::from(second.bottom);
    let right = u128::from(second.top) * u128::from(first.bottom);
    left + right
}

/// A number `whole` times, with a sign.
fn times(whole: u32, count: u128) -> i128
    requires whole { whole < 2 ^ 12 }
    requires count { count < 2 ^ 78 }
    ensures value { result ≡ pos (whole * count) }
    ensures size { unsigned_abs result < 2 ^ 90 }
{
    (u128::from(whole) * count) as i128
}

fn product(number: i128, count: u128) -> i128
    requires number { unsigned_abs number < 2 ^ 16 }
    requires count { count < 2 ^ 76 }
    ensures value { result ≡ number *ℤ pos count }
    ensures size { unsigned_abs result < 2 ^ 92 }
{
    number * count as i128
}

/// The numerator of so many parts of `whole` and two shares together.
fn top(parts: i128, whole: u32, first: Share, second: Share) -> i128
    requires parts { unsigned_abs parts < 2 ^ 16 }
    requires whole { whole < 2 ^ 12 }
    ensures value { result ≡ top_of parts whole first second }
    ensures size { unsigned_abs result < 2 ^ 93 }
{
    product(parts, bottoms(first, second)) + times(whole, tops(first, second))
}

/// Their denominator.
fn bottom(whole: u32, first: Share, second: Share) -> i128
    requires whole { whole < 2 ^ 12 }
    ensures value { result ≡ pos (bottom_of whole first second) }
    ensures size { unsigned_abs result < 2 ^ 90 }
{
    times(whole, bottoms(first, second))
}

/// A number of parts of the cycle and two shares of it together, as one fraction.
#[derive(Clone, Copy)]
struct Sum {
    top: i128,
    bottom: i128,
    ghost top_small: { unsigned_abs top < 2 ^ 93 },
    ghost some: { pos 1 ≤ℤ bottom },
    ghost bottom_small: { unsigned_abs bottom < 2 ^ 90 },
    ghost fits: { unsigned_abs top ≤ 2 ^ 41 * unsigned_abs bottom },
}

/// So many parts of `whole` and two shares together.
fn sum_over(parts: i128, whole: u32, first: Share, second: Share) -> Sum
    requires parts { unsigned_abs parts < 2 ^ 16 }
    requires some { 1 ≤ whole }
    requires whole { whole < 2 ^ 12 }
    ensures top { result.top ≡ top_of parts whole first second }
    ensures bottom { result.bottom ≡ pos (bottom_of whole first second) }
{
    Sum {
        top: top(parts, whole, first, second),
        bottom: bottom(whole, first, second),
    }
}

/// A sum, rounded down.
#[tactic(auto, using(crate::proofs::Sums::quotient_small))]
fn floor(sum: Sum) -> i64
    ensures value { result ≡ int_div_euclid sum.top sum.bottom }
    ensures size { unsigned_abs result ≤ 2 ^ 41 }
{
    sum.top.div_euclid(sum.bottom) as i64
}

/// A sum, rounded up.
fn ceiling(sum: Sum) -> i64
    ensures { result ≡ neg_ℤ (int_div_euclid (neg_ℤ sum.top) sum.bottom) }
{
    let below = Sum {
        top: -sum.top,
        bottom: sum.bottom,
    };
    -floor(below)
}

/// The run on a link at an end, as a share of the cycle.
fn run_at(artery: &Artery, end: End, dir: Dir, link: u32) -> Share
    requires link { HasLink artery.now link }
    ensures { share_of result ≡ run_at artery.now end dir link }
{
    let cycle = artery.cycle();
    match end {
        End::Least => run_share(artery.run_low(dir, link), cycle.most),
        End::Greatest => run_share(artery.run_high(dir, link), cycle.least),
    }
}

/// The block sum of a link at an end, with each wait, run and shift by itself at the end of its range.
fn sum_at(artery: &Artery, end: End, link: u32) -> Sum
    requires link { HasLink artery.now link }
    ensures floor { int_div_euclid result.top result.bottom ≡ floor_ℚ (sum_at artery.now end link) }
    ensures ceiling { neg_ℤ (int_div_euclid (neg_ℤ result.top) result.bottom) ≡ ceil_ℚ (sum_at artery.now end link) }
{
    let outbound = run_at(artery, end, Dir::Outbound, link);
    let inbound = run_at(artery, end, Dir::Inbound, link);
    sum_over(
        parts_at(artery, end, link),
        artery.parts(),
        outbound,
        inbound,
    )
}

/// The whole numbers that the block sum of a link can be in a good timing: from the least sum, rounded up, to the
/// greatest, rounded down, with each wait, run and shift by itself at the end of its range. There may be none.
pub fn root_span(artery: &Artery, link: u32) -> Span
    requires link { HasLink artery.now link }
    ensures { span_of result ≡ root_span artery.now link }
{
    Span {
        least: ceiling(sum_at(artery, End::Least, link)),
        most: floor(sum_at(artery, End::Greatest, link)),
    }
}

/// All ranks of a signal's shifts.
fn root_ranks(artery: &Artery, signal: u32) -> RankSpan
    requires signal { HasSignal artery.now signal }
    ensures value { ranks_of result ≡ root_ranks artery.now signal }
    ensures some { 1 ≤ shift_count artery.now signal }
{
    RankSpan {
        least: 0,
        most: shift_count(artery, signal) - 1,
    }
}

/// The root's span of each link.
pub(crate) fn root_loops(alloc: Global, artery: &Artery) -> Result<Vec<Span>, Memory>
    ensures { IfOk result (λ loops. map span_of loops.items ≡ numbered (count artery.now - 1) 1 (root_span artery.now)) }
{
    let mut loops = Vec::new(alloc);
    for link in 1..artery.count() {
        push(&mut loops, root_span(artery, link))?;
    }
    Ok(loops)
}

/// The root's ranks of each signal.
pub(crate) fn root_turns(alloc: Global, artery: &Artery) -> Result<Vec<RankSpan>, Memory>
    ensures value { IfOk result (λ turns. map ranks_of turns.items ≡ numbered (count artery.now) 1 (root_ranks artery.now)) }
    ensures some { IfOk result (λ turns. (i : ℕ) → HasSignal artery.now i → 1 ≤ shift_count artery.now i) }
{
    let mut turns = Vec::new(alloc);
    for signal in 1..artery.count() + 1 {
        push(&mut turns, root_ranks(artery, signal))?;
    }
    Ok(turns)
}
