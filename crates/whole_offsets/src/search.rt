//! The moves while they make the plan better.

ghost use Rattle.std.specs.Prelude.{◌≤◌, ◌∷◌, [], length, IfOk, None};
ghost use Rattle.progression.specs.{Street.{Street}, BaseRecord.{BaseRecord}, Good.{IsBase}};
ghost use Rattle.second_plan.specs.Seconds.{IsWholeCycle};
ghost use Rattle.whole_offsets.specs.{Scale.{IsScale}, Moves.{moves_by, moves_of, moves}, Score.{IsBetter}};
ghost use Rattle.whole_offsets.specs.declared.moves.Move.{Move};
ghost use Rattle.whole_offsets.specs.Tried.{IsTried, IsAfter, IsMade, IsMadeWith, NoMoveIsBetter};

use crate::moves::{Move, Reach, moved, stop_of};
use crate::plan::{Tried, try_offsets};
use crate::scale::TickScale;
use crate::score::beats;
use artery_model::Artery;
use narrow_fraction::Memory;
use std::alloc::Global;
use time_space::Base;

/// The best of the moves' plans once one more is found, or None while none is better than what is there.
fn better_of(there: &Tried, found: Tried, best: Option<Tried>) -> Option<Tried>
    ensures { (a : Street) (b : BaseRecord) (m : Move) → IsAfter a b there.now m found → IsMadeWith a b there.now (m ∷ []) best result }
{
    match best {
        None => {
            if beats(&found.score, &there.score) {
                Some(found)
            } else {
                None
            }
        }
        Some(before) => {
            if beats(&found.score, &before.score) {
                Some(found)
            } else {
                Some(before)
            }
        }
    }
}

/// The plan of the offsets after a move.
fn plan_after(
    alloc: Global,
    artery: &Artery,
    base: &Base,
    scale: TickScale,
    there: &Tried,
    given: Move,
) -> Result<Tried, Memory>
    requires base { IsBase artery.now base.now }
    requires scale { IsScale artery.now base.now there.now.rounded.seconds scale.grid scale.unit }
    requires whole { IsWholeCycle artery.now there.now.rounded.seconds }
    requires there { IsTried artery.now base.now there.now.rounded.seconds there.now }
    requires not_first { 1 ≤ given.start }
    requires step { given.step ≤ 7200 }
    ensures { IfOk result (λ x. IsAfter artery.now base.now there.now given x) }
{
    artery.known_valid();
    let rounded = moved(alloc, &there.rounded, given)?;
    try_offsets(alloc, artery, base, scale, rounded)
}

/// The best of the plans so far once a move is tried.
fn try_move(
    alloc: Global,
    artery: &Artery,
    base: &Base,
    scale: TickScale,
    there: &Tried,
    given: Move,
    best: Option<Tried>,
) -> Result<Option<Tried>, Memory>
    requires base { IsBase artery.now base.now }
    requires scale { IsScale artery.now base.now there.now.rounded.seconds scale.grid scale.unit }
    requires whole { IsWholeCycle artery.now there.now.rounded.seconds }
    requires there { IsTried artery.now base.now there.now.rounded.seconds there.now }
    requires not_first { 1 ≤ given.start }
    requires step { given.step ≤ 7200 }
    ensures { IfOk result (λ next. IsMadeWith artery.now base.now there.now (given ∷ []) best next) }
{
    let found = plan_after(alloc, artery, base, scale, there, given)?;
    Ok(better_of(there, found, best))
}

/// The best of the plans so far once every signal but the first is moved so.
fn try_places(
    alloc: Global,
    artery: &Artery,
    base: &Base,
    scale: TickScale,
    there: &Tried,
    reach: Reach,
    step: u64,
    best: Option<Tried>,
) -> Result<Option<Tried>, Memory>
    requires base { IsBase artery.now base.now }
    requires scale { IsScale artery.now base.now there.now.rounded.seconds scale.grid scale.unit }
    requires whole { IsWholeCycle artery.now there.now.rounded.seconds }
    requires there { IsTried artery.now base.now there.now.rounded.seconds there.now }
    requires step { step ≤ 7200 }
    ensures { IfOk result (λ next. IsMadeWith artery.now base.now there.now (moves_by reach step (length there.now.rounded.offsets.items)) best next) }
{
    artery.known_valid();
    let count = there.rounded.offsets.len();
    let mut next = best;
    for start in 1..count {
        let stop = stop_of(reach, start, count);
        next = try_move(
            alloc,
            artery,
            base,
            scale,
            there,
            Move { start, stop, step },
            next,
        )?;
    }
    Ok(next)
}

/// The best of the plans so far once the moves of this reach are tried.
fn try_steps(
    alloc: Global,
    artery: &Artery,
    base: &Base,
    scale: TickScale,
    there: &Tried,
    reach: Reach,
    best: Option<Tried>,
) -> Result<Option<Tried>, Memory>
    requires base { IsBase artery.now base.now }
    requires scale { IsScale artery.now base.now there.now.rounded.seconds scale.grid scale.unit }
    requires whole { IsWholeCycle artery.now there.now.rounded.seconds }
    requires there { IsTried artery.now base.now there.now.rounded.seconds there.now }
    ensures { IfOk result (λ next. IsMadeWith artery.now base.now there.now
        (moves_of reach there.now.rounded.seconds (length there.now.rounded.offsets.items)) best next) }
{
    artery.known_valid();
    let back = there.rounded.seconds - 1;
    let plus_one = try_places(alloc, artery, base, scale, there, reach, 1, best)?;
    let minus_one = try_places(alloc, artery, base, scale, there, reach, back, plus_one)?;
    let plus_two = try_places(alloc, artery, base, scale, there, reach, 2, minus_one)?;
    try_places(
        alloc,
        artery,
        base,
        scale,
        there,
        reach,
        2 * there.rounded.seconds - 2,
        plus_two,
    )
}

/// The plan of the best move, of equally good ones of the first, or None where no move's is better than what is there.
fn best_move(
    alloc: Global,
    artery: &Artery,
    base: &Base,
    scale: TickScale,
    there: &Tried,
) -> Result<Option<Tried>, Memory>
    requires base { IsBase artery.now base.now }
    requires scale { IsScale artery.now base.now there.now.rounded.seconds scale.grid scale.unit }
    requires whole { IsWholeCycle artery.now there.now.rounded.seconds }
    requires there { IsTried artery.now base.now there.now.rounded.seconds there.now }
    ensures { IfOk result (λ best. IsMade artery.now base.now there.now (moves there.now.rounded.seconds (length there.now.rounded.offsets.items)) best) }
{
    let alone = try_steps(alloc, artery, base, scale, there, Reach::One, None)?;
    try_steps(alloc, artery, base, scale, there, Reach::On, alone)
}

/// The plan that is there once the best move has been made as long as one is better.
pub fn settled(
    alloc: Global,
    artery: &Artery,
    base: &Base,
    scale: TickScale,
    first: Tried,
) -> Result<Tried, Memory>
    requires base { IsBase artery.now base.now }
    requires scale { IsScale artery.now base.now first.rounded.seconds scale.grid scale.unit }
    requires whole { IsWholeCycle artery.now first.rounded.seconds }
    requires first { IsTried artery.now base.now first.rounded.seconds first }
    ensures tried { IfOk result (λ x. IsTried artery.now base.now first.rounded.seconds x) }
    ensures settled { IfOk result (λ x. NoMoveIsBetter artery.now base.now first.rounded.seconds x) }
    ensures no_worse { IfOk result (λ x. ¬ IsBetter first.score x.score) }
{
    artery.known_valid();
    let mut there = first;
    loop {
        match best_move(alloc, artery, base, scale, &there)? {
            Some(better) => there = better,
            None => return Ok(there),
        }
    }
}
