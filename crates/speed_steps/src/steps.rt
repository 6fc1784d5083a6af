//! The steps of a run, and a speed whose run is moved to a multiple of one.

ghost use Rattle.std.specs.Prelude.{◌≡◌, ◌*◌, ◌^◌, ◌<◌, ◌≤◌, pos, ◌≤ℤ◌, unsigned_abs, slice_index_or};
ghost use Rattle.rational_theory.specs.Rational.{whole, over, ◌*ℚ◌, ◌/ℚ◌};
ghost use Rattle.progression.specs.Speeds.{number, seconds};
ghost use Rattle.artery_model.specs.{Bounds.{least_distance, most_distance, least_speed, most_speed}, Valid.{IsQuantity}};
ghost use Rattle.speed_steps.specs.{Steps.{steps, shorter, longer, faster, slower}, Sizes.{IsStep, IsRun}};

use artery_model::{Units, seconds};
use narrow_fraction::Frac;

/// A step in seconds; `place` counts from 0 in the order in which the steps are tried.
pub fn step(units: Units, place: u32) -> Frac
    requires { place < 3 }
    ensures value { result ≡ slice_index_or (steps units) place (whole (pos 0)) }
    ensures small { IsStep result }
{
    match (units, place) {
        (Units::Metric, 0) => Frac::reduced(1, 10),
        (Units::Metric, 1) => Frac::reduced(9, 25),
        (Units::Metric, _) => Frac::reduced(18, 5),
        (Units::English, 0) => Frac::reduced(3, 44),
        (Units::English, 1) => Frac::reduced(3, 22),
        (Units::English, _) => Frac::reduced(15, 22),
    }
}

/// The numerator of a number that isn't below 0.
fn numerator(value: Frac) -> u128
    ensures { result ≡ unsigned_abs value.num }
{
    value.num().unsigned_abs()
}

fn denominator(value: Frac) -> u128
    ensures { result ≡ value.den }
{
    value.den().unsigned_abs()
}

/// `top / bottom` in lowest terms.
fn share(top: u128, bottom: u128) -> Frac
    requires top { top ≤ 10 ^ 30 }
    requires above { 0 < bottom }
    requires bottom { bottom ≤ 10 ^ 30 }
    ensures value { result ≡ over (pos top) bottom }
    ensures least { pos 0 ≤ℤ result.num }
    ensures num { unsigned_abs result.num ≤ top }
    ensures den { result.den ≤ bottom }
{
    Frac::reduced(top as i128, bottom)
}

/// A run of so many steps.
fn run_of(count: u128, step: Frac) -> Frac
    requires most { count ≤ 10 ^ 18 }
    requires step { IsStep step }
    ensures value { result ≡ whole (pos count) *ℚ step }
    ensures small { IsRun result }
{
    share(count * numerator(step), denominator(step))
}

/// The greatest multiple of a step that is at most a run.
fn shorter(run: Frac, step: Frac) -> Frac
    requires run { IsRun run }
    requires most { unsigned_abs run.num ≤ 10 ^ 10 }
    requires step { IsStep step }
    ensures value { result ≡ shorter step run }
    ensures small { IsRun result }
{
    let top = numerator(run) * denominator(step);
    let bottom = denominator(run) * numerator(step);
    run_of(top / bottom, step)
}

/// The least multiple of a step that is at least a run.
fn longer(run: Frac, step: Frac) -> Frac
    requires run { IsRun run }
    requires most { unsigned_abs run.num ≤ 10 ^ 10 }
    requires step { IsStep step }
    ensures value { result ≡ longer step run }
    ensures small { IsRun result }
{
    let top = numerator(run) * denominator(step);
    let bottom = denominator(run) * numerator(step);
    run_of((top + bottom - 1) / bottom, step)
}

/// `top * distance / (bottom * run)`, and 0 where the run is 0.
fn quotient(top: u32, bottom: u32, distance: u32, run: Frac) -> Frac
    requires top { top ≤ 18 }
    requires bottom { 1 ≤ bottom }
    requires bottom_most { bottom ≤ 22 }
    requires most { distance ≤ most_distance }
    requires run { IsRun run }
    ensures { result ≡ number (top * distance) /ℚ (number bottom *ℚ run) }
{
    let run_top = numerator(run);
    if run_top == 0 {
        return Frac::whole(0);
    }
    share(
        u128::from(top * distance) * denominator(run),
        u128::from(bottom) * run_top,
    )
}

/// The speed at which a length takes so many seconds, 0 where they are 0.
fn speed_of(units: Units, distance: u32, run: Frac) -> Frac
    requires most { distance ≤ most_distance }
    requires run { IsRun run }
    ensures { result ≡ seconds units distance run }
{
    match units {
        Units::Metric => quotient(18, 5, distance, run),
        Units::English => quotient(15, 22, distance, run),
    }
}

/// The speed whose run is the multiple of a step that is next to that of a speed and at most it.
pub fn faster(units: Units, distance: u32, speed: Frac, step: Frac) -> Frac
    requires least { least_distance ≤ distance }
    requires most { distance ≤ most_distance }
    requires speed { IsQuantity least_speed most_speed speed }
    requires step { IsStep step }
    ensures { result ≡ faster units distance speed step }
{
    let run = seconds(units, distance, speed);
    speed_of(units, distance, shorter(run, step))
}

/// The speed whose run is the multiple of a step that is next to that of a speed and at least it.
pub fn slower(units: Units, distance: u32, speed: Frac, step: Frac) -> Frac
    requires least { least_distance ≤ distance }
    requires most { distance ≤ most_distance }
    requires speed { IsQuantity least_speed most_speed speed }
    requires step { IsStep step }
    ensures { result ≡ slower units distance speed step }
{
    let run = seconds(units, distance, speed);
    speed_of(units, distance, longer(run, step))
}
