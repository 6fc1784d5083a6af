//! Rounding to the nearest whole number.

ghost use Rattle.std.specs.Prelude.{◌<◌, ◌≤◌, ◌^◌};
ghost use Rattle.second_plan.specs.Nearest.{IsNearest, AnyNumber};

/// The whole number nearest to `number / by`, of two the lesser.
pub fn nearest(number: u128, by: u128) -> u128
    requires by { 0 < by }
    requires size { number < 2 ^ 126 }
    ensures near { IsNearest AnyNumber number by result }
    ensures most { result ≤ number }
{
    let below = number / by;
    let rest = number - below * by;
    if by - rest < rest { below + 1 } else { below }
}
