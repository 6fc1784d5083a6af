//! Reds, greens and bands at one signal, from numbers alone.

ghost use Rattle.std.specs.Prelude.{◌≡◌, ◌+◌, ◌%◌, ◌<◌, ◌≤◌, ℕ, ◌^◌, IsTrue, MatchOption};
ghost use Rattle.progression.specs.Green.{since, is_open, is_green, BandIsGreen};
ghost use Rattle.time_space.specs.{FirstRed.{IsFirstShut, IsFirstRed}, Sizes.{IsWithin}};

/// How many ticks before `tick` the last of the moments lies that come every `cycle` ticks, of which one is `start`: from 0
/// to `cycle - 1`.
pub fn since_start(cycle: u128, start: i128, tick: i128) -> u128
    requires cycle { 0 < cycle }
    requires size { cycle < 2 ^ 100 }
    requires start { IsWithin start }
    requires tick { IsWithin tick }
    ensures value { result ≡ since cycle start tick }
    ensures below { result < cycle }
{
    (tick - start).rem_euclid(cycle as i128) as u128
}

/// Whether the tick is green, for reds with this start and length.
pub fn is_green(cycle: u128, start: i128, red: u128, tick: i128) -> bool
    requires cycle { 0 < cycle }
    requires size { cycle < 2 ^ 100 }
    requires start { IsWithin start }
    requires tick { IsWithin tick }
    ensures { result ≡ is_green cycle start red tick }
{
    let since = since_start(cycle, start, tick);
    since == 0 || since >= red
}

/// The first of the ticks 0 to `band`, counted from a tick that comes `since` ticks after the start of a red, that
/// isn't green.
#[tactic(auto, using(crate::proofs::Remainders::first_at_one, crate::proofs::Remainders::first_at_once, crate::proofs::Remainders::first_past_end, crate::proofs::Remainders::none_until_end))]
fn first_shut(cycle: u128, red: u128, since: u128, band: u128) -> Option<u128>
    requires red { 2 ≤ red }
    requires cycle { red < cycle }
    requires size { cycle < 2 ^ 100 }
    requires since { since < cycle }
    ensures { MatchOption result ((t : ℕ) → t ≤ band → IsTrue (is_open red ((since + t) % cycle)))
        (λ t. IsFirstShut cycle red since band t) }
{
    if since == 0 {
        if band == 0 { None } else { Some(1) }
    } else if since < red {
        Some(0)
    } else if band <= cycle - since {
        None
    } else {
        Some(cycle - since + 1)
    }
}

/// The first tick of a band, counted from its left edge, that isn't green.
pub fn first_red(cycle: u128, start: i128, red: u128, edge: i128, band: u128) -> Option<u128>
    requires red { 2 ≤ red }
    requires cycle { red < cycle }
    requires size { cycle < 2 ^ 100 }
    requires start { IsWithin start }
    requires edge { IsWithin edge }
    ensures { MatchOption result (BandIsGreen cycle start red edge band)
        (λ t. IsFirstRed cycle start red edge band t) }
{
    let since = since_start(cycle, start, edge);
    first_shut(cycle, red, since, band)
}
