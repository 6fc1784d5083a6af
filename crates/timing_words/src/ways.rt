//! The two directions.

ghost use Rattle.std.specs.Prelude.{◌≡◌};
ghost use Rattle.timing_words.specs.Ways.{dir_word, has_band};
ghost use Rattle.time_space.specs.Timing.{IsFor};
ghost use Rattle.progression.specs.TimingRecord.{base};

use artery_model::{Artery, Dir};
use time_space::{Timing, is_green_way};

/// A direction in a word.
pub fn dir_word(dir: Dir) -> &'static str
    ensures { result.now ≡ dir_word dir }
{
    match dir {
        Dir::Outbound => "outbound",
        Dir::Inbound => "inbound",
    }
}

/// Whether a direction has a band: whether every line of it crosses every signal in green.
pub fn has_band(artery: &Artery, timing: &Timing, dir: Dir) -> bool
    requires { IsFor artery.now (base timing.now) }
    ensures { result ≡ has_band artery.now timing.now dir }
{
    is_green_way(artery, timing, dir)
}
