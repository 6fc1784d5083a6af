//! Left turn patterns in words.

ghost use Rattle.std.specs.Prelude.{◌≡◌, ◌++◌, OnOk};
ghost use Rattle.progression.specs.Street.{HasSignal};
ghost use Rattle.timing_sheet.specs.Records.{pattern_text};
ghost use Rattle.time_space.specs.Timing.{IsFor};

use artery_model::Artery;
use narrow_fraction::Memory;
use street_words::push_pattern_words;
use time_space::Base;

/// Writes how the left turns of a signal go, the outbound one first, as far as there are such.
#[tactic(auto, unfolding(crate::specs::Records::pattern_text))]
pub fn push_pattern(
    out: &mut Vec<u8>,
    artery: &Artery,
    base: &Base,
    signal: u32,
) -> Result<(), Memory>
    requires shape { IsFor artery.now base.now }
    requires signal { HasSignal artery.now signal }
    ensures { OnOk result (out.new.items ≡ out.old.items ++ pattern_text artery.now base.now signal) }
{
    push_pattern_words(out, artery, signal, base.pattern(signal))
}
