//! Words of units, and what a signal is called.

ghost use Rattle.std.specs.Prelude.{◌≡◌, ◌+◌, ◌<◌, ◌++◌, OnOk};
ghost use Rattle.progression.specs.Street.{count, HasSignal};
ghost use Rattle.street_words.specs.Streets.{name_of, length_word, speed_word};

use artery_model::{Artery, Units};
use narrow_fraction::Memory;
use quantity_text::push_text;
use timing_measures::signal_name;

pub fn length_word(units: Units) -> &'static str
    ensures { result.now ≡ length_word units }
{
    match units {
        Units::Metric => "metres",
        Units::English => "feet",
    }
}

pub fn speed_word(units: Units) -> &'static str
    ensures { result.now ≡ speed_word units }
{
    match units {
        Units::Metric => "km/h",
        Units::English => "miles an hour",
    }
}

/// The number of the next signal.
pub fn next_signal(artery: &Artery, signal: u32) -> u32
    requires { signal < count artery.now }
    ensures { result ≡ signal + 1 }
{
    // there are few signals, so that the next number is one
    let _ = artery.count();
    signal + 1
}

/// Writes the name of a signal.
pub fn push_name(out: &mut Vec<u8>, artery: &Artery, signal: u32) -> Result<(), Memory>
    requires signal { HasSignal artery.now signal }
    ensures { OnOk result (out.new.items ≡ out.old.items ++ name_of artery.now signal) }
{
    push_text(out, signal_name(artery, signal))
}
