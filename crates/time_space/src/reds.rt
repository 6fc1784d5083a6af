//! Cycle, reds and advances, of an artery and a base together.

ghost use Rattle.std.specs.Prelude.{◌≡◌, ◌+◌, ◌-◌, ◌<◌, ◌≤◌, ◌^◌, unsigned_abs};
ghost use Rattle.progression.specs.{Street.{count, HasSignal}, BaseRecord.{cycle}, Green.{is_early, ahead, red_start, red_ticks}};
ghost use Rattle.progression.specs.Lines.{stop, leg, advance};
ghost use Rattle.time_space.specs.{Sizes.{IsWithin}, Timing.{IsFor}};
ghost use Rattle.artery_model.specs.Bounds.{most_signals};

use crate::base::Base;
use artery_model::Artery;
use progression::Dir;

/// The signal at a place in travel order, from 0.
pub fn stop(dir: Dir, count: u32, place: u32) -> u32
    requires on_way { place < count }
    requires many { count ≤ most_signals }
    ensures value { result ≡ stop dir count place }
    ensures first { 1 ≤ result }
    ensures last { result ≤ count }
{
    match dir {
        Dir::Outbound => place + 1,
        Dir::Inbound => count - place,
    }
}

/// The link after a place in travel order.
fn leg(dir: Dir, count: u32, place: u32) -> u32
    requires on_way { place + 1 < count }
    requires many { count ≤ most_signals }
    ensures value { result ≡ leg dir count place }
    ensures first { 1 ≤ result }
    ensures last { result < count }
{
    match dir {
        Dir::Outbound => place + 1,
        Dir::Inbound => count - 1 - place,
    }
}

/// Whether the red of a direction begins before the common red, under this pattern: the left turn against it lags.
pub fn is_early(dir: Dir, pattern: u32) -> bool
    ensures { result ≡ is_early dir pattern }
{
    match dir {
        Dir::Outbound => pattern == 1 || pattern == 4,
        Dir::Inbound => pattern == 2 || pattern == 4,
    }
}

impl Base {
    /// The cycle in ticks.
    pub fn cycle(&self, artery: &Artery) -> u128
        ensures value { result ≡ cycle artery.now self.now }
        ensures least { 4 ≤ result }
        ensures most { result < 2 ^ 92 }
    {
        artery.parts() as u128 * self.unit()
    }

    /// How many ticks the red of a direction begins before the common red.
    fn ahead(&self, artery: &Artery, dir: Dir, signal: u32) -> u128
        requires signal { HasSignal artery.now signal }
        requires shape { IsFor artery.now self.now }
        ensures value { result ≡ ahead artery.now self.now dir signal }
        ensures small { result < 2 ^ 92 }
    {
        if is_early(dir, self.pattern(signal)) {
            artery.left_against(dir, signal) as u128 * self.unit()
        } else {
            0
        }
    }

    /// The tick at which the red of a direction begins at a signal.
    pub fn red_start(&self, artery: &Artery, dir: Dir, signal: u32) -> i128
        requires signal { HasSignal artery.now signal }
        requires shape { IsFor artery.now self.now }
        ensures value { result ≡ red_start artery.now self.now dir signal }
        ensures small { IsWithin result }
        ensures near { unsigned_abs result < 2 ^ 93 }
    {
        self.common_red(signal) - self.ahead(artery, dir, signal) as i128
    }

    /// How many ticks long the red of a direction is at a signal.
    pub fn red_ticks(&self, artery: &Artery, dir: Dir, signal: u32) -> u128
        requires signal { HasSignal artery.now signal }
        ensures value { result ≡ red_ticks artery.now self.now dir signal }
        ensures least { 2 ≤ result }
        ensures green { result < cycle artery.now self.now }
        ensures small { result < 2 ^ 92 }
    {
        artery.red(dir, signal) as u128 * self.unit()
    }

    /// How much later than at a place in travel order a line crosses the next signal: the run to it, less the clearance there.
    pub fn advance(&self, artery: &Artery, dir: Dir, place: u32) -> i128
        requires on_way { place + 1 < count artery.now }
        requires shape { IsFor artery.now self.now }
        ensures value { result ≡ advance artery.now self.now dir place }
        ensures small { unsigned_abs result ≤ 2 ^ 93 }
    {
        let count = artery.count();
        let run = self.run(dir, leg(dir, count, place));
        let clearance = artery.clearance(dir, stop(dir, count, place + 1)) as u128 * self.unit();
        run as i128 - clearance as i128
    }
}
