//! The type of a valid artery: how one is made, and its numbers in the model's words.

ghost use Rattle.std.specs.Prelude.{◌≡◌, ◌+◌, ◌<◌, ◌≤◌, pos, ◌≤ℤ◌, unsigned_abs, IfSome, IfOk};
ghost use Rattle.progression.specs.Street.{Street, count, signal_of, link_of, left_against, red_parts, clearance, allows, distance, speed, change_given, least_band, HasLink, HasSignal};
ghost use Rattle.progression.specs.{Speeds.{run_low, run_high, change}, Columns.{pattern_shift}};
ghost use Rattle.artery_model.specs.Bounds.{least_signals, most_signals, least_parts, most_parts, least_distance, most_distance, least_cycle, most_cycle, least_ratio, most_ratio, first_version, second_version, least_share, most_share};
ghost use Rattle.artery_model.specs.{Faults.{Judges}, Limits.{artery_fault}};
ghost use Rattle.artery_model.specs.Valid.{IsValid, IsSignal, IsLink, IsSpeeds, IsChange, IsPair, IsPaces, IsQuantity};

use crate::kind::Flaw;
use crate::ranges::check_ranges;
use crate::rules::check_rules;
use crate::runs::{paces, seconds};
use narrow_fraction::Frac;
use progression::{Dir, Head, Link, Pair, Signal};
use std::alloc::Global;
use std::marker::Model;

/// A valid artery, seen as a `Street`: its head, signals and links.
#[derive(Drop)]
pub struct Artery {
    head: Head,
    signals: Vec<Signal>,
    links: Vec<Link>,
}

impl Model for Artery {
    ghost use Rattle.progression.specs.Street.{Street};

    ghost Value = { Street };

    ghost use Rattle.artery_model.specs.{Inside.{street_of}, Valid.{IsValid}};

    ghost view = { street_of };

    ghost invariant = { λ a. IsValid (street_of a) };
}

/// Refuses the first value outside its limits, and then the first broken rule.
fn check_artery(alloc: Global, head: &Head, signals: &[Signal], links: &[Link]) -> Result<(), Flaw>
    ensures { Judges result (artery_fault (record { head = head.now; signals = signals.now; links = links.now })) }
{
    check_ranges(alloc, head, signals, links)?;
    check_rules(alloc, head, signals, links)
}

impl Artery {
    /// The artery of these parts. `Refused` comes exactly where they break a rule, and names the
    /// kind and the place of the first in the order of `Kind`: values outside their limits, the
    /// count of the links, names that stand twice, signals with no pattern or no green, and limits
    /// that cross. Of one kind the version comes first, then the count of the signals, the artery's
    /// own keys, and those of the signals and of the links in order.
    pub fn new(
        alloc: Global,
        head: Head,
        signals: Vec<Signal>,
        links: Vec<Link>,
    ) -> Result<Artery, Flaw>
        ensures made { IfOk result (λ a. a ≡ record { head = head; signals = signals.items; links = links.items }) }
        ensures judged { Judges result (artery_fault (record { head = head; signals = signals.items; links = links.items })) }
    {
        check_artery(alloc, &head, signals.as_slice(), links.as_slice())?;
        Ok(Artery {
            head,
            signals,
            links,
        })
    }

    /// What holds of the whole artery. The contract also says that the artery is valid.
    pub fn head(&self) -> &Head
        ensures value { result.now ≡ self.now.head }
        ensures valid { IsValid self.now }
    {
        &self.head
    }

    /// That the artery is valid, as its type keeps it: a fact for proofs, and nothing is done.
    pub fn known_valid(&self)
        ensures { IsValid self.now }
    {
        prove!(2 <= self.head.parts);
    }

    /// The signals, the first at signal 1.
    pub fn signals(&self) -> &[Signal]
        ensures { result.now ≡ self.now.signals }
    {
        self.signals.as_slice()
    }

    /// The links, the first joining signals 1 and 2.
    pub fn links(&self) -> &[Link]
        ensures { result.now ≡ self.now.links }
    {
        self.links.as_slice()
    }

    /// The version of the description, 1 or 2.
    pub fn version(&self) -> u32
        ensures value { result ≡ self.now.head.version }
        ensures least { first_version ≤ result }
        ensures most { result ≤ second_version }
    {
        self.head.version
    }

    /// The least width of a direction's band, as a fraction of the cycle; 0 where there is none.
    pub fn least_band(&self, dir: Dir) -> Frac
        ensures value { result ≡ least_band self.now dir }
        ensures range { IsQuantity least_share most_share result }
    {
        match dir {
            Dir::Outbound => self.head.least_out,
            Dir::Inbound => self.head.least_in,
        }
    }

    /// Whether both bands have to be equal.
    pub fn equal(&self) -> bool
        ensures { result ≡ self.now.head.equal }
    {
        self.head.equal
    }

    /// The number of signals, from `LEAST_SIGNALS` to `MOST_SIGNALS`.
    pub fn count(&self) -> u32
        ensures value { result ≡ count self.now }
        ensures few { least_signals ≤ result }
        ensures many { result ≤ most_signals }
    {
        self.signals.len() as u32
    }

    /// The number of parts of the cycle, from `LEAST_PARTS` to `MOST_PARTS`.
    pub fn parts(&self) -> u32
        ensures value { result ≡ self.now.head.parts }
        ensures least { least_parts ≤ result }
        ensures most { result ≤ most_parts }
    {
        self.head.parts
    }

    fn signal(&self, signal: u32) -> &Signal
        requires signal { HasSignal self.now signal }
        ensures value { result.now ≡ signal_of self.now signal }
        ensures valid { IsSignal self.now.head.parts result.now }
        ensures parts { self.now.head.parts ≤ most_parts }
    {
        &self.signals[signal as usize - 1]
    }

    fn link(&self, link: u32) -> &Link
        requires link { HasLink self.now link }
        ensures value { result.now ≡ link_of self.now link }
        ensures valid { IsLink result.now }
    {
        &self.links[link as usize - 1]
    }

    /// The left turn against a direction, in parts: it goes while the direction's through traffic
    /// waits.
    pub fn left_against(&self, dir: Dir, signal: u32) -> u32
        requires signal { HasSignal self.now signal }
        ensures value { result ≡ left_against self.now dir signal }
        ensures small { result < most_parts }
    {
        let found = self.signal(signal);
        match dir {
            Dir::Outbound => found.left_in,
            Dir::Inbound => found.left_out,
        }
    }

    /// The common red, in parts, in which both directions are red, whatever the pattern.
    pub fn common_red(&self, signal: u32) -> u32
        requires signal { HasSignal self.now signal }
        ensures value { result ≡ (signal_of self.now signal).red }
        ensures small { result < most_parts }
    {
        self.signal(signal).red
    }

    /// A direction's red, in parts: the common red and the left turn against the direction. It is
    /// at least 1, and some green is left.
    pub fn red(&self, dir: Dir, signal: u32) -> u32
        requires signal { HasSignal self.now signal }
        ensures value { result ≡ red_parts self.now dir signal }
        ensures least { 1 ≤ result }
        ensures green { result < self.now.head.parts }
        ensures small { result < most_parts }
    {
        let found = self.signal(signal);
        match dir {
            Dir::Outbound => found.red + found.left_in,
            Dir::Inbound => found.red + found.left_out,
        }
    }

    /// The outbound red, in parts: the common red and the inbound left turn.
    pub fn red_out(&self, signal: u32) -> u32
        requires signal { HasSignal self.now signal }
        ensures value { result ≡ red_parts self.now Dir.Outbound signal }
        ensures least { 1 ≤ result }
        ensures green { result < self.now.head.parts }
        ensures small { result < most_parts }
    {
        self.red(Dir::Outbound, signal)
    }

    /// The inbound red, in parts: the common red and the outbound left turn.
    pub fn red_in(&self, signal: u32) -> u32
        requires signal { HasSignal self.now signal }
        ensures value { result ≡ red_parts self.now Dir.Inbound signal }
        ensures least { 1 ≤ result }
        ensures green { result < self.now.head.parts }
        ensures small { result < most_parts }
    {
        self.red(Dir::Inbound, signal)
    }

    /// How many parts earlier a direction's line leaves a signal, so that the queue there clears.
    pub fn clearance(&self, dir: Dir, signal: u32) -> u32
        requires signal { HasSignal self.now signal }
        ensures value { result ≡ clearance self.now dir signal }
        ensures small { result < most_parts }
    {
        let found = self.signal(signal);
        match dir {
            Dir::Outbound => found.clear_out,
            Dir::Inbound => found.clear_in,
        }
    }

    /// Whether a signal allows a left turn pattern. The patterns are 1 to 4, and no other number is
    /// allowed.
    pub fn allows(&self, signal: u32, pattern: u32) -> bool
        requires signal { HasSignal self.now signal }
        ensures { result ≡ allows self.now signal pattern }
    {
        1 <= pattern && pattern <= 4 && self.signal(signal).patterns[pattern as usize - 1]
    }

    /// From the start of the inbound red to the end of the outbound red, less the common red, in
    /// parts.
    pub fn shift(&self, signal: u32, pattern: u32) -> u32
        requires signal { HasSignal self.now signal }
        requires least { 1 ≤ pattern }
        requires most { pattern ≤ 4 }
        ensures value { result ≡ pattern_shift self.now signal pattern }
        ensures small { result < 7200 }
    {
        let found = self.signal(signal);
        match pattern {
            1 => 0,
            2 => found.left_out + found.left_in,
            3 => found.left_in,
            _ => found.left_out,
        }
    }

    /// The length of a link, in metres or feet, from `LEAST_DISTANCE` to `MOST_DISTANCE`.
    pub fn distance(&self, dir: Dir, link: u32) -> u32
        requires link { HasLink self.now link }
        ensures value { result ≡ distance self.now dir link }
        ensures least { least_distance ≤ result }
        ensures most { result ≤ most_distance }
    {
        let found = self.link(link);
        match dir {
            Dir::Outbound => found.distance_out,
            Dir::Inbound => found.distance_in,
        }
    }

    fn speed(&self, dir: Dir, link: u32) -> Pair
        requires link { HasLink self.now link }
        ensures value { result ≡ speed self.now dir link }
        ensures valid { IsSpeeds result }
    {
        let found = self.link(link);
        match dir {
            Dir::Outbound => found.speed_out,
            Dir::Inbound => found.speed_in,
        }
    }

    fn change_given(&self, dir: Dir, link: u32) -> Option<Pair>
        requires link { HasLink self.now link }
        ensures value { result ≡ change_given self.now dir link }
        ensures valid { IsChange result }
    {
        let found = self.link(link);
        match dir {
            Dir::Outbound => found.change_out,
            Dir::Inbound => found.change_in,
        }
    }

    /// The run on a link at the greatest speed, in seconds.
    pub fn run_low(&self, dir: Dir, link: u32) -> Frac
        requires link { HasLink self.now link }
        ensures value { result ≡ run_low self.now dir link }
        ensures positive { pos 1 ≤ℤ result.num }
        ensures num { unsigned_abs result.num ≤ 540000000 }
        ensures den { result.den ≤ 2200000 }
    {
        let speed = self.speed(dir, link);
        seconds(self.head.units, self.distance(dir, link), speed.most)
    }

    /// The run on a link at the least speed, in seconds.
    pub fn run_high(&self, dir: Dir, link: u32) -> Frac
        requires link { HasLink self.now link }
        ensures value { result ≡ run_high self.now dir link }
        ensures positive { pos 1 ≤ℤ result.num }
        ensures num { unsigned_abs result.num ≤ 540000000 }
        ensures den { result.den ≤ 2200000 }
    {
        let speed = self.speed(dir, link);
        seconds(self.head.units, self.distance(dir, link), speed.least)
    }

    /// The limits of the change of pace from a link to the link with the next number, in seconds
    /// per metre or foot. There is none exactly where the description gives none.
    pub fn change(&self, dir: Dir, link: u32) -> Option<Pair>
        requires link { HasLink self.now link }
        ensures value { result ≡ change self.now dir link }
        ensures sizes { IfSome result (λ p. IsPaces p) }
    {
        let units = self.head.units;
        match self.change_given(dir, link) {
            None => None,
            Some(given) => Some(paces(units, given)),
        }
    }

    /// The limits of the cycle in seconds, from `LEAST_CYCLE` to `MOST_CYCLE`.
    pub fn cycle(&self) -> Pair
        ensures value { result ≡ self.now.head.cycle }
        ensures valid { IsPair least_cycle most_cycle result }
        ensures least_num { pos 1 ≤ℤ result.least.num }
        ensures most_num { pos 1 ≤ℤ result.most.num }
    {
        self.head.cycle
    }

    /// How much a second of the inbound band counts against one of the outbound band, from
    /// `LEAST_RATIO` to `MOST_RATIO`.
    pub fn ratio(&self) -> Frac
        ensures value { result ≡ self.now.head.ratio }
        ensures valid { IsQuantity least_ratio most_ratio result }
        ensures num { pos 0 ≤ℤ result.num }
    {
        self.head.ratio
    }
}
