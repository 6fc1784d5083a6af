//! Descriptions that are read: each key comes back, and the same street in other spellings.

ghost use Rattle.progression.specs.Street.{count, HasSignal};

use super::samples::{EVERY_KEY, read, read_changed};
use artery_model::{Artery, Dir, Link, Pair, Units};
use narrow_fraction::Frac;
use std::rt::HostRuntime;
use std::test::Fail;
use test_bed::{PLAIN_STREET, fraction_or_zero};

/// Lines of the base replaced by others that mean the same.
static SAME: [&str; 12] = [
    "",
    "1 \u{feff}[artery]",
    "1 version = 1\n[artery]",
    "1 [artery]\nname = 'aaaaaaaaaaaaaaaaaaaaaaaaaaaaaaaaaaaaaaaaaaaaaaaaaaaaaaaaaaaa'",
    "4 cycle = ['200000/2000', 100]",
    "5 ratio = '2/2'",
    "5 ratio = 1",
    "9 red = 0x32",
    "9 red = 50\nleft_out = 0\nclear_in = 0",
    "13 red = 50\nleft_in = 0\npatterns = [4, 1, 3, 2, 1]",
    "18 speed_out = ['036', 36]",
    "19 speed_in = ['36.0', '72/2']",
];

/// A signal: its number, the outbound and the inbound red, the two left turns and the two clearances, and which of the
/// patterns 1 to 4 it allows.
type AtSignal = (u32, [u32; 2], [u32; 4], [bool; 4]);

/// The signals of `PLAIN_STREET`.
static BASE_SIGNALS: [AtSignal; 2] = [
    (1, [50, 50], [0, 0, 0, 0], [true, true, true, true]),
    (2, [50, 50], [0, 0, 0, 0], [true, true, true, true]),
];

/// The signals of `EVERY_KEY`. An outbound left turn adds to the inbound red.
static SIGNALS: [AtSignal; 3] = [
    (1, [52, 50], [10, 12, 5, 7], [false, true, false, true]),
    (2, [45, 45], [0, 0, 0, 0], [true, true, true, true]),
    (3, [30, 99], [69, 0, 0, 99], [true, false, false, false]),
];

fn red_out_at(artery: &Artery, signal: u32) -> u32
    requires signal { HasSignal artery.now signal }
{
    artery.red_out(signal)
}

fn red_in_at(artery: &Artery, signal: u32) -> u32
    requires signal { HasSignal artery.now signal }
{
    artery.red_in(signal)
}

/// The outbound and the inbound red of a signal.
fn reds_at(artery: &Artery, signal: u32) -> [u32; 2]
    requires signal { HasSignal artery.now signal }
{
    [red_out_at(artery, signal), red_in_at(artery, signal)]
}

/// The same, asked by direction.
pub fn reds_by_direction(artery: &Artery, signal: u32) -> [u32; 2]
    requires signal { HasSignal artery.now signal }
{
    [
        artery.red(Dir::Outbound, signal),
        artery.red(Dir::Inbound, signal),
    ]
}

/// The outbound and the inbound left turn of a signal, and the two clearances.
pub fn turns_at(artery: &Artery, signal: u32) -> [u32; 4]
    requires signal { HasSignal artery.now signal }
{
    [
        artery.left_against(Dir::Inbound, signal),
        artery.left_against(Dir::Outbound, signal),
        artery.clearance(Dir::Outbound, signal),
        artery.clearance(Dir::Inbound, signal),
    ]
}

/// Which of the patterns 1 to 4 a signal allows.
pub fn patterns_at(artery: &Artery, signal: u32) -> [bool; 4]
    requires signal { HasSignal artery.now signal }
{
    [
        artery.allows(signal, 1),
        artery.allows(signal, 2),
        artery.allows(signal, 3),
        artery.allows(signal, 4),
    ]
}

/// Whether a signal is as it should be.
fn is_signal(artery: &Artery, want: &AtSignal) -> bool {
    let (signal, reds, turns, patterns) = want;
    if *signal < 1 || *signal > artery.count() {
        return false;
    }
    reds_at(artery, *signal) == *reds
        && reds_by_direction(artery, *signal) == *reds
        && turns_at(artery, *signal) == *turns
        && patterns_at(artery, *signal) == *patterns
}

/// The number of the first signal that isn't as it should be, or 0.
fn first_other(artery: &Artery, signals: &[AtSignal]) -> u32 {
    for want in signals {
        if !is_signal(artery, want) {
            return want.0;
        }
    }
    0
}

/// A fraction: its numerator and its denominator.
type ReadNumber = (i128, i128);

fn fraction(number: ReadNumber) -> Frac {
    fraction_or_zero(number.0, number.1)
}

/// Whether two limits are these fractions.
fn are(limits: Pair, least: ReadNumber, most: ReadNumber) -> bool {
    fraction(least) == limits.least && fraction(most) == limits.most
}

/// Whether there are limits, and they are these fractions.
fn are_given(limits: Option<Pair>, least: ReadNumber, most: ReadNumber) -> bool {
    match limits {
        Some(limits) => are(limits, least, most),
        None => false,
    }
}

/// The runs on a link at the greatest and at the least speed, in seconds, where there is that link.
pub fn runs_at(artery: &Artery, dir: Dir, link: u32) -> Option<Pair> {
    if link < 1 || link >= artery.count() {
        return None;
    }
    Some(Pair {
        least: artery.run_low(dir, link),
        most: artery.run_high(dir, link),
    })
}

/// The outbound and the inbound length of a link, where there is that link.
pub fn lengths_at(artery: &Artery, link: u32) -> Option<[u32; 2]> {
    if link < 1 || link >= artery.count() {
        return None;
    }
    Some([
        artery.distance(Dir::Outbound, link),
        artery.distance(Dir::Inbound, link),
    ])
}

/// The limits of the change of pace behind a link, where there is that link and it has them.
pub fn change_at(artery: &Artery, dir: Dir, link: u32) -> Option<Pair> {
    if link < 1 || link >= artery.count() {
        return None;
    }
    artery.change(dir, link)
}

/// Whether there are no limits of the changes of pace behind a link.
fn has_no_change(artery: &Artery, link: u32) -> bool {
    change_at(artery, Dir::Outbound, link).is_none()
        && change_at(artery, Dir::Inbound, link).is_none()
}

/// Whether the artery's own values are those of `PLAIN_STREET`.
fn has_base_head(artery: &Artery) -> bool {
    artery.count() == 2
        && artery.parts() == 100
        && artery.ratio() == Frac::whole(1)
        && artery.head().units == Units::Metric
        && artery.head().cycle.least == Frac::whole(100)
}

/// Whether the speeds of the only link are those of `PLAIN_STREET`.
fn has_base_speeds(links: &[Link]) -> bool {
    let [link] = links else {
        return false;
    };
    link.speed_out.most == Frac::whole(36) && link.speed_in.least == Frac::whole(36)
}

/// Whether an artery is that of `PLAIN_STREET`.
fn is_plain_street(artery: &Artery) -> bool {
    has_base_head(artery)
        && first_other(artery, &BASE_SIGNALS) == 0
        && lengths_at(artery, 1) == Some([500, 500])
        && has_no_change(artery, 1)
        && has_base_speeds(artery.links())
}

#[test]
fn base_is_read(rt: HostRuntime) -> Result<(), Fail> {
    for changes in SAME {
        let artery = read_changed(rt.alloc(), PLAIN_STREET, changes)?;
        assert!(rt; is_plain_street(&artery), "{changes}");
    }
    Ok(())
}

/// Whether an artery has this name.
fn is_named(artery: &Artery, want: &str) -> bool {
    match &artery.head().name {
        Some(name) => name.as_str() == want,
        None => false,
    }
}

/// Whether the names of the signals are A and B.
fn has_base_names(artery: &Artery) -> bool {
    let [first, second] = artery.signals() else {
        return false;
    };
    first.name.as_str() == "A" && second.name.as_str() == "B"
}

/// Whether the greatest outbound speed of the only link is this one.
fn has_greatest_speed(links: &[Link], want: ReadNumber) -> bool {
    let [link] = links else {
        return false;
    };
    fraction(want) == link.speed_out.most
}

/// Whether an artery has miles, the names that were given, and a speed of 27/2.
fn is_english_street(artery: &Artery) -> bool {
    artery.head().units == Units::English
        && is_named(artery, "Main Street")
        && has_base_names(artery)
        && has_greatest_speed(artery.links(), (27, 2))
}

#[test]
fn english_street_is_read(rt: HostRuntime) -> Result<(), Fail> {
    let changes =
        "1 version = 1\n[artery]\nname = 'Main Street'|2 units = 'english'|18 speed_out = ['13.50', '27/2']";
    let artery = read_changed(rt.alloc(), PLAIN_STREET, changes)?;
    assert!(rt; is_english_street(&artery));
    Ok(())
}

/// Whether the artery's own values are those of `EVERY_KEY`.
fn has_every_value(artery: &Artery) -> bool {
    artery.head().units == Units::English
        && artery.parts() == 100
        && are(artery.cycle(), (60, 1), (181, 2))
        && artery.ratio() == fraction((3, 4))
}

/// Whether the speeds of the links are those of `EVERY_KEY`.
fn has_every_speed(links: &[Link]) -> bool {
    let [first, second] = links else {
        return false;
    };
    are(first.speed_out, (30, 1), (40, 1))
        && are(first.speed_in, (55, 2), (35, 1))
        && are(second.speed_out, (25, 1), (25, 1))
        && are(second.speed_in, (20, 1), (45, 1))
}

/// Whether the runs on the first link are those of `EVERY_KEY`. Thirty miles an hour are 44 feet a second.
fn has_every_run(artery: &Artery) -> bool {
    are_given(runs_at(artery, Dir::Outbound, 1), (525, 22), (350, 11))
        && are_given(runs_at(artery, Dir::Inbound, 1), (2250, 77), (4500, 121))
}

/// Whether the changes of pace behind the first link are those of `EVERY_KEY`, in seconds for a foot, of which a mile
/// has 5280.
fn has_every_change(artery: &Artery) -> bool {
    are_given(change_at(artery, Dir::Outbound, 1), (-1, 528), (1, 264))
        && are_given(change_at(artery, Dir::Inbound, 1), (-25, 132), (1, 15840))
}

/// Whether the artery's own values and its signals are those of `EVERY_KEY`.
fn has_every_signal(artery: &Artery) -> bool {
    is_named(artery, "Main Street")
        && has_every_value(artery)
        && artery.count() == 3
        && first_other(artery, &SIGNALS) == 0
}

/// Whether the links are those of `EVERY_KEY`.
fn has_every_link(artery: &Artery) -> bool {
    has_every_speed(artery.links())
        && has_every_run(artery)
        && lengths_at(artery, 2) == Some([900, 800])
        && has_every_change(artery)
        && has_no_change(artery, 2)
}

#[test]
fn every_key_is_read(rt: HostRuntime) -> Result<(), Fail> {
    let artery = read(rt.alloc(), EVERY_KEY.as_bytes())?;
    assert!(rt; has_every_signal(&artery));
    assert!(rt; has_every_link(&artery));
    Ok(())
}
