//! Arteries that are printed, read again and printed again.

ghost use Rattle.std.specs.Prelude.{◌≤◌};
ghost use Rattle.progression.specs.Street.{count, HasSignal};

use super::reading_tests::{
    change_at, lengths_at, patterns_at, reds_by_direction, runs_at, turns_at,
};
use super::samples::{EVERY_KEY, read, read_changed};
use artery_model::{Dir, Pair, Signal};
use description_reader::{Artery, print_artery};
use narrow_fraction::Memory;
use std::alloc::Global;
use std::rt::HostRuntime;
use std::test::Fail;
use test_bed::PLAIN_STREET;

/// Changes of `EVERY_KEY`: quotes and letters beyond ASCII, and other numbers.
static FULL: &str = "\
4 name = \"\\\"Main\\\" and 'Rose\u{301}'\"|\
6 parts = 120|\
8 ratio = \"0.5\"|\
11 name = \"caf\u{e9} \\\"A\\\"\"|\
15 patterns = [3, 1, 3]|\
17 clear_in = 6|\
20 name = \"'''\\\\\"|\
21 red = 50\npatterns = [2]|\
24 name = \"C\"|\
25 red = 60|\
26-30|\
33 distance_out = 1200|\
34 distance_in = 1250|\
35 speed_out = [20, \"30.5\"]|\
36 speed_in = [\"24\", 36]|\
37 change_out = [\"-7/2\", 4]|\
38 change_in = [-10, \"10\"]|\
42 distance_in = 901|\
43 speed_out = [\"25\", \"25\"]|\
44 speed_in = [\"25\", \"100/3\"]";

/// What the format fixes of the lines for `FULL`.
static FULL_LINES: [&str; 27] = [
    "version = 1",
    "units = \"english\"",
    "parts = 120",
    "cycle = [\"60\", \"181/2\"]",
    "ratio = \"1/2\"",
    "red = 40",
    "left_out = 10",
    "left_in = 12",
    "patterns = [1, 3]",
    "clear_out = 5",
    "clear_in = 6",
    "red = 50",
    "patterns = [2]",
    "red = 60",
    "left_out = 0",
    "patterns = [1, 2, 3, 4]",
    "clear_in = 0",
    "distance_out = 1200",
    "distance_in = 1250",
    "speed_out = [\"20\", \"61/2\"]",
    "speed_in = [\"24\", \"36\"]",
    "change_out = [\"-7/2\", \"4\"]",
    "change_in = [\"-10\", \"10\"]",
    "distance_out = 900",
    "distance_in = 901",
    "speed_out = [\"25\", \"25\"]",
    "speed_in = [\"25\", \"100/3\"]",
];

fn same_pair(a: Pair, b: Pair) -> bool {
    a.least == b.least && a.most == b.most
}

fn same_limits(a: Option<Pair>, b: Option<Pair>) -> bool {
    match (a, b) {
        (Some(a), Some(b)) => same_pair(a, b),
        (None, None) => true,
        _ => false,
    }
}

fn same_signal(a: &Artery, b: &Artery, signal: u32) -> bool
    requires signal { HasSignal a.now signal }
    requires other { signal ≤ count b.now }
{
    patterns_at(a, signal) == patterns_at(b, signal)
        && reds_by_direction(a, signal) == reds_by_direction(b, signal)
        && turns_at(a, signal) == turns_at(b, signal)
}

fn same_way(a: &Artery, b: &Artery, dir: Dir, link: u32) -> bool {
    same_limits(runs_at(a, dir, link), runs_at(b, dir, link))
        && same_limits(change_at(a, dir, link), change_at(b, dir, link))
}

fn same_link(a: &Artery, b: &Artery, link: u32) -> bool {
    lengths_at(a, link) == lengths_at(b, link)
        && same_way(a, b, Dir::Outbound, link)
        && same_way(a, b, Dir::Inbound, link)
}

fn same_name(a: Option<&str>, b: Option<&str>) -> bool {
    match (a, b) {
        (Some(a), Some(b)) => a == b,
        (None, None) => true,
        _ => false,
    }
}

/// The name of an artery, where it has one.
fn name_of(artery: &Artery) -> Option<&str> {
    match &artery.head().name {
        Some(name) => Some(name.as_str()),
        None => None,
    }
}

/// Whether the signals of two lists have the same names.
fn same_signal_names(a: &[Signal], b: &[Signal]) -> bool {
    for (signal, other) in a.iter().zip(b.iter()) {
        if signal.name.as_str() != other.name.as_str() {
            return false;
        }
    }
    true
}

/// Whether the calls of two arteries have the same answers.
fn same_answers(a: &Artery, b: &Artery) -> bool {
    if a.count() != b.count() || a.parts() != b.parts() || a.head().units != b.head().units {
        return false;
    }
    for signal in 1..a.count() + 1 {
        if !same_signal(a, b, signal) {
            return false;
        }
    }
    for link in 1..a.count() {
        if !same_link(a, b, link) {
            return false;
        }
    }
    same_name(name_of(a), name_of(b))
        && same_signal_names(a.signals(), b.signals())
        && same_pair(a.cycle(), b.cycle())
        && a.ratio() == b.ratio()
}

/// The bytes that are printed for an artery.
pub fn printed(alloc: Global, artery: &Artery) -> Result<Vec<u8>, Memory> {
    print_artery(alloc, artery)
}

/// Whether an artery is printed as these bytes.
fn is_printed_as(alloc: Global, artery: &Artery, bytes: &[u8]) -> bool {
    match printed(alloc, artery) {
        Ok(text) => text.as_slice() == bytes,
        Err(_) => false,
    }
}

/// Whether the artery that is read from its printed bytes has the same answers, and is printed as the same bytes again.
fn comes_back(alloc: Global, artery: &Artery, bytes: &[u8]) -> bool {
    match read(alloc, bytes) {
        Ok(back) => same_answers(artery, &back) && is_printed_as(alloc, &back, bytes),
        Err(_) => false,
    }
}

fn has_line(text: &str, line: &str) -> bool {
    text.lines().any(|found| found == line)
}

/// Fails at the first of these lines that a text hasn't.
fn has_lines(text: &str, lines: &[&str]) -> Result<(), Fail> {
    for line in lines {
        if !has_line(text, line) {
            return Err(Fail::new(format_args!("no line {line}")));
        }
    }
    Ok(())
}

/// Fails at the first of these words that a text has.
fn has_no_word(text: &str, words: &[&str]) -> Result<(), Fail> {
    for word in words {
        if text.contains(*word) {
            return Err(Fail::new(format_args!("a word {word}")));
        }
    }
    Ok(())
}

/// Fails where an artery doesn't come back from this text, or the text hasn't one of the lines or has one of the words.
fn look_at_text(
    alloc: Global,
    artery: &Artery,
    text: &str,
    lines: &[&str],
    words: &[&str],
) -> Result<(), Fail> {
    if !comes_back(alloc, artery, text.as_bytes()) {
        return Err("another artery comes back".into());
    }
    has_lines(text, lines)?;
    has_no_word(text, words)
}

/// The same of what is printed for an artery.
pub fn look_at(alloc: Global, artery: &Artery, lines: &[&str], words: &[&str]) -> Result<(), Fail> {
    let bytes = printed(alloc, artery)?;
    let text = std::str::from_utf8(bytes.as_slice())?;
    look_at_text(alloc, artery, text, lines, words)
}

/// What the format fixes of the lines for `PLAIN_STREET`.
static BASE_LINES: [&str; 4] = [
    "version = 1",
    "cycle = [\"100\", \"100\"]",
    "patterns = [1, 2, 3, 4]",
    "clear_out = 0",
];

#[test]
fn base_is_printed_and_read(rt: HostRuntime) -> Result<(), Fail> {
    let artery = read(rt.alloc(), PLAIN_STREET.as_bytes())?;
    look_at(rt.alloc(), &artery, &BASE_LINES, &["change"])
}

#[test]
fn every_key_is_printed_and_read(rt: HostRuntime) -> Result<(), Fail> {
    let artery = read_changed(rt.alloc(), EVERY_KEY, FULL)?;
    look_at(rt.alloc(), &artery, &FULL_LINES, &[])
}
