//! Tests of `street_words` and `text_words`: the lines of a street with slips, of texts with a bad line, and of a certificate.

use super::description_reader_tests::samples::read;
use artery_model::{Artery, Flaw};
use narrow_fraction::Memory;
use plan_text::{BadText, TextEnd, read_certificate, read_timing};
use std::alloc::Global;
use std::rt::HostRuntime;
use std::test::Fail;
use street_words::{push_bounds, push_street, push_warnings};
use text_words::{push_bad_text, push_certificate_words, push_timing_words};

/// A street with a slip of each kind but long fractions.
static SLIPS: &str = "[artery]
name = \"Elm Street\"
units = \"metric\"
parts = 100
cycle = [80, 100]
ratio = 1

[[signal]]
name = \"Bridge Street\"
red = 78

[[signal]]
name = \"Main  street\"
red = 40
left_out = 8
left_in = 10
patterns = [3, 1]

[[signal]]
name = \"Main Street\"
red = 50

[[link]]
distance_out = 30
distance_in = 500
speed_out = [30, 50]
speed_in = [5, 130]

[[link]]
distance_out = 1000
distance_in = 1000
speed_out = [30, 40]
speed_in = [30, 40]
";

/// Its lines, worked out by hand.
static SLIPS_WORDS: &str = "street Elm Street: 3 signals, lengths in metres, speeds in km/h
cycle 80.0 to 100.0 s, 100 parts of 0.8 to 1.0 s each
ratio 1: a second of the inbound band counts as 1 s of the outbound one
signal 1, Bridge Street: red 62.4 to 78.0 s, green out 17.6 to 22.0 s, in 17.6 to 22.0 s
signal 2, Main  street: red 32.0 to 40.0 s, left out 6.4 to 8.0 s, left in 8.0 to 10.0 s, green out 40.0 to 50.0 s, in 41.6 to 52.0 s
left turns of signal 2, pattern 1: out lead in lag, pattern 3: out lead in lead
signal 3, Main Street: red 40.0 to 50.0 s, green out 40.0 to 50.0 s, in 40.0 to 50.0 s
link 1, Bridge Street to Main  street: outbound 30 m = 98.4 ft, 2.2 to 3.6 s, inbound 500 m = 1640.4 ft, 13.8 to 360.0 s
link 2, Main  street to Main Street: outbound 1000 m = 3280.8 ft, 90.0 to 120.0 s, inbound 1000 m = 3280.8 ft, 90.0 to 120.0 s
no outbound band is wider than 22 of 100 parts: Bridge Street
no inbound band is wider than 22 of 100 parts: Bridge Street
warning: link 1 outbound takes 2.1 s at its greatest speed, less than 3 s: is its length in metres?
warning: link 1 inbound has the greatest speed 130.0, above 120: is it in km/h?
warning: link 1 inbound has the least speed 5.0, below 10: is it in km/h?
warning: link 2 outbound takes 90.0 s at its greatest speed, more than 60 s: is its length in metres?
warning: link 2 inbound takes 90.0 s at its greatest speed, more than 60 s: is its length in metres?
warning: signal 1 outbound is red for 78 of 100 parts, more than three quarters of the cycle
warning: signal 1 inbound is red for 78 of 100 parts, more than three quarters of the cycle
warning: signals 2 and 3 have names that differ in blanks and case alone: Main  street
warning: with ratio 1 the best bands may starve a direction; ratio = \"99/100\", least bands or equal bands keep it from that
";

/// A street in feet, with least bands, at the edge of each rule, and with speeds whose runs have a long common grid.
static EDGES: &str = "version = 2

[artery]
units = \"english\"
parts = 100
cycle = [60, \"90.5\"]
ratio = 1
least_out = \"1/5\"
least_in = \"1/8\"

[[signal]]
name = \"A\"
red = 75

[[signal]]
name = \"B\"
red = 70
left_in = 5

[[link]]
distance_out = 330
distance_in = 330
speed_out = [\"49.97\", 75]
speed_in = [6, \"61.03\"]
";

static EDGES_WORDS: &str =
    "street without a name: 2 signals, lengths in feet, speeds in miles an hour
cycle 60.0 to 90.5 s, 100 parts of 0.6 to 0.9 s each
ratio 1: a second of the inbound band counts as 1 s of the outbound one
least band outbound 1/5, inbound 1/8 of the cycle, and the bands need not be equal
signal 1, A: red 45.0 to 67.9 s, green out 15.0 to 22.6 s, in 15.0 to 22.6 s
signal 2, B: red 42.0 to 63.4 s, left in 3.0 to 4.5 s, green out 15.0 to 22.6 s, in 18.0 to 27.2 s
left turns of signal 2, pattern 1: in lag, pattern 2: in lead, pattern 3: in lead, pattern 4: in lag
link 1, A to B: outbound 330 ft = 100.6 m, 3.0 to 4.5 s, inbound 330 ft = 100.6 m, 3.7 to 37.5 s
no outbound band is wider than 25 of 100 parts: A
no inbound band is wider than 25 of 100 parts: A
warning: the times of travel at the limits of speed have no grid of up to 1048576 ticks a second; where solve stops wide, try narrow
";

/// Writes all that is said of a street.
fn push_all(out: &mut Vec<u8>, artery: &Artery) -> Result<(), Memory> {
    push_street(out, artery)?;
    push_bounds(out, artery)?;
    push_warnings(out, artery)
}

/// All that is said of the street of a description.
fn street_words(alloc: Global, text: &str) -> Result<String, Fail> {
    let artery = street_of(alloc, text)?;
    let mut out = Vec::new(alloc);
    push_all(&mut out, &artery)?;
    Ok(String::from_utf8(out)?)
}

fn street_of(alloc: Global, text: &str) -> Result<Artery, Flaw> {
    read(alloc, text.as_bytes())
}

#[test]
fn streets(rt: HostRuntime) -> Result<(), Fail> {
    let slips = street_words(rt.alloc(), SLIPS)?;
    assert_eq!(rt; slips.as_str(), SLIPS_WORDS);
    let edges = street_words(rt.alloc(), EDGES)?;
    assert_eq!(rt; edges.as_str(), EDGES_WORDS);
    Ok(())
}

static TIMING: &str = "maxband-timing 1
grid 2
unit 2
pattern 1 1
red 0 100
run_out 100
run_in 100
first 100 200
band 100 99
end
";

static TIMING_WORDS: &str = "signals 2, ticks a second 2, ticks a part of the cycle 2
band outbound 100 ticks = 50.0 s, inbound 99 ticks = 49.5 s
it says when each signal turns red and how wide the bands are, and claims nothing of other timings
its cycle in seconds wants the street: `maxband sheet STREET FILE SHEET`; its widest bands: `bands`; whether it keeps the rules: `hold`
";

static CERTIFICATE: &str = "maxband-certificate 2
verdict open
bound 41/64
no timing
rows 1
wout 1
tree
split loop 1 0
leaf 1 1
1 1
leaf 1 1
1 1
end
";

static CERTIFICATE_WORDS: &str =
    "it claims: no timing of its street has a weighted band above 41/64 = 0.640625, and it has none
tree: splits 1, leaves 2; each leaf has the grounds for its part of all timings
whether that follows wants the street: `maxband check STREET FILE`; its timing in seconds: `maxband sheet STREET FILE SHEET`
";

/// The first bad line of a timing.
fn bad_timing(alloc: Global, text: &str) -> Result<BadText, &'static str> {
    match read_timing(alloc, text.as_bytes()) {
        Err(TextEnd::Bad(bad)) => Ok(bad),
        _ => Err("no bad line"),
    }
}

/// The first bad line of a certificate.
fn bad_certificate(alloc: Global, text: &str) -> Result<BadText, &'static str> {
    match read_certificate(alloc, text.as_bytes()) {
        Err(TextEnd::Bad(bad)) => Ok(bad),
        _ => Err("no bad line"),
    }
}

/// What is said of a bad line.
fn bad_words(alloc: Global, text: &str, bad: BadText) -> Result<String, Fail> {
    let mut out = Vec::new(alloc);
    push_bad_text(&mut out, text.as_bytes(), bad)?;
    Ok(String::from_utf8(out)?)
}

/// What is said of a timing.
fn timing_words(alloc: Global, text: &str) -> Result<String, Fail> {
    let mut out = Vec::new(alloc);
    match read_timing(alloc, text.as_bytes()) {
        Ok(timing) => push_timing_words(&mut out, &timing)?,
        Err(_) => return Err("no timing".into()),
    }
    Ok(String::from_utf8(out)?)
}

/// What is said of a certificate.
fn certificate_words(alloc: Global, text: &str) -> Result<String, Fail> {
    let mut out = Vec::new(alloc);
    match read_certificate(alloc, text.as_bytes()) {
        Ok(certificate) => push_certificate_words(&mut out, &certificate)?,
        Err(_) => return Err("no certificate".into()),
    }
    Ok(String::from_utf8(out)?)
}

#[test]
fn texts(rt: HostRuntime) -> Result<(), Fail> {
    let timing = timing_words(rt.alloc(), TIMING)?;
    assert_eq!(rt; timing.as_str(), TIMING_WORDS);
    let certificate = certificate_words(rt.alloc(), CERTIFICATE)?;
    assert_eq!(rt; certificate.as_str(), CERTIFICATE_WORDS);
    Ok(())
}

#[test]
fn bad_lines(rt: HostRuntime) -> Result<(), Fail> {
    let text = "maxband-timing 1\ngrid 2\nunit 1\n";
    let words = bad_words(rt.alloc(), text, bad_timing(rt.alloc(), text)?)?;
    assert_eq!(rt;
        words.as_str(),
        "line 3 is: unit 1\na number is outside its range or not in its one spelling: no sign +, no zero in front, fractions in lowest terms\nwanted: `unit N`, the ticks of a part of the cycle: a whole number of at least 2 and below 2^80 (2 to the 80th)\n"
    );
    let text = "maxband-certificate 1\nverdict open\nbound 1\nvalue 1\ngrid 2\nunits 2\n";
    let words = bad_words(rt.alloc(), text, bad_certificate(rt.alloc(), text)?)?;
    assert_eq!(rt;
        words.as_str(),
        "line 6 is: units 2\nits words, or how many they are, are not those of this place; one space stands between two words\nwanted: `unit N`, the ticks of a part of the cycle: a whole number of at least 2 and below 2^80 (2 to the 80th)\n"
    );
    let text = "maxband-certificate 2\nverdict none\nrow 1\n";
    let words = bad_words(rt.alloc(), text, bad_certificate(rt.alloc(), text)?)?;
    assert_eq!(rt;
        words.as_str(),
        "line 3 is: row 1\nits words, or how many they are, are not those of this place; one space stands between two words\nwanted: `rows N`, how many names of rows follow: a whole number of at least 0 and below 2^64 (2 to the 64th)\n"
    );
    Ok(())
}
