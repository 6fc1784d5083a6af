//! Texts of timings, written and read again, and each kind of bad line.

use plan_text::*;
use progression::Dir;
use std::alloc::{AllocError, Global};
use std::test::*;
use test_bed::{TextReader, WHOLE_GREEN, all_texts_told, all_told, told_again};
use time_space::Timing;

/// Timings of 17 and of 24 signals, which are read.
static LONG: [&str; 2] = [
    "maxband-timing 1\ngrid 2\nunit 2\npattern 1 1 1 1 1 1 1 1 1 1 1 1 1 1 1 1 1\nred 0 1 2 3 4 5 6 7 8 9 10 11 12 13 14 15 16\nrun_out 50 50 50 50 50 50 50 50 50 50 50 50 50 50 50 50\nrun_in 50 50 50 50 50 50 50 50 50 50 50 50 50 50 50 50\nfirst 100 200\nband 100 100\nend\n -> read",
    "maxband-timing 1\ngrid 2\nunit 2\npattern 1 1 1 1 1 1 1 1 1 1 1 1 1 1 1 1 1 1 1 1 1 1 1 1\nred 0 1 2 3 4 5 6 7 8 9 10 11 12 13 14 15 16 17 18 19 20 21 22 23\nrun_out 50 50 50 50 50 50 50 50 50 50 50 50 50 50 50 50 50 50 50 50 50 50 50\nrun_in 50 50 50 50 50 50 50 50 50 50 50 50 50 50 50 50 50 50 50 50 50 50 50\nfirst 100 200\nband 100 100\nend\n -> read",
];

/// A timing with each number at one place alone.
static OWN_NUMBERS: &str =
    "maxband-timing 1\ngrid 1208925819614629174706175\nunit 21\npattern 1 2 4\nred 0 7 9\nrun_out 31 32\nrun_in 33 34\nfirst 41 42\nband 43 44\nend\n";

/// The base as it is, and changes of it with the bad line and its fault.
static CHANGED: [&str; 43] = [
    " -> read",
    "1 maxband-timing 2 -> 1 Shape",
    "1 maxband-certificate 1 -> 1 Shape",
    "1 maxband-timing 1  -> 1 Shape",
    "1 -> 1 Shape",
    "2 grid  2 -> 2 Shape",
    "2 grid\t2 -> 2 Shape",
    "2 grid -> 2 Shape",
    "2 grid 2 2 -> 2 Shape",
    "2 Grid 2 -> 2 Shape",
    "2 unit 2 -> 2 Shape",
    "2 grid 2\r -> 2 Number",
    "2 grid  -> 2 Number",
    "2 grid 02 -> 2 Number",
    "2 grid 00 -> 2 Number",
    "2 grid +2 -> 2 Number",
    "2 grid + -> 2 Number",
    "2 grid -2 -> 2 Number",
    "2 grid 2x -> 2 Number",
    "2 grid 2.0 -> 2 Number",
    "2 grid 0 -> 2 Number",
    "2 grid 1208925819614629174706176 -> 2 Number",
    "2 grid 340282366920938463463374607431768211458 -> 2 Number",
    "2 grid 1000000000000000000000000000000000000000000000000000000000000000000000000000000000000000000000000000 -> 2 Number",
    "3 unit 1 -> 3 Number",
    "3 -> 3 Shape",
    "3 unit 2\nunit 2 -> 4 Shape",
    "4 pattern 1 -> 4 Shape",
    "4 pattern 1 1 1 1 1 1 1 1 1 1 1 1 1 1 1 1 1 1 1 1 1 1 1 1 1 -> 4 Shape",
    "4 pattern 1 9 -> 4 Number",
    "4 pattern 0 1 -> 4 Number",
    "4 pattern 1 1 1 -> 5 Shape",
    "5 red 0 100 100 -> 5 Shape",
    "5 red 0 -> 5 Shape",
    "6 run_out 100 100 -> 6 Shape",
    "7 run_in -> 7 Shape",
    "8 first 100 -> 8 Shape",
    "8 first 100 1208925819614629174706176 -> 8 Number",
    "9 band 100 100  -> 9 Shape",
    "9 band x -> 9 Shape",
    "10 end  -> 10 Shape",
    "10 end\n -> 11 Shape",
    "10 end\nend -> 11 Shape",
];

/// The same with a byte that no text has.
static BYTES: [&[u8]; 2] = [
    b"maxband-timing 1\ngrid \xff\nunit 2\npattern 1 1\nred 0 100\nrun_out 100\nrun_in 100\nfirst 100 200\nband 100 100\nend\n",
    b"maxband-timing 1\ngrid 2\xff\nunit 2\npattern 1 1\nred 0 100\nrun_out 100\nrun_in 100\nfirst 100 200\nband 100 100\nend\n",
];

/// Texts without the line feed of this line.
static ENDED: [&str; 9] = [
    " -> 1 Ended",
    "maxband -> 1 Ended",
    "maxband-timing 1 -> 1 Ended",
    "maxband-timing 1\n -> 2 Ended",
    "maxband-timing 1\ngrid 2\nunit 2\npattern 1 9 -> 4 Ended",
    "maxband-timing 1\ngrid 2\nunit 2\npattern 1 1\n -> 5 Ended",
    "maxband-timing 1\ngrid 2\nunit 2\npattern 1 1\nred 0 100\nrun_out 100\nrun_in 100\nfirst 100 200\nband 100 100\n -> 10 Ended",
    "maxband-timing 1\ngrid 2\nunit 2\npattern 1 1\nred 0 100\nrun_out 100\nrun_in 100\nfirst 100 200\nband 100 100\nend -> 10 Ended",
    "maxband-timing 1\ngrid 2\nunit 2\npattern 1 1\nred 0 100\nrun_out 100\nrun_in 100\nfirst 100 200\nband 100 100\nend\nxyz -> 11 Ended",
];

/// The timing of a base artery: two signals with reds of half the cycle, and bands of the other half.
fn base(alloc: Global) -> Result<String, AllocError> {
    format!(in alloc; "maxband-timing 1\n{}end\n", WHOLE_GREEN)
}

/// The readers of timings and of certificates: they answer with the first bad line, or whether a text is written again as it was.
#[derive(Clone, Copy, Drop)]
pub enum Texts {
    Timings,
    Certificates,
}

/// The timing of a text, with nothing said of it.
fn timing_of(alloc: Global, text: &[u8]) -> Result<Timing, TextEnd> {
    read_timing(alloc, text)
}

/// The certificate of a text, with nothing said of it.
pub fn certificate_of(alloc: Global, text: &[u8]) -> Result<Certificate, TextEnd> {
    read_certificate(alloc, text)
}

fn timing_text(alloc: Global, timing: &Timing) -> Option<Vec<u8>> {
    write_timing(alloc, timing).ok()
}

pub fn certificate_text(alloc: Global, certificate: &Certificate) -> Option<Vec<u8>> {
    write_certificate(alloc, certificate).ok()
}

fn timing_again(alloc: Global, text: &[u8]) -> Result<Option<Vec<u8>>, TextEnd> {
    match timing_of(alloc, text) {
        Ok(timing) => Ok(timing_text(alloc, &timing)),
        Err(end) => Err(end),
    }
}

fn certificate_again(alloc: Global, text: &[u8]) -> Result<Option<Vec<u8>>, TextEnd> {
    match certificate_of(alloc, text) {
        Ok(certificate) => Ok(certificate_text(alloc, &certificate)),
        Err(end) => Err(end),
    }
}

fn end_text(alloc: Global, end: TextEnd) -> Result<String, Fail> {
    match end {
        TextEnd::Bad(BadText { line, kind }) => Ok(format!(in alloc; "{line} {kind:?}")?),
        TextEnd::Memory => Err("no memory".into()),
    }
}

impl TextReader for Texts {
    fn answer(&self, alloc: Global, text: &[u8]) -> Result<String, Fail> {
        let again = match self {
            Texts::Timings => timing_again(alloc, text),
            Texts::Certificates => certificate_again(alloc, text),
        };
        match again {
            Ok(written) => Ok(told_again(alloc, text, written)?),
            Err(end) => end_text(alloc, end),
        }
    }
}

/// Whether the lists of numbers are those of that text.
fn has_own_lists(timing: &Timing) -> bool {
    timing.patterns() == [1, 2, 4].as_slice()
        && timing.reds() == [0, 7, 9].as_slice()
        && timing.run_out() == [31, 32].as_slice()
        && timing.run_in() == [33, 34].as_slice()
}

/// Whether the other numbers are those of that text.
fn has_own_numbers(timing: &Timing) -> bool {
    timing.grid() == 1208925819614629174706175
        && timing.unit() == 21
        && timing.first(Dir::Outbound) == 41
        && timing.first(Dir::Inbound) == 42
        && timing.band(Dir::Outbound) == 43
        && timing.band(Dir::Inbound) == 44
}

/// Whether a text is that of a timing with these lists and numbers.
fn is_own(alloc: Global, text: &[u8]) -> bool {
    match timing_of(alloc, text) {
        Ok(timing) => has_own_lists(&timing) && has_own_numbers(&timing),
        Err(_) => false,
    }
}

/// Whether the second line of a text is bad for its number.
fn is_no_number(alloc: Global, text: &[u8]) -> bool {
    let bad = BadText {
        line: 2,
        kind: TextFault::Number,
    };
    match timing_of(alloc, text) {
        Ok(_) => false,
        Err(end) => end == TextEnd::Bad(bad),
    }
}

/// Fails where the base, or a change of it, is judged otherwise than its case says.
fn judge_base(alloc: Global) -> Result<(), Fail> {
    let base = base(alloc)?;
    all_told(alloc, &Texts::Timings, base.as_str(), &CHANGED)
}

#[test]
fn timings_are_read_and_judged(rt: HostRuntime) -> Result<(), Fail> {
    judge_base(rt.alloc())?;
    all_texts_told(rt.alloc(), &Texts::Timings, &ENDED)?;
    all_texts_told(rt.alloc(), &Texts::Timings, &LONG)?;
    all_told(rt.alloc(), &Texts::Timings, OWN_NUMBERS, &[" -> read"])?;
    for text in BYTES {
        assert!(rt; is_no_number(rt.alloc(), text));
    }
    assert!(rt; is_own(rt.alloc(), OWN_NUMBERS.as_bytes()));
    Ok(())
}
