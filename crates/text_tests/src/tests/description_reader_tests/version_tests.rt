//! Descriptions of the second version, and which keys and how many signals each version has.

use super::print_tests::{look_at, printed};
use super::samples::{is_answered, read, read_changed};
use artery_model::{Artery, Dir};
use narrow_fraction::Frac;
use std::alloc::{AllocError, Global};
use std::rt::HostRuntime;
use std::test::Fail;
use test_bed::{PLAIN_STREET, fraction_or_zero};

/// Least bands and equal bands, known in the second version alone.
pub static VERSIONS: [&str; 29] = [
    "1 version = 2\n[artery] -> described",
    "1 version = 2\n[artery]|5 ratio = 1\nleast_out = '1/4'\nleast_in = 1\nequal = true -> described",
    "1 version = 2\n[artery]|5 ratio = 1\nleast_in = '0.001'\nequal = false -> described",
    // In any other version they are unknown.
    "1 version = 1\n[artery]|5 ratio = 1\nequal = true -> UnknownKey artery.equal",
    "5 ratio = 1\nleast_in = 0 -> UnknownKey artery.least_in",
    "5 ratio = 1\nleast_out = 0 -> UnknownKey artery.least_out",
    "1 version = '2'\n[artery]|5 ratio = 1\nequal = true -> UnknownKey artery.equal",
    "1 version = 2.0\n[artery]|5 ratio = 1\nleast_out = 0 -> UnknownKey artery.least_out",
    "1 version = 3\n[artery]|5 ratio = 1\nleast_in = 0 -> UnknownKey artery.least_in",
    "1 version = 4294967298\n[artery]|5 ratio = 1\nequal = true -> UnknownKey artery.equal",
    "1 version = 2\n[artery]|5 ratio = 1\nleast = 0 -> UnknownKey artery.least",
    "1 version = 2\nequal = true\n[artery] -> UnknownKey equal",
    "1 version = 3\n[artery] -> OutOfRange version",
    "1 version = 4294967298\n[artery] -> OutOfRange version",
    "1 version = '2'\n[artery] -> WrongType version",
    // Types, numbers and limits.
    "1 version = 2\n[artery]|5 ratio = 1\nequal = 1 -> WrongType artery.equal",
    "1 version = 2\n[artery]|5 ratio = 1\nequal = 'true' -> WrongType artery.equal",
    "1 version = 2\n[artery]|5 ratio = 1\nleast_out = 0.5 -> WrongType artery.least_out",
    "1 version = 2\n[artery]|5 ratio = 1\nleast_in = 'x' -> BadNumber artery.least_in",
    "1 version = 2\n[artery]|5 ratio = 1\nleast_out = 2 -> OutOfRange artery.least_out",
    "1 version = 2\n[artery]|5 ratio = 1\nleast_out = '1001/1000' -> OutOfRange artery.least_out",
    "1 version = 2\n[artery]|5 ratio = 1\nleast_in = '-1/10' -> OutOfRange artery.least_in",
    "1 version = 2\n[artery]|5 ratio = 1\nleast_in = '1/1001' -> OutOfRange artery.least_in",
    // They stand after the ratio and before the signals.
    "1 version = 2\n[artery]|5 ratio = 101\nleast_out = 2 -> OutOfRange artery.ratio",
    "1 version = 2\n[artery]|5 ratio = 1\nleast_in = 2\nleast_out = 2 -> OutOfRange artery.least_out",
    "1 version = 2\n[artery]|5 ratio = 1\nleast_in = 2|8 name = '' -> OutOfRange artery.least_in",
    "1 version = 2\n[artery]|5 ratio = 1\nequal = 1\nleast_in = 0.5 -> WrongType artery.least_in",
    "1 version = 2\n[artery]|5 ratio = 1\nequal = 1|8 name = 5 -> WrongType artery.equal",
    "1 version = 1\n[artery]|5 ratio = 1\nleast_in = 2\nequal = 1 -> UnknownKey artery.equal",
];

/// Writes so many signals at the end.
fn push_signals(out: &mut String, alloc: Global, signals: u32) -> Result<(), AllocError> {
    for number in 0..signals {
        let signal = format!(in alloc; "[[signal]]\nname = 'S{number}'\nred = 50\n")?;
        out.push_str(signal.as_str())?;
    }
    Ok(())
}

/// Writes the links of so many signals at the end.
fn push_links(out: &mut String, signals: u32) -> Result<(), AllocError> {
    for _ in 1..signals {
        out.push_str(
            "[[link]]\ndistance_out = 250\ndistance_in = 250\nspeed_out = [36, 36]\nspeed_in = [36, 36]\n",
        )?;
    }
    Ok(())
}

/// A street of so many signals, in this version.
fn street(alloc: Global, version: &str, signals: u32) -> Result<String, AllocError> {
    let mut out = String::new(alloc);
    out.push_str(version)?;
    out.push_str("[artery]\nunits = 'metric'\nparts = 100\ncycle = [100, 100]\nratio = 1\n")?;
    push_signals(&mut out, alloc, signals)?;
    push_links(&mut out, signals)?;
    Ok(out)
}

/// A version's line, a number of signals, and what is answered for a street of so many.
type TextSize = (&'static str, u32, &'static str);

/// How many signals each version has.
static SIZES: [TextSize; 10] = [
    ("", 16, "described"),
    ("", 17, "OutOfRange signal"),
    ("version = 1\n", 16, "described"),
    ("version = 1\n", 17, "OutOfRange signal"),
    ("version = 1\n", 24, "OutOfRange signal"),
    ("version = 2\n", 2, "described"),
    ("version = 2\n", 17, "described"),
    ("version = 2\n", 24, "described"),
    ("version = 2\n", 25, "OutOfRange signal"),
    ("version = 3\n", 17, "OutOfRange version"),
];

/// Whether this is what is answered for a street.
fn is_street_answered(
    alloc: Global,
    version: &str,
    signals: u32,
    want: &str,
) -> Result<bool, Fail> {
    let description = street(alloc, version, signals)?;
    is_answered(alloc, description.as_bytes(), want)
}

#[test]
fn each_version_has_its_number_of_signals(rt: HostRuntime) -> Result<(), Fail> {
    for (version, signals, want) in SIZES {
        assert!(rt;
            is_street_answered(rt.alloc(), version, signals, want)?,
            "{signals} signals"
        );
    }
    Ok(())
}

/// The artery that is read from what is printed for one.
fn read_back(alloc: Global, artery: &Artery) -> Option<Artery> {
    match printed(alloc, artery) {
        Ok(bytes) => read(alloc, bytes.as_slice()).ok(),
        Err(_) => None,
    }
}

/// Whether the version is the second, the least bands are a quarter and 0, and the bands have to be equal.
fn has_second_keys(artery: &Artery) -> bool {
    artery.head().version == 2
        && artery.least_band(Dir::Outbound) == fraction_or_zero(1, 4)
        && artery.least_band(Dir::Inbound) == Frac::whole(0)
        && artery.equal()
}

/// The same of the artery that is read from what is printed for one.
fn has_second_keys_again(alloc: Global, artery: &Artery) -> bool {
    match read_back(alloc, artery) {
        Some(back) => has_second_keys(&back),
        None => false,
    }
}

/// The keys of the second version as they were given, and as they are where none was.
static GIVEN_LINES: [&str; 4] = [
    "version = 2",
    "least_out = \"1/4\"",
    "least_in = \"0\"",
    "equal = true",
];

static ABSENT_LINES: [&str; 3] = ["least_out = \"0\"", "least_in = \"0\"", "equal = false"];

#[test]
fn second_version_is_printed_and_read(rt: HostRuntime) -> Result<(), Fail> {
    let changes = "1 version = 2\n[artery]|5 ratio = 1\nleast_out = '0.25'\nequal = true";
    let artery = read_changed(rt.alloc(), PLAIN_STREET, changes)?;
    assert!(rt; has_second_keys_again(rt.alloc(), &artery));
    look_at(rt.alloc(), &artery, &GIVEN_LINES, &[])
}

#[test]
fn second_version_has_all_keys_printed(rt: HostRuntime) -> Result<(), Fail> {
    let artery = read_changed(rt.alloc(), PLAIN_STREET, "1 version = 2\n[artery]")?;
    assert!(rt; !artery.equal());
    look_at(rt.alloc(), &artery, &ABSENT_LINES, &[])
}

#[test]
fn first_version_has_no_new_keys_printed(rt: HostRuntime) -> Result<(), Fail> {
    let artery = read(rt.alloc(), PLAIN_STREET.as_bytes())?;
    assert!(rt; artery.head().version == 1);
    look_at(rt.alloc(), &artery, &["version = 1"], &["least", "equal"])
}
