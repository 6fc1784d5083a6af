//! Certificates about their greatest length, and a search that the usual limit of work ends.

use crate::long_files::LongFiles;
use crate::running::{answered, owned};
use maxband_run::run;
use narrow_fraction::Memory;
use outer_edge::{SureFiles, SureSink};
use std::alloc::Global;
use std::test::Fail;

/// Two signals 25 seconds apart with a cycle of 100 seconds, half of it red. The block sum is 0 or 1, the shifts are 0, and
/// no weighted band is above 1/2.
const NEAR: &str = "signal = [{ name = \"A\", red = 50 }, { name = \"B\", red = 50 }]
link = [{ distance_out = 250, distance_in = 250, speed_out = [36, 36], speed_in = [36, 36] }]

[artery]
units = \"metric\"
parts = 100
cycle = [100, 100]
ratio = 1
";

/// Seven signals far apart, driven through at one pace: a search that is not done by the usual limit of work, which is 100000 units.
const LONG_STREET: &str = "signal = [
    { name = \"S1\", red = 87 },
    { name = \"S2\", red = 90 },
    { name = \"S3\", red = 85 },
    { name = \"S4\", red = 88 },
    { name = \"S5\", red = 95 },
    { name = \"S6\", red = 89 },
    { name = \"S7\", red = 89 },
]
link = [
    { distance_out = 28140, distance_in = 28140, speed_out = [1, 100], speed_in = [1, 100], change_out = [0, 0], change_in = [0, 0] },
    { distance_out = 21523, distance_in = 21523, speed_out = [1, 100], speed_in = [1, 100], change_out = [0, 0], change_in = [0, 0] },
    { distance_out = 23421, distance_in = 23421, speed_out = [1, 100], speed_in = [1, 100], change_out = [0, 0], change_in = [0, 0] },
    { distance_out = 21965, distance_in = 21965, speed_out = [1, 100], speed_in = [1, 100], change_out = [0, 0], change_in = [0, 0] },
    { distance_out = 21625, distance_in = 21625, speed_out = [1, 100], speed_in = [1, 100], change_out = [0, 0], change_in = [0, 0] },
    { distance_out = 26345, distance_in = 26345, speed_out = [1, 100], speed_in = [1, 100] },
]

[artery]
units = \"metric\"
parts = 100
cycle = [5, 5]
ratio = 1
";

/// How many line feeds a certificate has, the number of the status of `check`, and what it writes.
static LINE_FEEDS: [(u64, u8, &str); 3] = [
    (268_435_456, 3, "refused BadText line 1 Shape\n"),
    (268_435_457, 9, "too long long.txt\n"),
    // A file without an end.
    (u64::MAX, 9, "too long long.txt\n"),
];

/// Whether `check` comes to this number and writes this of a certificate of so many line feeds.
fn is_checked(alloc: Global, length: u64, number: u8, written: &str) -> Result<bool, Memory> {
    let mut told = SureFiles::new(alloc);
    told.add("near.toml", NEAR.as_bytes())?;
    let mut files = LongFiles { told, length };
    let mut out = SureSink::new(alloc);
    let words = owned(alloc, &["check", "near.toml", "long.txt"])?;
    let status = run(alloc, words.as_slice(), &mut files, &mut out);
    Ok(status.number == number && out.bytes() == written.as_bytes())
}

#[test]
fn certificates_about_their_greatest_length(rt: HostRuntime) -> Result<(), Fail> {
    for (length, number, written) in &LINE_FEEDS {
        assert!(rt;
            is_checked(rt.alloc(), *length, *number, *written)?,
            "{length}"
        );
    }
    Ok(())
}

#[test]
fn usual_limit_of_work(rt: HostRuntime) -> Result<(), Fail> {
    let mut files = SureFiles::new(rt.alloc());
    files.add("a.toml", LONG_STREET.as_bytes())?;
    let got = answered(rt.alloc(), &["solve", "a.toml", "c.txt"], &mut files)?;
    assert_eq!(rt; got.number, 2);
    assert!(rt;
        got.out
            .bytes()
            .starts_with(b"verdict open\nstopped work 100000\n")
    );
    let put = files.bytes("c.txt").unwrap_or(&[]);
    assert!(rt; put.starts_with(b"maxband-certificate 2\nverdict open\n"));
    let told = answered(rt.alloc(), &["check", "a.toml", "c.txt"], &mut files)?;
    assert!(rt; told.out.bytes().starts_with(b"accepted open bound "));
    Ok(())
}
