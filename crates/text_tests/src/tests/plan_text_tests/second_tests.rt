//! Certificates in format 2, as they are written and read again.

use super::super::quantity_text_tests::is_text;
use super::tests::{certificate_of, certificate_text};
use plan_text::{Certificate, write_second};
use std::alloc::Global;
use std::test::*;
use test_bed::{WORKED_LISTED, worked_text};

/// A certificate's text in format 1, and that in format 2.
type SecondCase = (&'static str, &'static str);

static CASES: [SecondCase; 8] = [
    // Multipliers of 1.
    (
        "maxband-certificate 1\nverdict none\ntree\nleaf 2\nwout 1 1\nwin 1 1\nend\n",
        "maxband-certificate 2\nverdict none\nrows 2\nwout 1\nwin 1\ntree\nleaf 1 2\n1 1\n2 1\nend\n",
    ),
    // No rows, as at the start of a search.
    (
        "maxband-certificate 1\nverdict open\nbound -3/4\nno timing\ntree\nleaf 0\nend\n",
        "maxband-certificate 2\nverdict open\nbound -3/4\nno timing\nrows 0\ntree\nleaf 1 0\nend\n",
    ),
    // Several denominators, a multiplier below 0 and one of 0.
    (
        "maxband-certificate 1\nverdict none\ntree\nleaf 4\nwout 1 1/2\nwout 2 1/3\nratio -5/6\nturn_hi 1 0\nend\n",
        "maxband-certificate 2\nverdict none\nrows 4\nwout 1\nwout 2\nratio\nturn_hi 1\ntree\nleaf 6 4\n1 3\n2 2\n3 -5\n4 0\nend\n",
    ),
    // The denominator 2^100 3^70 is too large.
    (
        "maxband-certificate 1\nverdict none\ntree\nleaf 2\nwout 1 1/1267650600228229401496703205376\nwout 2 1/2503155504993241601315571986085849\nend\n",
        "maxband-certificate 2\nverdict none\nrows 2\nwout 1\nwout 2\ntree\nplain 2\n1 1/1267650600228229401496703205376\n2 1/2503155504993241601315571986085849\nend\n",
    ),
    // Twice 2^127 - 1 is too large.
    (
        "maxband-certificate 1\nverdict none\ntree\nleaf 2\nwout 1 170141183460469231731687303715884105727\nwout 2 1/2\nend\n",
        "maxband-certificate 2\nverdict none\nrows 2\nwout 1\nwout 2\ntree\nplain 2\n1 170141183460469231731687303715884105727\n2 1/2\nend\n",
    ),
    // Twice -2^126 is too large, although it is one of 128 bits with a sign.
    (
        "maxband-certificate 1\nverdict none\ntree\nleaf 2\nwout 1 -85070591730234615865843651857942052864\nwout 2 1/2\nend\n",
        "maxband-certificate 2\nverdict none\nrows 2\nwout 1\nwout 2\ntree\nplain 2\n1 -85070591730234615865843651857942052864\n2 1/2\nend\n",
    ),
    // Twice 2^126 - 1 is not.
    (
        "maxband-certificate 1\nverdict none\ntree\nleaf 2\nwout 1 85070591730234615865843651857942052863\nwout 2 -1/2\nend\n",
        "maxband-certificate 2\nverdict none\nrows 2\nwout 1\nwout 2\ntree\nleaf 2 2\n1 170141183460469231731687303715884105726\n2 -1\nend\n",
    ),
    // The greatest numbers.
    (
        "maxband-certificate 1\nverdict none\ntree\nleaf 2\nwout 1 -1/170141183460469231731687303715884105727\nwout 2 170141183460469231731687303715884105726/170141183460469231731687303715884105727\nend\n",
        "maxband-certificate 2\nverdict none\nrows 2\nwout 1\nwout 2\ntree\nleaf 170141183460469231731687303715884105727 2\n1 -1\n2 170141183460469231731687303715884105726\nend\n",
    ),
];

fn second_text(alloc: Global, certificate: &Certificate) -> Option<Vec<u8>> {
    write_second(alloc, certificate).ok()
}

/// What is written for a certificate, in format 2 or 1.
fn text_in(alloc: Global, certificate: &Certificate, is_second: bool) -> Option<Vec<u8>> {
    if is_second {
        second_text(alloc, certificate)
    } else {
        certificate_text(alloc, certificate)
    }
}

/// The same for the certificate with this text.
fn written(alloc: Global, text: &str, is_second: bool) -> Option<Vec<u8>> {
    match certificate_of(alloc, text.as_bytes()) {
        Ok(certificate) => text_in(alloc, &certificate, is_second),
        Err(_) => None,
    }
}

/// Whether the certificate with the first text has the second one in format 2, and the other way round.
fn are_same(alloc: Global, first: &str, second: &str) -> bool {
    is_text(written(alloc, first, true), second) && is_text(written(alloc, second, false), first)
}

#[test]
fn texts_in_format_2(rt: HostRuntime) -> Result<(), Fail> {
    let alloc = rt.alloc();
    for (first, second) in CASES {
        assert!(rt; are_same(alloc, first, second), "{first}");
    }
    let worked = worked_text(alloc)?;
    assert!(rt; are_same(alloc, worked.as_str(), WORKED_LISTED));
    Ok(())
}
