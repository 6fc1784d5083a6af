//! A leaf with as many rows as it may have, and one with a row more.

use super::tests::certificate_of;
use plan_text::{BadText, CertNode, Certificate, TextEnd, TextFault};
use std::alloc::{AllocError, Global};
use std::test::Fail;

/// Writes a row of a leaf at the end.
fn push_row(text: &mut String, alloc: Global, index: u32) -> Result<(), AllocError> {
    let row = format!(in alloc; "wout {index} 1\n")?;
    text.push_str(row.as_str())
}

/// Writes so many rows of a leaf, and how many they are.
fn push_leaf(text: &mut String, alloc: Global, rows: u32) -> Result<(), AllocError> {
    let head = format!(in alloc; "leaf {rows}\n")?;
    text.push_str(head.as_str())?;
    for before in 0..rows {
        push_row(text, alloc, before + 1)?;
    }
    Ok(())
}

/// No timing, by one leaf of so many rows.
fn with_rows(alloc: Global, rows: u32) -> Result<String, AllocError> {
    let mut text = String::from_str(alloc, "maxband-certificate 1\nverdict none\ntree\n")?;
    push_leaf(&mut text, alloc, rows)?;
    text.push_str("end\n")?;
    Ok(text)
}

/// The rows of the one leaf, and 0 for any other tree.
fn rows_of(certificate: &Certificate) -> usize {
    match certificate.nodes.as_slice() {
        [CertNode::Leaf(leaf)] => leaf.multipliers.len(),
        _ => 0,
    }
}

/// The rows of a text's certificate, and 0 where there is none.
fn rows_read(alloc: Global, text: &str) -> usize {
    match certificate_of(alloc, text.as_bytes()) {
        Ok(certificate) => rows_of(&certificate),
        Err(_) => 0,
    }
}

/// Whether a text has this bad line.
fn is_bad(alloc: Global, text: &str, bad: BadText) -> bool {
    match certificate_of(alloc, text.as_bytes()) {
        Ok(_) => false,
        Err(end) => end == TextEnd::Bad(bad),
    }
}

#[test]
fn a_leaf_has_ten_thousand_rows_at_most(rt: HostRuntime) -> Result<(), Fail> {
    let most = with_rows(rt.alloc(), 10_000)?;
    assert!(rt; rows_read(rt.alloc(), most.as_str()) == 10_000);
    let more = with_rows(rt.alloc(), 10_001)?;
    let bad = BadText {
        line: 4,
        kind: TextFault::Number,
    };
    assert!(rt; is_bad(rt.alloc(), more.as_str(), bad));
    Ok(())
}
