//! Which fault of a description is named: each table of cases in turn.

use super::key_tests::{KEYS, PLACES, TWO_UNKNOWN};
use super::limit_tests::{CHANGE_NUMBERS, ENDS, FEW_PARTS, LIMITS, NUMBERS, TURN_LIMITS};
use super::order_tests::{
    BAD_NUMBERS, BROKEN_RULES, FAULTS, KINDS, MISSING_KEYS, OUT_OF_RANGE, TURN_FAULTS,
    UNKNOWN_KEYS, WRONG_TYPES,
};
use super::rule_tests::{RULES, TURN_RULES};
use super::samples::{Descriptions, EVERY_KEY, is_answered};
use super::table_tests::{COUNTS, TABLES};
use super::type_tests::{TURN_TYPES, TYPES};
use super::version_tests::VERSIONS;
use std::alloc::Global;
use std::rt::HostRuntime;
use std::test::Fail;
use test_bed::{PLAIN_STREET, all_texts_told, all_told, each_with_next};

/// A table of cases.
type Cases = &'static [&'static str];

/// The tables of changes of `PLAIN_STREET`.
fn of_plain_street() -> [Cases; 12] {
    [
        &KEYS,
        &TWO_UNKNOWN,
        &TYPES,
        &NUMBERS,
        &LIMITS,
        &ENDS,
        &RULES,
        &TABLES,
        &COUNTS,
        &FEW_PARTS,
        &FAULTS,
        &VERSIONS,
    ]
}

/// The tables of changes of `EVERY_KEY`.
fn of_every_key() -> [Cases; 6] {
    [
        &PLACES,
        &TURN_TYPES,
        &CHANGE_NUMBERS,
        &TURN_LIMITS,
        &TURN_RULES,
        &TURN_FAULTS,
    ]
}

/// Faults of `EVERY_KEY` in the order in which they are looked for: of two neighbours the first is named.
fn in_order() -> [Cases; 7] {
    [
        &KINDS,
        &UNKNOWN_KEYS,
        &MISSING_KEYS,
        &WRONG_TYPES,
        &BAD_NUMBERS,
        &OUT_OF_RANGE,
        &BROKEN_RULES,
    ]
}

/// Fails where, of a fault and the next one, another than the first is named.
fn first_is_named(alloc: Global, faults: Cases) -> Result<(), Fail> {
    for case in each_with_next(alloc, faults)? {
        all_told(alloc, &Descriptions, EVERY_KEY, &[case.as_str()])?;
    }
    Ok(())
}

#[test]
fn first_fault_is_named(rt: HostRuntime) -> Result<(), Fail> {
    for cases in of_plain_street() {
        all_told(rt.alloc(), &Descriptions, PLAIN_STREET, cases)?;
    }
    for cases in of_every_key() {
        all_told(rt.alloc(), &Descriptions, EVERY_KEY, cases)?;
    }
    Ok(())
}

#[test]
fn first_of_two_faults_is_named(rt: HostRuntime) -> Result<(), Fail> {
    for faults in in_order() {
        first_is_named(rt.alloc(), faults)?;
    }
    Ok(())
}

#[test]
fn bytes_without_tables(rt: HostRuntime) -> Result<(), Fail> {
    all_texts_told(rt.alloc(), &Descriptions, &[" -> Missing artery"])?;
    // Neither UTF-8 nor a document.
    assert!(rt; is_answered(rt.alloc(), &[91, 255], "NotUtf8 file")?);
    Ok(())
}
