//! Meters near a limit and at the end of their type.

use crate::Meter;
use std::rt::HostRuntime;

#[test]
fn a_unit_is_spent(rt: HostRuntime) {
    let mut meter = Meter {
        spent: 4,
        limit: Some(5),
    };
    assert!(rt; !meter.is_out());
    meter.spend();
    assert!(rt; meter.is_out());
    assert!(rt; meter.spent == 5);
}

#[test]
fn no_limit_is_never_out(rt: HostRuntime) {
    let mut meter = Meter {
        spent: u64::MAX,
        limit: None,
    };
    meter.spend();
    assert!(rt; meter.spent == u64::MAX);
    assert!(rt; !meter.is_out());
}
