//! The families of rows by name.

ghost use Rattle.std.specs.Prelude.{◌≡◌};
ghost use Rattle.certificate_model.specs.Families.{table_of, family_name_in, is_lone_in};

/// A family of rows as texts name it.
#[derive(Clone, Copy)]
pub struct FamilyName {
    pub text: &'static str,
    /// It has one row alone, which needs no index.
    pub is_lone: bool,
}

// An artery's families, of which tables of other kinds of certificates are made too. One row alone have the limits of the cycle, the
// ratio, least bands and equal bands.

pub const WAIT_OUT: FamilyName = FamilyName {
    text: "wout",
    is_lone: false,
};

pub const WAIT_IN: FamilyName = FamilyName {
    text: "win",
    is_lone: false,
};

pub const FAST_OUT: FamilyName = FamilyName {
    text: "fast_out",
    is_lone: false,
};

pub const FAST_IN: FamilyName = FamilyName {
    text: "fast_in",
    is_lone: false,
};

pub const SLOW_OUT: FamilyName = FamilyName {
    text: "slow_out",
    is_lone: false,
};

pub const SLOW_IN: FamilyName = FamilyName {
    text: "slow_in",
    is_lone: false,
};

pub const RISE_OUT: FamilyName = FamilyName {
    text: "rise_out",
    is_lone: false,
};

pub const RISE_IN: FamilyName = FamilyName {
    text: "rise_in",
    is_lone: false,
};

pub const DROP_OUT: FamilyName = FamilyName {
    text: "drop_out",
    is_lone: false,
};

pub const DROP_IN: FamilyName = FamilyName {
    text: "drop_in",
    is_lone: false,
};

pub const CYCLE_LOW: FamilyName = FamilyName {
    text: "cycle_low",
    is_lone: true,
};

pub const CYCLE_HIGH: FamilyName = FamilyName {
    text: "cycle_high",
    is_lone: true,
};

pub const RATIO: FamilyName = FamilyName {
    text: "ratio",
    is_lone: true,
};

pub const LOOP_LOW: FamilyName = FamilyName {
    text: "loop_lo",
    is_lone: false,
};

pub const LOOP_HIGH: FamilyName = FamilyName {
    text: "loop_hi",
    is_lone: false,
};

pub const TURN_LOW: FamilyName = FamilyName {
    text: "turn_lo",
    is_lone: false,
};

pub const TURN_HIGH: FamilyName = FamilyName {
    text: "turn_hi",
    is_lone: false,
};

pub const LEAST_OUT: FamilyName = FamilyName {
    text: "least_out",
    is_lone: true,
};

pub const LEAST_IN: FamilyName = FamilyName {
    text: "least_in",
    is_lone: true,
};

pub const EQUAL_LOW: FamilyName = FamilyName {
    text: "equal_lo",
    is_lone: true,
};

pub const EQUAL_HIGH: FamilyName = FamilyName {
    text: "equal_hi",
    is_lone: true,
};

/// The families of ordinary certificates, by their numbers from 1 on.
pub const FAMILIES: [FamilyName; 21] = [
    WAIT_OUT, WAIT_IN, FAST_OUT, FAST_IN, SLOW_OUT, SLOW_IN, RISE_OUT, RISE_IN, DROP_OUT, DROP_IN,
    CYCLE_LOW, CYCLE_HIGH, RATIO, LOOP_LOW, LOOP_HIGH, TURN_LOW, TURN_HIGH, LEAST_OUT, LEAST_IN,
    EQUAL_LOW, EQUAL_HIGH,
];

/// The name of a family of a table, by its number from 1 on. The number 0 gives the first name too, and one past the last
/// the empty name.
pub fn family_name_in(names: &[FamilyName], family: u8) -> &'static str
    ensures { result.now ≡ family_name_in (table_of names.now) family }
{
    match names.get(usize::from(family).saturating_sub(1)) {
        Some(name) => name.text,
        None => "",
    }
}

/// Whether a family of a table has one row alone.
pub fn is_lone_in(names: &[FamilyName], family: u8) -> bool
    ensures { result ≡ is_lone_in (table_of names.now) family }
{
    if family == 0 {
        return false;
    }
    match names.get(usize::from(family) - 1) {
        Some(name) => name.is_lone,
        None => false,
    }
}
