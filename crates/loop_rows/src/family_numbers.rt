//! The numbers of the families of an artery's rows, in the order of `linear_theory`'s table. Code has each of them here alone.

pub const WAIT_OUT: u8 = 1;

pub const WAIT_IN: u8 = 2;

pub const FAST_OUT: u8 = 3;

pub const FAST_IN: u8 = 4;

pub const SLOW_OUT: u8 = 5;

pub const SLOW_IN: u8 = 6;

pub const RISE_OUT: u8 = 7;

pub const RISE_IN: u8 = 8;

pub const DROP_OUT: u8 = 9;

pub const DROP_IN: u8 = 10;

pub const CYCLE_LOW: u8 = 11;

pub const CYCLE_HIGH: u8 = 12;

pub const RATIO: u8 = 13;

pub const LOOP_LOW: u8 = 14;

pub const LOOP_HIGH: u8 = 15;

pub const TURN_LOW: u8 = 16;

pub const TURN_HIGH: u8 = 17;

pub const LEAST_OUT: u8 = 18;

pub const LEAST_IN: u8 = 19;

pub const EQUAL_LOW: u8 = 20;

pub const EQUAL_HIGH: u8 = 21;

/// The greatest number of a family.
pub const LAST_FAMILY: u8 = EQUAL_HIGH;
