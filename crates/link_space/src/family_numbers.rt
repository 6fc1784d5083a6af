//! The numbers of the families of links, on from the last one of an artery, in the order of `link_theory`'s table. Code has each of
//! them here alone.

use loop_rows::family_numbers::LAST_FAMILY;

pub const NEAR_OUT_HERE: u8 = LAST_FAMILY + 1;

pub const NEAR_OUT_NEXT: u8 = LAST_FAMILY + 2;

pub const FAR_OUT_HERE: u8 = LAST_FAMILY + 3;

pub const FAR_OUT_NEXT: u8 = LAST_FAMILY + 4;

pub const NEAR_IN_HERE: u8 = LAST_FAMILY + 5;

pub const NEAR_IN_NEXT: u8 = LAST_FAMILY + 6;

pub const FAR_IN_HERE: u8 = LAST_FAMILY + 7;

pub const FAR_IN_NEXT: u8 = LAST_FAMILY + 8;

pub const LINK_RATIO: u8 = LAST_FAMILY + 9;

/// The greatest number of a family.
pub const LAST_LINK_FAMILY: u8 = LINK_RATIO;
