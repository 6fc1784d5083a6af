//! What a certificate is: a claim on the weighted bands of good timings, a timing where the claim has a value, and one tree of splits
//! and leaves; and the names of its rows, family by family.
//!
//! Contracts see a certificate as a `Warrant` (`specs/Warrants.antt`). The type `Certificate` keeps that a timing stands exactly where
//! the claim has a value, that the nodes are one whole tree in preorder, and that the rows of each leaf have names and ascend
//! (`IsCertificate`). A table of families says by which text each goes and which have one row alone (`specs/Families.antt`);
//! `FAMILIES` is that of ordinary certificates. How certificates are read and written is said by `plan_text`, and what one shows of an
//! artery by `certificate_checker`.
#![tactic(auto)]

mod certificate;
mod family;

pub use certificate::{CertNode, Certificate, Claim};
pub use family::{
    CYCLE_HIGH, CYCLE_LOW, DROP_IN, DROP_OUT, EQUAL_HIGH, EQUAL_LOW, FAMILIES, FAST_IN, FAST_OUT,
    FamilyName, LEAST_IN, LEAST_OUT, LOOP_HIGH, LOOP_LOW, RATIO, RISE_IN, RISE_OUT, SLOW_IN,
    SLOW_OUT, TURN_HIGH, TURN_LOW, WAIT_IN, WAIT_OUT, family_name_in, is_lone_in,
};
