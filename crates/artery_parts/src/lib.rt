//! Copies of an artery's parts, and the artery of parts that break no rule, so that a changed artery is made in one place.
//!
//! Start with `artery_of`: parts on which no test of `artery_model` fails are an artery, and only want of memory is answered besides.
//! The copies equal what they are made of.
#![tactic(auto)]

mod copies;
mod whole;

pub use copies::{
    copied_head, copied_link, copied_links, copied_name, copied_signal, copied_signals,
};
pub use whole::artery_of;
