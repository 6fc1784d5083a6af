//! The check of a certificate: whether its timing is as claimed, and whether its tree of boxes proves what it claims of
//! every good timing.
//!
//! Start with `check`, which answers Ok exactly for the accepted certificates (`specs/Accepted.antt`) and else the first
//! refusal (`specs/Refusals.antt`). Where it answers Ok, what is claimed holds of the artery (`specs/Claims.antt`), on
//! any grid. It uses no tableau and no search, and nothing calls itself: the nodes are read one after another, with the
//! next box that wants a tree and, for each split on the way down to it, the span that was there before. `check_tree` does
//! that for any goal and limit (`specs/TreeProofs.antt`, `specs/TreeRefusals.antt`), and `check_parts` is the check for timings of any
//! kind (`CheckedKind`, `specs/Checked.antt`), with the rows that bound what they are worth.
//!
//! Accepted is: the timing is good and has the claimed value, the bound is not below it, and each leaf of the tree names rows of
//! the street, with multipliers of at least 0, whose exact sum rules its box out or bounds the weighted band. What follows of an
//! accepted one is best, none, or bounded, over all timings on any grid. Memory grows by a place and a span for each split on the
//! way down (`specs/Owed.antt`). `law_accepted_or_refused` says how acceptance and refusals fit together; want of memory is never a
//! refusal. `law_proofs_are_trees`: the list of a certificate's nodes, which is read with the boxes that still want a tree, proves
//! the claim for a box exactly where it is the preorder of a tree that `linear_theory` accepts on that box, each leaf's sum fitting
//! 128 bits (`specs/ProofTrees.antt`).
#![tactic(auto)]

mod checking;
mod claims;
mod kind;
mod laws;
mod leaves;
mod owed;
mod reject;
mod walk;
mod way;

pub use checking::{check, check_parts};
pub use claims::limit_of;
pub use kind::CheckedKind;
pub use laws::{law_accepted_or_refused, law_proofs_are_trees};
pub use leaves::Aim;
pub use reject::{Reject, TreeReject};
pub use walk::check_tree;
