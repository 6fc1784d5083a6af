//! How acceptance and refusals fit together, and what tree an accepted list of nodes is.

ghost use Rattle.certificate_checker.specs.{Laws.{AcceptedExactly, RefusedIsNotAccepted, OneFirstRefusal}, ProofTrees.{ProofsAreTrees}};

use time_space::{law_fails_rules_out, law_one_first};

/// A certificate is accepted exactly where nothing of it is refused; one refusal at most is the first.
pub fn law_accepted_or_refused()
    ensures accepted { AcceptedExactly }
    ensures refused { RefusedIsNotAccepted }
    ensures once { OneFirstRefusal }
{
    law_fails_rules_out();
    law_one_first();
}

/// The nodes of a certificate prove its claim exactly where they are the preorder of a tree that the linear model accepts,
/// with sums that fit.
pub fn law_proofs_are_trees()
    ensures { ProofsAreTrees }
{}
