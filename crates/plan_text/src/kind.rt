//! Kinds of certificates: what their timings are, and of which rows their trees are.

ghost use Rattle.std.specs.Prelude.{◌≡◌, ◌≤◌, ◌<◌, ◌+◌, ◌++◌, ◌^◌, All, map, OnOk};
ghost use Rattle.plan_text.specs.{Lines.{Gives}, Spelling.{ended}, TimingTexts.{TimingText, one_band}, CertificateText.{IsHeldNode}};
ghost use Rattle.certificate_model.specs.{Families.{Table, ordinary}, Warrants.{node_of, IsNodeIn}};
ghost use Rattle.plan_text.specs.{Namings.{Named, tree_lines}, CertificateReading.{tree_at}};

use crate::fault::TextEnd;
use crate::naming::Naming;
use crate::reading::timing_at;
use crate::tree::tree_at;
use crate::tree_writing::push_tree;
use crate::writing::push_timing;
use certificate_model::{CertNode, Certificate, FAMILIES};
use narrow_fraction::Memory;
use std::alloc::Global;
use time_space::Timing;

/// A kind of certificate, as it is spelled.
pub trait CertificateKind {
    /// The timings that are claimed.
    type Timing: Drop;

    /// How one is spelled.
    ghost text: { TimingText Self.Timing };

    /// The families whose rows are named.
    ghost table: { Table };

    /// How many lines a timing takes.
    fn height() -> u64
        ensures value { result ≡ text.height }
        ensures most { result ≤ 16 };

    /// The timing of the lines from the one with this number on, and what follows them.
    fn timing_at(alloc: Global, line: u64, bytes: &[u8]) -> Result<(Self::Timing, &[u8]), TextEnd>
        requires { line + 16 < 2 ^ 64 }
        ensures { Gives (λ x. (x.0, x.1.now)) result (text.read line bytes.now) };

    /// Writes the lines of a timing at the end.
    fn push_timing(out: &mut Vec<u8>, timing: &Self::Timing) -> Result<(), Memory>
        ensures text { OnOk result (out.new.items ≡ out.old.items ++ ended (text.lines timing.now)) }
        ensures held { OnOk result (text.IsHeld timing.now) };

    /// The tree of a certificate that names its rows, from the line `tree` on, which has this number.
    fn named_tree_at(alloc: Global, line: u64, bytes: &[u8]) -> Result<Vec<CertNode>, TextEnd>
        requires { line ≤ 21 }
        ensures { Gives (λ x. map node_of x.items) result (tree_at (Named table) line bytes.now) };

    /// Writes the lines of such a tree at the end.
    fn push_named_tree(out: &mut Vec<u8>, nodes: &[CertNode]) -> Result<(), Memory>
        requires { All (IsNodeIn table) (map node_of nodes.now) }
        ensures text { OnOk result (out.new.items ≡ out.old.items ++ ended (tree_lines (Named table) (map node_of nodes.now))) }
        ensures held { OnOk result (All IsHeldNode (map node_of nodes.now)) };
}

impl CertificateKind for Certificate {
    type Timing = Timing;

    ghost text = { one_band };

    ghost table = { ordinary };

    fn height() -> u64 {
        8
    }

    fn timing_at(alloc: Global, line: u64, bytes: &[u8]) -> Result<(Timing, &[u8]), TextEnd> {
        timing_at(alloc, line, bytes)
    }

    fn push_timing(out: &mut Vec<u8>, timing: &Timing) -> Result<(), Memory> {
        push_timing(out, timing)
    }

    #[tactic(auto, unfolding(certificate_model::specs::Families::ordinary))]
    fn named_tree_at(alloc: Global, line: u64, bytes: &[u8]) -> Result<Vec<CertNode>, TextEnd> {
        tree_at(alloc, Naming::Named(&FAMILIES), line, bytes)
    }

    #[tactic(auto, unfolding(certificate_model::specs::Families::ordinary))]
    fn push_named_tree(out: &mut Vec<u8>, nodes: &[CertNode]) -> Result<(), Memory> {
        push_tree(out, Naming::Named(&FAMILIES), nodes)
    }
}
