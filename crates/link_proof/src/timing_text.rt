//! Link timings in the texts of certificates.

ghost use Rattle.std.specs.Prelude.{◌≡◌, ◌+◌, ◌<◌, ◌^◌, pos};
ghost use Rattle.progression.specs.TimingRecord.{first};
ghost use Rattle.link_theory.specs.LinkRecord.{lines};
ghost use Rattle.link_proof.specs.{LinkFamilies.{links}, LinkTimingTexts.{link_bands}};

use crate::certificate::LinkCertificate;
use crate::families::link_families;
use link_space::LinkTiming;
use narrow_fraction::Memory;
use plan_text::{
    CertNode, CertificateKind, Naming, TextEnd, base_at, both_ways_at, pair_at, push_base,
    push_firsts, push_numbers, push_tree, tree_at,
};
use progression::Dir;
use std::alloc::Global;

/// Where the line of a direction crosses, in ticks.
fn first_of(timing: &LinkTiming, dir: Dir) -> u128
    ensures value { first (lines timing.now) dir ≡ pos result }
    ensures most { result < 2 ^ 80 }
{
    timing.first(dir).unsigned_abs()
}

impl CertificateKind for LinkCertificate {
    type Timing = LinkTiming;

    ghost text = { link_bands };

    ghost table = { links };

    fn height() -> u64 {
        9
    }

    #[tactic(auto, unfolding(crate::specs::LinkTimingTexts::link_timing_at))]
    fn timing_at(alloc: Global, line: u64, bytes: &[u8]) -> Result<(LinkTiming, &[u8]), TextEnd> {
        let (base, rest) = base_at(alloc, line, bytes)?;
        let links = base.count() as usize - 1;
        let (first, rest) = pair_at(alloc, b"first", line + 6, rest)?;
        let (halves, rest) = both_ways_at(alloc, b"half_out", b"half_in", line + 7, links, rest)?;
        let timing = LinkTiming::around(
            base,
            first.outbound,
            halves.outbound,
            first.inbound,
            halves.inbound,
        );
        Ok((timing, rest))
    }

    fn push_timing(out: &mut Vec<u8>, timing: &LinkTiming) -> Result<(), Memory> {
        push_base(out, timing.base())?;
        let first_out = first_of(timing, Dir::Outbound);
        let first_in = first_of(timing, Dir::Inbound);
        push_firsts(out, first_out, first_in)?;
        push_numbers(out, b"half_out", timing.half_out())?;
        push_numbers(out, b"half_in", timing.half_in())?;
        Ok(())
    }

    fn named_tree_at(alloc: Global, line: u64, bytes: &[u8]) -> Result<Vec<CertNode>, TextEnd> {
        tree_at(alloc, Naming::Named(link_families()), line, bytes)
    }

    fn push_named_tree(out: &mut Vec<u8>, nodes: &[CertNode]) -> Result<(), Memory> {
        push_tree(out, Naming::Named(link_families()), nodes)
    }
}
