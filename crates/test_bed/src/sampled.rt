//! The streets of samples.

ghost use Rattle.std.specs.Prelude.{◌≡◌, IfOk, map};
ghost use Rattle.test_bed.specs.Samples.{head_of, signal_of, link_of};

use crate::sample::{SampleHead, SampleLink, SampleSignal};
use artery_model::{Artery, Flaw, Head, Link, Signal, Text};
use narrow_fraction::Memory;
use std::alloc::Global;

fn head(sample: SampleHead) -> Head
    ensures { result ≡ head_of sample }
{
    Head {
        name: None,
        units: sample.units,
        version: sample.version,
        parts: sample.parts,
        cycle: sample.cycle,
        ratio: sample.ratio,
        least_out: sample.least_out,
        least_in: sample.least_in,
        equal: sample.equal,
    }
}

fn signal(alloc: Global, sample: SampleSignal) -> Result<Signal, Memory>
    ensures { IfOk result (λ signal. signal ≡ signal_of sample) }
{
    Ok(Signal {
        name: Text::new(alloc, sample.name)?,
        red: sample.red,
        left_out: sample.left_out,
        left_in: sample.left_in,
        patterns: sample.patterns,
        clear_out: sample.clear_out,
        clear_in: sample.clear_in,
    })
}

fn signals_of(alloc: Global, samples: &[SampleSignal]) -> Result<Vec<Signal>, Memory>
    ensures { IfOk result (λ signals. signals.items ≡ map signal_of samples.now) }
{
    let mut signals = Vec::new(alloc);
    for sample in samples {
        let next = signal(alloc, *sample)?;
        signals.push(next)?;
    }
    Ok(signals)
}

fn link(sample: SampleLink) -> Link
    ensures { result ≡ link_of sample }
{
    Link {
        distance_out: sample.distance_out,
        distance_in: sample.distance_in,
        speed_out: sample.speed_out,
        speed_in: sample.speed_in,
        change_out: sample.change_out,
        change_in: sample.change_in,
    }
}

fn links_of(alloc: Global, samples: &[SampleLink]) -> Result<Vec<Link>, Memory>
    ensures { IfOk result (λ links. links.items ≡ map link_of samples.now) }
{
    let mut links = Vec::new(alloc);
    for sample in samples {
        links.push(link(*sample))?;
    }
    Ok(links)
}

/// The street of these signals and of the links between them.
pub fn sample_street(
    alloc: Global,
    whole: SampleHead,
    signals: &[SampleSignal],
    links: &[SampleLink],
) -> Result<Artery, Flaw>
    ensures { IfOk result (λ a. a ≡ record { head = head_of whole; signals = map signal_of signals.now; links = map link_of links.now }) }
{
    let Ok(signals) = signals_of(alloc, signals) else {
        return Err(Flaw::Memory);
    };
    let Ok(links) = links_of(alloc, links) else {
        return Err(Flaw::Memory);
    };
    Artery::new(alloc, head(whole), signals, links)
}
