//! Runs over files and an output in memory.

ghost use Rattle.std.specs.Prelude.{◌≢◌};

use maxband_run::{Status, run};
use narrow_fraction::Memory;
use outer_edge::{SureFiles, SureSink};
use std::alloc::Global;

/// What a run over files and an output that never fail comes to.
#[derive(Drop)]
pub struct Answer {
    pub number: u8,
    pub out: SureSink,
}

pub fn owned(alloc: Global, words: &[&str]) -> Result<Vec<String>, Memory> {
    let mut all = Vec::new(alloc);
    for word in words {
        all.push(String::from_str(alloc, word)?)?;
    }
    Ok(all)
}

/// Files and an output that never fail: no fault is answered.
fn run_surely(alloc: Global, words: &[String], files: &mut SureFiles, out: &mut SureSink) -> Status
    ensures read { result.number ≢ 6 }
    ensures written { result.number ≢ 7 }
{
    run(alloc, words, files, out)
}

/// What words come to over files that never fail.
pub fn answered(alloc: Global, words: &[&str], files: &mut SureFiles) -> Result<Answer, Memory> {
    let words = owned(alloc, words)?;
    let mut out = SureSink::new(alloc);
    let status = run_surely(alloc, words.as_slice(), files, &mut out);
    Ok(Answer {
        number: status.number,
        out,
    })
}
