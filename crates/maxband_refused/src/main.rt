//! A stored run of the program with a word that is no text in UTF-8, which ends with the status 12 and writes nothing.
#![tactic(auto)]

use maxband_run::maxband_main;
use std::process::ExitCode;

fn main(rt: HostRuntime) -> ExitCode {
    maxband_main(rt.alloc(), rt)
}
