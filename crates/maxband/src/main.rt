//! The program `maxband`, which the library `maxband_run` is.
#![tactic(auto)]

use maxband_run::maxband_main;
use std::process::ExitCode;

fn main(rt: HostRuntime) -> ExitCode {
    maxband_main(rt.alloc(), rt)
}
