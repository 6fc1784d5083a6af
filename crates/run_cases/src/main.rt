//! Runs of `maxband` as cases. Each word names a file of cases; this program plays them by `run` over files and an output in memory, and
//! compares what comes of them with what the file expects. It prints a line for each file, and one for each value that differs.
//! How cases are written is told in `docs/CASES.md`.
#![tactic(auto)]

mod parts;
mod playing;
mod stage;
mod steps;

use parts::parts_of;
use playing::{Play, play_file};
use std::process::ExitCode;
use std::rt::{Env, Files};
use std::{env, fs, io};

/// Plays each file that the words name, which knows the texts of those before it. Whether all came as expected.
fn play_all<R: Env + Files + Print + AllocGlobal>(rt: &R) -> io::Result<bool> {
    let mut play = Play::new(rt.alloc());
    let mut all = true;
    for name in env::args(rt)?.skip(1) {
        let text = fs::read_to_string(rt, name.as_str())?;
        let parts = parts_of(rt.alloc(), text.as_str())?;
        all &= play_file(rt, &mut play, name.as_str(), parts.as_slice())?;
    }
    Ok(all)
}

fn main(rt: HostRuntime) -> ExitCode {
    match play_all(&rt) {
        Ok(true) => ExitCode::from(0),
        Ok(false) => ExitCode::from(1),
        Err(_) => ExitCode::from(2),
    }
}
