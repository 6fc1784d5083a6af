//! The program's last frame: from the system's words to an exit status.

ghost use Rattle.std.specs.{Prelude.{◌≡◌, ◌≢◌, ◌⊎◌, IfErr, IfOk, IsErr, MatchResult, OnErr, drop, map, string_bytes}, Process.{exit_status}};
ghost use Rattle.std.specs.{Vec.Iter.{into_iter_items}, IoError.{error_kind}, declared.io.ErrorKind.TheVariants.{OutOfMemory}};
ghost use Rattle.run_inputs.specs.Status.{number_of, no_words};
ghost use Rattle.maxband_run.specs.Program.{ExitsBy, Exits, HasNoWords, IsRun};

use crate::system::System;
use crate::top::run;
use outer_edge::{Files, Sink};
use run_inputs::{Cause, NO_WORDS};
use std::alloc::{AllocError, Global};
use std::io::ErrorKind;
use std::process::ExitCode;
use std::{env, io};

/// The status for want of memory, which is that of `run`.
fn no_memory() -> u8
    ensures { result ≡ number_of Cause.Memory }
{
    Cause::Memory.number()
}

/// All words but the first, which is the program's name, in their order.
fn after_the_name(alloc: Global, mut args: env::Args) -> Result<Vec<String>, AllocError>
    ensures { IfOk result (λ words. words.items ≡ drop 1 (into_iter_items args)) }
{
    let mut words = Vec::new(alloc);
    let _name = args.next();
    while let Some(word) = args.next() {
        words.push(word)?;
    }
    Ok(words)
}

/// The words after the program's name, or the status to end with.
fn words(alloc: Global, args: io::Result<env::Args>) -> Result<Vec<String>, u8>
    ensures all { IfOk args (λ given. IfOk result (λ words. words.items ≡ drop 1 (into_iter_items given))) }
    ensures wanting { IfOk args (λ given. IfErr result (λ number. number ≡ number_of Cause.Memory)) }
    ensures none { OnErr args (IsErr result) }
    ensures memory { IfErr args (λ e. error_kind e ≡ OutOfMemory → IfErr result (λ number. number ≡ number_of Cause.Memory)) }
    ensures text { IfErr args (λ e. error_kind e ≢ OutOfMemory → IfErr result (λ number. number ≡ no_words)) }
{
    match args {
        Ok(args) => after_the_name(alloc, args).map_err(|_| no_memory()),
        Err(error) if error.kind() == ErrorKind::OutOfMemory => Err(no_memory()),
        Err(_) => Err(NO_WORDS),
    }
}

/// `run` with these words, and its number as the exit status.
fn exit_of_run<F: Files, K: Sink>(
    alloc: Global,
    words: &[String],
    files: &mut F,
    out: &mut K,
) -> ExitCode
    ensures { ExitsBy F.Files K.Sink files.old files.new out.old out.new (map string_bytes words.now) (exit_status result) }
{
    ExitCode::from(run(alloc, words, files, out).number)
}

/// The program over any files and any output, from the system's answer to which words it was called with: `run` with all of them but
/// the first, and its number as the exit status. Where there are no words the status is that of want of memory, or `NO_WORDS` where
/// the system doesn't give them as text, and nothing is done.
pub fn run_program<F: Files, K: Sink>(
    alloc: Global,
    args: io::Result<env::Args>,
    files: &mut F,
    out: &mut K,
) -> ExitCode
    ensures { MatchResult args
        (λ given. Exits F.Files K.Sink files.old files.new out.old out.new (map string_bytes (drop 1 (into_iter_items given))) (exit_status result))
        (HasNoWords files.old files.new out.old out.new (exit_status result)) }
{
    match words(alloc, args) {
        Ok(words) => exit_of_run(alloc, words.as_slice(), files, out),
        Err(number) => ExitCode::from(number),
    }
}

/// The program over a system: its files and its output are made, what it gives is run (`run_program`), and it is left. Where they can't be
/// made the status is that of want of memory, whatever the words are.
pub fn maxband_main<S: System + Drop>(alloc: Global, system: S) -> ExitCode
    ensures { (S.Refuses system × (exit_status result ≡ number_of Cause.Memory)) ⊎ IsRun S.Files.Files S.Out.Sink (S.Gives system) (S.Opens system) (S.Closes system) (exit_status result) }
{
    let Ok((mut files, mut out)) = system.open() else {
        return ExitCode::from(no_memory());
    };
    let status = run_program(alloc, system.words(), &mut files, &mut out);
    system.close(files, out);
    status
}
