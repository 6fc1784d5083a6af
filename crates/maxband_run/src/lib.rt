//! The run of the program `maxband`: what its words ask for, which files a command reads and puts, its lines and its status.
//! Commands find best timings of the signals of one artery (`solve`), also at each of several cycles (`sweep`), or best ones with a
//! band for each link (`links`), with certificates of what is claimed of all its good timings (`check`, `check-links`); test
//! timings against its time-space diagram (`hold`), measure their bands (`bands`) and draw them (`draw`); make timings of plans
//! typed in seconds (`timing`), plans in whole seconds (`whole`, `round`, `round-from`) and of half cycles (`half`); tell in words what a file is (`explain`); write the canonical
//! description of an artery (`show`) and certificates in the second format (`renew`); make arteries from a seed, to be described
//! (`make`) or searched (`trial`); and tell the program's usages (`--help`) and what it reads (`--version`).
//!
//! Start with `run`, which is the program over any files and any output: each status has its cause, and the output grows by exactly
//! that answer's lines (`specs/Run.antt`). The last frame is `maxband_main`, over any `System`; its contract is the program's theorem
//! (`specs/Program.antt`): the exit status is the number of the cause for which all that `run` promises holds of just the words that the
//! system gave but the first, and of the system's own files and output, from those that it made to those that it was left with; or 8
//! where memory is wanting for words, files or output, or 12 where the system doesn't give the words as text, and then nothing was
//! done. `run_program` is the same over words, files and an output that are at hand. No contract can name what the runtime gives: the
//! calls of it, which decide nothing, stand in `src/runtime.rt`, and stored runs test them and `main`.
//!
//! `RealFiles` and `RealOut` tell nothing of what they hold. So for the shipped program all this ties the exit status, and no printed
//! byte.
//!
//! What the words ask for, which files that reads and as what, what each command finds in what was read and tells of it stand in
//! `run_commands`; how a file is read, and why it isn't, in `run_inputs`. An answer is then one of two: the reading stops at a file
//! (`StopsReading`), or every file was read and the command finds its answer in their values (`Finds`, a line for each command).
//!
//! Each call that failed and was counted is told. A read that fails ends the run with that status, and is counted once, at its name
//! alone; so does a failed put or write, after which the answer that was reached stands in `Breaks`, with a front of its lines gone
//! out, or nothing written after a put. After every other cause all counts stand where they stood. Room for the line of a read that
//! fails is made before the first read, and that of the lines before a put, so that want of memory hides no fault and changes no
//! file. In every case no count fell, and, where files tell, none changed but the one that the command names for what it puts
//! (`OthersKept`).
//!
//! Every command has one tail, `deliver`, whose contract says what each refusal leaves.
//!
//! The laws over these definitions alone stand above, in `run_laws`: that files and words leave one answer, and what the numbers of the
//! statuses say of the model.
#![tactic(auto)]

mod answers;
mod finish;
mod program;
mod runtime;
mod system;
mod top;

pub use program::{maxband_main, run_program};
pub use run_inputs::{Cause, Status};
pub use system::System;
pub use top::run;
