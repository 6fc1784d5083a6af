//! The commands of the program `maxband`: what its words ask for, and what each command finds in the values of its files, or makes of the
//! settings among its words, and tells of it: a cause, lines, and bytes for the one file that it may put. No command reads or puts a
//! file itself, nor knows a file's name.
//!
//! A command is a row and a type. Its row (`src/table.rt`) has its word, the kinds of the files that it reads, whether it may put one, the
//! kinds of the words behind, and its line of the help. `request_in` reads words by the rows, and `specs/Words.antt` says so once for all:
//! each request has as many names as its row has files, and settings in their limits (`IsFit`). Its type (`Command`) has the types that
//! its files are read as, and `find`: what it finds of their values (`Finds` in `specs/Table.antt`, a line for each command), with which
//! causes it ends (`IsOwnEnd`), and that these are answers of a command, of which no refusal puts anything (`IsOwnAnswer` of
//! `run_inputs`). Each has a module.
//!
//! - `solve` (`specs/Solve.antt`): of the artery that the file describes an answer of the search with just the limit that the words
//!   say, which may be none (`IsSearch` of `branch_tree`), and what follows for every good timing on any grid (`ProvesBy`). The
//!   certificate is accepted, the text that is put is its one spelling and is read back as that very certificate (`IsTextOf`), and
//!   the output grew by exactly the report. Which of several best timings is found isn't determined. `links` (`specs/Links.antt`)
//!   is the same over link timings, by `multi_band`.
//! - `trial` stands on the same definition, for the artery that is made; its lines are a function of that certificate alone, of its
//!   claim and of the length of its text, beside the two numbers of the words. `make` writes the canonical description of that
//!   artery, and has no other answer.
//! - `hold`, `check`, `check-links`: `Done` has behind it that the timing is good with the printed band, or that the certificate is
//!   accepted and what it claims holds of every good timing on any grid; else the first rule that fails, or the first refusal,
//!   which is never want of memory.
//! - `bands` has the widest band of each direction on the timing's offsets, or that none runs on any grid (`IsMeasured`); `round`
//!   the plan in whole seconds by `second_plan`, with a loss of at least 0, counted from the certificate's bound (`IsRounded`), or
//!   the first reason for which there is none (`IsUnplanned`); `half` the widest equal bands over all offsets by `half_integer`, or
//!   that there are none (`IsHalved`), or the first reason for which the timing has no such plan (`IsUnmatched`). Nothing is put
//!   where nothing was found (`put_of` of `run_inputs`).
//! - `whole` (`specs/Whole.antt`) puts the plan that `whole_plan` chooses of the tried cycles, with a loss of at least 0, counted from the claim
//!   of a certificate of the street or of the widened one (`IsWhole`), or tells why there is none (`IsPlanless`). What its searches find
//!   isn't determined, and so neither is whether they lead to a plan.
//! - `explain` (`specs/Explain.antt`) tells of any file's bytes what `file_words` does (`Tells`).
//! - `timing` (`specs/Typed.antt`) puts the one timing that a typed plan has by `typed_plan`, with the widest bands on its offsets,
//!   where its base keeps the rules (`HasTiming`), or tells the first reason for which the plan has none.
//! - `draw` and `sheet` ask of a file's timing its number of signals alone (`specs/Shaped.antt`), put its picture or its table, and tell the
//!   first rule that it breaks.
//! - `sweep` (`specs/Sweep.antt`) puts the table of `cycle_sweep` of just the cycles that the words spell, and always ends with
//!   `Done`; it keeps the words of the cycles, which are read as numbers when the street is there. `renew` puts the second text of
//!   the certificate that it read.
//! - `sensitivity` (`specs/Sensitivity.antt`) puts the table of `limit_sensitivity` and tells its lines, and always ends with `Done`.
#![tactic(auto)]

pub mod bands;
mod bound;
pub mod check;
mod check_lines;
pub mod check_links;
mod command;
pub mod draw;
pub mod explain;
pub mod half;
pub mod help;
pub mod hold;
mod lines;
pub mod links;
pub mod make;
pub mod narrow;
mod page;
pub mod renew;
mod request;
pub mod round;
mod searching;
pub mod sensitivity;
mod settings;
pub mod sheet;
pub mod show;
pub mod solve;
pub mod sweep;
mod table;
pub mod trial;
pub mod typed;
pub mod whole;

pub use command::Command;
pub use request::{Request, request_in, room_for_faults};
pub use settings::{Setting, Settings};
pub use table::{CommandRow, USAGES, Usage};
