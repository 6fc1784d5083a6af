//! What a run of the program `maxband` begins with: the files that its command reads, the numbers among its words, and how it ends
//! where a file isn't read.
//!
//! The numbers among the words have one definition, digits without a leading zero between a least and a most (`specs/Numbers.antt`);
//! the limit of work is one of these or none, by the word `all`. The cycles of a sweep are quantities (`specs/Cycles.antt`).
//!
//! What a file is read as and refused for goes by its `ReadAs` (`specs/Reading.antt`), and what it is not read for is one relation: it
//! has bytes within the limit that describe the artery, are read as the timing or certificate, or are refused as just this (`HasBytes`);
//! or one byte more than the limit was taken, with which the file begins; or a read failed and was counted. These bytes are the file's
//! where it tells them; where it tells none, as the system's files don't, all that is said is that there are such bytes. A file is
//! read by its value's type (`Readable`), and any number of files, one after the other, by a list of such types (`Inputs`): the reading
//! stops at the first that isn't read.
//!
//! `Found` has the cause of a run's status, its lines, and the bytes of the file that is put, where any are. Of that file's name no
//! command knows anything (`specs/Puts.antt`).
#![tactic(auto)]

mod cause;
mod cycles;
mod found;
mod inputs;
mod lines;
mod numbers;
mod readable;
mod reader;

pub use cause::{Cause, NO_WORDS, Status};
pub use cycles::{Cycle, are_spelled, cycles_in};
pub use found::{Found, Unread, told};
pub use inputs::Inputs;
pub use lines::{bad_text_line, cannot_read_bytes, push_numbered, refused_line, words_line};
pub use numbers::{USUAL_WORK, limit_in, seed_in, signals_in};
pub use readable::{AnyFile, Readable, Timed};
pub use reader::{Label, ReadAs};
