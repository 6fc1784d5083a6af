//! The outside: files by their names and an output, each a trait with counts of failed calls, so that a caller can show
//! that it reports a fault only where one was counted.
//!
//! `Files` is seen as what each name holds, where that is told, with a count of failed reads and one of failed puts for
//! each name; `Sink` as the bytes taken, where they are told, a count of failed writes and the room that is left. Be
//! generic over the two and begin with `read_whole` and `write_whole`. `RealFiles` and `RealOut` are the system's;
//! `SureFiles` and `SureSink` are in memory and never fail; `MemFiles` and `MemSink` fail at the calls that one names.
//!
//! What a call means is said for what files hold and outputs took, where an object tells it, and a fault is answered exactly where
//! a call is counted as failed: an Ok, and want of memory, leave every count, a read changes no count of puts and a put none of
//! reads, and a failure is counted once, at its name alone (an object may have one number for all names). A count that stands at
//! 2^64 - 1 counts as risen. `read_whole` and `write_whole` are proved over every implementation: a whole file of at most the
//! limit; `TooLong` only where one byte more than the limit was taken, with which the file begins; a front after a failed write;
//! and the same of the counts, so that no failed call is tried again unseen.
//!
//! The four implementations in memory tell their contents. A read of `SureFiles` never fails, and a put makes the file, also an
//! empty one. Of `MemFiles` a call whose number is listed fails before its name is looked up, and a put that ends for want of
//! memory has its number too; `add` has none. Of a name the newest file is found first, and one that isn't there is told as holding
//! no bytes: whether it is there, `bytes` alone says. Making room in a `MemSink` changes nothing but the room, and never takes any
//! away.
//!
//! `RealFiles` and `RealOut` tell nothing, since nothing ties their bytes to the disk. What they decide is proved for whatever
//! tells more, in functions over three traits of the crate's own. Over a `Source` and its `Reader`, `read_counted` answers the
//! file's bytes from the place that was asked for, 0 of them only at its end, whether the file was opened for the piece or is
//! still open from the one before; what isn't read is counted. It opens a name only where a plain file was found there, and reads
//! only what was found to be one once it was open, so that no pipe is waited for. Over a `Pipe`, `write_counted` answers how many
//! bytes were taken, and a write that takes none is counted. Over a `Place`, `put_counted` ends well only where the named file
//! has exactly the bytes. A `Place` says when a new file may take its name, and none is given it otherwise: the name is no link
//! that is still to be followed, nothing stands there or a regular file of one name that may be written to, of the new file's
//! owner, group and permissions, and all of the new file is stored. It says how a new file may be named (`.new1` to `.new100`)
//! and with which permissions it may be made. It says too when a file may be written in place: where one of these fails, all
//! hundred names are taken, or a call is refused, but never because the disk is full; and that a put fails only where it is full,
//! or where what was written in place or into the new file isn't whole. That a new file is given its name or removed is the
//! type's: its value can't be let go. The trait `Files` says none of this: after `Failed` a file may hold anything, so that
//! nothing which is proved rests on the disk.
//!
//! What stands between these and the system is `src/system.rt`: small functions whose contracts say nothing, each of which makes
//! one call and hands on what it answers. They, and `Facts::of`, which takes the facts from what the system tells, are only tested.
#![tactic(auto)]

mod facts;
mod files;
mod mem_files;
mod mem_sink;
mod numbered;
mod pipe;
mod place;
mod reading;
mod real_files;
mod real_out;
mod replacing;
mod sink;
mod source;
mod stored;
mod sure_files;
mod sure_sink;
mod system;
mod writing;

pub use files::{FileEnd, Files};
pub use mem_files::MemFiles;
pub use mem_sink::MemSink;
pub use reading::{ReadEnd, read_whole};
pub use real_files::RealFiles;
pub use real_out::RealOut;
pub use sink::{Failed, Sink};
pub use sure_files::SureFiles;
pub use sure_sink::SureSink;
pub use writing::write_whole;
