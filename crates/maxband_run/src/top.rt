//! The top call.

ghost use Rattle.std.specs.Prelude.{◌≡◌, ◌≤◌, map, option_map, string_bytes};
ghost use Rattle.outer_edge.specs.Counts.{NoneFell};
ghost use Rattle.run_inputs.specs.{Status.{number_of}, Reading.{inputs, IsRoomForFaults, LeavesAlone}};
ghost use Rattle.run_commands.specs.Words.{view, request_of};
ghost use Rattle.maxband_run.specs.{Outside.{seen, OthersKept, PutsCounted}, Run.{question, Ends}};

use crate::answers::answer_to;
use crate::finish::{Undelivered, deliver, put_of};
use narrow_fraction::Memory;
use outer_edge::{Files, Sink};
use run_commands::{Request, request_in, room_for_faults};
use run_inputs::{Cause, Status};
use std::alloc::Global;

fn status(cause: Cause) -> Status
    ensures cause { result.cause ≡ cause }
    ensures number { result.number ≡ number_of cause }
{
    Status {
        number: cause.number(),
        cause,
    }
}

/// Room for the line of each file that is read, in case that it can't be.
fn room_for(request: Option<Request<'_>>) -> u64
    ensures { IsRoomForFaults (inputs (question (option_map view request.entry)).readers (question (option_map view request.entry)).names) result }
{
    match request {
        Some(request) => room_for_faults(request),
        None => 0,
    }
}

/// The file that may be put.
fn output_of(request: Option<Request<'_>>) -> Option<&str>
    ensures { option_map (λ name. name.now) result ≡ (question (option_map view request.entry)).output }
{
    match request {
        Some(request) => request.output,
        None => None,
    }
}

/// The program over any files and any output. `words` are those after the program's name.
///
/// The status has its cause: what the bytes of the files are, which are those that they held at entry where they tell them, what
/// is made from a seed, or which failed call was counted. The output grew by exactly that answer's lines, and no file changed but
/// that `solve` or `links` put the text of its certificate, which is read back as the very certificate that was accepted, `renew`
/// that of the certificate that it read, `whole`, `round`, `round-from` or `half` that of its plan, `timing` that of the typed plan's timing,
/// `draw` its picture, or `sweep` its table. What a command reads and puts stands in its row. Each call that failed and was
/// counted is told by the status: after any other no count has changed. After `Memory` no file changed and nothing was written;
/// after `WriteFault` either the put failed and nothing was written, or a front of the lines of the answer that was reached went
/// out.
pub fn run<F: Files, K: Sink>(alloc: Global, words: &[String], files: &mut F, out: &mut K) -> Status
    ensures number { result.number ≡ number_of result.cause }
    ensures ends { Ends (seen F.Files K.Sink files.old out.old) (seen F.Files K.Sink files.new out.new) (question (request_of (map string_bytes words.now))) result.cause }

    // In every case.
    ensures files { OthersKept (question (request_of (map string_bytes words.now))).output (F.holds files.old) (F.holds files.new) }
    ensures reads { NoneFell (F.read_faults files.old) (F.read_faults files.new) }
    ensures puts { PutsCounted (question (request_of (map string_bytes words.now))).output (F.put_faults files.old) (F.put_faults files.new) }
    ensures writes { K.faults out.old ≤ K.faults out.new }
    ensures alone { LeavesAlone (question (request_of (map string_bytes words.now))).readers (question (request_of (map string_bytes words.now))).output files.old files.new }
{
    let request = request_in(words);
    // Room for the line of a read that fails is made before any read, so that want of memory can't hide a fault that was counted.
    let room = room_for(request);
    if out.reserve(room).is_err() {
        return status(Cause::Memory);
    }
    let answer = match answer_to(alloc, request, files) {
        Ok(answer) => answer,
        Err(Memory) => return status(Cause::Memory),
    };
    let put = put_of(output_of(request), &answer);
    match deliver(files, out, &put, answer.lines.as_slice(), room) {
        Ok(()) => status(answer.cause),
        Err(Undelivered::Broken) => status(Cause::WriteFault),
        Err(Undelivered::Memory) => status(Cause::Memory),
    }
}
