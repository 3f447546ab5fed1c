// What a command came to is printed.
ghost use Rattle.std.specs.Prelude.{◌≤◌};
ghost use Rattle.sm_io.specs.Seen.{stream};
ghost use Rattle.sm_asked_ends.specs.Printing.{PrintsResult, PrintsStop, PutEnds};

use sm_asked::{CommandStop, Status};
use sm_io::{PutRefusal, Sink};

// Puts a piece, and ends with this status where that succeeds.
fn put<K: Sink>(out: &mut K, piece: &[u8], status: Status) -> Status
    ensures ends { PutEnds
        (stream (K.written out.old) (K.faults out.old))
        (stream (K.written out.new) (K.faults out.new))
        piece.now status result }
    ensures output_faults { K.faults out.old ≤ K.faults out.new }
{
    match out.put(piece) {
        Ok(()) => status,
        Err(PutRefusal::Failed) => Status::WriteFault,
        Err(PutRefusal::NoMemory) => Status::NoMemory,
    }
}

/// Prints why a command ended before its work was done: its line where it has one.
pub fn print_stop<K: Sink>(out: &mut K, stop: CommandStop) -> Status
    ensures prints { PrintsStop
        (stream (K.written out.old) (K.faults out.old))
        (stream (K.written out.new) (K.faults out.new))
        stop result }
    ensures output_faults { K.faults out.old ≤ K.faults out.new }
{
    match stop {
        CommandStop::Refused(line) => put(out, &line, Status::Refused),
        CommandStop::Pattern(line) => put(out, &line, Status::Pattern),
        CommandStop::Limit(line) => put(out, &line, Status::Limit),
        CommandStop::ReadFault => Status::ReadFault,
        CommandStop::NoMemory => Status::NoMemory,
    }
}

/// Prints what a command came to: the text of its work, or why it ended before.
pub fn print<K: Sink>(out: &mut K, came: Result<Vec<u8>, CommandStop>) -> Status
    ensures prints { PrintsResult
        (stream (K.written out.old) (K.faults out.old))
        (stream (K.written out.new) (K.faults out.new))
        came result }
    ensures output_faults { K.faults out.old ≤ K.faults out.new }
{
    match came {
        Ok(text) => put(out, &text, Status::Done),
        Err(stop) => print_stop(out, stop),
    }
}
