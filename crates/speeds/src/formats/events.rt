// One JSON text read by events, many times over, into a sink that counts them and keeps nothing else.
ghost use Rattle.std.specs.Prelude.{◌≡◌, ◌<◌, length};
ghost use Rattle.speeds.specs.FormatTurns.{CountsEvents};

use sm_json::JsonReader;
use sm_tree::{Event, EventSink, NoMemory, SyntaxRefusal};
use std::alloc::Global;

/// Counts the events that it takes.
#[derive(Drop)]
struct EventCount {
    taken: u64,
}

// It stands for as many events as it counted, and takes every one.
impl EventSink for EventCount {
    ghost stands_for = { λ count es. length es ≡ count.taken };

    ghost takes = { λ count e. Unit {0} };

    ghost alike = { λ a b. Unit {0} };

    #[inline(always)]
    fn event(&mut self, event: Event) -> Result<(), NoMemory> {
        match self.taken.checked_add(1) {
            Some(taken) => {
                self.taken = taken;
                Ok(())
            }
            None => Err(NoMemory),
        }
    }

    ghost alike_itself = { λ a. tt };

    ghost alike_then = { λ a b c ab bc. tt };
}

fn count_once(alloc: Global, bytes: &[u8], piece: usize) -> Result<u64, SyntaxRefusal>
    requires { 0 < piece }
    ensures { CountsEvents bytes.now result }
{
    let mut reader = JsonReader::new(alloc);
    let mut count = EventCount { taken: 0 };
    let mut at = 0;
    while at < bytes.len() {
        let end = at + piece.min(bytes.len() - at);
        match reader.feed(&bytes[at..end], &mut count) {
            Ok(()) => at = end,
            Err(refusal) => return Err(refusal),
        }
    }
    match reader.flush(&mut count) {
        Ok(()) => {}
        Err(refusal) => return Err(refusal),
    }
    match reader.end() {
        Ok(()) => Ok(count.taken),
        Err(refusal) => Err(refusal),
    }
}

/// How many events a JSON text has that comes so many times, and at least once, in pieces of this length.
///
/// # Errors
///
/// Those of `JsonReader`.
pub fn count_times(
    alloc: Global,
    bytes: &[u8],
    piece: usize,
    turns: u32,
) -> Result<u64, SyntaxRefusal>
    requires { 0 < piece }
    ensures { CountsEvents bytes.now result }
{
    for _ in 1..turns {
        match count_once(alloc, bytes, piece) {
            Ok(_) => {}
            Err(refusal) => return Err(refusal),
        }
    }
    count_once(alloc, bytes, piece)
}
