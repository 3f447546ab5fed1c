// An item of CBOR read by events, many times over. The events are counted, and nothing is made of them.
ghost use Rattle.std.specs.Prelude.{◌<◌};

use sm_cbor::CborReader;
use sm_tree::{Event, EventSink, NoMemory, SyntaxRefusal};
use std::alloc::Global;

/// How many events have come.
#[derive(Drop)]
struct Counter {
    count: u64,
}

/// It takes every event, and how many it counts isn't said by a clause.
impl EventSink for Counter {
    ghost stands_for = { λ c es. Unit {0} };

    ghost takes = { λ c e. Unit {0} };

    ghost alike = { λ a b. Unit {0} };

    #[inline(always)]
    fn event(&mut self, _event: Event) -> Result<(), NoMemory> {
        self.count = self.count.saturating_add(1);
        Ok(())
    }

    ghost alike_itself = { λ a. tt };

    ghost alike_then = { λ a b c ab bc. tt };
}

// One turn, in pieces of so many bytes.
fn read_once(
    alloc: Global,
    bytes: &[u8],
    size: usize,
    counter: &mut Counter,
) -> Result<(), SyntaxRefusal>
    requires { 0 < size }
{
    let mut reader = CborReader::new(alloc);
    for piece in bytes.chunks(size) {
        reader.feed(piece, counter)?;
    }
    reader.end()
}

/// How many events come of an item that is read so many times, in pieces of so many bytes.
///
/// # Errors
///
/// Those of `CborReader`.
pub fn item_events(
    alloc: Global,
    bytes: &[u8],
    size: usize,
    turns: u32,
) -> Result<u64, SyntaxRefusal>
    requires { 0 < size }
{
    let mut counter = Counter { count: 0 };
    for _ in 0..turns {
        read_once(alloc, bytes, size, &mut counter)?;
    }
    Ok(counter.count)
}
