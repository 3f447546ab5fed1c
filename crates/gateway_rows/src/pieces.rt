// A sink in memory that tells which pieces were put.
ghost use Rattle.std.specs.Prelude.{◌≡◌, [], IfOk, Some};

use sm_io::{MemSink, PutRefusal, Sink};
use sm_tree::NoMemory;
use std::alloc::Global;

/// What was put, and where each piece ends.
#[derive(Drop)]
pub struct PieceSink {
    sink: MemSink,
    ends: Vec<usize>,
}

impl PieceSink {
    /// A sink to which nothing was put. Of its calls this one fails, counted from 1; none where it is 0.
    ///
    /// # Errors
    ///
    /// `NoMemory`.
    pub fn new(alloc: Global, failing: u64) -> Result<Self, NoMemory>
        ensures { IfOk result (λ sink. ⟦<PieceSink as Sink>⟧.written sink ≡ Some []) }
    {
        Ok(PieceSink {
            sink: MemSink::new(alloc, vec![in alloc; failing]?),
            ends: Vec::new(alloc),
        })
    }

    /// All bytes that were put.
    pub fn bytes(&self) -> &[u8]
        ensures { ⟦<PieceSink as Sink>⟧.written self.now ≡ Some result.now }
    {
        self.sink.bytes()
    }

    /// How many bytes there are at the end of each piece.
    pub fn ends(&self) -> &[usize] {
        &self.ends
    }

    /// Whether the same pieces were put to both.
    pub fn is_same(&self, other: &PieceSink) -> bool {
        self.bytes() == other.bytes() && self.ends() == other.ends()
    }
}

impl Sink for PieceSink {
    ghost written = { λ s. ⟦<MemSink as Sink>⟧.written s.sink };

    ghost faults = { λ s. ⟦<MemSink as Sink>⟧.faults s.sink };

    fn put(&mut self, piece: &[u8]) -> Result<(), PutRefusal> {
        let end = self.sink.bytes().len().saturating_add(piece.len());
        match self.ends.push(end) {
            Ok(()) => self.sink.put(piece),
            Err(_) => Err(PutRefusal::NoMemory),
        }
    }
}
