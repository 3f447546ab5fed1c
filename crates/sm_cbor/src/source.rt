// The reader of CBOR items as a source of events.
ghost use Rattle.sm_cbor.specs.Stands.{cbor_source};

use crate::laws;
use crate::pieces::CborReader;
use sm_tree::{EventSink, EventSource, SyntaxRefusal};
use std::alloc::Global;

/// Its end hands nothing on: the last byte of an item completes its last event.
impl EventSource for CborReader {
    ghost source = { cbor_source };

    fn begin(alloc: Global) -> Self {
        CborReader::new(alloc)
    }

    fn feed<E: EventSink>(&mut self, piece: &[u8], to: &mut E) -> Result<(), SyntaxRefusal> {
        CborReader::feed(self, piece, to)
    }

    fn finish<E: EventSink>(&mut self, _to: &mut E) -> Result<(), SyntaxRefusal> {
        self.end()
    }

    fn laws() {
        laws::timing();
        laws::few_events();
        laws::one_completion();
        laws::begins_trees();
    }
}
