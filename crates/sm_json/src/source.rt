// The reader of JSON texts as a source of events.
ghost use Rattle.sm_json.specs.Stands.{json_source};

use crate::laws;
use crate::pieces::JsonReader;
use sm_tree::{EventSink, EventSource, SyntaxRefusal};
use std::alloc::Global;

/// Its end hands on a number with which the text ends.
impl EventSource for JsonReader {
    ghost source = { json_source };

    fn begin(alloc: Global) -> Self {
        JsonReader::new(alloc)
    }

    fn feed<E: EventSink>(&mut self, piece: &[u8], to: &mut E) -> Result<(), SyntaxRefusal> {
        JsonReader::feed(self, piece, to)
    }

    fn finish<E: EventSink>(&mut self, to: &mut E) -> Result<(), SyntaxRefusal> {
        match self.flush(to) {
            Ok(()) => self.end(),
            Err(refusal) => Err(refusal),
        }
    }

    fn laws() {
        laws::timing();
        laws::few_events();
        laws::one_completion();
        laws::begins_trees();
    }
}
