// The reader of JSON texts (RFC 8259): a machine over bytes. It stands at one place of the text, hands each
// event on as soon as its bytes are complete, and never looks back. Trees are made from the events.
// Its steps between two tokens stand in read/tokens.rt, those within one in read/leaves.rt.
ghost use Rattle.std.specs.Prelude.{◌≡◌, ◌<◌, length, IfOk, []};
ghost use Rattle.sm_tree.specs.Json.{IsJson};
ghost use Rattle.sm_tree.specs.View.{node_of};
ghost use Rattle.sm_tree.specs.Syntax.{Reads};
ghost use Rattle.sm_json.specs.JsonText.{json_syntax};
ghost use Rattle.sm_json.specs.steps.Rest.{json_start};

mod leaves;
mod tokens;

use crate::place::JsonPlace;
use crate::text::TextReader;
use sm_tree::number::Phase;
use sm_tree::{EventSink, Nested, OpenKind, SyntaxRefusal, Tree, TreeBuilder};
use std::alloc::Global;

/// Reads one JSON text.
#[derive(Drop)]
pub struct Reader {
    /// Where the reader stands.
    place: JsonPlace,
    /// What is open around the place.
    lists: Nested<OpenKind>,
    /// The number that has begun, if the place is in one.
    number: Vec<u8>,
    /// The string that has begun, if the place is in one.
    text: TextReader,
    alloc: Global,
}

impl Reader {
    ghost use Rattle.sm_json.specs.steps.Machine.{JsonIsSound, JsonIsPlaced, JsonTakesPrefix, JsonTakesAll, JsonEndsText, JsonMayEnd};
    ghost use Rattle.sm_json.specs.steps.Machine.{json_state};

    pub(crate) fn new(alloc: Global) -> Self
        ensures state { json_state result ≡ json_start }
        ensures sound { JsonIsSound result }
    {
        Reader {
            place: JsonPlace::Value,
            lists: Nested::new(OpenKind::List),
            number: Vec::new(alloc),
            text: TextReader::new(alloc),
            alloc,
        }
    }

    // Takes some bytes, from the first one on, and says how many.
    #[tactic(auto, using(crate::proofs::Turns::refused_first))]
    fn turn<E: EventSink>(&mut self, bytes: &[u8], to: &mut E) -> Result<usize, SyntaxRefusal>
        requires sound { JsonIsSound self.old }
        requires placed { JsonIsPlaced self.old (E.stands_for to.old) (E.takes to.old) }
        requires some { 0 < length bytes.now }
        ensures goes { JsonTakesPrefix self.old (E.stands_for to.old) bytes.now self.new (E.stands_for to.new) (E.takes to.new) result }
        ensures alike { E.alike to.old to.new }
    {
        match self.place {
            JsonPlace::Text(role) => self.string(role, bytes, to),
            JsonPlace::Number(phase) => self.number(phase, bytes, to),
            JsonPlace::Word(word, taken) => match self.letter(word, taken, bytes[0], to) {
                Ok(()) => Ok(1),
                Err(refusal) => Err(refusal),
            },
            _ => self.between(bytes, to),
        }
    }

    // Takes all the bytes.
    #[tactic(auto, using(crate::proofs::Turns::feeds_nowhere))]
    pub(crate) fn feed<E: EventSink>(
        &mut self,
        bytes: &[u8],
        to: &mut E,
    ) -> Result<(), SyntaxRefusal>
        requires sound { JsonIsSound self.old }
        requires placed { JsonIsPlaced self.old (E.stands_for to.old) (E.takes to.old) }
        ensures goes { JsonTakesAll self.old (E.stands_for to.old) bytes.now self.new (E.stands_for to.new) (E.takes to.new) result }
        ensures alike { E.alike to.old to.new }
    {
        let mut at = 0;
        while at < bytes.len() {
            match self.turn(&bytes[at..], to) {
                Ok(count) => at += count,
                Err(refusal) => return Err(refusal.moved_by(at)),
            }
        }
        Ok(())
    }

    // Hands on the number with which the text ends.
    fn finish_number<E: EventSink>(&self, phase: Phase, to: &mut E) -> Result<(), SyntaxRefusal>
        requires sound { JsonIsSound self.now }
        requires placed { JsonIsPlaced self.now (E.stands_for to.old) (E.takes to.old) }
        requires place { self.now.place ≡ JsonPlace.Number phase }
        ensures goes { JsonEndsText self.now (E.stands_for to.old) (E.stands_for to.new) (E.takes to.new) result }
        ensures alike { E.alike to.old to.new }
    {
        if self.lists.depth() > 0 {
            return Err(SyntaxRefusal::Ended);
        }
        if !phase.is_whole() {
            return Err(SyntaxRefusal::Ended);
        }
        self.hand_number(phase, to)?;
        Ok(())
    }

    // Whether the bytes may end here.
    pub(crate) fn is_over(&self) -> bool
        ensures { JsonIsSound self.now → JsonMayEnd self.now result }
    {
        if self.lists.depth() > 0 {
            return false;
        }
        match self.place {
            JsonPlace::Number(phase) => phase.is_whole(),
            JsonPlace::After => true,
            _ => false,
        }
    }

    // The bytes end here: hands on what the end completes.
    pub(crate) fn finish<E: EventSink>(&self, to: &mut E) -> Result<(), SyntaxRefusal>
        requires sound { JsonIsSound self.now }
        requires placed { JsonIsPlaced self.now (E.stands_for to.old) (E.takes to.old) }
        ensures goes { JsonEndsText self.now (E.stands_for to.old) (E.stands_for to.new) (E.takes to.new) result }
        ensures alike { E.alike to.old to.new }
    {
        match self.place {
            JsonPlace::Number(phase) => self.finish_number(phase, to),
            JsonPlace::After => {
                if self.lists.depth() > 0 {
                    return Err(SyntaxRefusal::Ended);
                }
                Ok(())
            }
            _ => Err(SyntaxRefusal::Ended),
        }
    }
}

/// The tree that the bytes spell as a JSON text (RFC 8259) of at most `MOST_LEVELS` levels. Whitespace may stand
/// round tokens; a byte order mark and a lone surrogate escape are refused. An integer text that an `i64`
/// holds is a `Tree::Int`, and `-0` is 0; any other number is a `Tree::Number` with its text.
/// What is read can be written again.
///
/// # Errors
///
/// Places count bytes from 0, and the least place decides. `Bad(at)`: the bytes before the place begin a text
/// of at most 100 levels, and with the byte at it no text goes on. `TooDeep(at)`: with the byte at the place,
/// which opens level 101, only deeper texts go on. `Ended`: all the bytes begin a text of at most 100 levels,
/// and are none. `NoMemory`: the allocator refused the memory that the tree needs.
pub fn read_tree(alloc: Global, bytes: &[u8]) -> Result<Tree, SyntaxRefusal>
    ensures text { Reads json_syntax bytes.now result }
    ensures json { IfOk result (λ tree. IsJson (node_of tree)) }
{
    let mut reader = Reader::new(alloc);
    let mut builder = TreeBuilder::new(alloc);
    match reader.feed(bytes, &mut builder) {
        Ok(()) => match reader.finish(&mut builder) {
            Ok(()) => Ok(builder.finish()),
            Err(refusal) => Err(refusal),
        },
        Err(refusal) => Err(refusal),
    }
}
