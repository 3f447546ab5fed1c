// The reader of CBOR items (RFC 8949, section 3). An item is read by recursive descent (descent.rt). What that gives up is
// read by a machine over bytes, which says what the bytes are and where they stop being an item. It stands at one place of
// the item, hands each event on as soon as its bytes are complete, and never looks back. It makes trees too, since no
// clause says that recursive descent gives up no item.
ghost use Rattle.std.specs.Prelude.{◌≡◌, ◌<◌, ◌↔◌, IsTrue, length, []};
ghost use Rattle.sm_tree.specs.Syntax.{Reads};
ghost use Rattle.sm_cbor.specs.Refusals.{cbor_syntax};
ghost use Rattle.sm_cbor.specs.steps.Rest.{first_state};

mod initial;
mod prefix;
mod strings;
mod whole;

use crate::descent::{Unread, read_item};
use crate::pieces::read_by_bytes;
use crate::place::{CborPlace, Level, StringKind};
use sm_tree::{EventSink, Nested, SyntaxRefusal, Tree};
use std::alloc::Global;

/// Reads one item, from bytes that may come in pieces.
#[derive(Drop)]
pub struct Reader {
    /// Where the reader stands.
    place: CborPlace,
    /// What is open.
    levels: Nested<Level>,
    /// The bytes so far of the string that has begun, if the place is in one.
    held: Vec<u8>,
    alloc: Global,
}

impl Reader {
    ghost use Rattle.sm_cbor.specs.steps.Machine.{IsSoundReader, CborTakesByte, CborTakesPrefix, CborTakesAll, IsBytewise, cbor_state_of};
    ghost use Rattle.sm_cbor.specs.steps.Machine.{levels_of};
    ghost use Rattle.sm_cbor.specs.steps.Sinks.{Reached};
    ghost use Rattle.sm_tree.specs.Streams.{TakesEvery};
    ghost use Rattle.sm_tree.specs.ReaderClauses.{TakesStill};

    /// A reader before the first byte.
    pub fn new(alloc: Global) -> Self
        ensures state { cbor_state_of result ≡ first_state }
        ensures sound { IsSoundReader result }
    {
        Reader {
            place: CborPlace::Item,
            levels: Nested::new(Level::Tag),
            held: Vec::new(alloc),
            alloc,
        }
    }

    // One byte where bytes are taken one at a time.
    fn byte<E: EventSink>(&mut self, byte: u8, to: &mut E) -> Result<(), SyntaxRefusal>
        requires sound { IsSoundReader self.old }
        requires bytewise { IsBytewise self.old.place }
        requires reached { Reached (E.stands_for to.old) (cbor_state_of self.old) }
        requires takes { TakesEvery (E.takes to.old) }
        ensures goes { CborTakesByte (E.stands_for to.old) self.old self.old.place byte (E.stands_for to.new) self.new result }
        ensures takes { TakesStill (E.takes to.old) (E.takes to.new) result }
        ensures alike { E.alike to.old to.new }
    {
        match self.place {
            CborPlace::After => self.after(byte, to),
            CborPlace::Argument(subject, left, value) => self.argument(
                subject, left, value, byte, to,
            ),
            CborPlace::Chunks(kind) => self.chunk(kind, byte, to),
            CborPlace::Item | CborPlace::Key | CborPlace::String(_, _, _, _) => unreachable!(),
        }
    }

    // Takes a prefix of the bytes.
    fn turn<E: EventSink>(&mut self, bytes: &[u8], to: &mut E) -> Result<usize, SyntaxRefusal>
        requires sound { IsSoundReader self.old }
        requires some { 0 < length bytes.now }
        requires reached { Reached (E.stands_for to.old) (cbor_state_of self.old) }
        requires takes { TakesEvery (E.takes to.old) }
        ensures goes { CborTakesPrefix (E.stands_for to.old) self.old bytes.now (E.stands_for to.new) self.new result }
        ensures takes { TakesStill (E.takes to.old) (E.takes to.new) result }
        ensures alike { E.alike to.old to.new }
    {
        match self.place {
            CborPlace::String(StringKind::Bytes, _, left, utf8) => self.string_bytes(
                left, utf8, bytes, to,
            ),
            CborPlace::String(_, _, left, utf8) => self.text_bytes(left, utf8, bytes, to),
            CborPlace::Item => self.item_prefix(bytes, to),
            CborPlace::Key => self.key_prefix(bytes, to),
            _ => {
                self.byte(bytes[0], to)?;
                Ok(1)
            }
        }
    }

    /// Takes all the bytes, and hands on the events that they complete.
    pub fn feed<E: EventSink>(&mut self, bytes: &[u8], to: &mut E) -> Result<(), SyntaxRefusal>
        requires sound { IsSoundReader self.old }
        requires reached { Reached (E.stands_for to.old) (cbor_state_of self.old) }
        requires takes { TakesEvery (E.takes to.old) }
        ensures goes { CborTakesAll (E.stands_for to.old) self.old bytes.now (E.stands_for to.new) self.new result }
        ensures takes { TakesStill (E.takes to.old) (E.takes to.new) result }
        ensures alike { E.alike to.old to.new }
    {
        let mut at = 0;
        while at < bytes.len() {
            match self.turn(&bytes[at..], to) {
                Ok(count) => at += count,
                Err(refusal) => return Err(refusal.moved_by(at)),
            }
        }
        Ok(())
    }

    /// Whether an item is whole, and nothing is open.
    pub fn is_whole(&self) -> bool
        ensures { IsTrue result ↔ ((self.now.place ≡ CborPlace.After) × (levels_of self.now ≡ [])) }
    {
        match self.place {
            CborPlace::After => self.levels.depth() == 0,
            _ => false,
        }
    }
}

/// The tree of the bytes, where they are one CBOR item (RFC 8949) of at most 100 levels with text keys. Lengths may have
/// any form that holds them, and strings, arrays and maps may be of indefinite length. An integer that 64 bits hold is
/// a `Tree::Int`, another a `Tree::Number` in decimal; `null` and `undefined` are `Tree::Null`, and a float or any
/// other simple value is a `Tree::Opaque` with its initial byte. A length that is claimed makes room for four entries
/// or pairs at most.
///
/// # Errors
///
/// `Bad(at)`, `Ended`, `TooDeep(at)` and `KeyKind(at)`, exactly as the bytes are none; `NoMemory`.
pub fn read_tree(alloc: Global, bytes: &[u8]) -> Result<Tree, SyntaxRefusal>
    ensures { Reads cbor_syntax bytes.now result }
{
    match read_item(alloc, bytes) {
        Ok(tree) => Ok(tree),
        Err(Unread::GaveUp) => read_by_bytes(alloc, bytes),
        Err(Unread::NoMemory) => Err(SyntaxRefusal::NoMemory),
    }
}
