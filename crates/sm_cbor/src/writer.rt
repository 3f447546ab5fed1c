// A writer of CBOR that takes a tree event by event. Heads tell the number of what follows, so an opener must tell it, and an
// end writes nothing: no state is kept beside the bytes.
ghost use Rattle.std.specs.Prelude.{◌≡◌, ◌+◌, ◌++◌, ◌∷◌, [], ◌<◌, true, List, length, OnOk, OnErr, IsSome, IfSome};
ghost use Rattle.sm_tree.specs.Events.{NodeEvent};
ghost use Rattle.sm_tree.specs.Streams.{TakesOn, TakesSame};
ghost use Rattle.sm_tree.specs.EventView.{event_of};
ghost use Rattle.sm_cbor.specs.Written.{written_head, written_int};
ghost use Rattle.sm_cbor.specs.WrittenEvents.{event_item, written_item_events, IsCborEvent};
ghost use Rattle.sm_cbor.specs.WriterView.{CborWritten};

use crate::head::TEXT;
use crate::length::{head_len, int_len, string_len};
use crate::put::{place_head, place_int, place_string};
use crate::write::{ARRAY, BYTES, MAP, TAG};
use sm_bytes::{make_room, place_byte};
use sm_tree::{Event, EventSink, NoMemory};
use std::alloc::Global;

/// Writes the events of one tree as a CBOR item (RFC 8949, section 4.2.1) into a vector of its own: shortest heads and
/// definite lengths.
#[derive(Drop)]
pub struct CborWriter {
    bytes: Vec<u8>,
    alloc: Global,
}

impl CborWriter {
    /// A writer that has taken no event. No memory.
    pub fn new(alloc: Global) -> Self
        ensures { CborWritten result [] }
    {
        CborWriter {
            bytes: Vec::new(alloc),
            alloc,
        }
    }

    /// The bytes that are written for the events that were taken. No memory.
    pub fn into_bytes(self) -> Vec<u8>
        ensures { (es : List NodeEvent) → CborWritten self es → result.items ≡ written_item_events es }
    {
        self.bytes
    }

    #[inline(always)]
    fn put_byte(&mut self, byte: u8) -> Result<(), NoMemory>
        ensures written { OnOk result (self.new.bytes.items ≡ self.old.bytes.items ++ byte ∷ []) }
        ensures unchanged { OnErr result (self.new.bytes.items ≡ self.old.bytes.items) }
    {
        let at = make_room(self.alloc, &mut self.bytes, 1)?;
        place_byte(self.bytes.as_mut_slice(), at, byte);
        Ok(())
    }

    fn put_head(&mut self, major: u8, value: u64) -> Result<(), NoMemory>
        requires { major < 8 }
        ensures written { OnOk result (self.new.bytes.items ≡ self.old.bytes.items ++ written_head major value) }
        ensures unchanged { OnErr result (self.new.bytes.items ≡ self.old.bytes.items) }
    {
        let at = make_room(self.alloc, &mut self.bytes, head_len(value) as usize)?;
        place_head(self.bytes.as_mut_slice(), at, major, value);
        Ok(())
    }

    fn put_int(&mut self, value: i64) -> Result<(), NoMemory>
        ensures written { OnOk result (self.new.bytes.items ≡ self.old.bytes.items ++ written_int value) }
        ensures unchanged { OnErr result (self.new.bytes.items ≡ self.old.bytes.items) }
    {
        let at = make_room(self.alloc, &mut self.bytes, int_len(value) as usize)?;
        place_int(self.bytes.as_mut_slice(), at, value);
        Ok(())
    }

    fn put_string(&mut self, major: u8, bytes: &[u8]) -> Result<(), NoMemory>
        requires { major < 8 }
        ensures written { OnOk result (self.new.bytes.items ≡ self.old.bytes.items ++
            (written_head major (length bytes.now) ++ bytes.now)) }
        ensures unchanged { OnErr result (self.new.bytes.items ≡ self.old.bytes.items) }
    {
        let at = make_room(self.alloc, &mut self.bytes, string_len(bytes) as usize)?;
        place_string(self.bytes.as_mut_slice(), at, major, bytes);
        Ok(())
    }

    // An opener's head with the number that it tells.
    #[inline(always)]
    fn open(&mut self, major: u8, told: Option<u64>) -> Result<(), NoMemory>
        requires major { major < 8 }
        requires told { IsSome told }
        ensures written { OnOk result (IfSome told (λ count. self.new.bytes.items ≡ self.old.bytes.items ++ written_head major count)) }
        ensures unchanged { OnErr result (self.new.bytes.items ≡ self.old.bytes.items) }
    {
        match told {
            Some(count) => self.put_head(major, count),
            None => unreachable!(),
        }
    }

    #[inline(always)]
    fn write(&mut self, event: &Event) -> Result<(), NoMemory>
        requires { IsCborEvent (event_of event.now) }
        ensures written { OnOk result (self.new.bytes.items ≡ self.old.bytes.items ++ event_item (event_of event.now)) }
        ensures unchanged { OnErr result (self.new.bytes.items ≡ self.old.bytes.items) }
    {
        match event {
            Event::Null => self.put_byte(0xF6),
            Event::Bool(false) => self.put_byte(0xF4),
            Event::Bool(true) => self.put_byte(0xF5),
            Event::Int(value) => self.put_int(*value),
            Event::Number(_) => unreachable!(),
            Event::Text(text) => self.put_string(TEXT, text.as_str().as_bytes()),
            Event::Bytes(bytes) => self.put_string(BYTES, bytes.as_slice()),
            Event::Tag(number) => self.put_head(TAG, *number),
            Event::Opaque(_) => unreachable!(),
            Event::StartList(told) => self.open(ARRAY, *told),
            Event::EndList => Ok(()),
            Event::StartObject(told) => self.open(MAP, *told),
            Event::Key(name) => self.put_string(TEXT, name.as_str().as_bytes()),
            Event::EndObject => Ok(()),
        }
    }
}

/// A writer stands for the events for which its bytes are written, and takes those that stand in trees that are written as
/// CBOR, an opener only with its number. After `NoMemory` it is as before.
impl EventSink for CborWriter {
    ghost stands_for = { λ w es. CborWritten w es };

    ghost takes = { λ w e. IsCborEvent e };

    ghost alike = { λ v w. Unit {0} };

    #[inline(always)]
    fn event(&mut self, event: Event) -> Result<(), NoMemory>
        requires taken { IsCborEvent (event_of event) }
        ensures takes_same { OnOk result (TakesSame IsCborEvent IsCborEvent) }
        ensures stands { OnOk result (TakesOn (CborWritten self.old) (event_of event) (CborWritten self.new)) }
        ensures kept { Unit {0} }
        ensures unchanged { OnErr result ((es : List NodeEvent) → CborWritten self.old es → CborWritten self.new es) }
    {
        self.write(&event)
    }

    ghost alike_itself = { λ w. tt };

    ghost alike_then = { λ u v w first second. tt };
}
