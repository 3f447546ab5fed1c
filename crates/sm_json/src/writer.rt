// A writer of JSON that takes a tree event by event. It keeps no stack: the last event alone tells whether a comma stands
// before the next entry or pair.
ghost use Rattle.std.specs.Prelude.{◌≡◌, ◌+◌, ◌++◌, ◌∷◌, [], true, false, List, length, take, OnOk, OnErr, IfOk};
ghost use Rattle.std.specs.Fmt.{signed_decimal};
ghost use Rattle.sm_bytes.specs.Ascii.{colon};
ghost use Rattle.sm_tree.specs.Events.{NodeEvent};
ghost use Rattle.sm_tree.specs.Streams.{TakesOn, TakesSame};
ghost use Rattle.sm_tree.specs.EventView.{event_of};
ghost use Rattle.sm_json.specs.Written.{written_text};
ghost use Rattle.sm_json.specs.WrittenEvents.{written_events, IsJsonEvent};
ghost use Rattle.sm_json.specs.WriterView.{JsonWritten};
ghost use Rattle.sm_json.specs.steps.Writing.{Writes, WritesEvent, KeepsWriter, comma_of};

use crate::length::{int_len, text_len};
use crate::put::{place_int, place_name, place_text};
use sm_bytes::{make_room, place_byte, place_slice};
use sm_tree::{Event, EventSink, NoMemory, Text};
use std::alloc::Global;

// What stands before an entry or a pair that begins now.
#[derive(Clone, Copy, Debug, PartialEq, Eq, Drop)]
enum Before {
    // Nothing: it is the first of all or of what is open, or the value of a name that has come.
    Nothing,
    // A comma: a value has ended.
    Comma,
}

/// Writes the events of one tree as JSON text (RFC 8259), without whitespace, into a vector of its own.
#[derive(Drop)]
pub struct JsonWriter {
    bytes: Vec<u8>,
    before: Before,
    alloc: Global,
}

impl JsonWriter {
    /// A writer that has taken no event. No memory.
    pub fn new(alloc: Global) -> Self
        ensures { JsonWritten result [] }
    {
        JsonWriter {
            bytes: Vec::new(alloc),
            before: Before::Nothing,
            alloc,
        }
    }

    /// The bytes that are written for the events that were taken. No memory.
    pub fn into_bytes(self) -> Vec<u8>
        ensures { (es : List NodeEvent) → JsonWritten self es → result.items ≡ written_events es }
    {
        self.bytes
    }

    // Makes room at the end for a text of this length, and for the comma before it if there is one, which is placed.
    #[inline(always)]
    fn begin(&mut self, len: u64) -> Result<usize, NoMemory>
        ensures prefix { IfOk result (λ at. take at self.new.bytes.items ≡ self.old.bytes.items ++ comma_of self.old.before) }
        ensures room { IfOk result (λ at. at + len ≡ length self.new.bytes.items) }
        ensures before { self.new.before ≡ self.old.before }
        ensures unchanged { OnErr result (KeepsWriter self.old self.new) }
    {
        match self.before {
            Before::Nothing => {
                let at = make_room(self.alloc, &mut self.bytes, len as usize)?;
                Ok(at)
            }
            Before::Comma => {
                let room = len.saturating_add(1) as usize;
                let at = make_room(self.alloc, &mut self.bytes, room)?;
                Ok(place_byte(self.bytes.as_mut_slice(), at, b','))
            }
        }
    }

    // A value whose text is at hand.
    #[inline(always)]
    fn put_slice(&mut self, text: &[u8]) -> Result<(), NoMemory>
        ensures written { OnOk result (Writes self.old self.new (comma_of self.old.before ++ text.now) true) }
        ensures unchanged { OnErr result (KeepsWriter self.old self.new) }
    {
        let at = self.begin(text.len() as u64)?;
        place_slice(self.bytes.as_mut_slice(), at, text);
        self.before = Before::Comma;
        Ok(())
    }

    fn put_int(&mut self, value: i64) -> Result<(), NoMemory>
        ensures written { OnOk result (Writes self.old self.new (comma_of self.old.before ++ signed_decimal value) true) }
        ensures unchanged { OnErr result (KeepsWriter self.old self.new) }
    {
        let at = self.begin(int_len(value))?;
        place_int(self.bytes.as_mut_slice(), at, value);
        self.before = Before::Comma;
        Ok(())
    }

    fn put_text(&mut self, text: &Text) -> Result<(), NoMemory>
        ensures written { OnOk result (Writes self.old self.new (comma_of self.old.before ++ written_text text.now) true) }
        ensures unchanged { OnErr result (KeepsWriter self.old self.new) }
    {
        let at = self.begin(text_len(text))?;
        place_text(self.bytes.as_mut_slice(), at, text);
        self.before = Before::Comma;
        Ok(())
    }

    fn put_name(&mut self, name: &Text) -> Result<(), NoMemory>
        ensures written { OnOk result (Writes self.old self.new (comma_of self.old.before ++ (written_text name.now ++ colon ∷ [])) false) }
        ensures unchanged { OnErr result (KeepsWriter self.old self.new) }
    {
        let at = self.begin(text_len(name).saturating_add(1))?;
        place_name(self.bytes.as_mut_slice(), at, name);
        self.before = Before::Nothing;
        Ok(())
    }

    // An opening bracket or brace.
    #[inline(always)]
    fn open(&mut self, bracket: u8) -> Result<(), NoMemory>
        ensures written { OnOk result (Writes self.old self.new (comma_of self.old.before ++ bracket ∷ []) false) }
        ensures unchanged { OnErr result (KeepsWriter self.old self.new) }
    {
        let at = self.begin(1)?;
        place_byte(self.bytes.as_mut_slice(), at, bracket);
        self.before = Before::Nothing;
        Ok(())
    }

    // A closing bracket or brace: no comma stands before it.
    #[inline(always)]
    fn close(&mut self, bracket: u8) -> Result<(), NoMemory>
        ensures written { OnOk result (Writes self.old self.new (bracket ∷ []) true) }
        ensures unchanged { OnErr result (KeepsWriter self.old self.new) }
    {
        let at = make_room(self.alloc, &mut self.bytes, 1)?;
        place_byte(self.bytes.as_mut_slice(), at, bracket);
        self.before = Before::Comma;
        Ok(())
    }

    #[inline(always)]
    fn write(&mut self, event: &Event) -> Result<(), NoMemory>
        requires { IsJsonEvent (event_of event.now) }
        ensures written { OnOk result (WritesEvent self.old self.new (event_of event.now)) }
        ensures unchanged { OnErr result (KeepsWriter self.old self.new) }
    {
        match event {
            Event::Null => self.put_slice(b"null"),
            Event::Bool(true) => self.put_slice(b"true"),
            Event::Bool(false) => self.put_slice(b"false"),
            Event::Int(value) => self.put_int(*value),
            Event::Number(text) => self.put_slice(text.as_str().as_bytes()),
            Event::Text(text) => self.put_text(text),
            Event::Bytes(_) => unreachable!(),
            Event::Tag(_) => unreachable!(),
            Event::Opaque(_) => unreachable!(),
            Event::StartList(_) => self.open(b'['),
            Event::EndList => self.close(b']'),
            Event::StartObject(_) => self.open(b'{'),
            Event::Key(name) => self.put_name(name),
            Event::EndObject => self.close(b'}'),
        }
    }
}

/// A writer stands for the events whose written text its bytes are, and takes those that stand in trees that JSON can spell,
/// whatever numbers their openers tell. After `NoMemory` it is as before.
impl EventSink for JsonWriter {
    ghost stands_for = { λ w es. JsonWritten w es };

    ghost takes = { λ w e. IsJsonEvent e };

    ghost alike = { λ v w. Unit {0} };

    #[inline(always)]
    fn event(&mut self, event: Event) -> Result<(), NoMemory>
        requires taken { IsJsonEvent (event_of event) }
        ensures takes_same { OnOk result (TakesSame IsJsonEvent IsJsonEvent) }
        ensures stands { OnOk result (TakesOn (JsonWritten self.old) (event_of event) (JsonWritten self.new)) }
        ensures kept { Unit {0} }
        ensures unchanged { OnErr result ((es : List NodeEvent) → JsonWritten self.old es → JsonWritten self.new es) }
    {
        self.write(&event)
    }

    ghost alike_itself = { λ w. tt };

    ghost alike_then = { λ u v w first second. tt };
}
