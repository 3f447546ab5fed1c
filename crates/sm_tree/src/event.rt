// A tree as a stream of events, and what takes one: readers hand events on as soon as their bytes are complete, and writers,
// decoders and the builder of trees take them.
ghost use Rattle.std.specs.Prelude.{◌≡◌, List, OnOk};
ghost use Rattle.sm_tree.specs.Events.{NodeEvent};
ghost use Rattle.sm_tree.specs.Streams.{MayTake, TakesOn, TakesSame, unnumbered};
ghost use Rattle.sm_tree.specs.EventView.{event_of};
ghost use Rattle.sm_tree.specs.Building.{so_far};
ghost use Rattle.sm_tree.specs.BuilderView.{building_of};

use crate::NoMemory;
use crate::build::{FIRST_ROOM, TreeBuilder};
use crate::text::{Bytes, Text};
use crate::tree::Tree;

/// One event of a tree's stream. A leaf is one event; a list, an object and a tag have an opener before what they hold.
#[derive(Debug, Drop)]
pub enum Event {
    /// `null`.
    Null,
    /// `true` or `false`.
    Bool(bool),
    /// An integer that an `i64` holds.
    Int(i64),
    /// A number that is no `Int`, as `Tree::Number` has it.
    Number(Text),
    /// A text that is a value.
    Text(Text),
    /// A byte string, in CBOR alone.
    Bytes(Bytes),
    /// A tag's number, in CBOR alone. What comes next is its content.
    Tag(u64),
    /// The first byte of a float or of a simple value, in CBOR alone.
    Opaque(u8),
    /// A list opens. A number is that of its entries.
    StartList(Option<u64>),
    /// The innermost list ends.
    EndList,
    /// An object opens. A number is that of its pairs.
    StartObject(Option<u64>),
    /// The name of an object's next pair. What comes next is its value.
    Key(Text),
    /// The innermost object ends.
    EndObject,
}

/// What takes the events of one tree, one call each and in order.
pub trait EventSink {
    /// It stands for these events: it has taken them. This is a relation, since a sink needn't keep what it took.
    ghost stands_for: { Self → List NodeEvent → Type 0 };
    /// It takes this event, wherever a stream may have it.
    ghost takes: { Self → NodeEvent → Type 0 };
    /// The two have all in common that no event changes.
    ghost alike: { Self → Self → Type 0 };

    /// Takes the next event. `NoMemory` where it finds no room; the sink is then of no use.
    fn event(&mut self, event: Event) -> Result<(), NoMemory>
        requires taken { takes self.old (event_of event) }
        requires placed { MayTake (stands_for self.old) (event_of event) }
        ensures takes_same { OnOk result (TakesSame (takes self.old) (takes self.new)) }
        ensures stands { OnOk result (TakesOn (stands_for self.old) (event_of event) (stands_for self.new)) }
        ensures kept { alike self.old self.new };

    ghost alike_itself: { (a : Self) → alike a a };

    ghost alike_then: { (a b c : Self) → alike a b → alike b c → alike a c };
}

// What `TreeBuilder` is to expect behind an opener with this count: it makes room for at most `FIRST_ROOM`.
fn expected(count: Option<u64>) -> usize {
    match count {
        Some(count) => count.min(FIRST_ROOM as u64) as usize,
        None => FIRST_ROOM,
    }
}

/// A builder stands for the events that it took, whatever counts their openers have, and takes every event.
impl EventSink for TreeBuilder {
    ghost stands_for = { λ b es. unnumbered es ≡ so_far (building_of b) };

    ghost takes = { λ b e. Unit {0} };

    ghost alike = { λ a b. Unit {0} };

    #[inline(always)]
    fn event(&mut self, event: Event) -> Result<(), NoMemory> {
        match event {
            Event::Null => self.value_by_call(Tree::Null),
            Event::Bool(truth) => self.value_by_call(Tree::Bool(truth)),
            Event::Int(integer) => self.value(Tree::Int(integer)),
            Event::Number(number) => self.value_by_call(Tree::Number(number)),
            Event::Text(text) => self.value(Tree::Text(text)),
            Event::Bytes(bytes) => self.value_by_call(Tree::Bytes(bytes)),
            Event::Tag(number) => self.tag(number),
            Event::Opaque(byte) => self.value_by_call(Tree::Opaque(byte)),
            Event::StartList(count) => self.start_list(expected(count)),
            Event::EndList => self.end_list(),
            Event::StartObject(count) => self.start_object(expected(count)),
            Event::Key(name) => {
                self.key(name);
                Ok(())
            }
            Event::EndObject => self.end_object(),
        }
    }

    ghost alike_itself = { λ a. tt };

    ghost alike_then = { λ a b c ab bc. tt };
}
