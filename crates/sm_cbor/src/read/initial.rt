// The bytes outside of strings: initial bytes of items, keys and chunks, breaks, and the bytes of arguments.
ghost use Rattle.std.specs.Prelude.{◌≡◌, ◌<◌, ◌≤◌, ◌/◌, length, OnOk, IsTrue, ◌↔◌, [], ◌∷◌};
ghost use Rattle.sm_tree.specs.Limits.{most_levels};
ghost use Rattle.sm_cbor.specs.Heads.{text_type};
ghost use Rattle.sm_cbor.specs.steps.Machine.{opens_of};

use super::Reader;
use crate::head::{BREAK, Head, INDEFINITE_TEXT, TEXT, chunk_head, head_of, width};
use crate::place::{CborPlace, Level, Span, StringKind, Subject};
use sm_tree::{Event, EventSink, MOST_LEVELS, NoMemory, SyntaxRefusal};

impl Subject {
    // Whether what the argument is of is a level.
    pub(super) fn is_level(self) -> bool
        ensures { IsTrue result ↔ (opens_of self ≡ 1) }
    {
        matches!(self, Subject::List | Subject::Map | Subject::Tag)
    }
}

// Whether the byte is the value of no simple value that has a byte.
fn is_no_simple(subject: Subject, byte: u8) -> bool
    ensures { IsTrue result ↔ ((subject ≡ Subject.Opaque 0xF8) × (byte < 32)) }
{
    match subject {
        Subject::Opaque(0xF8) => byte < 32,
        _ => false,
    }
}

impl Reader {
    ghost use Rattle.sm_tree.specs.Nested.{innermost_of};
    ghost use Rattle.sm_cbor.specs.steps.Machine.{IsAt, CborGoes, CborTakesByte, BehindItem, IsFirstLevel, levels_of, cbor_state_at};
    ghost use Rattle.sm_cbor.specs.steps.Sinks.{Reached};
    ghost use Rattle.sm_tree.specs.Streams.{TakesEvery, TakesSame};
    ghost use Rattle.sm_tree.specs.ReaderClauses.{TakesStill};

    // The initial byte of an item.
    pub(super) fn item<E: EventSink>(&mut self, byte: u8, to: &mut E) -> Result<(), SyntaxRefusal>
        requires sound { IsAt self.old CborPlace.Item }
        requires reached { Reached (E.stands_for to.old) (cbor_state_at self.old CborPlace.Item) }
        requires takes { TakesEvery (E.takes to.old) }
        ensures goes { CborTakesByte (E.stands_for to.old) self.old CborPlace.Item byte (E.stands_for to.new) self.new result }
        ensures takes { TakesStill (E.takes to.old) (E.takes to.new) result }
        ensures alike { E.alike to.old to.new }
    {
        match head_of(byte) {
            Head::Argument(subject, left, value) => {
                if subject.is_level() && self.is_full() {
                    return Err(SyntaxRefusal::TooDeep(0));
                }
                self.begin_argument(subject, left, value, to)?;
            }
            Head::List => {
                if self.is_full() {
                    return Err(SyntaxRefusal::TooDeep(0));
                }
                self.open_list_to_break(to)?;
                self.place = CborPlace::After;
            }
            Head::Map => {
                if self.is_full() {
                    return Err(SyntaxRefusal::TooDeep(0));
                }
                self.open_map_to_break(to)?;
                self.place = CborPlace::After;
            }
            Head::Chunks(kind) => self.begin_chunks(kind),
            Head::Null => self.leaf(Event::Null, to)?,
            Head::Bool(value) => self.leaf(Event::Bool(value), to)?,
            Head::NoItem => return Err(SyntaxRefusal::Bad(0)),
        }
        Ok(())
    }

    // Whether no more levels may open.
    pub(super) fn is_full(&self) -> bool
        ensures { IsTrue result ↔ (most_levels ≤ length (levels_of self.now)) }
    {
        self.levels.depth() >= MOST_LEVELS
    }

    // The initial byte of a text that is a map's key.
    pub(super) fn text_key<E: EventSink>(
        &mut self,
        byte: u8,
        to: &mut E,
    ) -> Result<(), SyntaxRefusal>
        requires sound { IsAt self.old CborPlace.Key }
        requires text { byte / 32 ≡ text_type }
        requires reached { Reached (E.stands_for to.old) (cbor_state_at self.old CborPlace.Key) }
        requires takes { TakesEvery (E.takes to.old) }
        ensures goes { CborTakesByte (E.stands_for to.old) self.old CborPlace.Key byte (E.stands_for to.new) self.new result }
        ensures takes { TakesStill (E.takes to.old) (E.takes to.new) result }
        ensures alike { E.alike to.old to.new }
    {
        if byte == INDEFINITE_TEXT {
            self.begin_chunks(StringKind::Key);
            return Ok(());
        }
        match width(byte % 32) {
            Some((left, value)) => {
                let subject = Subject::String(StringKind::Key, Span::Whole);
                self.begin_argument(subject, left, value, to)?;
                Ok(())
            }
            None => Err(SyntaxRefusal::Bad(0)),
        }
    }

    // The initial byte of a map's key.
    pub(super) fn key<E: EventSink>(&mut self, byte: u8, to: &mut E) -> Result<(), SyntaxRefusal>
        requires sound { IsAt self.old CborPlace.Key }
        requires reached { Reached (E.stands_for to.old) (cbor_state_at self.old CborPlace.Key) }
        requires takes { TakesEvery (E.takes to.old) }
        ensures goes { CborTakesByte (E.stands_for to.old) self.old CborPlace.Key byte (E.stands_for to.new) self.new result }
        ensures takes { TakesStill (E.takes to.old) (E.takes to.new) result }
        ensures alike { E.alike to.old to.new }
    {
        if byte / 32 == TEXT {
            return self.text_key(byte, to);
        }
        match head_of(byte) {
            Head::NoItem => Err(SyntaxRefusal::Bad(0)),
            _ => Err(SyntaxRefusal::KeyKind(0)),
        }
    }

    // A break ends the innermost array.
    pub(super) fn break_list<E: EventSink>(&mut self, to: &mut E) -> Result<(), NoMemory>
        requires sound { IsAt self.old CborPlace.After }
        requires innermost { IsFirstLevel Level.ListToBreak (levels_of self.old) }
        requires reached { Reached (E.stands_for to.old) (cbor_state_at self.old CborPlace.After) }
        requires takes { TakesEvery (E.takes to.old) }
        ensures goes { OnOk result (CborGoes (E.stands_for to.old) self.old [] CborPlace.After (255 ∷ []) (E.stands_for to.new) self.new) }
        ensures takes { OnOk result (TakesSame (E.takes to.old) (E.takes to.new)) }
        ensures alike { E.alike to.old to.new }
    {
        self.levels.leave();
        to.event(Event::EndList)?;
        self.settle(to)
    }

    // A break ends the innermost map.
    pub(super) fn break_map<E: EventSink>(&mut self, to: &mut E) -> Result<(), NoMemory>
        requires sound { IsAt self.old CborPlace.After }
        requires innermost { IsFirstLevel Level.MapToBreak (levels_of self.old) }
        requires reached { Reached (E.stands_for to.old) (cbor_state_at self.old CborPlace.After) }
        requires takes { TakesEvery (E.takes to.old) }
        ensures goes { OnOk result (CborGoes (E.stands_for to.old) self.old [] CborPlace.After (255 ∷ []) (E.stands_for to.new) self.new) }
        ensures takes { OnOk result (TakesSame (E.takes to.old) (E.takes to.new)) }
        ensures alike { E.alike to.old to.new }
    {
        self.levels.leave();
        to.event(Event::EndObject)?;
        self.settle(to)
    }

    // A byte behind an entry of an array that ends with a break.
    pub(super) fn after_entry<E: EventSink>(
        &mut self,
        byte: u8,
        to: &mut E,
    ) -> Result<(), SyntaxRefusal>
        requires sound { IsAt self.old CborPlace.After }
        requires innermost { IsFirstLevel Level.ListToBreak (levels_of self.old) }
        requires reached { Reached (E.stands_for to.old) (cbor_state_at self.old CborPlace.After) }
        requires takes { TakesEvery (E.takes to.old) }
        ensures goes { CborTakesByte (E.stands_for to.old) self.old CborPlace.After byte (E.stands_for to.new) self.new result }
        ensures takes { TakesStill (E.takes to.old) (E.takes to.new) result }
        ensures alike { E.alike to.old to.new }
    {
        if byte == BREAK {
            self.break_list(to)?;
            return Ok(());
        }
        self.item(byte, to)
    }

    // A byte behind a pair of a map that ends with a break.
    pub(super) fn after_pair<E: EventSink>(
        &mut self,
        byte: u8,
        to: &mut E,
    ) -> Result<(), SyntaxRefusal>
        requires sound { IsAt self.old CborPlace.After }
        requires innermost { IsFirstLevel Level.MapToBreak (levels_of self.old) }
        requires reached { Reached (E.stands_for to.old) (cbor_state_at self.old CborPlace.After) }
        requires takes { TakesEvery (E.takes to.old) }
        ensures goes { CborTakesByte (E.stands_for to.old) self.old CborPlace.After byte (E.stands_for to.new) self.new result }
        ensures takes { TakesStill (E.takes to.old) (E.takes to.new) result }
        ensures alike { E.alike to.old to.new }
    {
        if byte == BREAK {
            self.break_map(to)?;
            return Ok(());
        }
        self.key(byte, to)
    }

    // The innermost of what is open.
    pub(super) fn innermost(&self) -> Option<Level>
        ensures { result ≡ innermost_of (levels_of self.now) }
    {
        self.levels.innermost()
    }

    // A byte behind an item.
    pub(super) fn after<E: EventSink>(&mut self, byte: u8, to: &mut E) -> Result<(), SyntaxRefusal>
        requires sound { IsAt self.old CborPlace.After }
        requires open_to { BehindItem (levels_of self.old) }
        requires reached { Reached (E.stands_for to.old) (cbor_state_at self.old CborPlace.After) }
        requires takes { TakesEvery (E.takes to.old) }
        ensures goes { CborTakesByte (E.stands_for to.old) self.old CborPlace.After byte (E.stands_for to.new) self.new result }
        ensures takes { TakesStill (E.takes to.old) (E.takes to.new) result }
        ensures alike { E.alike to.old to.new }
    {
        match self.innermost() {
            Some(Level::ListToBreak) => self.after_entry(byte, to),
            Some(Level::MapToBreak) => self.after_pair(byte, to),
            None => Err(SyntaxRefusal::Bad(0)),
            Some(_) => unreachable!(),
        }
    }

    // A byte of an argument.
    pub(super) fn argument<E: EventSink>(
        &mut self,
        subject: Subject,
        left: u8,
        value: u64,
        byte: u8,
        to: &mut E,
    ) -> Result<(), SyntaxRefusal>
        requires sound { IsAt self.old (CborPlace.Argument subject left value) }
        requires some { 0 < left }
        requires reached { Reached (E.stands_for to.old) (cbor_state_at self.old (CborPlace.Argument subject left value)) }
        requires takes { TakesEvery (E.takes to.old) }
        ensures goes { CborTakesByte (E.stands_for to.old) self.old (CborPlace.Argument subject left value) byte
            (E.stands_for to.new) self.new result }
        ensures takes { TakesStill (E.takes to.old) (E.takes to.new) result }
        ensures alike { E.alike to.old to.new }
    {
        if is_no_simple(subject, byte) {
            return Err(SyntaxRefusal::Bad(0));
        }
        self.begin_argument(subject, left - 1, value * 256 + byte as u64, to)?;
        Ok(())
    }

    // The initial byte of a chunk, or a break.
    pub(super) fn chunk<E: EventSink>(
        &mut self,
        kind: StringKind,
        byte: u8,
        to: &mut E,
    ) -> Result<(), SyntaxRefusal>
        requires sound { IsAt self.old (CborPlace.Chunks kind) }
        requires reached { Reached (E.stands_for to.old) (cbor_state_at self.old (CborPlace.Chunks kind)) }
        requires takes { TakesEvery (E.takes to.old) }
        ensures goes { CborTakesByte (E.stands_for to.old) self.old (CborPlace.Chunks kind) byte (E.stands_for to.new) self.new result }
        ensures takes { TakesStill (E.takes to.old) (E.takes to.new) result }
        ensures alike { E.alike to.old to.new }
    {
        if byte == BREAK {
            self.end_string(kind, to)?;
            return Ok(());
        }
        match chunk_head(kind, byte) {
            Some((left, value)) => {
                self.begin_argument(Subject::String(kind, Span::Chunk), left, value, to)?;
                Ok(())
            }
            None => Err(SyntaxRefusal::Bad(0)),
        }
    }
}
