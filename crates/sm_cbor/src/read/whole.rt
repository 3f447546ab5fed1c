// What ends where its last byte has come: arguments, strings, whole items and what is round them.
ghost use Rattle.std.specs.Prelude.{◌≡◌, ◌<◌, length, OnOk, IsUtf8, Some, None, [], ◌∷◌};
ghost use Rattle.sm_tree.specs.Limits.{most_levels};
ghost use Rattle.sm_tree.specs.Events.{start_list, start_object};
ghost use Rattle.sm_tree.specs.EventView.{event_of};
ghost use Rattle.sm_bytes.specs.declared.utf8.Utf8.TheVariants.{Between};
ghost use Rattle.sm_cbor.specs.steps.Rest.{before_span};

use super::Reader;
use crate::integer::{negative_event, unsigned_event};
use crate::place::{CborPlace, Level, Span, StringKind, Subject};
use sm_bytes::Utf8;
use sm_tree::{Bytes, Event, EventSink, NoMemory, Text};
use std::mem;

impl Reader {
    ghost use Rattle.sm_cbor.specs.steps.Machine.{IsAt, CborGoes, OpensLevel, levels_of, cbor_state_at, opened};
    ghost use Rattle.sm_cbor.specs.steps.Sinks.{Reached, Owed};
    ghost use Rattle.sm_tree.specs.Streams.{TakesEvery, TakesSame};

    // An item has ended: ends what ends with it, and stands where the next may come.
    pub(super) fn settle<E: EventSink>(&mut self, to: &mut E) -> Result<(), NoMemory>
        requires sound { IsAt self.old CborPlace.After }
        requires reached { Reached (E.stands_for to.old) (cbor_state_at self.old CborPlace.After) }
        requires takes { TakesEvery (E.takes to.old) }
        ensures goes { OnOk result (CborGoes (E.stands_for to.old) self.old [] CborPlace.After [] (E.stands_for to.new) self.new) }
        ensures takes { OnOk result (TakesSame (E.takes to.old) (E.takes to.new)) }
        ensures alike { E.alike to.old to.new }
    {
        while let Some(level) = self.levels.leave() {
            match level {
                Level::Tag => {}
                Level::List(left) => {
                    if left > 0 {
                        self.levels.enter(Level::List(left - 1));
                        self.place = CborPlace::Item;
                        return Ok(());
                    }
                    to.event(Event::EndList)?;
                }
                Level::Map(left) => {
                    if left > 0 {
                        self.levels.enter(Level::Map(left - 1));
                        self.place = CborPlace::Key;
                        return Ok(());
                    }
                    to.event(Event::EndObject)?;
                }
                Level::ListToBreak => {
                    self.levels.enter(Level::ListToBreak);
                    self.place = CborPlace::After;
                    return Ok(());
                }
                Level::MapToBreak => {
                    self.levels.enter(Level::MapToBreak);
                    self.place = CborPlace::After;
                    return Ok(());
                }
            }
        }
        self.place = CborPlace::After;
        Ok(())
    }

    // A whole item.
    #[inline(always)]
    pub(super) fn leaf<E: EventSink>(&mut self, event: Event, to: &mut E) -> Result<(), NoMemory>
        requires sound { IsAt self.old CborPlace.After }
        requires reached { Owed (E.stands_for to.old) (event_of event) (cbor_state_at self.old CborPlace.After) }
        requires takes { TakesEvery (E.takes to.old) }
        ensures goes { OnOk result (CborGoes (E.stands_for to.old) self.old (event_of event ∷ []) CborPlace.After []
            (E.stands_for to.new) self.new) }
        ensures takes { OnOk result (TakesSame (E.takes to.old) (E.takes to.new)) }
        ensures alike { E.alike to.old to.new }
    {
        to.event(event)?;
        self.settle(to)
    }

    // An array of so many entries opens.
    pub(super) fn open_list<E: EventSink>(&mut self, count: u64, to: &mut E) -> Result<(), NoMemory>
        requires sound { IsAt self.old CborPlace.Item }
        requires room { length (levels_of self.old) < most_levels }
        requires reached { Owed (E.stands_for to.old) (start_list (Some count)) (opened self.old (Level.List count)) }
        requires takes { TakesEvery (E.takes to.old) }
        ensures goes { OnOk result (OpensLevel (E.stands_for to.old) self.old (Level.List count) (start_list (Some count))
            (E.stands_for to.new) self.new) }
        ensures takes { OnOk result (TakesSame (E.takes to.old) (E.takes to.new)) }
        ensures alike { E.alike to.old to.new }
    {
        to.event(Event::StartList(Some(count)))?;
        self.levels.enter(Level::List(count));
        Ok(())
    }

    // An array of indefinite length opens.
    pub(super) fn open_list_to_break<E: EventSink>(&mut self, to: &mut E) -> Result<(), NoMemory>
        requires sound { IsAt self.old CborPlace.Item }
        requires room { length (levels_of self.old) < most_levels }
        requires reached { Owed (E.stands_for to.old) (start_list None) (opened self.old Level.ListToBreak) }
        requires takes { TakesEvery (E.takes to.old) }
        ensures goes { OnOk result (OpensLevel (E.stands_for to.old) self.old Level.ListToBreak (start_list None)
            (E.stands_for to.new) self.new) }
        ensures takes { OnOk result (TakesSame (E.takes to.old) (E.takes to.new)) }
        ensures alike { E.alike to.old to.new }
    {
        to.event(Event::StartList(None))?;
        self.levels.enter(Level::ListToBreak);
        Ok(())
    }

    // A map of so many pairs opens.
    pub(super) fn open_map<E: EventSink>(&mut self, count: u64, to: &mut E) -> Result<(), NoMemory>
        requires sound { IsAt self.old CborPlace.Item }
        requires room { length (levels_of self.old) < most_levels }
        requires reached { Owed (E.stands_for to.old) (start_object (Some count)) (opened self.old (Level.Map count)) }
        requires takes { TakesEvery (E.takes to.old) }
        ensures goes { OnOk result (OpensLevel (E.stands_for to.old) self.old (Level.Map count) (start_object (Some count))
            (E.stands_for to.new) self.new) }
        ensures takes { OnOk result (TakesSame (E.takes to.old) (E.takes to.new)) }
        ensures alike { E.alike to.old to.new }
    {
        to.event(Event::StartObject(Some(count)))?;
        self.levels.enter(Level::Map(count));
        Ok(())
    }

    // A map of indefinite length opens.
    pub(super) fn open_map_to_break<E: EventSink>(&mut self, to: &mut E) -> Result<(), NoMemory>
        requires sound { IsAt self.old CborPlace.Item }
        requires room { length (levels_of self.old) < most_levels }
        requires reached { Owed (E.stands_for to.old) (start_object None) (opened self.old Level.MapToBreak) }
        requires takes { TakesEvery (E.takes to.old) }
        ensures goes { OnOk result (OpensLevel (E.stands_for to.old) self.old Level.MapToBreak (start_object None)
            (E.stands_for to.new) self.new) }
        ensures takes { OnOk result (TakesSame (E.takes to.old) (E.takes to.new)) }
        ensures alike { E.alike to.old to.new }
    {
        to.event(Event::StartObject(None))?;
        self.levels.enter(Level::MapToBreak);
        Ok(())
    }

    // The text that is held. What is held is used up.
    pub(super) fn text(&mut self) -> Text
        requires { IsUtf8 self.old.held.items }
        ensures text { result ≡ self.old.held.items }
        ensures others { self.new ≡ record self.old { held = self.new.held } }
    {
        let held = mem::replace(&mut self.held, Vec::new(self.alloc));
        Text::new(unsafe { String::from_utf8_unchecked(held) })
    }

    // The last byte of a string has come.
    pub(super) fn end_string<E: EventSink>(
        &mut self,
        kind: StringKind,
        to: &mut E,
    ) -> Result<(), NoMemory>
        requires sound { IsAt self.old (CborPlace.String kind Span.Whole 0 Between) }
        requires reached { Reached (E.stands_for to.old) (cbor_state_at self.old (CborPlace.String kind Span.Whole 0 Between)) }
        requires takes { TakesEvery (E.takes to.old) }
        ensures goes { OnOk result (CborGoes (E.stands_for to.old) self.old [] (CborPlace.String kind Span.Whole 0 Between) []
            (E.stands_for to.new) self.new) }
        ensures takes { OnOk result (TakesSame (E.takes to.old) (E.takes to.new)) }
        ensures alike { E.alike to.old to.new }
    {
        match kind {
            StringKind::Bytes => {
                let held = mem::replace(&mut self.held, Vec::new(self.alloc));
                self.leaf(Event::Bytes(Bytes::new(held)), to)
            }
            StringKind::Text => {
                let text = self.text();
                self.leaf(Event::Text(text), to)
            }
            StringKind::Key => {
                let text = self.text();
                to.event(Event::Key(text))?;
                self.place = CborPlace::Item;
                Ok(())
            }
        }
    }

    // The last byte of what a head has begun has come.
    pub(super) fn end_span<E: EventSink>(
        &mut self,
        kind: StringKind,
        span: Span,
        to: &mut E,
    ) -> Result<(), NoMemory>
        requires sound { IsAt self.old (CborPlace.String kind span 0 Between) }
        requires reached { Reached (E.stands_for to.old) (cbor_state_at self.old (CborPlace.String kind span 0 Between)) }
        requires takes { TakesEvery (E.takes to.old) }
        ensures goes { OnOk result (CborGoes (E.stands_for to.old) self.old [] (CborPlace.String kind span 0 Between) []
            (E.stands_for to.new) self.new) }
        ensures takes { OnOk result (TakesSame (E.takes to.old) (E.takes to.new)) }
        ensures alike { E.alike to.old to.new }
    {
        match span {
            Span::Whole => self.end_string(kind, to),
            Span::Chunk => {
                self.place = CborPlace::Chunks(kind);
                Ok(())
            }
        }
    }

    // Holds what stands before the bytes of a string, which is nothing, or before those of a chunk.
    fn forget_before(&mut self, span: Span)
        ensures held { self.new.held.items ≡ before_span span self.old.held.items }
        ensures others { self.new ≡ record self.old { held = self.new.held } }
    {
        match span {
            Span::Whole => self.held.clear(),
            Span::Chunk => {}
        }
    }

    // A string or a chunk of this length begins.
    pub(super) fn begin_string<E: EventSink>(
        &mut self,
        kind: StringKind,
        span: Span,
        len: u64,
        to: &mut E,
    ) -> Result<(), NoMemory>
        requires sound { IsAt self.old (CborPlace.Argument (Subject.String kind span) 0 len) }
        requires reached { Reached (E.stands_for to.old) (cbor_state_at self.old (CborPlace.Argument (Subject.String kind span) 0 len)) }
        requires takes { TakesEvery (E.takes to.old) }
        ensures goes { OnOk result (CborGoes (E.stands_for to.old) self.old [] (CborPlace.Argument (Subject.String kind span) 0 len) []
            (E.stands_for to.new) self.new) }
        ensures takes { OnOk result (TakesSame (E.takes to.old) (E.takes to.new)) }
        ensures alike { E.alike to.old to.new }
    {
        self.forget_before(span);
        if len == 0 {
            return self.end_span(kind, span, to);
        }
        self.place = CborPlace::String(kind, span, len, Utf8::Between);
        Ok(())
    }

    // A tag opens.
    pub(super) fn open_tag<E: EventSink>(&mut self, number: u64, to: &mut E) -> Result<(), NoMemory>
        requires sound { IsAt self.old (CborPlace.Argument Subject.Tag 0 number) }
        requires reached { Reached (E.stands_for to.old) (cbor_state_at self.old (CborPlace.Argument Subject.Tag 0 number)) }
        requires takes { TakesEvery (E.takes to.old) }
        ensures goes { OnOk result (CborGoes (E.stands_for to.old) self.old [] (CborPlace.Argument Subject.Tag 0 number) []
            (E.stands_for to.new) self.new) }
        ensures takes { OnOk result (TakesSame (E.takes to.old) (E.takes to.new)) }
        ensures alike { E.alike to.old to.new }
    {
        to.event(Event::Tag(number))?;
        self.levels.enter(Level::Tag);
        self.place = CborPlace::Item;
        Ok(())
    }

    // The argument has come: what it is the argument of begins, or is whole.
    pub(super) fn end_argument<E: EventSink>(
        &mut self,
        subject: Subject,
        value: u64,
        to: &mut E,
    ) -> Result<(), NoMemory>
        requires sound { IsAt self.old (CborPlace.Argument subject 0 value) }
        requires reached { Reached (E.stands_for to.old) (cbor_state_at self.old (CborPlace.Argument subject 0 value)) }
        requires takes { TakesEvery (E.takes to.old) }
        ensures goes { OnOk result (CborGoes (E.stands_for to.old) self.old [] (CborPlace.Argument subject 0 value) []
            (E.stands_for to.new) self.new) }
        ensures takes { OnOk result (TakesSame (E.takes to.old) (E.takes to.new)) }
        ensures alike { E.alike to.old to.new }
    {
        match subject {
            Subject::Unsigned => {
                let event = unsigned_event(self.alloc, value)?;
                self.leaf(event, to)
            }
            Subject::Negative => {
                let event = negative_event(self.alloc, value)?;
                self.leaf(event, to)
            }
            Subject::Opaque(byte) => self.leaf(Event::Opaque(byte), to),
            Subject::String(kind, span) => self.begin_string(kind, span, value, to),
            Subject::List => {
                self.open_list(value, to)?;
                self.settle(to)
            }
            Subject::Map => {
                self.open_map(value, to)?;
                self.settle(to)
            }
            Subject::Tag => self.open_tag(value, to),
        }
    }

    // An argument of which so many bytes are to come.
    pub(super) fn begin_argument<E: EventSink>(
        &mut self,
        subject: Subject,
        left: u8,
        value: u64,
        to: &mut E,
    ) -> Result<(), NoMemory>
        requires sound { IsAt self.old (CborPlace.Argument subject left value) }
        requires reached { Reached (E.stands_for to.old) (cbor_state_at self.old (CborPlace.Argument subject left value)) }
        requires takes { TakesEvery (E.takes to.old) }
        ensures goes { OnOk result (CborGoes (E.stands_for to.old) self.old [] (CborPlace.Argument subject left value) []
            (E.stands_for to.new) self.new) }
        ensures takes { OnOk result (TakesSame (E.takes to.old) (E.takes to.new)) }
        ensures alike { E.alike to.old to.new }
    {
        if left == 0 {
            return self.end_argument(subject, value, to);
        }
        self.place = CborPlace::Argument(subject, left, value);
        Ok(())
    }

    // The chunks of a string are to come.
    pub(super) fn begin_chunks(&mut self, kind: StringKind)
        ensures others { self.new ≡ record self.old { place = CborPlace.Chunks kind; held = self.new.held } }
        ensures held { self.new.held.items ≡ [] }
    {
        self.held.clear();
        self.place = CborPlace::Chunks(kind);
    }
}
