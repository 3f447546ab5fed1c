// Items and keys that are whole in the bytes at hand are taken at once: a head in one step, and a text behind it with
// one copy. What is cut is taken byte by byte.
ghost use Rattle.std.specs.Prelude.{◌<◌, ◌≤◌, length, IfSome, IsUtf8};
ghost use Rattle.sm_cbor.specs.steps.Reading.{IsBehind};

use super::Reader;
use crate::head::{WholeHead, whole_head};
use crate::place::CborPlace;
use sm_tree::{Event, EventSink, SyntaxRefusal, Text};
use std::str;

// The bytes of the string with this head, where they are all at hand.
fn bytes_behind<'a>(bytes: &'a [u8], head: &WholeHead) -> Option<&'a [u8]>
    requires { head.now.len ≤ length bytes.now }
    ensures { IfSome result (λ run. IsBehind bytes.now head.now.len head.now.value run.now) }
{
    let rest = &bytes[head.len..];
    if head.value <= rest.len() as u64 {
        Some(&rest[..head.value as usize])
    } else {
        None
    }
}

// The text with this head, where its bytes are all at hand and are UTF-8.
fn text_behind<'a>(bytes: &'a [u8], head: &WholeHead) -> Option<&'a str>
    requires { head.now.len ≤ length bytes.now }
    ensures behind { IfSome result (λ text. IsBehind bytes.now head.now.len head.now.value text.now) }
    ensures utf8 { IfSome result (λ text. IsUtf8 text.now) }
{
    let run = bytes_behind(bytes, head)?;
    match str::from_utf8(run) {
        Ok(text) => Some(text),
        Err(_) => None,
    }
}

impl Reader {
    ghost use Rattle.sm_cbor.specs.steps.Machine.{IsAt, CborTakesPrefixAt, cbor_state_at};
    ghost use Rattle.sm_cbor.specs.steps.Sinks.{Reached};
    ghost use Rattle.sm_tree.specs.Streams.{TakesEvery};
    ghost use Rattle.sm_tree.specs.ReaderClauses.{TakesStill};
    ghost use Rattle.sm_cbor.specs.steps.Reading.{HasHead, IsText};

    // The initial byte of an item.
    fn item_byte<E: EventSink>(&mut self, bytes: &[u8], to: &mut E) -> Result<usize, SyntaxRefusal>
        requires sound { IsAt self.old CborPlace.Item }
        requires some { 0 < length bytes.now }
        requires reached { Reached (E.stands_for to.old) (cbor_state_at self.old CborPlace.Item) }
        requires takes { TakesEvery (E.takes to.old) }
        ensures goes { CborTakesPrefixAt (E.stands_for to.old) self.old CborPlace.Item bytes.now (E.stands_for to.new) self.new result }
        ensures takes { TakesStill (E.takes to.old) (E.takes to.new) result }
        ensures alike { E.alike to.old to.new }
    {
        self.item(bytes[0], to)?;
        Ok(1)
    }

    // The initial byte of a key.
    fn key_byte<E: EventSink>(&mut self, bytes: &[u8], to: &mut E) -> Result<usize, SyntaxRefusal>
        requires sound { IsAt self.old CborPlace.Key }
        requires some { 0 < length bytes.now }
        requires reached { Reached (E.stands_for to.old) (cbor_state_at self.old CborPlace.Key) }
        requires takes { TakesEvery (E.takes to.old) }
        ensures goes { CborTakesPrefixAt (E.stands_for to.old) self.old CborPlace.Key bytes.now (E.stands_for to.new) self.new result }
        ensures takes { TakesStill (E.takes to.old) (E.takes to.new) result }
        ensures alike { E.alike to.old to.new }
    {
        self.key(bytes[0], to)?;
        Ok(1)
    }

    // A head whose bytes are all at hand.
    fn take_head<E: EventSink>(
        &mut self,
        head: &WholeHead,
        bytes: &[u8],
        to: &mut E,
    ) -> Result<usize, SyntaxRefusal>
        requires sound { IsAt self.old CborPlace.Item }
        requires head { HasHead bytes.now head.now.subject head.now.value head.now.len }
        requires reached { Reached (E.stands_for to.old) (cbor_state_at self.old CborPlace.Item) }
        requires takes { TakesEvery (E.takes to.old) }
        ensures goes { CborTakesPrefixAt (E.stands_for to.old) self.old CborPlace.Item bytes.now (E.stands_for to.new) self.new result }
        ensures takes { TakesStill (E.takes to.old) (E.takes to.new) result }
        ensures alike { E.alike to.old to.new }
    {
        if head.subject.is_level() && self.is_full() {
            return Err(SyntaxRefusal::TooDeep(0));
        }
        self.end_argument(head.subject, head.value, to)?;
        Ok(head.len)
    }

    // A text with its head, or the head alone where the text isn't all at hand or isn't UTF-8.
    fn take_text<E: EventSink>(
        &mut self,
        head: &WholeHead,
        bytes: &[u8],
        to: &mut E,
    ) -> Result<usize, SyntaxRefusal>
        requires sound { IsAt self.old CborPlace.Item }
        requires head { HasHead bytes.now head.now.subject head.now.value head.now.len }
        requires text { IsText head.now.subject }
        requires reached { Reached (E.stands_for to.old) (cbor_state_at self.old CborPlace.Item) }
        requires takes { TakesEvery (E.takes to.old) }
        ensures goes { CborTakesPrefixAt (E.stands_for to.old) self.old CborPlace.Item bytes.now (E.stands_for to.new) self.new result }
        ensures takes { TakesStill (E.takes to.old) (E.takes to.new) result }
        ensures alike { E.alike to.old to.new }
    {
        match text_behind(bytes, head) {
            Some(text) => {
                let copy = Text::copy(self.alloc, text)?;
                self.leaf(Event::Text(copy), to)?;
                Ok(head.len + text.len())
            }
            None => self.take_head(head, bytes, to),
        }
    }

    // A key with its head, or one byte where it isn't all at hand or isn't UTF-8.
    fn take_key<E: EventSink>(
        &mut self,
        head: &WholeHead,
        bytes: &[u8],
        to: &mut E,
    ) -> Result<usize, SyntaxRefusal>
        requires sound { IsAt self.old CborPlace.Key }
        requires head { HasHead bytes.now head.now.subject head.now.value head.now.len }
        requires text { IsText head.now.subject }
        requires reached { Reached (E.stands_for to.old) (cbor_state_at self.old CborPlace.Key) }
        requires takes { TakesEvery (E.takes to.old) }
        ensures goes { CborTakesPrefixAt (E.stands_for to.old) self.old CborPlace.Key bytes.now (E.stands_for to.new) self.new result }
        ensures takes { TakesStill (E.takes to.old) (E.takes to.new) result }
        ensures alike { E.alike to.old to.new }
    {
        match text_behind(bytes, head) {
            Some(text) => {
                let copy = Text::copy(self.alloc, text)?;
                to.event(Event::Key(copy))?;
                self.place = CborPlace::Item;
                Ok(head.len + text.len())
            }
            None => self.key_byte(bytes, to),
        }
    }

    // A prefix of an item: a text with its head, another head, or one byte.
    pub(super) fn item_prefix<E: EventSink>(
        &mut self,
        bytes: &[u8],
        to: &mut E,
    ) -> Result<usize, SyntaxRefusal>
        requires sound { IsAt self.old CborPlace.Item }
        requires some { 0 < length bytes.now }
        requires reached { Reached (E.stands_for to.old) (cbor_state_at self.old CborPlace.Item) }
        requires takes { TakesEvery (E.takes to.old) }
        ensures goes { CborTakesPrefixAt (E.stands_for to.old) self.old CborPlace.Item bytes.now (E.stands_for to.new) self.new result }
        ensures takes { TakesStill (E.takes to.old) (E.takes to.new) result }
        ensures alike { E.alike to.old to.new }
    {
        match whole_head(bytes) {
            Some(head) => {
                if head.subject.is_text() {
                    return self.take_text(&head, bytes, to);
                }
                self.take_head(&head, bytes, to)
            }
            None => self.item_byte(bytes, to),
        }
    }

    // A prefix of a key: all of it with its head, or one byte.
    pub(super) fn key_prefix<E: EventSink>(
        &mut self,
        bytes: &[u8],
        to: &mut E,
    ) -> Result<usize, SyntaxRefusal>
        requires sound { IsAt self.old CborPlace.Key }
        requires some { 0 < length bytes.now }
        requires reached { Reached (E.stands_for to.old) (cbor_state_at self.old CborPlace.Key) }
        requires takes { TakesEvery (E.takes to.old) }
        ensures goes { CborTakesPrefixAt (E.stands_for to.old) self.old CborPlace.Key bytes.now (E.stands_for to.new) self.new result }
        ensures takes { TakesStill (E.takes to.old) (E.takes to.new) result }
        ensures alike { E.alike to.old to.new }
    {
        match whole_head(bytes) {
            Some(head) => {
                if head.subject.is_text() {
                    return self.take_key(&head, bytes, to);
                }
                self.key_byte(bytes, to)
            }
            None => self.key_byte(bytes, to),
        }
    }
}
