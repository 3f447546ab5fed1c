// What recursive descent ends at: heads, strings, simple values and breaks.
ghost use Rattle.std.specs.Prelude.{◌≡◌, ◌<◌, ◌%◌, ◌↔◌, length, slice_index, string_bytes, IsTrue, IfOk, IsUtf8};
ghost use Rattle.sm_tree.specs.View.{node_of};
ghost use Rattle.sm_cbor.specs.CborItem.{IsOpaque};

use super::major_type::MajorType;
use super::{Descent, Unread};
use crate::head::{BREAK, INDEFINITE_BYTES, INDEFINITE_TEXT, number};
use crate::seen::see_bytes;
use sm_tree::{Bytes, Text, Tree};
use std::str;

// Whether these low-order 5 bits, with this argument, are those of a float or of a simple value that is kept by its initial
// byte.
fn is_opaque(info: u8, argument: u64) -> bool
    requires { info < 32 }
    ensures { IsTrue result ↔ IsOpaque info argument }
{
    match info {
        0..=19 => true,
        24 => argument >= 32,
        25.. => true,
        _ => false,
    }
}

impl<'a> Descent<'a> {
    ghost use Rattle.sm_tree.specs.Json.{AreBytes};
    ghost use Rattle.sm_cbor.specs.Heads.{Byte, HasWidth, Head, bytes_type, text_type, simple_type};
    ghost use Rattle.sm_cbor.specs.CborItem.{Definite, ByteString, TextString};
    ghost use Rattle.sm_cbor.specs.steps.Descent.{initial_type, Joined, ItemIn, TakesBreak};

    // Passes over the next byte.
    #[inline(always)]
    pub(super) fn skip(&mut self)
        requires { 0 < length self.old.rest.now }
        ensures { Byte (slice_index self.old.rest.now 0) self.old.rest.now self.new.rest.now }
    {
        self.rest = &self.rest[1..];
    }

    // The argument of the next head, in so many bytes behind the initial one.
    #[inline(always)]
    fn argument_in(&mut self, count: usize) -> Result<u64, Unread>
        requires some { 0 < length self.old.rest.now }
        requires width { HasWidth (slice_index self.old.rest.now 0 % 32) count }
        ensures { IfOk result (λ value. Head (initial_type self.old.rest.now) value self.old.rest.now self.new.rest.now) }
    {
        if self.rest.len() <= count {
            return Err(Unread::GaveUp);
        }
        let argument = number(0, &self.rest[1..1 + count]);
        self.rest = &self.rest[1 + count..];
        Ok(argument)
    }

    // The same in four or eight bytes, which few have. Gives up where the head has no argument.
    #[inline(never)]
    fn wide_argument(&mut self) -> Result<u64, Unread>
        requires { 0 < length self.old.rest.now }
        ensures { IfOk result (λ value. Head (initial_type self.old.rest.now) value self.old.rest.now self.new.rest.now) }
    {
        match self.rest[0] % 32 {
            26 => self.argument_in(4),
            27 => self.argument_in(8),
            _ => Err(Unread::GaveUp),
        }
    }

    // The argument of the next head. Most are in the initial byte itself, or in one or two bytes behind it.
    #[inline(always)]
    pub(super) fn argument(&mut self) -> Result<u64, Unread>
        requires { 0 < length self.old.rest.now }
        ensures { IfOk result (λ value. Head (initial_type self.old.rest.now) value self.old.rest.now self.new.rest.now) }
    {
        match self.rest[0] % 32 {
            info @ 0..=23 => {
                self.rest = &self.rest[1..];
                Ok(u64::from(info))
            }
            24 => self.argument_in(1),
            25 => self.argument_in(2),
            _ => self.wide_argument(),
        }
    }

    // The bytes of a string of definite length, which is next.
    #[inline(always)]
    fn run(&mut self) -> Result<&'a [u8], Unread>
        requires { 0 < length self.old.rest.now }
        ensures { IfOk result (λ run. Definite (initial_type self.old.rest.now) AreBytes run.now self.old.rest.now self.new.rest.now) }
    {
        let len = self.argument()?;
        if len > self.rest.len() as u64 {
            return Err(Unread::GaveUp);
        }
        let (run, behind) = self.rest.split_at(len as usize);
        see_bytes(run);
        self.rest = behind;
        Ok(run)
    }

    // Whether a break is next, which is taken.
    #[inline(always)]
    pub(super) fn takes_break(&mut self) -> bool
        ensures { TakesBreak self.old.rest.now self.new.rest.now result }
    {
        if self.rest.is_empty() || self.rest[0] != BREAK {
            return false;
        }
        self.skip();
        true
    }

    // A text of definite length, which is next.
    #[inline(always)]
    fn definite_text(&mut self) -> Result<&'a str, Unread>
        requires { 0 < length self.old.rest.now }
        ensures { IfOk result (λ text. Definite (initial_type self.old.rest.now) IsUtf8 text.now self.old.rest.now self.new.rest.now) }
    {
        let run = self.run()?;
        match str::from_utf8(run) {
            Ok(text) => Ok(text),
            Err(_) => Err(Unread::GaveUp),
        }
    }

    // The chunks of a text, joined, and the break behind them, which is taken too.
    fn text_chunks(&mut self) -> Result<String, Unread>
        ensures { IfOk result (λ text. Joined text_type IsUtf8 (string_bytes text) self.old.rest.now self.new.rest.now) }
    {
        let mut text = String::new(self.alloc);
        // Each chunk has a byte at least.
        for _ in 0..self.rest.len() {
            if self.takes_break() {
                return Ok(text);
            }
            let Some(MajorType::Text) = self.next_type() else {
                return Err(Unread::GaveUp);
            };
            let chunk = self.definite_text()?;
            text.push_str(chunk)?;
        }
        Err(Unread::GaveUp)
    }

    // The next text, of definite or indefinite length.
    fn any_text(&mut self) -> Result<Text, Unread>
        requires some { 0 < length self.old.rest.now }
        requires text { initial_type self.old.rest.now ≡ text_type }
        ensures { IfOk result (λ text. TextString text self.old.rest.now self.new.rest.now) }
    {
        if self.rest[0] == INDEFINITE_TEXT {
            self.skip();
            let text = self.text_chunks()?;
            return Ok(Text::new(text));
        }
        let text = self.definite_text()?;
        Ok(Text::copy(self.alloc, text)?)
    }

    // The next text. Most are short.
    #[inline(always)]
    pub(super) fn text(&mut self) -> Result<Text, Unread>
        requires some { 0 < length self.old.rest.now }
        requires text { initial_type self.old.rest.now ≡ text_type }
        ensures { IfOk result (λ text. TextString text self.old.rest.now self.new.rest.now) }
    {
        let info = self.rest[0] % 32;
        if info < 24 {
            let behind = &self.rest[1..];
            if let Some(text) = Text::short_prefix(behind, info as usize) {
                self.rest = &behind[info as usize..];
                return Ok(text);
            }
        }
        self.any_text()
    }

    // The next key, a text.
    #[inline(always)]
    pub(super) fn key(&mut self) -> Result<Text, Unread>
        ensures { IfOk result (λ key. TextString key self.old.rest.now self.new.rest.now) }
    {
        let Some(MajorType::Text) = self.next_type() else {
            return Err(Unread::GaveUp);
        };
        self.text()
    }

    // The chunks of a byte string, joined, and the break behind them, which is taken too.
    fn byte_chunks(&mut self) -> Result<Vec<u8>, Unread>
        ensures { IfOk result (λ bytes. Joined bytes_type AreBytes bytes.items self.old.rest.now self.new.rest.now) }
    {
        let mut bytes = Vec::new(self.alloc);
        // Each chunk has a byte at least.
        for _ in 0..self.rest.len() {
            if self.takes_break() {
                return Ok(bytes);
            }
            let Some(MajorType::Bytes) = self.next_type() else {
                return Err(Unread::GaveUp);
            };
            let chunk = self.run()?;
            bytes.extend_from_slice(chunk)?;
        }
        Err(Unread::GaveUp)
    }

    // The next byte string.
    pub(super) fn bytes(&mut self) -> Result<Bytes, Unread>
        requires some { 0 < length self.old.rest.now }
        requires bytes { initial_type self.old.rest.now ≡ bytes_type }
        ensures { IfOk result (λ bytes. ByteString bytes self.old.rest.now self.new.rest.now) }
    {
        if self.rest[0] == INDEFINITE_BYTES {
            self.skip();
            let bytes = self.byte_chunks()?;
            return Ok(Bytes::new(bytes));
        }
        let run = self.run()?;
        Ok(Bytes::new(Vec::from_slice(self.alloc, run)?))
    }

    // The next float or simple value, of which the initial byte is kept.
    fn opaque(&mut self) -> Result<Tree, Unread>
        requires some { 0 < length self.old.rest.now }
        requires simple { initial_type self.old.rest.now ≡ simple_type }
        ensures { IfOk result (λ tree. ItemIn 0 (node_of tree) self.old.rest.now self.new.rest.now) }
    {
        let byte = self.rest[0];
        let value = self.argument()?;
        if !is_opaque(byte % 32, value) {
            return Err(Unread::GaveUp);
        }
        Ok(Tree::Opaque(byte))
    }

    // The next simple value or float.
    pub(super) fn simple(&mut self) -> Result<Tree, Unread>
        requires some { 0 < length self.old.rest.now }
        requires simple { initial_type self.old.rest.now ≡ simple_type }
        ensures { IfOk result (λ tree. ItemIn 0 (node_of tree) self.old.rest.now self.new.rest.now) }
    {
        match self.rest[0] {
            0xF4 => {
                self.skip();
                Ok(Tree::Bool(false))
            }
            0xF5 => {
                self.skip();
                Ok(Tree::Bool(true))
            }
            0xF6 | 0xF7 => {
                self.skip();
                Ok(Tree::Null)
            }
            _ => self.opaque(),
        }
    }
}
