// The parts of a line within a string or a text block (Smithy 2.0, "Smithy IDL", "String values").
ghost use Rattle.std.specs.Prelude.{◌<◌, length};
ghost use Rattle.sm_lex.specs.steps.LexSteps.{PartOfLine};

use crate::byte::PlainBytes;
use crate::escape::{Escape, escape_at};
use sm_bytes::run_len;

/// A part of a line.
#[derive(Clone, Copy)]
pub enum Part {
    /// So many bytes that stand for themselves.
    Plain(usize),
    /// A backslash and the escape behind it.
    Escaped(Escape),
    /// A backslash that joins the line with the next one.
    Joins,
    /// A backslash with no escape behind it.
    Bad,
}

/// The part at the start of a line's bytes. Below the last line there is none to join.
pub fn first_part(bytes: &[u8], last: bool) -> Part
    requires { 0 < length bytes.now }
    ensures { PartOfLine last bytes.now result }
{
    let plain = run_len::<PlainBytes>(bytes);
    if plain > 0 {
        return Part::Plain(plain);
    }
    let behind = &bytes[1..];
    if behind.is_empty() {
        return if last { Part::Bad } else { Part::Joins };
    }
    match escape_at(behind) {
        Some(escape) => Part::Escaped(escape),
        None => Part::Bad,
    }
}
