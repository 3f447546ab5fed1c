// Lists of texts, of which some stand between quotation marks.
ghost use Rattle.std.specs.Prelude.{◌≡◌, ◌==◌, ◌&&◌, IfOk};
ghost use Rattle.sm_bytes.specs.Ascii.{backslash, quote};
ghost use Rattle.sm_parts.specs.HeaderLists.{is_escaped, quoted_entries};
ghost use Rattle.sm_parts.specs.steps.Quoting.{IsNotOpened, IsTrimmedFront, IsUnquoted, PutsClosed, PutsEntry, PutsInside, Unescapes};

use crate::cut::cut_at;
use crate::list_entry::ListEntry;
use crate::listing::put_plain;
use sm_http::trim_front;
use sm_tree::{Bytes, NoMemory};
use std::alloc::Global;

/// The entries of a list of texts.
pub(crate) fn quoted_entries(alloc: Global, value: &[u8]) -> Result<Vec<ListEntry>, NoMemory>
    ensures { IfOk result (λ entries. entries.items ≡ quoted_entries value.now) }
{
    let mut entries = Vec::new(alloc);
    let mut rest = value;
    'entries: loop {
        let left = match put_entry(alloc, &mut entries, rest) {
            Ok(left) => left,
            Err(refusal) => return Err(refusal),
        };
        rest = match left {
            Some(behind) => behind,
            None => return Ok(entries),
        };
    }
}

// Puts the entry that stands first: answers what is behind its comma, or none where the list ends with it.
fn put_entry<'a>(
    alloc: Global,
    entries: &mut Vec<ListEntry>,
    rest: &'a [u8],
) -> Result<Option<&'a [u8]>, NoMemory>
    ensures { IfOk result (PutsEntry entries.old.items entries.new.items rest.now) }
{
    let text = trim_front(rest);
    match text.split_first() {
        Some((byte, inside)) => {
            if *byte == b'"' {
                return put_quoted(alloc, entries, inside);
            }
            put_unquoted(alloc, entries, text)
        }
        None => Ok(None),
    }
}

// One without quotation marks, which runs to the next comma.
fn put_unquoted<'a>(
    alloc: Global,
    entries: &mut Vec<ListEntry>,
    text: &'a [u8],
) -> Result<Option<&'a [u8]>, NoMemory>
    requires { IsNotOpened text.now }
    ensures { IfOk result (PutsEntry entries.old.items entries.new.items text.now) }
{
    let piece = cut_at(text, b',');
    match put_plain(alloc, entries, piece.taken) {
        Ok(()) => Ok(piece.behind),
        Err(refusal) => Err(refusal),
    }
}

// One behind its opening quotation mark.
fn put_quoted<'a>(
    alloc: Global,
    entries: &mut Vec<ListEntry>,
    inside: &'a [u8],
) -> Result<Option<&'a [u8]>, NoMemory>
    ensures { IfOk result (PutsInside entries.old.items entries.new.items inside.now) }
{
    let found = match unquoted(alloc, inside) {
        Ok(found) => found,
        Err(refusal) => return Err(refusal),
    };
    match found {
        Some((text, behind)) => put_closed(entries, text, trim_front(behind)),
        None => {
            entries.push(ListEntry::NoEntry)?;
            Ok(None)
        }
    }
}

// One with this text, behind which this stands behind its closing quotation mark and any blanks.
fn put_closed<'a>(
    entries: &mut Vec<ListEntry>,
    text: Vec<u8>,
    behind: &'a [u8],
) -> Result<Option<&'a [u8]>, NoMemory>
    requires { IsTrimmedFront behind.now }
    ensures { IfOk result (PutsClosed entries.old.items entries.new.items text.items behind.now) }
{
    match behind.split_first() {
        Some((byte, next)) => {
            if *byte == b',' {
                entries.push(ListEntry::Text(Bytes::new(text)))?;
                return Ok(Some(next));
            }
            entries.push(ListEntry::NoEntry)?;
            Ok(None)
        }
        None => {
            entries.push(ListEntry::Text(Bytes::new(text)))?;
            Ok(None)
        }
    }
}

// The text up to the closing quotation mark, and what is behind that; none where it isn't closed.
fn unquoted<'a>(alloc: Global, inside: &'a [u8]) -> Result<Option<(Vec<u8>, &'a [u8])>, NoMemory>
    ensures { IfOk result (IsUnquoted inside.now) }
{
    let mut text = Vec::new(alloc);
    let mut rest = inside;
    loop {
        let (byte, behind) = match rest.split_first() {
            Some((byte, behind)) => (*byte, behind),
            None => return Ok(None),
        };
        if byte == b'"' {
            return Ok(Some((text, behind)));
        }
        rest = match put_unescaped(&mut text, byte, behind) {
            Ok(rest) => rest,
            Err(refusal) => return Err(refusal),
        };
    }
}

// Puts a byte, or the one that it escapes: answers what is left.
fn put_unescaped<'a>(text: &mut Vec<u8>, byte: u8, behind: &'a [u8]) -> Result<&'a [u8], NoMemory>
    requires { byte ≡ quote → ⊥ }
    ensures { IfOk result (λ rest. Unescapes text.old.items text.new.items byte behind.now rest.now) }
{
    match behind.split_first() {
        Some((next, more)) => {
            if is_escape(byte, *next) {
                text.push(*next)?;
                return Ok(more);
            }
            text.push(byte)?;
            Ok(behind)
        }
        None => {
            text.push(byte)?;
            Ok(behind)
        }
    }
}

// Whether two bytes are `\"` or `\\`.
fn is_escape(byte: u8, next: u8) -> bool
    ensures { result ≡ ((byte == backslash) && is_escaped next) }
{
    byte == b'\\' && (next == b'"' || next == b'\\')
}
