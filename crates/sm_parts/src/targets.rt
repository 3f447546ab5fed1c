// Paths and queries of targets, and how they are written.
ghost use Rattle.std.specs.Prelude.{◌≡◌, ◌++◌, ◌∷◌, [], IfOk, OnOk, string_bytes};
ghost use Rattle.std.specs.Str.{bytes_eq};
ghost use Rattle.percent_encoding.specs.Percent.{percent_decode};
ghost use Rattle.sm_parts.specs.Cuts.{bytes_behind};
ghost use Rattle.sm_parts.specs.Targets.{escaped, escaped_byte, escaped_path, escaped_path_byte, is_unreserved, pair_of, pairs_of, path_of, query_of};
ghost use Rattle.sm_parts.specs.Targets.{query_pairs};

use crate::cut::cut_at;
use percent_encoding::{percent_decode, percent_encode_byte};
use sm_tree::{Bytes, NoMemory};
use std::alloc::Global;

/// The path of a target, up to the first question mark. No memory.
pub fn path_of(target: &[u8]) -> &[u8]
    ensures { result.now ≡ path_of target.now }
{
    cut_at(target, b'?').taken
}

/// The query of a target, behind the first question mark; nothing where there is none. No memory.
pub fn query_of(target: &[u8]) -> &[u8]
    ensures { result.now ≡ query_of target.now }
{
    match cut_at(target, b'?').behind {
        Some(query) => query,
        None => &target[target.len()..],
    }
}

/// A text with each escape replaced by its byte; a percent sign without two hexadecimal digits behind it stays.
///
/// # Errors
///
/// `NoMemory`.
pub fn decoded(alloc: Global, text: &[u8]) -> Result<Bytes, NoMemory>
    ensures { IfOk result (λ bytes. bytes ≡ percent_decode text.now) }
{
    let mut bytes = Vec::with_capacity(alloc, text.len())?;
    percent_decode(text).append_to(&mut bytes)?;
    Ok(Bytes::new(bytes))
}

/// The pairs of a query, decoded: keys, and what stands behind the first `=` of each. Linear.
///
/// # Errors
///
/// `NoMemory`.
pub fn query_pairs(alloc: Global, query: &[u8]) -> Result<Vec<(Bytes, Bytes)>, NoMemory>
    ensures { IfOk result (λ pairs. pairs.items ≡ query_pairs query.now) }
{
    let mut pairs = Vec::new(alloc);
    let mut rest = query;
    loop {
        let piece = cut_at(rest, b'&');
        match put_pair_of(alloc, &mut pairs, piece.taken) {
            Ok(()) => {}
            Err(refusal) => return Err(refusal),
        }
        rest = match piece.behind {
            Some(behind) => behind,
            None => return Ok(pairs),
        };
    }
}

// Puts the pair that a piece of a query is, if anything stands in it.
fn put_pair_of(alloc: Global, pairs: &mut Vec<(Bytes, Bytes)>, piece: &[u8]) -> Result<(), NoMemory>
    ensures { OnOk result (pairs.new.items ≡ pairs.old.items ++ pairs_of (piece.now ∷ [])) }
{
    if piece.is_empty() {
        return Ok(());
    }
    pairs.push(pair_of(alloc, piece)?)?;
    Ok(())
}

fn pair_of(alloc: Global, piece: &[u8]) -> Result<(Bytes, Bytes), NoMemory>
    ensures { IfOk result (λ pair. pair ≡ pair_of piece.now) }
{
    let cut = cut_at(piece, b'=');
    let key = decoded(alloc, cut.taken)?;
    let value = decoded_behind(alloc, cut.behind)?;
    Ok((key, value))
}

// What stands behind a mark, decoded; nothing where there is no mark.
fn decoded_behind(alloc: Global, behind: Option<&[u8]>) -> Result<Bytes, NoMemory>
    ensures { IfOk result (λ bytes. bytes ≡ percent_decode (bytes_behind behind.entry)) }
{
    match behind {
        Some(bytes) => decoded(alloc, bytes),
        None => decoded(alloc, b""),
    }
}

// Whether a byte is written as it is (RFC 3986, section 2.3).
fn is_unreserved(byte: u8) -> bool
    ensures { result ≡ is_unreserved byte }
{
    byte.is_ascii_alphanumeric() || byte == b'-' || byte == b'.' || byte == b'_' || byte == b'~'
}

fn put_escaped_byte(out: &mut String, byte: u8) -> Result<(), NoMemory>
    ensures { OnOk result (string_bytes out.new ≡ string_bytes out.old ++ escaped_byte byte) }
{
    if is_unreserved(byte) {
        out.push(char::from(byte))?;
    } else {
        out.push_str(percent_encode_byte(byte))?;
    }
    Ok(())
}

fn put_path_byte(out: &mut String, byte: u8) -> Result<(), NoMemory>
    ensures { OnOk result (string_bytes out.new ≡ string_bytes out.old ++ escaped_path_byte byte) }
{
    if byte == b'/' {
        out.push_str("/")?;
        return Ok(());
    }
    put_escaped_byte(out, byte)
}

/// Writes a text with every byte escaped but letters, digits, `-`, `.`, `_` and `~`.
///
/// # Errors
///
/// `NoMemory`; then a part may be written.
pub fn put_escaped(out: &mut String, text: &[u8]) -> Result<(), NoMemory>
    ensures { OnOk result (string_bytes out.new ≡ string_bytes out.old ++ escaped text.now) }
{
    for byte in text {
        put_escaped_byte(out, *byte)?;
    }
    Ok(())
}

/// The same with slashes as they are, for the text of a greedy label.
///
/// # Errors
///
/// `NoMemory`; then a part may be written.
pub fn put_escaped_path(out: &mut String, text: &[u8]) -> Result<(), NoMemory>
    ensures { OnOk result (string_bytes out.new ≡ string_bytes out.old ++ escaped_path text.now) }
{
    for byte in text {
        put_path_byte(out, *byte)?;
    }
    Ok(())
}

/// Whether a text is this one once it is decoded. No memory.
pub fn decodes_to(encoded: &[u8], text: &[u8]) -> bool
    ensures { result ≡ bytes_eq (percent_decode encoded.now) text.now }
{
    let mut decoded = percent_decode(encoded);
    for byte in text {
        match decoded.next() {
            Some(other) => {
                if other != *byte {
                    return false;
                }
            }
            None => return false,
        }
    }
    decoded.next().is_none()
}
