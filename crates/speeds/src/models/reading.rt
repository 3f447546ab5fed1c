// Reads a model's text in the IDL many times over, as it is and with a fault in it.
ghost use Rattle.speeds.specs.ModelTurns.{CountsStatements};

use sm_idl::{IdlRefusal, read_idl};
use std::alloc::Global;

/// How many statements a text has that is read so many times, and at least once.
///
/// # Errors
///
/// Those of `read_idl`.
pub fn statement_count(alloc: Global, text: &str, turns: u32) -> Result<usize, IdlRefusal>
    ensures { CountsStatements text.now result }
{
    for _ in 1..turns {
        match read_idl(alloc, text) {
            Ok(_) => {}
            Err(refusal) => return Err(refusal),
        }
    }
    match read_idl(alloc, text) {
        Ok(statements) => Ok(statements.len()),
        Err(refusal) => Err(refusal),
    }
}

/// How many of so many texts are refused: each is the text, cut before a byte or with this byte changed, from the first byte to the last
/// and again from the first.
pub fn refused_count(alloc: Global, text: &mut Vec<u8>, turns: u32) -> u32 {
    let mut refused = 0u32;
    let mut at = 0usize;
    for turn in 0..turns {
        if at >= text.len() {
            at = 0;
        }
        if is_refused(alloc, text, at, byte_of(turn)) {
            refused = refused.saturating_add(1);
        }
        at = at.saturating_add(1);
    }
    refused
}

// What a byte is changed to in this turn; None, where the text is cut.
fn byte_of(turn: u32) -> Option<u8> {
    match turn % 5 {
        0 => Some(b'%'),
        1 => Some(b'{'),
        2 => Some(b'"'),
        3 => Some(b'a'),
        _ => None,
    }
}

// Whether the text is refused, cut or changed at this place.
fn is_refused(alloc: Global, text: &mut Vec<u8>, at: usize, byte: Option<u8>) -> bool {
    if at >= text.len() {
        return false;
    }
    let Some(byte) = byte else {
        return is_refused_text(alloc, &text[..at]);
    };
    let old = text[at];
    text[at] = byte;
    let refused = is_refused_text(alloc, text);
    text[at] = old;
    refused
}

fn is_refused_text(alloc: Global, text: &[u8]) -> bool {
    match std::str::from_utf8(text) {
        Ok(text) => read_idl(alloc, text).is_err(),
        Err(_) => false,
    }
}
