// Answers on texts of JSON and items of CBOR. What is written for a tree goes behind bytes that are there, into room that is just
// enough.
use crate::show::{show_ranges, show_refusal, show_tree};
use crate::{cbor_events, json_events};
use rows::{push_utf8, show_bytes};
use sm_cbor::readers::{read_by_bytes, read_item};
use sm_tree::number::{Phase, number_run as run_of};
use sm_tree::{NoMemory, SyntaxRefusal, Tree};
use std::alloc::Global;

/// What stands before all that is written.
const BEFORE: &[u8] = b"x=";

// A vector that has these bytes, and room for so many more.
fn just_enough(alloc: Global, len: u64) -> Result<Vec<u8>, NoMemory> {
    let mut written = Vec::with_capacity(alloc, BEFORE.len().saturating_add(len as usize))?;
    written.extend_from_slice(BEFORE)?;
    Ok(written)
}

// What stands behind them, or all of it where they have changed.
fn behind(written: &[u8]) -> &[u8] {
    written.strip_prefix(BEFORE).unwrap_or(written)
}

// Appends where other room was taken than there was.
fn show_room(before: usize, after: usize, out: &mut String) -> Result<(), NoMemory> {
    if after != before {
        out.push_str(" in other room")?;
    }
    Ok(())
}

pub fn json(alloc: Global, bytes: &[u8], out: &mut String) -> Result<(), NoMemory> {
    let answer = sm_json::read_tree(alloc, bytes);
    if !json_events::is_read_in_pieces(alloc, bytes, &answer) {
        out.push_str("otherwise in pieces ")?;
    }
    match answer {
        Ok(tree) => {
            let mut written = just_enough(alloc, sm_json::encoded_len(&tree))?;
            let room = written.capacity();
            sm_json::write_tree(alloc, &tree, &mut written)?;
            push_utf8(behind(&written), out)?;
            show_room(room, written.capacity(), out)
        }
        Err(refusal) => show_refusal(refusal, out),
    }
}

/// Appends the bytes with which some text begins, behind these, and those with which it is whole.
pub fn json_next(alloc: Global, bytes: &[u8], out: &mut String) -> Result<(), NoMemory> {
    let mut text = bytes.to_vec(alloc)?;
    let (mut begin, mut end, mut others) = (Vec::new(alloc), Vec::new(alloc), Vec::new(alloc));
    for byte in 0..=255u8 {
        text.push(byte)?;
        match sm_json::read_tree(alloc, &text) {
            Ok(_) => {
                begin.push(byte)?;
                end.push(byte)?;
            }
            Err(SyntaxRefusal::Ended) => begin.push(byte)?,
            Err(SyntaxRefusal::Bad(at)) if at == bytes.len() as u64 => {}
            Err(_) => others.push(byte)?,
        }
        text.pop();
    }
    show_ranges(&begin, out)?;
    if !end.is_empty() {
        out.push_str(", whole ")?;
        show_ranges(&end, out)?;
    }
    if !others.is_empty() {
        out.push_str(", refused elsewhere ")?;
        show_ranges(&others, out)?;
    }
    Ok(())
}

fn phase_word(phase: Phase) -> &'static str {
    match phase {
        Phase::Start => "start",
        Phase::Minus => "minus",
        Phase::Zero => "zero",
        Phase::Whole => "whole",
        Phase::Point => "point",
        Phase::Fraction => "fraction",
        Phase::Exponent => "exponent",
        Phase::ExponentSign => "exponent-sign",
        Phase::ExponentDigits => "exponent-digits",
    }
}

pub fn number_run(phase: Phase, bytes: &[u8], out: &mut String) -> Result<(), NoMemory> {
    let run = run_of(phase, bytes);
    Ok(write!(out, "{} {}", run.count, phase_word(run.phase))?)
}

pub fn cbor(alloc: Global, bytes: &[u8], out: &mut String) -> Result<(), NoMemory> {
    let answer = sm_cbor::read_tree(alloc, bytes);
    if !cbor_events::is_read_in_pieces(alloc, bytes, &answer) {
        out.push_str("otherwise in pieces ")?;
    }
    match answer {
        Ok(tree) => {
            show_tree(alloc, &tree, out)?;
            if !is_read_by_both(alloc, bytes, &tree) {
                out.push_str(" not by both readers")?;
            }
            written_item(alloc, &tree, out)
        }
        Err(refusal) => show_refusal(refusal, out),
    }
}

// Whether each of the two readers below `read_tree` gives this tree by itself. No clause says that recursive descent does.
fn is_read_by_both(alloc: Global, bytes: &[u8], tree: &Tree) -> bool {
    match (read_item(alloc, bytes), read_by_bytes(alloc, bytes)) {
        (Ok(first), Ok(second)) => first == *tree && second == *tree,
        _ => false,
    }
}

// The item that is written for a tree, where there is one.
fn written_item(alloc: Global, tree: &Tree, out: &mut String) -> Result<(), NoMemory> {
    if !sm_cbor::is_writable(tree) {
        return Ok(());
    }
    let mut written = just_enough(alloc, sm_cbor::encoded_len(tree))?;
    let room = written.capacity();
    sm_cbor::write_tree(alloc, tree, &mut written)?;
    out.push_str(" as ")?;
    show_bytes(behind(&written), out)?;
    show_room(room, written.capacity(), out)
}
