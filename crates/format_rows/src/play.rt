// The answer to each case.
use crate::both_readers::cbor_two;
use crate::cbor_events::cbor_events;
use crate::formats::{cbor, json, json_next, number_run};
use crate::given::given;
use crate::idl::{docs, lexed};
use crate::ids::{fold, id, id_lengths, order, part};
use crate::json_events::json_events;
use crate::question::{Question, notation_of, question_of};
use crate::stamps::{stamp, stamp_order, write_stamp};
use crate::trees::{pointer, same};
use sm_tree::NoMemory;
use std::alloc::Global;
use std::str::from_utf8;

/// Appends the answer to a case.
pub fn answer_to(alloc: Global, row: &str, out: &mut String) -> Result<(), NoMemory> {
    let (word, rest) = match row.split_once(' ') {
        Some((word, rest)) => (word, rest),
        None => (row, ""),
    };
    let (notation, word) = notation_of(word);
    let Some((question, rest)) = question_of(word, rest) else {
        return Ok(out.push_str("no case")?);
    };
    match given(alloc, notation, rest)? {
        Some(bytes) => answer(alloc, question, &bytes, out),
        None => Ok(out.push_str("no bytes")?),
    }
}

fn answer(
    alloc: Global,
    question: Question,
    bytes: &[u8],
    out: &mut String,
) -> Result<(), NoMemory> {
    match question {
        Question::Json => return json(alloc, bytes, out),
        Question::Cbor => return cbor(alloc, bytes, out),
        Question::CborEvents => return cbor_events(alloc, bytes, out),
        Question::JsonEvents => return json_events(alloc, bytes, out),
        Question::JsonNext => return json_next(alloc, bytes, out),
        Question::NumberRun(phase) => return number_run(phase, bytes, out),
        Question::Stamp(format) => return stamp(format, bytes, out),
        _ => {}
    }
    let Ok(text) = from_utf8(bytes) else {
        return Ok(out.push_str("no text")?);
    };
    match question {
        Question::CborTwo => cbor_two(alloc, text, out),
        Question::Id => id(text, out),
        Question::IdLengths => id_lengths(text, out),
        Question::WriteStamp(format) => write_stamp(format, text, out),
        Question::StampOrder => stamp_order(alloc, text, out),
        Question::Tokens => lexed(alloc, text, out),
        Question::Docs => docs(alloc, text, out),
        Question::Fold => fold(alloc, text, out),
        Question::Pointer => pointer(alloc, text, out),
        Question::Same => same(alloc, text, out),
        Question::Part => part(text, out),
        Question::Order => order(alloc, text, out),
        Question::Json
        | Question::Cbor
        | Question::CborEvents
        | Question::JsonEvents
        | Question::JsonNext
        | Question::NumberRun(_)
        | Question::Stamp(_) => Ok(()),
    }
}
