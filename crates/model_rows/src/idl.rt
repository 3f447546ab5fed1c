// Texts in the IDL, as they stand or as a JSON string holds them, whole and cut behind each of their tokens.
use crate::statement::show_statements;
use sm_idl::{IdlRefusal, read_idl};
use sm_json::read_tree;
use sm_lex::{LexRefusal, tokens};
use sm_tree::{NoMemory, Tree};
use std::alloc::Global;

// Appends a word and a place.
fn show_number(word: &str, at: u64, out: &mut String) -> Result<(), NoMemory> {
    write!(out, "{word} {at}")?;
    Ok(())
}

// Appends a refusal of tokens.
fn show_lex_refusal(refusal: LexRefusal, out: &mut String) -> Result<(), NoMemory> {
    match refusal {
        LexRefusal::Bad(at) => show_number("Bad", at, out),
        LexRefusal::UnclosedString(at) => show_number("UnclosedString", at, out),
        LexRefusal::UnclosedBlock(at) => show_number("UnclosedBlock", at, out),
        LexRefusal::BadEscape(at) => show_number("BadEscape", at, out),
        LexRefusal::NoMemory => Err(NoMemory),
    }
}

// Appends a refusal of a text in the IDL: its word, and the place.
fn show_idl_refusal(refusal: IdlRefusal, out: &mut String) -> Result<(), NoMemory> {
    match refusal {
        IdlRefusal::Lex(refusal) => show_lex_refusal(refusal, out),
        IdlRefusal::Syntax(at) => show_number("Syntax", at, out),
        IdlRefusal::Version => Ok(out.push_str("Version")?),
        IdlRefusal::NoMemory => Err(NoMemory),
    }
}

/// Appends what a text in the IDL says as a model, or why it says nothing.
pub fn show_idl(alloc: Global, text: &str, out: &mut String) -> Result<(), NoMemory> {
    out.push_str(" => ")?;
    match read_idl(alloc, text) {
        Ok(statements) => show_statements(alloc, &statements, out),
        Err(refusal) => show_idl_refusal(refusal, out),
    }
}

/// Appends what a text in the IDL says that a JSON string holds, or why it says nothing.
pub fn show_quoted(alloc: Global, text: &str, out: &mut String) -> Result<(), NoMemory> {
    match read_tree(alloc, text.as_bytes()) {
        Ok(Tree::Text(text)) => show_idl(alloc, text.as_str(), out),
        _ => Ok(out.push_str(" => no row")?),
    }
}

// Appends a text's answer in short: the number of its statements; `cut` where it goes on; or why it says nothing.
fn show_cut(alloc: Global, text: &str, out: &mut String) -> Result<(), NoMemory> {
    match read_idl(alloc, text) {
        Ok(statements) => {
            let count = statements.len();
            write!(out, " {count}")?;
            Ok(())
        }
        Err(IdlRefusal::Syntax(at)) if at == text.len() as u64 => Ok(out.push_str(" cut")?),
        Err(refusal) => {
            out.push_str(" ")?;
            show_idl_refusal(refusal, out)
        }
    }
}

/// Appends what a text says behind each of its tokens, up to the first that says why there are none.
pub fn show_cuts(alloc: Global, text: &str, out: &mut String) -> Result<(), NoMemory> {
    out.push_str(" =>")?;
    let Ok(tokens) = tokens(alloc, text) else {
        return Ok(out.push_str(" no tokens")?);
    };
    for token in &tokens {
        match text.get(..token.end as usize) {
            Some(cut) => show_cut(alloc, cut, out)?,
            None => out.push_str(" no cut")?,
        }
    }
    Ok(())
}
