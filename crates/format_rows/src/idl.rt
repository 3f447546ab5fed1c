// Answers on texts of the IDL: their tokens, and the text of their documentation.
use crate::show::{show_text, show_tree};
use sm_lex::{Token, TokenKind, documentation, tokens};
use sm_tree::NoMemory;
use std::alloc::Global;

fn letter_of(kind: TokenKind) -> char {
    match kind {
        TokenKind::Word => 'w',
        TokenKind::Number => 'n',
        TokenKind::Text => 's',
        TokenKind::Block => 'b',
        TokenKind::Mark => 'm',
    }
}

pub fn lexed(alloc: Global, text: &str, out: &mut String) -> Result<(), NoMemory> {
    match tokens(alloc, text) {
        Ok(list) => {
            for (at, token) in list.iter().enumerate() {
                if at > 0 {
                    out.push_str(" | ")?;
                }
                show_token(alloc, token, out)?;
            }
            Ok(())
        }
        Err(refusal) => Ok(write!(out, "{refusal:?}")?),
    }
}

// A token by its kind, its places, and its text or its value.
fn show_token(alloc: Global, token: &Token<'_>, out: &mut String) -> Result<(), NoMemory> {
    write!(
        out,
        "{}{}-{} ",
        letter_of(token.kind),
        token.start,
        token.end
    )?;
    match token.kind {
        TokenKind::Word | TokenKind::Mark => Ok(out.push_str(token.text)?),
        TokenKind::Number => show_tree(alloc, &sm_lex::number_value(alloc, token)?, out),
        TokenKind::Text => match sm_lex::string_value(alloc, token) {
            Ok(text) => show_text(alloc, text.as_str(), out),
            Err(_) => Ok(out.push_str("no value")?),
        },
        TokenKind::Block => match sm_lex::block_value(alloc, token) {
            Ok(text) => show_text(alloc, text.as_str(), out),
            Err(_) => Ok(out.push_str("no value")?),
        },
    }
}

pub fn docs(alloc: Global, text: &str, out: &mut String) -> Result<(), NoMemory> {
    match documentation(alloc, text) {
        Ok(Some(text)) => show_text(alloc, text.as_str(), out),
        Ok(None) => Ok(out.push_str("none")?),
        Err(_) => Ok(out.push_str("NoMemory")?),
    }
}
