// The lexer: the tokens of a text, from its first byte on.
ghost use Rattle.std.specs.Prelude.{◌≡◌, ◌<◌, ◌+◌, ◌^◌, length, drop, if◌then◌else◌, codes, IfOk, All, map};
ghost use Rattle.sm_lex.specs.declared.byte.First.TheVariants.{Quote as a_quote};
ghost use Rattle.sm_lex.specs.Bytes.{FirstIs, opens_with};
ghost use Rattle.sm_lex.specs.Space.{EndsSpace};
ghost use Rattle.sm_lex.specs.Lines.{line_end_len};
ghost use Rattle.sm_lex.specs.Shapes.{HasShape};
ghost use Rattle.sm_lex.specs.Tokens.{OpensString, OpensBlock, lexeme_of};
ghost use Rattle.sm_lex.specs.steps.LexSteps.{MeasuresNumber, Measures};
ghost use Rattle.sm_lex.specs.Answers.{Lexes, IsWhole};

use crate::byte::{First, WordBytes, first_of};
use crate::judge::{bad_escape, indent_of};
use crate::lines::Lines;
use crate::quoted::{block_end, string_end};
use crate::runs::line_end_len;
use crate::space::space_len;
use crate::token::{LexRefusal, Token, TokenKind};
use sm_bytes::run_len;
use sm_tree::number::{Phase, number_run};
use std::alloc::Global;

/// A token at the start of a text.
#[derive(Clone, Copy)]
pub struct Measured {
    pub kind: TokenKind,
    /// How many bytes it has.
    pub len: usize,
}

/// The length of the longest run that begins a number, as an error where it is none.
fn number_len(bytes: &[u8]) -> Result<usize, usize>
    ensures { MeasuresNumber bytes.now result }
{
    let run = number_run(Phase::Start, bytes);
    if run.phase.is_whole() {
        Ok(run.count)
    } else {
        Err(run.count)
    }
}

/// The mark that stands first. `:=` goes before `:`.
fn mark_len(bytes: &[u8]) -> usize
    ensures { result ≡ (if opens_with bytes.now (codes ":=") then 2 else 1) }
{
    if bytes.starts_with(b":=") { 2 } else { 1 }
}

/// The string at the start of a text that is at the place `start`.
fn string(text: &str, start: usize) -> Result<Measured, LexRefusal>
    requires opens { OpensString text.now }
    requires room { start + length text.now < 2 ^ 64 }
    ensures { Measures start text.now result }
{
    let (_, behind) = text.split_at(1);
    let Some(len) = string_end(behind.as_bytes()) else {
        return Err(LexRefusal::UnclosedString(start as u64));
    };
    let (inside, _) = behind.split_at(len);
    match bad_escape(Lines::new(inside, start + 1), None) {
        Some(at) => Err(LexRefusal::BadEscape(at as u64)),
        None => Ok(Measured {
            kind: TokenKind::Text,
            len: len + 2,
        }),
    }
}

/// The text block at the start of a text that is at the place `start`, whose first line end has this length.
fn block(text: &str, start: usize, line_end: usize) -> Result<Measured, LexRefusal>
    requires opens { OpensBlock text.now }
    requires line_end { line_end ≡ line_end_len (drop 3 text.now) }
    requires room { start + length text.now < 2 ^ 64 }
    ensures { Measures start text.now result }
{
    let (_, behind) = text.split_at(3);
    let Some(len) = block_end(behind.as_bytes()) else {
        return Err(LexRefusal::UnclosedBlock(start as u64));
    };
    let (inside, _) = behind.split_at(len);
    let lines = Lines::new(inside.split_at(line_end).1, start + (3 + line_end));
    match bad_escape(lines, Some(indent_of(lines))) {
        Some(at) => Err(LexRefusal::BadEscape(at as u64)),
        None => Ok(Measured {
            kind: TokenKind::Block,
            len: len + 6,
        }),
    }
}

/// The string or the text block at the start of a text that is at the place `start`.
fn quoted(text: &str, start: usize) -> Result<Measured, LexRefusal>
    requires first { FirstIs a_quote text.now }
    requires room { start + length text.now < 2 ^ 64 }
    ensures { Measures start text.now result }
{
    let bytes = text.as_bytes();
    if !bytes.starts_with(b"\"\"\"") {
        return string(text, start);
    }
    let line_end = line_end_len(&bytes[3..]);
    if line_end == 0 {
        return Err(LexRefusal::Bad((start + 3) as u64));
    }
    block(text, start, line_end)
}

/// The token at the start of a text that is at the place `start`. No whitespace and no comment stands there.
fn measure(text: &str, start: usize) -> Result<Measured, LexRefusal>
    requires some { 0 < length text.now }
    requires no_space { EndsSpace text.now }
    requires room { start + length text.now < 2 ^ 64 }
    ensures { Measures start text.now result }
{
    let bytes = text.as_bytes();
    match first_of(bytes[0]) {
        First::Word => Ok(Measured {
            kind: TokenKind::Word,
            len: run_len::<WordBytes>(bytes),
        }),
        First::Number => match number_len(bytes) {
            Ok(len) => Ok(Measured {
                kind: TokenKind::Number,
                len,
            }),
            Err(len) => Err(LexRefusal::Bad((start + len) as u64)),
        },
        First::Quote => quoted(text, start),
        First::Mark => Ok(Measured {
            kind: TokenKind::Mark,
            len: mark_len(bytes),
        }),
        First::White | First::Slash | First::Stray => Err(LexRefusal::Bad(start as u64)),
    }
}

/// The token that was measured at the place `start`, whose bytes are these.
fn token_of(measured: Measured, text: &str, start: usize) -> Token<'_>
    requires shape { HasShape measured.kind start text.now }
    requires len { measured.len ≡ length text.now }
    requires room { start + length text.now < 2 ^ 64 }
    ensures kind { result.kind ≡ measured.kind }
    ensures text { result.text.now ≡ text.now }
    ensures start { result.start ≡ start }
    ensures end { result.end ≡ start + measured.len }
{
    Token {
        kind: measured.kind,
        text,
        start: start as u64,
        end: (start + measured.len) as u64,
    }
}

/// The tokens of a text, in order.
///
/// # Errors
///
/// The first reason in the text for which it has no tokens, or `NoMemory`.
pub fn tokens(alloc: Global, text: &str) -> Result<Vec<Token<'_>>, LexRefusal>
    ensures lexes { Lexes text.now result }
    ensures whole { IfOk result (λ tokens. All (IsWhole text.now) (map lexeme_of tokens.items)) }
{
    let mut tokens = Vec::new(alloc);
    let mut rest = text;
    let mut at = 0;
    loop {
        let space = space_len(rest.as_bytes());
        let behind = rest.split_at(space).1;
        if behind.is_empty() {
            return Ok(tokens);
        }
        let start = at + space;
        let measured = match measure(behind, start) {
            Ok(measured) => measured,
            Err(refusal) => return Err(refusal),
        };
        let (text, below) = behind.split_at(measured.len);
        match tokens.push(token_of(measured, text, start)) {
            Ok(()) => {}
            Err(_) => return Err(LexRefusal::NoMemory),
        }
        rest = below;
        at = start + measured.len;
    }
}
