// What is left of a selector's text, and what stands at its start.
ghost use Rattle.std.specs.Prelude.{◌≡◌, ◌≤◌, MatchBool, true, false, drop, length};
ghost use Rattle.sm_select.specs.Tokens.{SkipsWhite};
ghost use Rattle.sm_select.specs.steps.Signs.{sign_text, stands};
ghost use Rattle.sm_select.specs.SelectorText.{IsUnclosed};
ghost use Rattle.sm_select.specs.steps.Reader.{IsPlaced, IsRunAt, begins_a_run, begins_white};

use crate::refusal::SelectorRefusal;
use crate::tokens::{Sign, stands};
use sm_bytes::{ByteClass, run_len};

// White space.
struct White;

impl ByteClass for White {
    ghost use Rattle.sm_select.specs.Tokens.{is_selector_white};

    ghost holds = { is_selector_white };

    fn has(byte: u8) -> bool {
        matches!(byte, b' ' | b'\t' | b'\r' | b'\n')
    }
}

/// The bytes that go on with a run.
pub struct RunBytes;

impl ByteClass for RunBytes {
    ghost use Rattle.sm_select.specs.Tokens.{is_run_byte};

    ghost holds = { is_run_byte };

    fn has(byte: u8) -> bool {
        matches!(byte, b'a'..=b'z' | b'A'..=b'Z' | b'_' | b'0'..=b'9' | b'.' | b'#')
    }
}

/// What is left of a text that is read. White space never stands first.
#[derive(Drop)]
pub struct Reading<'a> {
    /// What isn't read yet.
    pub rest: &'a str,
    /// The length of the whole text.
    pub len: usize,
    ghost within: { length rest.now ≤ len },
    ghost dark: { begins_white rest.now ≡ false },
}

// The text behind white space.
fn without_white(text: &str) -> &str
    ensures white { SkipsWhite text.now result.now }
    ensures dark { begins_white result.now ≡ false }
    ensures within { length result.now ≤ length text.now }
{
    text.split_at(run_len::<White>(text.as_bytes())).1
}

// The text behind a sign that stands first, and white space.
fn without_sign(rest: &str, sign: Sign) -> &str
    requires { stands sign rest.now ≡ true }
    ensures white { SkipsWhite (drop (length (sign_text sign)) rest.now) result.now }
    ensures dark { begins_white result.now ≡ false }
    ensures within { length result.now ≤ length rest.now }
{
    without_white(rest.split_at(sign.text().len()).1)
}

// The text behind a run that stands first, and white space.
fn without_word<'a>(rest: &'a str, word: &str) -> &'a str
    requires { IsRunAt rest.now word.now }
    ensures white { SkipsWhite (drop (length word.now) rest.now) result.now }
    ensures dark { begins_white result.now ≡ false }
    ensures within { length result.now ≤ length rest.now }
{
    without_white(rest.split_at(word.len()).1)
}

impl<'a> Reading<'a> {
    /// The whole text is left.
    pub fn new(text: &'a str) -> Self
        ensures white { SkipsWhite text.now result.rest.now }
        ensures len { result.len ≡ length text.now }
    {
        Reading {
            rest: without_white(text),
            len: text.len(),
        }
    }

    /// A run that stands first is read, and white space behind it.
    pub fn pass_word(&mut self, word: &str)
        requires { IsRunAt self.old.rest.now word.now }
        ensures rest { SkipsWhite (drop (length word.now) self.old.rest.now) self.new.rest.now }
        ensures len { self.new.len ≡ self.old.len }
    {
        self.rest = without_word(self.rest, word);
    }

    /// Whether this sign stands first.
    pub fn starts(&self, sign: Sign) -> bool
        ensures { result ≡ stands sign self.now.rest.now }
    {
        stands(sign, self.rest.as_bytes())
    }

    /// A sign that stands first is read, and white space behind it.
    pub fn pass_sign(&mut self, sign: Sign)
        requires { stands sign self.old.rest.now ≡ true }
        ensures rest { SkipsWhite (drop (length (sign_text sign)) self.old.rest.now) self.new.rest.now }
        ensures len { self.new.len ≡ self.old.len }
    {
        self.rest = without_sign(self.rest, sign);
    }

    /// The run that stands first; nothing where none does.
    pub fn word(&self) -> &'a str
        ensures { IsRunAt self.now.rest.now result.now }
    {
        run_at(self.rest)
    }

    /// What stands behind a token that stands first is left, but for white space.
    pub fn pass_to(&mut self, behind: &'a str)
        requires { length behind.now ≤ length self.old.rest.now }
        ensures rest { SkipsWhite behind.now self.new.rest.now }
        ensures len { self.new.len ≡ self.old.len }
    {
        self.rest = without_white(behind);
    }

    /// The refusal of what stands first: its place, or the text's length where it is quoted text without an end.
    pub fn refused(&self) -> SelectorRefusal
        ensures { IsPlaced self.now.len self.now.rest.now result }
    {
        if is_unclosed(self.rest.as_bytes()) {
            SelectorRefusal::Syntax(self.len as u64)
        } else {
            SelectorRefusal::Syntax((self.len - self.rest.len()) as u64)
        }
    }
}

/// The run that stands first; nothing where none does.
pub fn run_at(rest: &str) -> &str
    ensures { IsRunAt rest.now result.now }
{
    let bytes = rest.as_bytes();
    if begins_a_run(bytes) {
        rest.split_at(run_len::<RunBytes>(bytes)).0
    } else {
        ""
    }
}

// Whether a run stands first.
fn begins_a_run(bytes: &[u8]) -> bool
    ensures { result ≡ begins_a_run bytes.now }
{
    match bytes {
        [byte, ..] => matches!(*byte, b'a'..=b'z' | b'A'..=b'Z' | b'_'),
        [] => false,
    }
}

// Whether quoted text stands first, and has no end.
fn is_unclosed(bytes: &[u8]) -> bool
    ensures { MatchBool result (IsUnclosed bytes.now) (IsUnclosed bytes.now → ⊥) }
{
    if bytes.is_empty() {
        return false;
    }
    let mark = bytes[0];
    if mark == b'"' || mark == b'\'' {
        !bytes[1..].contains(&mark)
    } else {
        false
    }
}
