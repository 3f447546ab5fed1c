// Tokens taken one after the other: marks, words, and what the next one is.
ghost use Rattle.std.specs.Prelude.{◌↔◌, IsTrue};
ghost use Rattle.sm_lex.specs.Tokens.{lexeme_of};
ghost use Rattle.sm_idl.specs.Words.{IsMark, IsWord, mark, the_word};
ghost use Rattle.sm_idl.specs.steps.Firm.{HeadIs};
ghost use Rattle.sm_idl.specs.steps.Classes.{AMark, AWord, AnyWord, NoMark, NodeStart};
ghost use Rattle.sm_idl.specs.steps.ReaderView.{left, Peeks, TakesToken, Reads};

use crate::reader::{ReadStop, Reader};
use sm_lex::{Token, TokenKind};

/// Whether the token is this mark.
pub(crate) fn is_mark(token: &Token<'_>, text: &str) -> bool
    ensures { IsTrue result ↔ IsMark text.now (lexeme_of token.now) }
{
    match token.kind {
        TokenKind::Mark => token.text == text,
        _ => false,
    }
}

/// Whether the token is this word.
pub(crate) fn is_word(token: &Token<'_>, text: &str) -> bool
    ensures { IsTrue result ↔ IsWord text.now (lexeme_of token.now) }
{
    match token.kind {
        TokenKind::Word => token.text == text,
        _ => false,
    }
}

impl<'t, 'a> Reader<'t, 'a> {
    /// The next token.
    pub(crate) fn next(&self) -> Option<Token<'a>>
        ensures { Peeks (left self.now) result }
    {
        if self.at < self.tokens.len() {
            Some(self.tokens[self.at])
        } else {
            None
        }
    }

    /// Takes the next token.
    pub(crate) fn take(&mut self) -> Option<Token<'a>>
        ensures { TakesToken (left self.old) (left self.new) result }
    {
        if self.at >= self.tokens.len() {
            return None;
        }
        let token = self.tokens[self.at];
        *self = Reader {
            text: self.text,
            behind: token.end,
            tokens: self.tokens,
            at: self.at + 1,
        };
        Some(token)
    }

    /// Reads a mark.
    pub(crate) fn mark(&mut self, text: &str) -> Result<(), ReadStop>
        ensures { Reads (mark text.now) (left self.old) (left self.new) result }
    {
        match self.next() {
            Some(token) => {
                if is_mark(&token, text) {
                    self.take();
                    Ok(())
                } else {
                    Err(ReadStop::Syntax)
                }
            }
            None => Err(ReadStop::Syntax),
        }
    }

    /// Reads a word.
    pub(crate) fn the_word(&mut self, text: &str) -> Result<(), ReadStop>
        ensures { Reads (the_word text.now) (left self.old) (left self.new) result }
    {
        match self.next() {
            Some(token) => {
                if is_word(&token, text) {
                    self.take();
                    Ok(())
                } else {
                    Err(ReadStop::Syntax)
                }
            }
            None => Err(ReadStop::Syntax),
        }
    }

    /// Whether the next token is this mark.
    pub(crate) fn is_at_mark(&self, text: &str) -> bool
        ensures { IsTrue result ↔ HeadIs (AMark text.now) (left self.now) }
    {
        match self.next() {
            Some(token) => is_mark(&token, text),
            None => false,
        }
    }

    /// Whether the next token is this word.
    pub(crate) fn is_at_word(&self, text: &str) -> bool
        ensures { IsTrue result ↔ HeadIs (AWord text.now) (left self.now) }
    {
        match self.next() {
            Some(token) => is_word(&token, text),
            None => false,
        }
    }

    /// Whether the next token is no mark.
    pub(crate) fn is_at_leaf(&self) -> bool
        ensures { IsTrue result ↔ HeadIs NoMark (left self.now) }
    {
        match self.next() {
            Some(token) => token.kind != TokenKind::Mark,
            None => false,
        }
    }

    /// Whether the next token is a word.
    pub(crate) fn is_at_any_word(&self) -> bool
        ensures { IsTrue result ↔ HeadIs AnyWord (left self.now) }
    {
        match self.next() {
            Some(token) => token.kind == TokenKind::Word,
            None => false,
        }
    }

    /// Whether the next token begins a node.
    pub(crate) fn is_at_node(&self) -> bool
        ensures { IsTrue result ↔ HeadIs NodeStart (left self.now) }
    {
        self.is_at_leaf() || self.is_at_mark("{") || self.is_at_mark("[")
    }
}
