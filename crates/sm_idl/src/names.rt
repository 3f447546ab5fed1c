// Names that came so far, so that one that comes again is refused; and keys.
ghost use Rattle.std.specs.Prelude.{◌++◌, ◌↔◌, ℕ, List, [], ◌∷◌, IfOk, IsTrue};
ghost use Rattle.sm_lex.specs.Tokens.{lexeme_of};
ghost use Rattle.sm_idl.specs.Words.{IsNew, key};
ghost use Rattle.sm_idl.specs.steps.Names.{Remembers, SaysKey};
ghost use Rattle.sm_idl.specs.steps.ReaderView.{left, Reads};

use crate::reader::{ReadStop, Reader};
use sm_lex::{Token, TokenKind, string_value};
use sm_tree::{NoMemory, Text};
use std::alloc::Global;
use std::collections::BTreeSet;

/// Remembers a name. Whether it didn't come before.
pub(crate) fn is_new(
    alloc: Global,
    seen: &mut BTreeSet<String>,
    name: &str,
) -> Result<bool, NoMemory>
    ensures { (before : List (List ℕ)) → Remembers seen.old before →
        IfOk result (λ new. (IsTrue new ↔ IsNew name.now before) × Remembers seen.new (before ++ name.now ∷ [])) }
{
    match String::from_str(alloc, name) {
        Ok(text) => match seen.insert(text) {
            Ok(new) => Ok(new),
            Err(_) => Err(NoMemory),
        },
        Err(_) => Err(NoMemory),
    }
}

/// Remembers a text. Whether it didn't come before.
pub(crate) fn is_new_text(
    alloc: Global,
    seen: &mut BTreeSet<String>,
    text: &Text,
) -> Result<bool, NoMemory>
    ensures { (before : List (List ℕ)) → Remembers seen.old before →
        IfOk result (λ new. (IsTrue new ↔ IsNew text.now before) × Remembers seen.new (before ++ text.now ∷ [])) }
{
    is_new(alloc, seen, text.as_str())
}

/// The key that a token is, if it is one.
pub(crate) fn key_text(alloc: Global, token: &Token<'_>) -> Result<Option<Text>, NoMemory>
    ensures { SaysKey (lexeme_of token.now) result }
{
    match token.kind {
        TokenKind::Word => match Text::copy(alloc, token.text) {
            Ok(text) => Ok(Some(text)),
            Err(refusal) => Err(refusal),
        },
        TokenKind::Text => match string_value(alloc, token) {
            Ok(string) => Ok(Some(Text::new(string))),
            Err(refusal) => Err(refusal),
        },
        TokenKind::Block | TokenKind::Number | TokenKind::Mark => Ok(None),
    }
}

impl<'t, 'a> Reader<'t, 'a> {
    /// Reads a key that didn't come before.
    pub(crate) fn key(
        &mut self,
        alloc: Global,
        seen: &mut BTreeSet<String>,
    ) -> Result<Text, ReadStop>
        ensures reads { (before : List (List ℕ)) → Remembers seen.old before →
            Reads (key before) (left self.old) (left self.new) result }
        ensures seen { (before : List (List ℕ)) → Remembers seen.old before →
            IfOk result (λ name. Remembers seen.new (before ++ name ∷ [])) }
    {
        match self.next() {
            Some(token) => match key_text(alloc, &token) {
                Ok(Some(text)) => match is_new(alloc, seen, text.as_str()) {
                    Ok(new) => {
                        if new {
                            self.take();
                            Ok(text)
                        } else {
                            Err(ReadStop::Syntax)
                        }
                    }
                    Err(_) => Err(ReadStop::NoMemory),
                },
                Ok(None) => Err(ReadStop::Syntax),
                Err(_) => Err(ReadStop::NoMemory),
            },
            None => Err(ReadStop::Syntax),
        }
    }
}
