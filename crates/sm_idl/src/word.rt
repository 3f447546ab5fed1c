// Words by their forms: identifiers, namespaces, ids with or without their namespace, and the names of types.
ghost use Rattle.std.specs.Prelude.{◌↔◌, IsTrue, Option};
ghost use Rattle.sm_model.specs.Raw.{Raw};
ghost use Rattle.sm_model.specs.References.{IsRelativeId};
ghost use Rattle.sm_ids.specs.Identifier.{IsNamespace};
ghost use Rattle.sm_idl.specs.Words.{IsWordId, id, identifier, word_that};
ghost use Rattle.sm_idl.specs.Nodes.{Home, IsNodeId, WordSays};
ghost use Rattle.sm_idl.specs.Shapes.{type_word};
ghost use Rattle.sm_idl.specs.steps.ReaderView.{left, Reads, ReadsAs};
ghost use Rattle.sm_idl.specs.steps.WordForms.{HasForm};

use crate::reader::{ReadStop, Reader};
use sm_ids::{ShapeIdRef, is_identifier, is_namespace};
use sm_lex::TokenKind;
use sm_model::Kind;

/// Whether a text is an id without its namespace.
fn is_relative_id(text: &str) -> bool
    ensures { IsTrue result ↔ IsRelativeId text.now }
{
    match text.split_once('$') {
        Some((name, member)) => is_identifier(name) && is_identifier(member),
        None => is_identifier(text),
    }
}

/// Whether a word is an id, with or without its namespace.
pub(crate) fn is_word_id(word: &str) -> bool
    ensures { IsTrue result ↔ IsWordId word.now }
{
    match ShapeIdRef::parse(word) {
        Ok(_) => true,
        Err(_) => is_relative_id(word),
    }
}

/// Whether a word is a node.
pub(crate) fn is_node_word(word: &str) -> bool
    ensures { (home : Option Home) → IsTrue result ↔ ((n : Raw) × WordSays home word.now n) }
{
    if word == "true" {
        return true;
    }
    if word == "false" {
        return true;
    }
    if word == "null" {
        return true;
    }
    is_word_id(word)
}

/// Whether a word of a node is an id.
pub(crate) fn is_node_id(word: &str) -> bool
    ensures { IsTrue result ↔ IsNodeId word.now }
{
    if word == "true" {
        return false;
    }
    if word == "false" {
        return false;
    }
    if word == "null" {
        return false;
    }
    is_word_id(word)
}

/// What form a word has at its place.
#[derive(Clone, Copy)]
pub(crate) enum WordForm {
    /// An identifier.
    Identifier,
    /// An id, with or without its namespace.
    Id,
    /// An id where a node may stand too.
    NodeId,
    /// A namespace.
    Namespace,
}

impl WordForm {
    /// Whether a word has this form.
    fn is_of(self, word: &str) -> bool
        ensures { IsTrue result ↔ HasForm self word.now }
    {
        match self {
            WordForm::Identifier => is_identifier(word),
            WordForm::Id => is_word_id(word),
            WordForm::NodeId => is_node_id(word),
            WordForm::Namespace => is_namespace(word),
        }
    }
}

impl<'t, 'a> Reader<'t, 'a> {
    /// Reads a word of this form.
    fn word(&mut self, form: WordForm) -> Result<&'a str, ReadStop>
        ensures { ReadsAs (λ w. w.now) (word_that (HasForm form)) (left self.old) (left self.new) result }
    {
        match self.next() {
            Some(token) => match token.kind {
                TokenKind::Word => {
                    if form.is_of(token.text) {
                        self.take();
                        Ok(token.text)
                    } else {
                        Err(ReadStop::Syntax)
                    }
                }
                _ => Err(ReadStop::Syntax),
            },
            None => Err(ReadStop::Syntax),
        }
    }

    /// Reads an identifier.
    pub(crate) fn identifier(&mut self) -> Result<&'a str, ReadStop>
        ensures { ReadsAs (λ w. w.now) identifier (left self.old) (left self.new) result }
    {
        self.word(WordForm::Identifier)
    }

    /// Reads an id.
    pub(crate) fn id(&mut self) -> Result<&'a str, ReadStop>
        ensures { ReadsAs (λ w. w.now) id (left self.old) (left self.new) result }
    {
        self.word(WordForm::Id)
    }

    /// Reads an id of a node.
    pub(crate) fn node_id(&mut self) -> Result<&'a str, ReadStop>
        ensures { ReadsAs (λ w. w.now) (word_that IsNodeId) (left self.old) (left self.new) result }
    {
        self.word(WordForm::NodeId)
    }

    /// Reads a namespace.
    pub(crate) fn namespace(&mut self) -> Result<&'a str, ReadStop>
        ensures { ReadsAs (λ w. w.now) (word_that IsNamespace) (left self.old) (left self.new) result }
    {
        self.word(WordForm::Namespace)
    }

    /// Reads the name of a type.
    pub(crate) fn type_word(&mut self) -> Result<Kind, ReadStop>
        ensures { Reads type_word (left self.old) (left self.new) result }
    {
        match self.next() {
            Some(token) => match token.kind {
                TokenKind::Word => match Kind::named(token.text) {
                    Some(kind) => {
                        self.take();
                        Ok(kind)
                    }
                    None => Err(ReadStop::Syntax),
                },
                _ => Err(ReadStop::Syntax),
            },
            None => Err(ReadStop::Syntax),
        }
    }
}
