// Nodes of one token: strings, text blocks, numbers, `true`, `false`, `null`, and ids (Smithy 2.0, "Smithy IDL", "Node values").
ghost use Rattle.std.specs.Prelude.{◌≡◌, IfOk, string_bytes};
ghost use Rattle.sm_tree.specs.Node.{text};
ghost use Rattle.sm_model.specs.Raw.{raw_leaf};
ghost use Rattle.sm_lex.specs.Tokens.{lexeme_of};
ghost use Rattle.sm_model.specs.RawView.{raw_view};
ghost use Rattle.sm_idl.specs.Nodes.{LeafSays, WordSays, leaf, word_meant};
ghost use Rattle.sm_idl.specs.steps.ReaderView.{left, ReadsAs, SaysNode};

use crate::reader::{ReadStop, Reader};
use crate::word::is_word_id;
use sm_lex::{Token, TokenKind, block_value, number_value, string_value};
use sm_model::RawNode;
use sm_tree::{NoMemory, Text, Tree};
use std::alloc::Global;

/// What the words of a file are relative to.
pub(crate) trait Words {
    ghost use Rattle.std.specs.Prelude.{Option};
    ghost use Rattle.sm_idl.specs.Nodes.{Home};

    ghost home: { Self → Option Home };

    /// The node that an id stands for.
    fn meaning(&self, alloc: Global, word: &str) -> Result<RawNode, NoMemory>
        ensures { IfOk result (λ node. raw_view node ≡ word_meant (home self.now) word.now) };
}

/// The node that a word says, if it says one.
fn word_node<W: Words>(alloc: Global, words: &W, word: &str) -> Result<Option<RawNode>, NoMemory>
    ensures { SaysNode (WordSays (W.home words.now) word.now) result }
{
    if word == "true" {
        return Ok(Some(RawNode::Leaf(Tree::Bool(true))));
    }
    if word == "false" {
        return Ok(Some(RawNode::Leaf(Tree::Bool(false))));
    }
    if word == "null" {
        return Ok(Some(RawNode::Leaf(Tree::Null)));
    }
    if !is_word_id(word) {
        return Ok(None);
    }
    match words.meaning(alloc, word) {
        Ok(node) => Ok(Some(node)),
        Err(refusal) => Err(refusal),
    }
}

/// A text as a node.
pub(crate) fn text_node(string: String) -> RawNode
    ensures { raw_view result ≡ raw_leaf (text (string_bytes string)) }
{
    RawNode::Leaf(Tree::Text(Text::new(string)))
}

/// The node that a token says, if it says one.
fn leaf_node<W: Words>(
    alloc: Global,
    words: &W,
    token: &Token<'_>,
) -> Result<Option<RawNode>, NoMemory>
    ensures { SaysNode (LeafSays (W.home words.now) (lexeme_of token.now)) result }
{
    match token.kind {
        TokenKind::Word => word_node(alloc, words, token.text),
        TokenKind::Text => match string_value(alloc, token) {
            Ok(string) => Ok(Some(text_node(string))),
            Err(refusal) => Err(refusal),
        },
        TokenKind::Block => match block_value(alloc, token) {
            Ok(string) => Ok(Some(text_node(string))),
            Err(refusal) => Err(refusal),
        },
        TokenKind::Number => match number_value(alloc, token) {
            Ok(tree) => Ok(Some(RawNode::Leaf(tree))),
            Err(refusal) => Err(refusal),
        },
        TokenKind::Mark => Ok(None),
    }
}

impl<'t, 'a> Reader<'t, 'a> {
    /// Reads a node of one token.
    pub(crate) fn leaf<W: Words>(&mut self, alloc: Global, words: &W) -> Result<RawNode, ReadStop>
        ensures { ReadsAs raw_view (leaf (W.home words.now)) (left self.old) (left self.new) result }
    {
        match self.next() {
            Some(token) => match leaf_node(alloc, words, &token) {
                Ok(Some(node)) => {
                    self.take();
                    Ok(node)
                }
                Ok(None) => Err(ReadStop::Syntax),
                Err(_) => Err(ReadStop::NoMemory),
            },
            None => Err(ReadStop::Syntax),
        }
    }
}
