// Texts and lists of texts, as values of traits.
ghost use Rattle.std.specs.Prelude.{◌≡◌, ◌==◌, not};
ghost use Rattle.std.specs.List.{list_all, list_any};
ghost use Rattle.std.specs.Str.{bytes_eq};
ghost use Rattle.httparse.specs.Grammar as grammar;
ghost use Rattle.sm_tree.specs.Node.{members_of, nodes_of};
ghost use Rattle.sm_tree.specs.View.{members_view, node_of, nodes_view};
ghost use Rattle.sm_compile.specs.TraitNodes as nodes;
ghost use Rattle.sm_rules.specs.TraitRows as table;
ghost use Rattle.sm_passes.specs.Forms.{is_a_side, sides, token_signs};

use crate::rows::names::either;
use sm_compile::{is_text, text_in_trait};
use sm_tree::{Text, Tree};

/// Whether a value is a list.
#[tactic(auto, using(sm_tree::proofs::Views::node_list_items))]
pub fn is_list(tree: &Tree) -> bool
    ensures { result ≡ table.is_list_node (node_of tree.now) }
{
    match tree {
        Tree::List(_) => true,
        _ => false,
    }
}

/// Whether it is one of texts.
#[tactic(auto, using(sm_tree::proofs::Views::node_list_items))]
pub fn are_text_nodes(tree: &Tree) -> bool
    ensures { result ≡ table.are_text_nodes (node_of tree.now) }
{
    match tree {
        Tree::List(items) => are_texts(items.as_slice()),
        _ => false,
    }
}

fn are_texts(items: &[Tree]) -> bool
    ensures { result ≡ table.all_nodes nodes.is_text (nodes_of (nodes_view items.now)) }
{
    for item in items {
        if !is_text(item) {
            return false;
        }
    }
    true
}

/// Whether it is an object of texts.
#[tactic(auto, using(sm_tree::proofs::Views::node_object_pairs))]
pub fn are_named_texts(tree: &Tree) -> bool
    ensures { result ≡ table.are_named_texts (node_of tree.now) }
{
    match tree {
        Tree::Object(pairs) => are_texts_in(pairs.as_slice()),
        _ => false,
    }
}

fn are_texts_in(pairs: &[(Text, Tree)]) -> bool
    ensures { result ≡ table.all_values nodes.is_text (members_of (members_view pairs.now)) }
{
    for pair in pairs {
        if !is_text(&pair.1) {
            return false;
        }
    }
    true
}

/// Whether it is a text that isn't empty.
pub fn is_filled_text(tree: &Tree) -> bool
    ensures { result ≡ table.is_text_that (λ t. not (table.has_none t)) (node_of tree.now) }
{
    match text_in_trait(Some(tree)) {
        Some(text) => is_filled(text),
        None => false,
    }
}

fn is_filled(text: &str) -> bool
    ensures { result ≡ not (table.has_none text.now) }
{
    match text.as_bytes().first() {
        Some(_) => true,
        None => false,
    }
}

/// Whether it is a token of HTTP.
pub fn is_token(tree: &Tree) -> bool
    ensures { result ≡ table.is_text_that grammar.is_token (node_of tree.now) }
{
    match text_in_trait(Some(tree)) {
        Some(text) => !text.is_empty() && are_token_bytes(text.as_bytes()),
        None => false,
    }
}

fn are_token_bytes(bytes: &[u8]) -> bool
    ensures { result ≡ list_all grammar.is_token_byte bytes.now }
{
    for byte in bytes {
        if !is_token_byte(*byte) {
            return false;
        }
    }
    true
}

fn is_token_byte(byte: u8) -> bool
    ensures { result ≡ grammar.is_token_byte byte }
{
    let letter = byte.is_ascii_alphanumeric();
    let sign = is_token_sign(byte);
    either(letter, sign)
}

fn is_token_sign(byte: u8) -> bool
    ensures { result ≡ list_any (λ c. c == byte) token_signs }
{
    match byte {
        b'!'
        | b'#'
        | b'$'
        | b'%'
        | b'&'
        | b'\''
        | b'*'
        | b'+'
        | b'-'
        | b'.'
        | b'^'
        | b'_'
        | b'`'
        | b'|'
        | b'~' => true,
        _ => false,
    }
}

/// Whether it says whose error it is.
pub fn is_side(tree: &Tree) -> bool
    ensures { result ≡ table.is_text_that is_a_side (node_of tree.now) }
{
    match text_in_trait(Some(tree)) {
        Some(text) => is_a_side(text),
        None => false,
    }
}

fn is_a_side(text: &str) -> bool
    ensures { result ≡ list_any (bytes_eq text.now) sides }
{
    match text {
        "client" | "server" => true,
        _ => false,
    }
}
