// How many bytes a tree takes as JSON text, told before anything is written, so that its room is made at once.
ghost use Rattle.std.specs.Prelude.{◌≡◌, length};
ghost use Rattle.std.specs.Fmt.{signed_decimal};
ghost use Rattle.sm_tree.specs.Node.{nodes_of, members_of};
ghost use Rattle.sm_tree.specs.View.{node_of, nodes_view, members_view};
ghost use Rattle.sm_bytes.specs.Lengths.{length_word};
ghost use Rattle.sm_json.specs.Written.{written, written_entries, more_written_entries, written_pairs, more_written_pairs, written_byte};
ghost use Rattle.sm_json.specs.Written.{written_bytes, written_text};

use crate::byte_form::{ByteForm, Unescaped, form_of};
use crate::plain::is_plain;
use itoa::Buffer;
use sm_bytes::run_len;
use sm_tree::{Text, Tree};

fn byte_len(byte: u8) -> u64
    ensures { result ≡ length (written_byte byte) }
{
    match form_of(byte) {
        ByteForm::Plain => 1,
        ByteForm::Letter(_) => 2,
        ByteForm::Digits => 6,
    }
}

// The length between the quotes.
fn escaped_len(text: &[u8]) -> u64
    ensures { result ≡ length_word (length (written_bytes text.now)) }
{
    if is_plain(text) {
        return text.len() as u64;
    }
    let mut len: u64 = 0;
    let mut rest = text;
    loop {
        let (plain, more) = rest.split_at(run_len::<Unescaped>(rest));
        len = len.saturating_add(plain.len() as u64);
        let Some((byte, after)) = more.split_first() else {
            return len;
        };
        len = len.saturating_add(byte_len(*byte));
        rest = after;
    }
}

/// How many bytes `place_text` places for a text, or `u64::MAX` where they are more. No memory.
pub fn text_len(text: &Text) -> u64
    ensures { result ≡ length_word (length (written_text text.now)) }
{
    escaped_len(text.as_str().as_bytes()).saturating_add(2)
}

pub(crate) fn int_len(value: i64) -> u64
    ensures { result ≡ length (signed_decimal value) }
{
    let mut digits = Buffer::new();
    digits.format(value).len() as u64
}

#[cycle(lengths)]
fn entries_len(items: &[Tree]) -> u64
    ensures { result ≡ length_word (length (written_entries (nodes_of (nodes_view items.now)))) }
{
    let Some((first, more)) = items.split_first() else {
        return 1;
    };
    encoded_len(first).saturating_add(more_entries_len(more))
}

#[cycle(lengths)]
fn more_entries_len(items: &[Tree]) -> u64
    ensures { result ≡ length_word (length (more_written_entries (nodes_of (nodes_view items.now)))) }
{
    let mut len: u64 = 0;
    for item in items {
        len = len.saturating_add(encoded_len(item)).saturating_add(1);
    }
    len.saturating_add(1)
}

#[cycle(lengths)]
fn pairs_len(pairs: &[(Text, Tree)]) -> u64
    ensures { result ≡ length_word (length (written_pairs (members_of (members_view pairs.now)))) }
{
    let Some((first, more)) = pairs.split_first() else {
        return 1;
    };
    let name = text_len(&first.0).saturating_add(1);
    let value = encoded_len(&first.1);
    name.saturating_add(value)
        .saturating_add(more_pairs_len(more))
}

#[cycle(lengths)]
fn more_pairs_len(pairs: &[(Text, Tree)]) -> u64
    ensures { result ≡ length_word (length (more_written_pairs (members_of (members_view pairs.now)))) }
{
    let mut len: u64 = 0;
    for pair in pairs {
        let name = text_len(&pair.0).saturating_add(2);
        let value = encoded_len(&pair.1);
        len = len.saturating_add(name).saturating_add(value);
    }
    len.saturating_add(1)
}

/// How many bytes `write_tree` writes for a tree, or `u64::MAX` where they are more. A byte string, a tag or an
/// opaque leaf, which JSON doesn't have, counts nothing. No memory.
#[cycle(lengths)]
pub fn encoded_len(tree: &Tree) -> u64
    ensures length { result ≡ length_word (length (written (node_of tree.now))) }
{
    match tree {
        Tree::Null => 4,
        Tree::Bool(true) => 4,
        Tree::Bool(false) => 5,
        Tree::Int(value) => int_len(*value),
        Tree::Number(text) => text.as_str().len() as u64,
        Tree::Text(text) => text_len(text),
        Tree::Bytes(_) => 0,
        Tree::Tag(_, _) => 0,
        Tree::Opaque(_) => 0,
        Tree::List(items) => entries_len(items.as_slice()).saturating_add(1),
        Tree::Object(pairs) => pairs_len(pairs.as_slice()).saturating_add(1),
    }
}
