// How many bytes a tree takes as a CBOR item, told before anything is written. Room is reserved by it.
ghost use Rattle.std.specs.Prelude.{◌≡◌, ◌++◌, ℕ, length};
ghost use Rattle.sm_cbor.specs.Heads.{bytes_type, array_type, map_type, tag_type};
ghost use Rattle.sm_tree.specs.Node.{nodes_of, members_of};
ghost use Rattle.sm_tree.specs.Streams.{entry_count, pair_count};
ghost use Rattle.sm_tree.specs.View.{node_of, nodes_view, members_view};
ghost use Rattle.sm_bytes.specs.Lengths.{length_word};
ghost use Rattle.sm_cbor.specs.Written.{written_item, written_head, written_int, written_text_item, written_item_entries};
ghost use Rattle.sm_cbor.specs.Written.{written_item_pairs};

use crate::put::argument_of;
use sm_tree::{Bytes, Text, Tree};

/// How many bytes the head with this argument takes, whatever its major type.
pub(crate) fn head_len(value: u64) -> u64
    ensures { (major : ℕ) → result ≡ length (written_head major value) }
{
    if value < 24 {
        1
    } else if value < 0x100 {
        2
    } else if value < 0x1_0000 {
        3
    } else if value < 0x1_0000_0000 {
        5
    } else {
        9
    }
}

pub(crate) fn int_len(value: i64) -> u64
    ensures { result ≡ length (written_int value) }
{
    head_len(argument_of(value))
}

// The length of a string with its head, whatever its major type.
pub(crate) fn string_len(bytes: &[u8]) -> u64
    ensures { (major : ℕ) → result ≡ length_word (length (written_head major (length bytes.now) ++ bytes.now)) }
{
    let len = bytes.len() as u64;
    head_len(len).saturating_add(len)
}

fn text_len(text: &Text) -> u64
    ensures { result ≡ length_word (length (written_text_item text.now)) }
{
    string_len(text.as_str().as_bytes())
}

fn bytes_len(bytes: &Bytes) -> u64
    ensures { result ≡ length_word (length (written_head bytes_type (length bytes.now) ++ bytes.now)) }
{
    string_len(bytes.as_slice())
}

// The length of a tag's head.
fn tag_head_len(number: u64) -> u64
    ensures { result ≡ length (written_head tag_type number) }
{
    head_len(number)
}

// The length of an array's head.
fn list_head_len(items: &[Tree]) -> u64
    ensures { result ≡ length (written_head array_type (entry_count (nodes_of (nodes_view items.now)))) }
{
    head_len(items.len() as u64)
}

// The length of a map's head.
fn map_head_len(pairs: &[(Text, Tree)]) -> u64
    ensures { result ≡ length (written_head map_type (pair_count (members_of (members_view pairs.now)))) }
{
    head_len(pairs.len() as u64)
}

#[cycle(lengths)]
fn entries_len(items: &[Tree]) -> u64
    ensures { result ≡ length_word (length (written_item_entries (nodes_of (nodes_view items.now)))) }
{
    let mut len: u64 = 0;
    for item in items {
        len = len.saturating_add(encoded_len(item));
    }
    len
}

#[cycle(lengths)]
fn pairs_len(pairs: &[(Text, Tree)]) -> u64
    ensures { result ≡ length_word (length (written_item_pairs (members_of (members_view pairs.now)))) }
{
    let mut len: u64 = 0;
    for pair in pairs {
        let key = text_len(&pair.0);
        let value = encoded_len(&pair.1);
        len = len.saturating_add(key).saturating_add(value);
    }
    len
}

/// How many bytes `write_tree` writes for a tree, or `u64::MAX` where they are more. No memory.
#[cycle(lengths)]
pub fn encoded_len(tree: &Tree) -> u64
    ensures length { result ≡ length_word (length (written_item (node_of tree.now))) }
{
    match tree {
        Tree::Null => 1,
        Tree::Bool(_) => 1,
        Tree::Int(value) => int_len(*value),
        Tree::Number(_) => 0,
        Tree::Text(text) => text_len(text),
        Tree::Bytes(bytes) => bytes_len(bytes),
        Tree::Tag(number, content) => {
            tag_head_len(*number).saturating_add(encoded_len(content))
        },
        Tree::Opaque(_) => 0,
        Tree::List(items) => {
            let items = items.as_slice();
            list_head_len(items).saturating_add(entries_len(items))
        }
        Tree::Object(pairs) => {
            let pairs = pairs.as_slice();
            map_head_len(pairs).saturating_add(pairs_len(pairs))
        }
    }
}
