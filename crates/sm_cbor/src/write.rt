// Writing trees as CBOR items.
ghost use Rattle.std.specs.Prelude.{◌≡◌, ◌+◌, ◌≤◌, ◌++◌, length, take, drop, vec_len, vec_capacity, OnOk, OnErr, IsOk, Ok};
ghost use Rattle.std.specs.Vec.{SameBlock};
ghost use Rattle.sm_tree.specs.Json.{IsCbor};
ghost use Rattle.sm_tree.specs.Node.{nodes_of, members_of};
ghost use Rattle.sm_tree.specs.Streams.{entry_count, pair_count};
ghost use Rattle.sm_tree.specs.View.{node_of, nodes_view, members_view};
ghost use Rattle.sm_tree.specs.Levels.{levels};
ghost use Rattle.sm_tree.specs.Limits.{most_levels};
ghost use Rattle.sm_tree.specs.Syntax.{ComesTo};
ghost use Rattle.sm_cbor.specs.Heads.{array_type, map_type};
ghost use Rattle.sm_cbor.specs.Refusals.{cbor_syntax};
ghost use Rattle.sm_cbor.specs.Written.{written_head, written_item, written_item_entries, written_item_pairs};

use crate::length::encoded_len;
use crate::put::{place_head, place_int, place_string, place_text};
use sm_bytes::{make_room, place_byte};
use sm_tree::{NoMemory, Text, Tree};
use std::alloc::Global;

/// The major types of byte strings, arrays, maps and tags (RFC 8949, section 3.1).
pub(crate) const BYTES: u8 = 2;

pub(crate) const ARRAY: u8 = 4;

pub(crate) const MAP: u8 = 5;

pub(crate) const TAG: u8 = 6;

// The head of an array.
fn place_list_head(buf: &mut [u8], at: usize, items: &[Tree]) -> usize
    requires room { at + length (written_head array_type (entry_count (nodes_of (nodes_view items.now)))) ≤ length buf.old }
    ensures bytes { take result buf.new ≡ take at buf.old ++ written_head array_type (entry_count (nodes_of (nodes_view items.now))) }
    ensures next { result ≡ at + length (written_head array_type (entry_count (nodes_of (nodes_view items.now)))) }
{
    place_head(buf, at, ARRAY, items.len() as u64)
}

// The head of a map.
fn place_map_head(buf: &mut [u8], at: usize, pairs: &[(Text, Tree)]) -> usize
    requires room { at + length (written_head map_type (pair_count (members_of (members_view pairs.now)))) ≤ length buf.old }
    ensures bytes { take result buf.new ≡ take at buf.old ++ written_head map_type (pair_count (members_of (members_view pairs.now))) }
    ensures next { result ≡ at + length (written_head map_type (pair_count (members_of (members_view pairs.now)))) }
{
    place_head(buf, at, MAP, pairs.len() as u64)
}

#[cycle(placing)]
fn place_entries(buf: &mut [u8], at: usize, items: &[Tree]) -> usize
    requires room { at + length (written_item_entries (nodes_of (nodes_view items.now))) ≤ length buf.old }
    ensures bytes { take result buf.new ≡ take at buf.old ++ written_item_entries (nodes_of (nodes_view items.now)) }
    ensures next { result ≡ at + length (written_item_entries (nodes_of (nodes_view items.now))) }
{
    let mut at = at;
    for item in items {
        at = place_tree(buf, at, item);
    }
    at
}

#[cycle(placing)]
fn place_pairs(buf: &mut [u8], at: usize, pairs: &[(Text, Tree)]) -> usize
    requires room { at + length (written_item_pairs (members_of (members_view pairs.now))) ≤ length buf.old }
    ensures bytes { take result buf.new ≡ take at buf.old ++ written_item_pairs (members_of (members_view pairs.now)) }
    ensures next { result ≡ at + length (written_item_pairs (members_of (members_view pairs.now))) }
{
    let mut at = at;
    for pair in pairs {
        at = place_text(buf, at, &pair.0);
        at = place_tree(buf, at, &pair.1);
    }
    at
}

#[cycle(placing)]
fn place_tree(buf: &mut [u8], at: usize, tree: &Tree) -> usize
    requires room { at + length (written_item (node_of tree.now)) ≤ length buf.old }
    ensures bytes { take result buf.new ≡ take at buf.old ++ written_item (node_of tree.now) }
    ensures next { result ≡ at + length (written_item (node_of tree.now)) }
{
    match tree {
        Tree::Null => place_byte(buf, at, 0xF6),
        Tree::Bool(false) => place_byte(buf, at, 0xF4),
        Tree::Bool(true) => place_byte(buf, at, 0xF5),
        Tree::Int(value) => place_int(buf, at, *value),
        Tree::Number(_) => at,
        Tree::Text(text) => place_text(buf, at, text),
        Tree::Bytes(bytes) => place_string(buf, at, BYTES, bytes.as_slice()),
        Tree::Tag(number, content) => {
            let at = place_head(buf, at, TAG, *number);
            place_tree(buf, at, content)
        }
        Tree::Opaque(_) => at,
        Tree::List(items) => {
            let items = items.as_slice();
            let at = place_list_head(buf, at, items);
            place_entries(buf, at, items)
        }
        Tree::Object(pairs) => {
            let pairs = pairs.as_slice();
            let at = place_map_head(buf, at, pairs);
            place_pairs(buf, at, pairs)
        }
    }
}

/// Appends a tree as a CBOR item (RFC 8949) to `out`: shortest heads, definite lengths, `F6` for null, and pairs in their
/// order. What is appended is read as the tree where the tree has at most 100 levels. `NoMemory` where the allocator refuses
/// the room, and then `out` is as before. Where `out` has room for `encoded_len(tree)` bytes more it takes no memory and
/// succeeds.
pub fn write_tree(alloc: Global, tree: &Tree, out: &mut Vec<u8>) -> Result<(), NoMemory>
    requires cbor { IsCbor (node_of tree.now) }
    ensures written { OnOk result (out.new.items ≡ out.old.items ++ written_item (node_of tree.now)) }
    ensures read_again { OnOk result (levels (node_of tree.now) ≤ most_levels
        → ComesTo cbor_syntax (drop (length out.old.items) out.new.items) (Ok (node_of tree.now))) }
    ensures unchanged { OnErr result (out.new.items ≡ out.old.items) }
    ensures succeeds { vec_len out.old + length (written_item (node_of tree.now)) ≤ vec_capacity out.old → IsOk result }
    ensures same_block { vec_len out.old + length (written_item (node_of tree.now)) ≤ vec_capacity out.old → SameBlock out.old out.new }
{
    let len = encoded_len(tree) as usize;
    let at = make_room(alloc, out, len)?;
    place_tree(out.as_mut_slice(), at, tree);
    Ok(())
}
