// Writing trees as JSON text.
ghost use Rattle.std.specs.Prelude.{◌≡◌, ◌+◌, ◌≤◌, ◌++◌, length, take, drop, vec_len, vec_capacity, OnOk, OnErr, IsOk, Ok};
ghost use Rattle.std.specs.Vec.{SameBlock};
ghost use Rattle.sm_tree.specs.Json.{IsJson};
ghost use Rattle.sm_tree.specs.Levels.{levels};
ghost use Rattle.sm_tree.specs.Node.{nodes_of, members_of};
ghost use Rattle.sm_tree.specs.Syntax.{ComesTo, most_levels};
ghost use Rattle.sm_tree.specs.View.{node_of, nodes_view, members_view};
ghost use Rattle.sm_json.specs.JsonText.{json_syntax};
ghost use Rattle.sm_json.specs.Written.{written, written_entries, more_written_entries, written_pairs, more_written_pairs};

use crate::length::encoded_len;
use crate::put::{place_int, place_name, place_text};
use sm_bytes::{make_room, place_byte, place_slice};
use sm_tree::{NoMemory, Text, Tree};
use std::alloc::Global;

#[cycle(placing)]
fn place_entries(buf: &mut [u8], at: usize, items: &[Tree]) -> usize
    requires room { at + length (written_entries (nodes_of (nodes_view items.now))) ≤ length buf.old }
    ensures bytes { take result buf.new ≡ take at buf.old ++ written_entries (nodes_of (nodes_view items.now)) }
    ensures next { result ≡ at + length (written_entries (nodes_of (nodes_view items.now))) }
{
    let Some((first, more)) = items.split_first() else {
        return place_byte(buf, at, b']');
    };
    let at = place_tree(buf, at, first);
    place_more_entries(buf, at, more)
}

#[cycle(placing)]
fn place_more_entries(buf: &mut [u8], at: usize, items: &[Tree]) -> usize
    requires room { at + length (more_written_entries (nodes_of (nodes_view items.now))) ≤ length buf.old }
    ensures bytes { take result buf.new ≡ take at buf.old ++ more_written_entries (nodes_of (nodes_view items.now)) }
    ensures next { result ≡ at + length (more_written_entries (nodes_of (nodes_view items.now))) }
{
    let mut at = at;
    for item in items {
        at = place_byte(buf, at, b',');
        at = place_tree(buf, at, item);
    }
    place_byte(buf, at, b']')
}

#[cycle(placing)]
fn place_pairs(buf: &mut [u8], at: usize, pairs: &[(Text, Tree)]) -> usize
    requires room { at + length (written_pairs (members_of (members_view pairs.now))) ≤ length buf.old }
    ensures bytes { take result buf.new ≡ take at buf.old ++ written_pairs (members_of (members_view pairs.now)) }
    ensures next { result ≡ at + length (written_pairs (members_of (members_view pairs.now))) }
{
    let Some((first, more)) = pairs.split_first() else {
        return place_byte(buf, at, b'}');
    };
    let at = place_name(buf, at, &first.0);
    let at = place_tree(buf, at, &first.1);
    place_more_pairs(buf, at, more)
}

#[cycle(placing)]
fn place_more_pairs(buf: &mut [u8], at: usize, pairs: &[(Text, Tree)]) -> usize
    requires room { at + length (more_written_pairs (members_of (members_view pairs.now))) ≤ length buf.old }
    ensures bytes { take result buf.new ≡ take at buf.old ++ more_written_pairs (members_of (members_view pairs.now)) }
    ensures next { result ≡ at + length (more_written_pairs (members_of (members_view pairs.now))) }
{
    let mut at = at;
    for pair in pairs {
        at = place_byte(buf, at, b',');
        at = place_name(buf, at, &pair.0);
        at = place_tree(buf, at, &pair.1);
    }
    place_byte(buf, at, b'}')
}

/// Places a tree as JSON text, as `write_tree` writes it, and gives the place behind it. A byte string, a tag or an opaque
/// leaf, which JSON doesn't have, is left out. No memory.
#[cycle(placing)]
pub fn place_tree(buf: &mut [u8], at: usize, tree: &Tree) -> usize
    requires room { at + length (written (node_of tree.now)) ≤ length buf.old }
    ensures bytes { take result buf.new ≡ take at buf.old ++ written (node_of tree.now) }
    ensures next { result ≡ at + length (written (node_of tree.now)) }
{
    match tree {
        Tree::Null => place_slice(buf, at, b"null"),
        Tree::Bool(true) => place_slice(buf, at, b"true"),
        Tree::Bool(false) => place_slice(buf, at, b"false"),
        Tree::Int(value) => place_int(buf, at, *value),
        Tree::Number(text) => place_slice(buf, at, text.as_str().as_bytes()),
        Tree::Text(text) => place_text(buf, at, text),
        Tree::Bytes(_) => at,
        Tree::Tag(_, _) => at,
        Tree::Opaque(_) => at,
        Tree::List(items) => {
            let at = place_byte(buf, at, b'[');
            place_entries(buf, at, items.as_slice())
        }
        Tree::Object(pairs) => {
            let at = place_byte(buf, at, b'{');
            place_pairs(buf, at, pairs.as_slice())
        }
    }
}

/// Appends a tree as JSON text (RFC 8259) to `out`: no whitespace, pairs in their order. What is appended is read again as
/// the tree, if that has at most 100 levels. `NoMemory` where the allocator refuses the room, and then `out` is as
/// before. Where `out` has room for `encoded_len(tree)` bytes more it takes no memory and succeeds.
pub fn write_tree(alloc: Global, tree: &Tree, out: &mut Vec<u8>) -> Result<(), NoMemory>
    requires json { IsJson (node_of tree.now) }
    ensures written { OnOk result (out.new.items ≡ out.old.items ++ written (node_of tree.now)) }
    ensures read_again { OnOk result (levels (node_of tree.now) ≤ most_levels
        → ComesTo json_syntax (drop (length out.old.items) out.new.items) (Ok (node_of tree.now))) }
    ensures unchanged { OnErr result (out.new.items ≡ out.old.items) }
    ensures succeeds { vec_len out.old + length (written (node_of tree.now)) ≤ vec_capacity out.old → IsOk result }
    ensures same_room { vec_len out.old + length (written (node_of tree.now)) ≤ vec_capacity out.old
        → vec_capacity out.new ≡ vec_capacity out.old }
    ensures same_block { vec_len out.old + length (written (node_of tree.now)) ≤ vec_capacity out.old → SameBlock out.old out.new }
{
    let at = make_room(alloc, out, encoded_len(tree) as usize)?;
    place_tree(out.as_mut_slice(), at, tree);
    Ok(())
}
