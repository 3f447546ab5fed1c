// Texts, strings and nodes, each put behind what stands there.
ghost use Rattle.std.specs.Prelude.{◌≡◌, ◌++◌, OnOk};
ghost use Rattle.sm_tree.specs.View.{node_of};
ghost use Rattle.sm_json.specs.Written.{written, written_text};

use sm_bytes::make_room;
use sm_json::{encoded_len, place_text, place_tree, text_len};
use sm_tree::{NoMemory, Text, Tree};
use std::alloc::Global;

/// Puts a text as it is.
pub(crate) fn put(text: &str, out: &mut Vec<u8>) -> Result<(), NoMemory>
    ensures { OnOk result (out.new.items ≡ out.old.items ++ text.now) }
{
    out.extend_from_slice(text.as_bytes())?;
    Ok(())
}

/// Puts a text as a string, with its escapes.
pub(crate) fn put_string(alloc: Global, text: &Text, out: &mut Vec<u8>) -> Result<(), NoMemory>
    ensures { OnOk result (out.new.items ≡ out.old.items ++ written_text text.now) }
{
    let at = make_room(alloc, out, text_len(text) as usize)?;
    place_text(out.as_mut_slice(), at, text);
    Ok(())
}

/// Puts a node as JSON without whitespace.
pub(crate) fn put_node(alloc: Global, node: &Tree, out: &mut Vec<u8>) -> Result<(), NoMemory>
    ensures { OnOk result (out.new.items ≡ out.old.items ++ written (node_of node.now)) }
{
    let at = make_room(alloc, out, encoded_len(node) as usize)?;
    place_tree(out.as_mut_slice(), at, node);
    Ok(())
}
