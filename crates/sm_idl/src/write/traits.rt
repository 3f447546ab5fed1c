// Lines of traits, and of metadata.
ghost use Rattle.std.specs.Prelude.{◌≡◌, ◌++◌, OnOk};
ghost use Rattle.sm_tree.specs.View.{node_of, members_view};
ghost use Rattle.sm_idl.specs.Written.{metadata_line, metadata_lines, trait_line, trait_lines};

use super::put::{put, put_node, put_string};
use sm_tree::{NoMemory, Text, Tree};
use std::alloc::Global;

/// Puts a line for each trait, in order, behind this margin.
pub(crate) fn put_traits(
    alloc: Global,
    margin: &str,
    traits: &[(Text, Tree)],
    out: &mut Vec<u8>,
) -> Result<(), NoMemory>
    ensures { OnOk result (out.new.items ≡ out.old.items ++ trait_lines margin.now (members_view traits.now)) }
{
    for pair in traits {
        put_trait(alloc, margin, pair.0.as_str(), &pair.1, out)?;
    }
    Ok(())
}

fn put_trait(
    alloc: Global,
    margin: &str,
    id: &str,
    value: &Tree,
    out: &mut Vec<u8>,
) -> Result<(), NoMemory>
    ensures { OnOk result (out.new.items ≡ out.old.items ++ trait_line margin.now id.now (node_of value.now)) }
{
    put(margin, out)?;
    put("@", out)?;
    put(id, out)?;
    put("(", out)?;
    put_node(alloc, value, out)?;
    put(")\n", out)
}

/// Puts a line for each key of metadata, in order.
pub(crate) fn put_metadata(
    alloc: Global,
    metadata: &[(Text, Tree)],
    out: &mut Vec<u8>,
) -> Result<(), NoMemory>
    ensures { OnOk result (out.new.items ≡ out.old.items ++ metadata_lines (members_view metadata.now)) }
{
    for pair in metadata {
        put_metadata_line(alloc, &pair.0, &pair.1, out)?;
    }
    Ok(())
}

fn put_metadata_line(
    alloc: Global,
    key: &Text,
    value: &Tree,
    out: &mut Vec<u8>,
) -> Result<(), NoMemory>
    ensures { OnOk result (out.new.items ≡ out.old.items ++ metadata_line key.now (node_of value.now)) }
{
    put("metadata ", out)?;
    put_string(alloc, key, out)?;
    put(" = ", out)?;
    put_node(alloc, value, out)?;
    put("\n", out)
}
