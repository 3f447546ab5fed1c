// The members of a shape by their names, and those that are needed: by a table, whatever its numbers.
ghost use Rattle.std.specs.Prelude.{◌≡◌, IsPermutation, IfOk};
ghost use Rattle.std.specs.List.{filter};
ghost use Rattle.sm_shapes.specs.InOrder.{is_needed};
ghost use Rattle.sm_shapes.specs.TableView.{table_data};
ghost use Rattle.codec_bodies.specs.Checked.{name_by};

use crate::lookups::row_at;
use sm_shapes::tables::Table;
use sm_tree::NoMemory;
use std::alloc::Global;

/// The name of a member, or the one that it has where JSON names are looked at.
pub fn name_by(table: &Table, json: bool, member: u32) -> &str
    ensures { result.now ≡ name_by json (table_data table.now) member }
{
    if json {
        table.json_name_of(member)
    } else {
        table.name_of(member)
    }
}

/// The members in the byte order of these names.
pub fn sorted(
    alloc: Global,
    table: &Table,
    json: bool,
    members: &[u32],
) -> Result<Vec<u32>, NoMemory>
    ensures { IfOk result (λ all. IsPermutation members.now all.items) }
{
    let mut all = members.to_vec(alloc)?;
    all.sort_unstable_by(|a, b| name_by(table, json, *a).cmp(name_by(table, json, *b)));
    Ok(all)
}

// Whether a member that an object without its name doesn't just leave out.
fn is_needed(table: &Table, member: u32) -> bool
    ensures { result ≡ is_needed (table_data table.now) member }
{
    match row_at(table, member) {
        Some(row) => row.required || row.default_node.is_some() || row.default.is_some(),
        None => false,
    }
}

/// Those of the members that are needed.
pub fn needed_of(alloc: Global, table: &Table, members: &[u32]) -> Result<Vec<u32>, NoMemory>
    ensures { IfOk result (λ all. all.items ≡ filter (is_needed (table_data table.now)) members.now) }
{
    let mut all = Vec::new(alloc);
    for member in members {
        if is_needed(table, *member) {
            all.push(*member)?;
        }
    }
    Ok(all)
}
