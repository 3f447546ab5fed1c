// Rows under texts: those of one text together, in the order in which they stood, and the texts in order.
ghost use Rattle.std.specs.Prelude.{◌≡◌, ◌++◌, [], ℕ, List, IfOk, Some};
ghost use Rattle.std.specs.List.Sorted.{IsSortedBy};
ghost use Rattle.std.specs.Ordering.{is_lt};
ghost use Rattle.sm_model.specs.Graphs.{text_cmp};
ghost use Rattle.sm_groups.specs.Groups.{all_under, AreGroupsOf, grouped, groups_view, HasTakenRow, resumed_by};

use sm_tree::{NoMemory, Text};
use std::alloc::Global;

/// What stands under one text.
#[derive(Drop)]
pub struct Group<V> {
    /// The text.
    pub key: Text,
    /// What stood under it first.
    pub first: V,
    /// And then.
    pub more: Vec<V>,
}

/// Rows by their texts.
pub fn by_key<V: Drop>(alloc: Global, rows: Vec<(Text, V)>) -> Result<Vec<Group<V>>, NoMemory>
    ensures { IfOk result (λ gs. AreGroupsOf rows.items (groups_view gs.items)) }
{
    gathered(alloc, in_order(rows)?)
}

// The rows in the order of their texts.
fn in_order<V: Drop>(mut rows: Vec<(Text, V)>) -> Result<Vec<(Text, V)>, NoMemory>
    ensures sorted { IfOk result (λ all. IsSortedBy (λ a b. is_lt (text_cmp a.0 b.0)) all.items) }
    ensures stable { IfOk result (λ all. (key : List ℕ) → all_under key all.items ≡ all_under key rows.items) }
{
    rows.sort_by(|a, b| a.0.as_str().cmp(b.0.as_str()))?;
    Ok(rows)
}

// Rows next to each other that have one text, together.
fn gathered<V: Drop>(alloc: Global, rows: Vec<(Text, V)>) -> Result<Vec<Group<V>>, NoMemory>
    ensures { IfOk result (λ gs. groups_view gs.items ≡ grouped rows.items) }
{
    let mut groups = Vec::with_capacity(alloc, rows.len())?;
    let mut current = None;
    for (key, value) in rows {
        current = with_row(alloc, &mut groups, current, key, value)?;
    }
    closed(groups, current)
}

// The groups, behind which the current one is the last.
fn closed<V: Drop>(
    mut groups: Vec<Group<V>>,
    current: Option<Group<V>>,
) -> Result<Vec<Group<V>>, NoMemory>
    ensures { IfOk result (λ gs. groups_view gs.items ≡ groups_view groups.items ++ resumed_by current []) }
{
    match current {
        None => Ok(groups),
        Some(last) => {
            groups.push(last)?;
            Ok(groups)
        }
    }
}

// Takes a row: into the open group, or into another.
fn with_row<V: Drop>(
    alloc: Global,
    groups: &mut Vec<Group<V>>,
    current: Option<Group<V>>,
    key: Text,
    value: V,
) -> Result<Option<Group<V>>, NoMemory>
    ensures { IfOk result (HasTakenRow groups.old.items current (key, value) groups.new.items) }
{
    match current {
        None => Ok(Some(begun(alloc, key, value))),
        Some(group) => continued(alloc, groups, group, key, value),
    }
}

fn continued<V: Drop>(
    alloc: Global,
    groups: &mut Vec<Group<V>>,
    mut group: Group<V>,
    key: Text,
    value: V,
) -> Result<Option<Group<V>>, NoMemory>
    ensures { IfOk result (HasTakenRow groups.old.items (Some group) (key, value) groups.new.items) }
{
    if group.key.as_str() == key.as_str() {
        group.more.push(value)?;
        return Ok(Some(group));
    }
    groups.push(group)?;
    Ok(Some(begun(alloc, key, value)))
}

// A group of one row.
fn begun<V>(alloc: Global, key: Text, first: V) -> Group<V>
    ensures key { result.key ≡ key }
    ensures first { result.first ≡ first }
    ensures more { result.more.items ≡ [] }
{
    let more = Vec::new(alloc);
    Group { key, first, more }
}
