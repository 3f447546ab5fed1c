// The numbers of ids among rows, and those of what members target.
ghost use Rattle.std.specs.Prelude.{◌<◌, ◌^◌, IfOk, length};
ghost use Rattle.sm_model.specs.GraphRows.{ids_of};
ghost use Rattle.sm_model.specs.steps.TargetNumbers.{AreTargets, IsNumberAmong, IsTargetNumber};
ghost use Rattle.sm_model.specs.steps.Rising.{Rise};

use super::{GraphRow, RowEntry};
use sm_tree::NoMemory;
use std::alloc::Global;

/// The number of the row whose id has this text; `None` where none has it. No memory.
pub(crate) fn number_in(rows: &[GraphRow], id: &str) -> Option<u32>
    requires rise { Rise (ids_of rows.now) }
    requires few { length rows.now < 2 ^ 32 }
    ensures { IsNumberAmong (ids_of rows.now) id.now result }
{
    match rows.binary_search_by(|row| row.id.as_str().cmp(id)) {
        Ok(place) => Some(place as u32),
        Err(_) => None,
    }
}

/// For each row the number of what it targets; `None` at a shape, and where no row has the id that a member targets. n log n.
pub(crate) fn targets_of(alloc: Global, rows: &[GraphRow]) -> Result<Vec<Option<u32>>, NoMemory>
    requires rise { Rise (ids_of rows.now) }
    requires few { length rows.now < 2 ^ 32 }
    ensures { IfOk result (λ targets. AreTargets rows.now targets.items) }
{
    let mut targets = Vec::with_capacity(alloc, rows.len())?;
    for row in rows {
        targets.push(target_in(rows, &row.entry))?;
    }
    Ok(targets)
}

// The number of what a row targets.
fn target_in(rows: &[GraphRow], entry: &RowEntry) -> Option<u32>
    requires rise { Rise (ids_of rows.now) }
    requires few { length rows.now < 2 ^ 32 }
    ensures { IsTargetNumber (ids_of rows.now) entry.now result }
{
    match entry {
        RowEntry::Shape(_) => None,
        RowEntry::Member(target) => number_in(rows, target.as_str()),
    }
}
