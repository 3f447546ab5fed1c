// Rows of traits: those that are given, those that are copied, and the first of each name.
ghost use Rattle.std.specs.Prelude.{◌≡◌, ◌++◌, [], ◌∷◌, IfOk, OnOk};
ghost use Rattle.std.specs.List.{filter};
ghost use Rattle.std.specs.Str.{bytes_eq};
ghost use Rattle.sm_model.specs.Graphs.{text_cmp};
ghost use Rattle.sm_merge.specs.steps.Filling.{AreFirstRows, folded_rows, is_kept};
ghost use Rattle.sm_merge.specs.steps.Tables.{named_view};

use crate::effective::NamedFolded;
use crate::mixins::MIXIN;
use crate::table::NamedValue;
use sm_tree::NoMemory;
use std::alloc::Global;
use std::cmp::Ordering;

/// What is given at a place, as rows.
pub(crate) fn given_rows<'a>(
    alloc: Global,
    values: &'a [NamedValue],
) -> Result<Vec<NamedFolded<'a>>, NoMemory>
    ensures { IfOk result (λ rows. folded_rows rows.items ≡ named_view values.now) }
{
    let mut rows = Vec::with_capacity(alloc, values.len())?;
    for value in values {
        rows.push(NamedFolded {
            name: value.name.as_str(),
            folded: &value.folded,
        })?;
    }
    Ok(rows)
}

/// Those of a member's traits that shapes get which mix its shape in.
pub(crate) fn kept_rows<'a>(
    alloc: Global,
    traits: &[NamedFolded<'a>],
) -> Result<Vec<NamedFolded<'a>>, NoMemory>
    ensures { IfOk result (λ rows. folded_rows rows.items ≡ filter is_kept (folded_rows traits.now)) }
{
    let mut rows = Vec::with_capacity(alloc, traits.len())?;
    for row in traits {
        put_kept(&mut rows, row)?;
    }
    Ok(rows)
}

fn put_kept<'a>(rows: &mut Vec<NamedFolded<'a>>, row: &NamedFolded<'a>) -> Result<(), NoMemory>
    ensures { OnOk result (folded_rows rows.new.items ≡ folded_rows rows.old.items ++ filter is_kept (folded_rows (row.now ∷ []))) }
{
    if row.name == MIXIN {
        return Ok(());
    }
    rows.push(*row)?;
    Ok(())
}

/// The first row of each name, in the order of the names.
pub(crate) fn first_rows(mut rows: Vec<NamedFolded<'_>>) -> Result<Vec<NamedFolded<'_>>, NoMemory>
    ensures { IfOk result (λ all. AreFirstRows (folded_rows rows.entry.items) all.items) }
{
    rows.sort_by(|a, b| order_of(a, b))?;
    rows.dedup_by(|a, b| are_one(a, b));
    Ok(rows)
}

fn order_of(a: &NamedFolded<'_>, b: &NamedFolded<'_>) -> Ordering
    ensures { result ≡ text_cmp a.now.name.now b.now.name.now }
{
    names_order(a.name, b.name)
}

fn names_order(a: &str, b: &str) -> Ordering
    ensures { result ≡ text_cmp a.now b.now }
{
    a.cmp(b)
}

fn are_one(a: &NamedFolded<'_>, b: &NamedFolded<'_>) -> bool
    ensures { result ≡ bytes_eq a.now.name.now b.now.name.now }
{
    a.name == b.name
}
