// The traits of a shape: what is given directly, else what the last mixin has that has it.
ghost use Rattle.std.specs.Prelude.{◌≡◌, ◌<◌, ◌∷◌, ◌++◌, ◌||◌, [], length, not, IfOk, OnOk};
ghost use Rattle.std.specs.List.{filter};
ghost use Rattle.std.specs.FinMap as fin;
ghost use Rattle.std.specs.Str.{bytes_eq};
ghost use Rattle.sm_tree.specs.View.{node_of};
ghost use Rattle.sm_model.specs.Graphs.{text_cmp};
ghost use Rattle.sm_model.specs.steps.Rising.{Rise};
ghost use Rattle.sm_merge.specs.Mixins.{is_copied, mixin_trait};
ghost use Rattle.sm_merge.specs.steps.Filling.{AreFirstRows, copied_at, copies_by, folded_rows, last_first};
ghost use Rattle.sm_merge.specs.steps.Known.{has_text};
ghost use Rattle.sm_merge.specs.steps.MemberLists.{IsEntryOf};
ghost use Rattle.sm_merge.specs.steps.MixedIn.{AreBelow};
ghost use Rattle.sm_merge.specs.steps.Tables.{named_view, names_in};

use crate::effective::{NamedFolded, ShapeTraits};
use crate::effective_local::local_names;
use crate::effective_rows::{first_rows, given_rows};
use crate::look::value_named;
use crate::mixins::{Contributing, MIXIN};
use crate::table::NamedValue;
use sm_tree::{NoMemory, Tree};
use std::alloc::Global;
use std::collections::BTreeSet;

/// The traits of a shape at which these values are given.
pub(crate) fn own_traits<'a>(
    alloc: Global,
    given: &'a [NamedValue],
    mixed: &[Contributing<'_>],
    all: &[ShapeTraits<'a>],
) -> Result<Vec<NamedFolded<'a>>, NoMemory>
    requires { AreBelow (length all.now) mixed.now }
    ensures { IfOk result (λ rows. AreFirstRows (named_view given.now ++ last_first (copied_at all.now) mixed.now) rows.items) }
{
    let mut rows = given_rows(alloc, given)?;
    put_copied(mixed, all, &mut rows)?;
    first_rows(rows)
}

// Puts the copies of what mixins have, the last mixin first.
fn put_copied<'a>(
    mixed: &[Contributing<'_>],
    all: &[ShapeTraits<'a>],
    rows: &mut Vec<NamedFolded<'a>>,
) -> Result<(), NoMemory>
    requires { AreBelow (length all.now) mixed.now }
    ensures { OnOk result (folded_rows rows.new.items ≡ folded_rows rows.old.items ++ last_first (copied_at all.now) mixed.now) }
{
    let mut left = mixed.len();
    while left > 0 {
        left -= 1;
        let entry = mixin_entry(mixed, all, left);
        rows.extend_from_slice(entry.copied.as_slice())?;
    }
    Ok(())
}

/// The traits of the mixin at a place.
pub(crate) fn mixin_entry<'t, 'a>(
    mixed: &[Contributing<'_>],
    all: &'t [ShapeTraits<'a>],
    place: usize,
) -> &'t ShapeTraits<'a>
    requires below { AreBelow (length all.now) mixed.now }
    requires inside { place < length mixed.now }
    ensures { IsEntryOf mixed.now all.now place result.now }
{
    let mixin = mixed[place];
    &all[mixin.number]
}

/// Those of a shape's traits that shapes get which mix it in, by what is given at it; none of a shape that is no mixin.
pub(crate) fn copied_traits<'a>(
    alloc: Global,
    given: &[NamedValue],
    own: &[NamedFolded<'a>],
) -> Result<Vec<NamedFolded<'a>>, NoMemory>
    requires { Rise (names_in given.now) }
    ensures { IfOk result (λ rows. folded_rows rows.items ≡ copies_by (fin.find text_cmp mixin_trait (named_view given.now))
        (folded_rows own.now)) }
{
    match value_named(given, MIXIN) {
        None => Ok(Vec::new(alloc)),
        Some(folded) => copies(alloc, &folded.value, own),
    }
}

// All but the trait `mixin` and those that its value names.
fn copies<'a>(
    alloc: Global,
    value: &Tree,
    own: &[NamedFolded<'a>],
) -> Result<Vec<NamedFolded<'a>>, NoMemory>
    ensures { IfOk result (λ rows. folded_rows rows.items ≡ filter (λ r. is_copied (node_of value.now) r.0) (folded_rows own.now)) }
{
    let local = local_names(alloc, value)?;
    let mut rows = Vec::with_capacity(alloc, own.len())?;
    for row in own {
        put_copy(&local, row, &mut rows)?;
    }
    Ok(rows)
}

fn put_copy<'a>(
    local: &BTreeSet<&str>,
    row: &NamedFolded<'a>,
    rows: &mut Vec<NamedFolded<'a>>,
) -> Result<(), NoMemory>
    ensures { OnOk result (folded_rows rows.new.items ≡ folded_rows rows.old.items
        ++ filter (λ r. not (bytes_eq r.0 mixin_trait || has_text local.now r.0)) (folded_rows (row.now ∷ []))) }
{
    if row.name == MIXIN || local.contains(row.name) {
        return Ok(());
    }
    rows.push(*row)?;
    Ok(())
}
