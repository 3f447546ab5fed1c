// The mixins that contribute to shapes, in the order in which the shapes name them.
ghost use Rattle.std.specs.Prelude.{◌≡◌, List, length, IfOk, OnOk};
ghost use Rattle.sm_model.specs.steps.Rising.{Rise};
ghost use Rattle.sm_merge.specs.Stated.{ShapeStated, Stated};
ghost use Rattle.sm_merge.specs.steps.Contributing.{AreWalkedTables, NamesRise};
ghost use Rattle.sm_merge.specs.steps.MixedIn.{AllBelow, AreBelow, AreMixedIn, MixIn, PutsMixin};
ghost use Rattle.sm_merge.specs.steps.ShapeTables.{ids_of};
ghost use Rattle.sm_merge.specs.steps.Tables.{places_in};

use crate::mixins::{Contributing, contribution_of};
use crate::parts::BareShape;
use crate::table::PlaceRow;
use crate::walk::Walk;
use sm_model::Kind;
use sm_tree::NoMemory;
use std::alloc::Global;

/// The mixins that contribute to each shape, by the shapes' numbers.
pub(crate) fn all_mixed_in<'a>(
    alloc: Global,
    rows: &[BareShape],
    traits: &'a [PlaceRow],
    walk: &Walk,
) -> Result<Vec<Vec<Contributing<'a>>>, NoMemory>
    requires ids { Rise (ids_of rows.now) }
    requires places { Rise (places_in traits.now) }
    requires names { NamesRise traits.now }
    requires walked { length walk.now.status.items ≡ length rows.now }
    ensures size { IfOk result (λ all. length all.items ≡ length rows.now) }
    ensures below { IfOk result (λ all. AllBelow (length rows.now) all.items) }
    ensures mixed { IfOk result (λ all. (ss : List Stated) → AreWalkedTables ss rows.now traits.now walk.now
        → AreMixedIn ss rows.now all.items) }
{
    let mut all = Vec::with_capacity(alloc, rows.len())?;
    for row in rows {
        let found = mixed_in(alloc, rows, traits, walk, row)?;
        all.push(found)?;
    }
    Ok(all)
}

// Those that contribute to one shape.
fn mixed_in<'a>(
    alloc: Global,
    rows: &[BareShape],
    traits: &'a [PlaceRow],
    walk: &Walk,
    row: &BareShape,
) -> Result<Vec<Contributing<'a>>, NoMemory>
    requires ids { Rise (ids_of rows.now) }
    requires places { Rise (places_in traits.now) }
    requires names { NamesRise traits.now }
    requires walked { length walk.now.status.items ≡ length rows.now }
    ensures below { IfOk result (λ found. AreBelow (length rows.now) found.items) }
    ensures mixed { IfOk result (λ found. (ss : List Stated) (s : ShapeStated) → AreWalkedTables ss rows.now traits.now walk.now
        → s.shape.kind ≡ row.now.kind → MixIn ss rows.now s row.now.mixins.items found.items) }
{
    let mut found = Vec::with_capacity(alloc, row.mixins.len())?;
    for mixin in &row.mixins {
        put_mixin(rows, traits, walk, row.kind, mixin.as_str(), &mut found)?;
    }
    Ok(found)
}

fn put_mixin<'a>(
    rows: &[BareShape],
    traits: &'a [PlaceRow],
    walk: &Walk,
    kind: Kind,
    mixin: &str,
    found: &mut Vec<Contributing<'a>>,
) -> Result<(), NoMemory>
    requires ids { Rise (ids_of rows.now) }
    requires places { Rise (places_in traits.now) }
    requires names { NamesRise traits.now }
    requires walked { length walk.now.status.items ≡ length rows.now }
    ensures below { OnOk result (AreBelow (length rows.now) found.old.items → AreBelow (length rows.now) found.new.items) }
    ensures put { OnOk result ((ss : List Stated) (s : ShapeStated) → AreWalkedTables ss rows.now traits.now walk.now
        → s.shape.kind ≡ kind → PutsMixin ss rows.now s mixin.now found.old.items found.new.items) }
{
    match contribution_of(rows, traits, walk, kind, mixin) {
        None => Ok(()),
        Some(one) => {
            found.push(one)?;
            Ok(())
        }
    }
}
