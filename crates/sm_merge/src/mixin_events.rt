// Events for mixins that don't contribute.
ghost use Rattle.std.specs.Prelude.{◌≡◌, List, length, IfOk, OnOk};
ghost use Rattle.sm_model.specs.EventView.{AreErrors};
ghost use Rattle.sm_model.specs.steps.Rising.{Rise};
ghost use Rattle.sm_merge.specs.Stated.{ShapeStated, Stated};
ghost use Rattle.sm_merge.specs.steps.Contributing.{AreWalkedTables, NamesRise};
ghost use Rattle.sm_merge.specs.steps.MixinEvents.{KeepErrors, PutsSuch, TellBadMixins, TellsBad, TellsBadAmong};
ghost use Rattle.sm_merge.specs.steps.ShapeTables.{ids_of};
ghost use Rattle.sm_merge.specs.steps.Tables.{places_in};

use crate::events::event;
use crate::mixins::contribution_of;
use crate::parts::BareShape;
use crate::stated::copied_id;
use crate::table::PlaceRow;
use crate::walk::Walk;
use sm_model::ModelEvent;
use sm_tree::NoMemory;
use std::alloc::Global;

/// An event for each mixin of each shape that doesn't contribute to it.
pub(crate) fn mixin_events(
    alloc: Global,
    rows: &[BareShape],
    traits: &[PlaceRow],
    walk: &Walk,
) -> Result<Vec<ModelEvent>, NoMemory>
    requires ids { Rise (ids_of rows.now) }
    requires places { Rise (places_in traits.now) }
    requires names { NamesRise traits.now }
    requires walked { length walk.now.status.items ≡ length rows.now }
    ensures told { IfOk result (λ events. TellBadMixins rows.now traits.now walk.now events.items) }
    ensures errors { IfOk result (λ events. AreErrors events.items) }
{
    let mut events = Vec::new(alloc);
    for row in rows {
        put_events_of(alloc, rows, traits, walk, row, &mut events)?;
    }
    Ok(events)
}

fn put_events_of(
    alloc: Global,
    rows: &[BareShape],
    traits: &[PlaceRow],
    walk: &Walk,
    row: &BareShape,
    events: &mut Vec<ModelEvent>,
) -> Result<(), NoMemory>
    requires ids { Rise (ids_of rows.now) }
    requires places { Rise (places_in traits.now) }
    requires names { NamesRise traits.now }
    requires walked { length walk.now.status.items ≡ length rows.now }
    ensures errors { OnOk result (KeepErrors events.old.items events.new.items) }
    ensures told { OnOk result ((ss : List Stated) (s : ShapeStated) → AreWalkedTables ss rows.now traits.now walk.now
        → s.shape.kind ≡ row.now.kind
        → PutsSuch (TellsBadAmong ss s row.now.id row.now.mixins.items) events.old.items events.new.items) }
{
    for mixin in &row.mixins {
        put_mixin_event(alloc, rows, traits, walk, row, mixin.as_str(), events)?;
    }
    Ok(())
}

fn put_mixin_event(
    alloc: Global,
    rows: &[BareShape],
    traits: &[PlaceRow],
    walk: &Walk,
    row: &BareShape,
    mixin: &str,
    events: &mut Vec<ModelEvent>,
) -> Result<(), NoMemory>
    requires ids { Rise (ids_of rows.now) }
    requires places { Rise (places_in traits.now) }
    requires names { NamesRise traits.now }
    requires walked { length walk.now.status.items ≡ length rows.now }
    ensures errors { OnOk result (KeepErrors events.old.items events.new.items) }
    ensures told { OnOk result ((ss : List Stated) (s : ShapeStated) → AreWalkedTables ss rows.now traits.now walk.now
        → s.shape.kind ≡ row.now.kind → PutsSuch (TellsBad ss s row.now.id mixin.now) events.old.items events.new.items) }
{
    match contribution_of(rows, traits, walk, row.kind, mixin) {
        Some(_) => Ok(()),
        None => {
            let shape = copied_id(alloc, &row.id)?;
            let event = event(alloc, shape, "Model.Mixin", mixin)?;
            events.push(event)?;
            Ok(())
        }
    }
}
