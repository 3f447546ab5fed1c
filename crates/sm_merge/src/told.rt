// What tables tell of what is wrong.
ghost use Rattle.std.specs.Prelude.{◌≡◌, [], ◌∷◌, IfOk, OnOk, map};
ghost use Rattle.sm_model.specs.PreludeShapes.{unit_id};
ghost use Rattle.sm_merge.specs.steps.EventLists.{applied_event, if_conflict, metadata_event, metadata_events};
ghost use Rattle.sm_merge.specs.steps.EventLists.{shape_event, TellsMore, trait_event, trait_events};

use crate::events::event;
use crate::prelude_graph::id_of;
use crate::stated::copied_id;
use crate::table::NamedValue;
use sm_ids::ShapeId;
use sm_model::ModelEvent;
use sm_tree::NoMemory;
use std::alloc::Global;

/// Puts an event for each key of metadata whose values are in conflict.
pub(crate) fn put_metadata_events(
    alloc: Global,
    rows: &[NamedValue],
    events: &mut Vec<ModelEvent>,
) -> Result<(), NoMemory>
    ensures { OnOk result (TellsMore events.old.items events.new.items (metadata_events rows.now)) }
{
    for row in rows {
        put_metadata_event(alloc, row, events)?;
    }
    Ok(())
}

fn put_metadata_event(
    alloc: Global,
    row: &NamedValue,
    events: &mut Vec<ModelEvent>,
) -> Result<(), NoMemory>
    ensures { OnOk result (TellsMore events.old.items events.new.items (if_conflict metadata_event row.now)) }
{
    if !row.folded.conflict {
        return Ok(());
    }
    let unit = unit(alloc)?;
    events.push(event(alloc, unit, "Model.Metadata", row.name.as_str())?)?;
    Ok(())
}

// The id of the shape that stands for no shape.
fn unit(alloc: Global) -> Result<ShapeId, NoMemory>
    ensures { IfOk result (λ id. id ≡ unit_id) }
{
    match ShapeId::new(alloc, &id_of("Unit")) {
        Ok(id) => Ok(id),
        Err(_) => Err(NoMemory),
    }
}

/// Puts an event for each id of which statements say different things.
pub(crate) fn put_shape_events(
    alloc: Global,
    wrong: &[ShapeId],
    events: &mut Vec<ModelEvent>,
) -> Result<(), NoMemory>
    ensures { OnOk result (TellsMore events.old.items events.new.items (map shape_event wrong.now)) }
{
    for id in wrong {
        put_shape_event(alloc, id, events)?;
    }
    Ok(())
}

fn put_shape_event(
    alloc: Global,
    id: &ShapeId,
    events: &mut Vec<ModelEvent>,
) -> Result<(), NoMemory>
    ensures { OnOk result (TellsMore events.old.items events.new.items (shape_event id.now ∷ [])) }
{
    let shape = copied_id(alloc, id)?;
    events.push(event(alloc, shape, "Model.Shape", "")?)?;
    Ok(())
}

/// Puts an event for each trait of a shape or member whose values are in conflict.
pub(crate) fn put_trait_events(
    alloc: Global,
    id: &ShapeId,
    values: &[NamedValue],
    events: &mut Vec<ModelEvent>,
) -> Result<(), NoMemory>
    ensures { OnOk result (TellsMore events.old.items events.new.items (trait_events id.now values.now)) }
{
    for value in values {
        put_trait_event(alloc, id, value, events)?;
    }
    Ok(())
}

fn put_trait_event(
    alloc: Global,
    id: &ShapeId,
    value: &NamedValue,
    events: &mut Vec<ModelEvent>,
) -> Result<(), NoMemory>
    ensures { OnOk result (TellsMore events.old.items events.new.items (if_conflict (trait_event id.now) value.now)) }
{
    if !value.folded.conflict {
        return Ok(());
    }
    let shape = copied_id(alloc, id)?;
    events.push(event(alloc, shape, "Model.Trait", value.name.as_str())?)?;
    Ok(())
}

/// Puts an event for what traits are applied to and isn't there.
pub(crate) fn put_applied_event(
    alloc: Global,
    id: &ShapeId,
    events: &mut Vec<ModelEvent>,
) -> Result<(), NoMemory>
    ensures { OnOk result (TellsMore events.old.items events.new.items (applied_event id.now ∷ [])) }
{
    let shape = copied_id(alloc, id)?;
    events.push(event(alloc, shape, "Model.Apply", "")?)?;
    Ok(())
}
