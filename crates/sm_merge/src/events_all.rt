// All that is wrong with statements, in order and each once.
ghost use Rattle.std.specs.Prelude.{◌≡◌, List, length, IfOk};
ghost use Rattle.sm_model.specs.EventView.{AreErrors, events_view};
ghost use Rattle.sm_model.specs.steps.Rising.{Rise};
ghost use Rattle.sm_merge.specs.Merged.{AreEventsOf};
ghost use Rattle.sm_merge.specs.Stated.{Stated};
ghost use Rattle.sm_merge.specs.steps.Contributing.{NamesRise};
ghost use Rattle.sm_merge.specs.steps.MixedIn.{AllBelow};
ghost use Rattle.sm_merge.specs.steps.NamedIds.{AreNamedIds};
ghost use Rattle.sm_merge.specs.steps.ShapeTables.{ids_of};
ghost use Rattle.sm_merge.specs.steps.Tables.{places_in};
ghost use Rattle.sm_merge.specs.steps.ToldEvents.{AreToldFrom};

use crate::events::in_order;
use crate::events_members::put_member_events;
use crate::events_places::put_place_events;
use crate::firsts::NamedTarget;
use crate::mixin_events::mixin_events;
use crate::mixins::Contributing;
use crate::tables::Tables;
use crate::told::{put_metadata_events, put_shape_events};
use crate::walk::Walk;
use sm_model::ModelEvents;
use sm_tree::NoMemory;
use std::alloc::Global;

/// The events of the statements that these tables are of.
pub(crate) fn all_events(
    alloc: Global,
    tables: &Tables,
    walk: &Walk,
    mixed: &[Vec<Contributing<'_>>],
    members: &[Vec<NamedTarget<'_>>],
) -> Result<ModelEvents, NoMemory>
    requires ids { Rise (ids_of tables.now.shapes.rows.items) }
    requires places { Rise (places_in tables.now.traits.items) }
    requires names { NamesRise tables.now.traits.items }
    requires walked { length walk.now.status.items ≡ length tables.now.shapes.rows.items }
    requires members { length members.now ≡ length tables.now.shapes.rows.items }
    requires named { AreNamedIds tables.now.shapes.rows.items members.now }
    requires size { length mixed.now ≡ length tables.now.shapes.rows.items }
    requires below { AllBelow (length tables.now.shapes.rows.items) mixed.now }
    ensures told { IfOk result (λ events. (ss : List Stated) → AreToldFrom ss tables.now walk.now mixed.now members.now
        → AreEventsOf ss (events_view events)) }
    ensures errors { IfOk result (λ events. AreErrors events) }
{
    let rows = tables.shapes.rows.as_slice();
    let traits = tables.traits.as_slice();
    let mut events = mixin_events(alloc, rows, traits, walk)?;
    put_shape_events(alloc, tables.shapes.wrong.as_slice(), &mut events)?;
    put_metadata_events(alloc, tables.metadata.as_slice(), &mut events)?;
    let applied = tables.applied.as_slice();
    put_place_events(alloc, rows, members, traits, applied, &mut events)?;
    put_member_events(alloc, rows, mixed, members, &mut events)?;
    Ok(in_order(events))
}
