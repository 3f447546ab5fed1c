// The statements of several files come to one graph, or to why there is none.
ghost use Rattle.std.specs.Prelude.{◌≡◌, List, length};
ghost use Rattle.sm_model.specs.Given.{AreGiven};
ghost use Rattle.sm_merge.specs.Answers.{MergesTo};
ghost use Rattle.sm_merge.specs.Files.{files_view};
ghost use Rattle.sm_merge.specs.Stated.{AreFormedFiles, Stated};
ghost use Rattle.sm_merge.specs.steps.Made.{metadata_pairs};
ghost use Rattle.sm_merge.specs.steps.MixedIn.{AllBelow};
ghost use Rattle.sm_merge.specs.steps.Verdicts.{all_parted, AreNamedTables, AreSoundTables, AreWholeTables, Builds, IsWithin};
ghost use Rattle.sm_merge.specs.steps.Verdicts.{PartsTell};

use crate::effective::{ShapeTraits, all_traits};
use crate::effective_mixins::all_mixed_in;
use crate::events_all::all_events;
use crate::firsts::NamedTarget;
use crate::graph_made::made_graph;
use crate::limit::LimitKind;
use crate::limits::{are_many_members, are_many_shapes};
use crate::members::all_members;
use crate::mixins::{Contributing, mixin_walk};
use crate::refusal::MergeRefusal;
use crate::shape_parts::{ShapePart, shape_parts};
use crate::shapes::Shapes;
use crate::tables::{Tables, tables_of};
use crate::walk::Walk;
use sm_model::{Graph, Statement};
use std::alloc::Global;

/// The graph that the statements of these files come to, with the shapes of the prelude. The first that holds is answered: `Limit`
/// where it is past a limit, the first in the order of `LimitKind`; `Rejected` where something is wrong, with all events in their order;
/// else the graph. Files count in their order only where they state one shape, give one trait or have one key. `NoMemory` where
/// the allocator refuses memory.
pub fn merge(alloc: Global, files: &[Vec<Statement>]) -> Result<Graph, MergeRefusal>
    requires { AreFormedFiles (files_view files.now) }
    ensures { MergesTo (files_view files.now) result }
{
    match tables_of(alloc, files) {
        Err(_) => Err(MergeRefusal::NoMemory),
        Ok(tables) => match parts_of(alloc, &tables) {
            Err(refusal) => Err(refusal),
            Ok(parts) => built(alloc, tables, parts),
        },
    }
}

fn built(alloc: Global, tables: Tables, parts: Vec<ShapePart>) -> Result<Graph, MergeRefusal>
    requires { AreGiven (all_parted tables parts.items) (metadata_pairs tables.metadata.items) }
    ensures { Builds tables parts.items result }
{
    let Tables {
        traits: _,
        metadata,
        shapes,
        applied: _,
    } = tables;
    let Shapes { rows, wrong: _ } = shapes;
    match made_graph(alloc, rows, parts, metadata) {
        Ok(graph) => Ok(graph),
        Err(_) => Err(MergeRefusal::NoMemory),
    }
}

// What shapes have in the graph, or why there is none. The number of shapes is told before their members are listed.
fn parts_of(alloc: Global, tables: &Tables) -> Result<Vec<ShapePart>, MergeRefusal>
    requires { (ss : List Stated) × AreSoundTables ss tables.now }
    ensures { (ss : List Stated) → AreSoundTables ss tables.now → PartsTell ss tables.now result }
{
    let rows = tables.shapes.rows.as_slice();
    let Ok(walk) = mixin_walk(alloc, rows) else {
        return Err(MergeRefusal::NoMemory);
    };
    if are_many_shapes(rows) {
        return Err(MergeRefusal::Limit(LimitKind::Shapes));
    }
    let Ok(mixed) = all_mixed_in(alloc, rows, tables.traits.as_slice(), &walk) else {
        return Err(MergeRefusal::NoMemory);
    };
    match all_members(alloc, rows, mixed.as_slice(), walk.order.as_slice()) {
        Err(_) => Err(MergeRefusal::NoMemory),
        Ok(None) => Err(MergeRefusal::Limit(LimitKind::Members)),
        Ok(Some(members)) => named_parts(
            alloc,
            tables,
            &walk,
            mixed.as_slice(),
            members.as_slice(),
        ),
    }
}

// All members are counted before their traits are listed.
fn named_parts(
    alloc: Global,
    tables: &Tables,
    walk: &Walk,
    mixed: &[Vec<Contributing<'_>>],
    members: &[Vec<NamedTarget<'_>>],
) -> Result<Vec<ShapePart>, MergeRefusal>
    requires some { (ss : List Stated) × AreNamedTables ss tables.now walk.now mixed.now members.now }
    requires walked { length walk.now.status.items ≡ length tables.now.shapes.rows.items }
    requires within { IsWithin walk.now tables.now }
    requires members { length members.now ≡ length tables.now.shapes.rows.items }
    requires size { length mixed.now ≡ length tables.now.shapes.rows.items }
    requires below { AllBelow (length tables.now.shapes.rows.items) mixed.now }
    ensures { (ss : List Stated) → AreNamedTables ss tables.now walk.now mixed.now members.now → PartsTell ss tables.now result }
{
    if are_many_members(members) {
        return Err(MergeRefusal::Limit(LimitKind::AllMembers));
    }
    let rows = tables.shapes.rows.as_slice();
    let traits = tables.traits.as_slice();
    match all_traits(alloc, rows, traits, members, mixed, walk.order.as_slice()) {
        Err(_) => Err(MergeRefusal::NoMemory),
        Ok(None) => Err(MergeRefusal::Limit(LimitKind::Traits)),
        Ok(Some(all)) => whole_parts(alloc, tables, walk, mixed, members, all.as_slice()),
    }
}

// Events are told before anything is copied.
fn whole_parts(
    alloc: Global,
    tables: &Tables,
    walk: &Walk,
    mixed: &[Vec<Contributing<'_>>],
    members: &[Vec<NamedTarget<'_>>],
    all: &[ShapeTraits<'_>],
) -> Result<Vec<ShapePart>, MergeRefusal>
    requires some { (ss : List Stated) × AreWholeTables ss tables.now walk.now mixed.now members.now all.now }
    requires walked { length walk.now.status.items ≡ length tables.now.shapes.rows.items }
    requires members { length members.now ≡ length tables.now.shapes.rows.items }
    requires size { length mixed.now ≡ length tables.now.shapes.rows.items }
    requires below { AllBelow (length tables.now.shapes.rows.items) mixed.now }
    ensures { (ss : List Stated) → AreWholeTables ss tables.now walk.now mixed.now members.now all.now → PartsTell ss tables.now result }
{
    let rows = tables.shapes.rows.as_slice();
    let Ok(events) = all_events(alloc, tables, walk, mixed, members) else {
        return Err(MergeRefusal::NoMemory);
    };
    if !events.as_slice().is_empty() {
        return Err(MergeRefusal::Rejected(events));
    }
    match shape_parts(alloc, rows, members, all) {
        Ok(parts) => Ok(parts),
        Err(_) => Err(MergeRefusal::NoMemory),
    }
}
