// A graph of shapes with their members and traits, of the prelude's shapes and of metadata.
ghost use Rattle.std.specs.Prelude.{◌≡◌, ◌++◌, IfOk};
ghost use Rattle.sm_tree.specs.View.{members_view};
ghost use Rattle.sm_model.specs.Given.{AreGiven};
ghost use Rattle.sm_model.specs.GivenView.{given_view, shape_given_view};
ghost use Rattle.sm_model.specs.Graphs.{graph_of};
ghost use Rattle.sm_model.specs.GraphView.{maps_of};
ghost use Rattle.sm_model.specs.PreludeShapes.{prelude_shapes as the_prelude};
ghost use Rattle.sm_merge.specs.steps.Made.{metadata_pairs as pairs_of, parted_shape, parted_shapes};
ghost use Rattle.sm_merge.specs.steps.Placed.{bare_view};

use crate::parts::BareShape;
use crate::prelude_graph::prelude_shapes;
use crate::shape_parts::ShapePart;
use crate::table::NamedValue;
use sm_model::{Graph, GraphShape};
use sm_tree::{NoMemory, Text, Tree};
use std::alloc::Global;

/// The graph of shapes with their parts and of metadata.
pub(crate) fn made_graph(
    alloc: Global,
    rows: Vec<BareShape>,
    parts: Vec<ShapePart>,
    metadata: Vec<NamedValue>,
) -> Result<Graph, NoMemory>
    requires { AreGiven (parted_shapes rows.items parts.items ++ the_prelude) (pairs_of metadata.items) }
    ensures { IfOk result (λ g. maps_of g ≡ graph_of (parted_shapes rows.items parts.items ++ the_prelude) (pairs_of metadata.items)) }
{
    let shapes = all_shapes(alloc, rows, parts)?;
    let metadata = metadata_pairs(alloc, metadata)?;
    Graph::build(alloc, shapes, metadata)
}

fn all_shapes(
    alloc: Global,
    rows: Vec<BareShape>,
    parts: Vec<ShapePart>,
) -> Result<Vec<GraphShape>, NoMemory>
    ensures { IfOk result (λ shapes. given_view shapes.items ≡ parted_shapes rows.items parts.items ++ the_prelude) }
{
    let mut of_prelude = prelude_shapes(alloc)?;
    let mut shapes = with_parts(alloc, rows, parts, of_prelude.len())?;
    shapes.append(&mut of_prelude)?;
    Ok(shapes)
}

// With room for some more behind them.
fn with_parts(
    alloc: Global,
    rows: Vec<BareShape>,
    parts: Vec<ShapePart>,
    more: usize,
) -> Result<Vec<GraphShape>, NoMemory>
    ensures { IfOk result (λ shapes. given_view shapes.items ≡ parted_shapes rows.items parts.items) }
{
    let mut shapes = Vec::with_capacity(alloc, rows.len().saturating_add(more))?;
    let mut parts = parts.into_iter();
    for row in rows {
        match parts.next() {
            None => return Ok(shapes),
            Some(part) => shapes.push(with_part(row, part))?,
        }
    }
    Ok(shapes)
}

fn with_part(row: BareShape, part: ShapePart) -> GraphShape
    ensures { shape_given_view result ≡ parted_shape (bare_view row) part }
{
    let BareShape {
        id,
        kind,
        members: _,
        properties,
        mixins: _,
    } = row;
    let ShapePart { members, traits } = part;
    GraphShape {
        id,
        kind,
        members,
        properties,
        traits,
    }
}

fn metadata_pairs(alloc: Global, rows: Vec<NamedValue>) -> Result<Vec<(Text, Tree)>, NoMemory>
    ensures { IfOk result (λ pairs. members_view pairs.items ≡ pairs_of rows.items) }
{
    let mut pairs = Vec::with_capacity(alloc, rows.len())?;
    for row in rows {
        pairs.push((row.name, row.folded.value))?;
    }
    Ok(pairs)
}
