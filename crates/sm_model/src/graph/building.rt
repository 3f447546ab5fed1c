// Making a graph. The shapes are sorted once by their ids, and the members of each shape by theirs.
ghost use Rattle.std.specs.Prelude.{◌≡◌, ◌<◌, ◌^◌, IfOk, length};
ghost use Rattle.sm_tree.specs.View.{members_view};
ghost use Rattle.sm_model.specs.Given.{AreGiven, AreGivenShapes, given_ids};
ghost use Rattle.sm_model.specs.GivenView.{given_view};
ghost use Rattle.sm_model.specs.Graphs.{given_entries, graph_of};
ghost use Rattle.sm_model.specs.GraphView.{maps_of};
ghost use Rattle.sm_model.specs.steps.Blocks.{AreRowsOf};
ghost use Rattle.sm_model.specs.steps.Rising.{Rise};

use super::blocks::put_block;
use super::given::GraphShape;
use super::sorting::{pairs_in_order, shapes_in_order};
use super::targets::targets_of;
use super::{Graph, GraphRow};
use sm_tree::{NoMemory, Pairs, Text, Tree};
use std::alloc::Global;

// The rows of shapes that are in the order of their ids.
fn rows_of(alloc: Global, shapes: Vec<GraphShape>) -> Result<Vec<GraphRow>, NoMemory>
    requires given { AreGivenShapes (given_view shapes.items) }
    requires rise { Rise (given_ids (given_view shapes.items)) }
    requires few { length (given_entries (given_view shapes.items)) < 2 ^ 32 }
    ensures { IfOk result (λ rows. AreRowsOf (given_view shapes.items) rows.items) }
{
    let mut rows = Vec::new(alloc);
    for shape in shapes {
        put_block(alloc, &mut rows, shape)?;
    }
    Ok(rows)
}

impl Graph {
    /// The graph of these shapes and this metadata, each in any order. No trait value is copied. `NoMemory` where the rows, the
    /// ids of the members or their numbers find no room.
    pub fn build(
        alloc: Global,
        shapes: Vec<GraphShape>,
        metadata: Vec<(Text, Tree)>,
    ) -> Result<Self, NoMemory>
        requires { AreGiven (given_view shapes.items) (members_view metadata.items) }
        ensures { IfOk result (λ g. maps_of g ≡ graph_of (given_view shapes.items) (members_view metadata.items)) }
    {
        let metadata = pairs_in_order(Pairs::new(metadata));
        let rows = rows_of(alloc, shapes_in_order(shapes))?;
        let targets = targets_of(alloc, rows.as_slice())?;
        Ok(Graph {
            rows,
            metadata,
            targets,
        })
    }
}
