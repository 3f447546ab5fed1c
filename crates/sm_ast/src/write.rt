// Models written in the JSON AST: the one tree of a graph.
ghost use Rattle.std.specs.Prelude.{◌≡◌, IfOk};
ghost use Rattle.sm_tree.specs.View.{node_of, members_view};
ghost use Rattle.sm_model.specs.GraphView.{maps_of};
ghost use Rattle.sm_ast.specs.Written.{ast_object, written_ast};

mod field;
mod member;
mod property;
mod reference;
mod shape;

use field::{put_filled_object, put_text};
use shape::shape_pairs;
use sm_model::Graph;
use sm_tree::{NoMemory, Pairs, Text, Tree, copy_pairs};
use std::alloc::Global;

/// The one tree that is written for a graph: its metadata and its shapes in the order of their names, without the shapes of the
/// prelude, with fields in the order of the layout, and without fields that are missing or have nothing in them. Each trait's
/// value is copied once. Refused only where the allocator refuses memory.
pub fn write_ast(alloc: Global, graph: &Graph) -> Result<Tree, NoMemory>
    ensures { IfOk result (λ tree. node_of tree ≡ written_ast (maps_of graph.now)) }
{
    let shapes = shape_pairs(alloc, graph)?;
    written(alloc, graph.metadata(), shapes)
}

fn written(
    alloc: Global,
    metadata: &[(Text, Tree)],
    shapes: Vec<(Text, Tree)>,
) -> Result<Tree, NoMemory>
    ensures { IfOk result (λ tree. node_of tree ≡ ast_object (members_view metadata.now) (members_view shapes.items)) }
{
    let mut fields = Vec::new(alloc);
    put_text(alloc, "smithy", "2.0", &mut fields)?;
    let copies = copy_pairs(alloc, metadata)?;
    put_filled_object(alloc, "metadata", copies, &mut fields)?;
    put_filled_object(alloc, "shapes", shapes, &mut fields)?;
    Ok(Tree::Object(Pairs::new(fields)))
}
