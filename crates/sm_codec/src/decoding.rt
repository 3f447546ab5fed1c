// The value of a whole tree: a decoder walks it.
ghost use Rattle.std.specs.Prelude.{◌≡◌, ◌<◌};
ghost use Rattle.sm_tree.specs.View.{node_of};
ghost use Rattle.sm_shapes.specs.InOrder.{Shaped, Built};
ghost use Rattle.sm_shapes.specs.Places.{root_place};
ghost use Rattle.sm_shapes.specs.TableData.{shape_count};
ghost use Rattle.sm_shapes.specs.TableView.{table_data};
ghost use Rattle.sm_codec.specs.Codec.{codec_of};
ghost use Rattle.sm_codec.specs.DecodingView.{DecodesTree};

use crate::Leaves;
use crate::decoder::{Decoder, Refusal};
use sm_shapes::Patterns;
use sm_shapes::tables::Table;
use sm_shapes::values::Value;
use sm_tree::Tree;
use std::alloc::Global;

/// The value that a tree spells of the shape with this number, or the tree's first fault, in model order. `NoMemory` where the allocator
/// refuses the memory for it. The store isn't changed.
pub fn decode<L: Leaves, P: Patterns>(
    alloc: Global,
    table: &Table,
    shape: u32,
    tree: &Tree,
    leaves: &L,
    patterns: &mut P,
) -> Result<Value, Refusal>
    requires shaped { Shaped (table_data table.now) }
    requires built { Built (table_data table.now) (P.added patterns.old) P.test }
    requires shape { shape < shape_count (table_data table.now) }
    ensures decoded { DecodesTree (codec_of (table_data table.now) (L.convention leaves.now) P.test) (root_place shape)
        (node_of tree.now) result }
    ensures added { P.added patterns.new ≡ P.added patterns.old }
    ensures refused { P.refused patterns.new ≡ P.refused patterns.old }
    ensures refusals { P.refusals patterns.new ≡ P.refusals patterns.old }
{
    leaves.laws();
    let mut decoder = Decoder::new(alloc, shape);
    match decoder.walk(alloc, table, tree, leaves, patterns) {
        Ok(()) => decoder.finish(),
        Err(_) => Err(Refusal::NoMemory),
    }
}
