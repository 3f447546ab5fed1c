// Putting what a graph is made from into the order of the bytes of names and of ids. Nothing takes memory.
ghost use Rattle.std.specs.Prelude.{IsPermutation, IsTrue};
ghost use Rattle.std.specs.FinMap as fin;
ghost use Rattle.sm_tree.specs.View.{members_view, pairs_view};
ghost use Rattle.sm_model.specs.Formed.{DifferInNames};
ghost use Rattle.sm_model.specs.Given.{are_under, given_ids};
ghost use Rattle.sm_model.specs.GivenView.{given_view};
ghost use Rattle.sm_model.specs.GraphRows.{ids_of};
ghost use Rattle.sm_model.specs.Graphs.{text_cmp};
ghost use Rattle.sm_model.specs.steps.Rising.{KeepsMap, Rise};

use super::GraphRow;
use super::given::GraphShape;
use sm_tree::{Pairs, Text, Tree};

// The trees in the order of their names.
fn trees_in_order(mut trees: Vec<(Text, Tree)>) -> Vec<(Text, Tree)>
    requires { DifferInNames (are_under (members_view trees.items)) }
    ensures sorted { IsTrue (fin.is_sorted text_cmp (members_view result.items)) }
    ensures same { KeepsMap (members_view trees.items) (members_view result.items) }
{
    trees.sort_unstable_by(|a, b| a.0.as_str().cmp(b.0.as_str()));
    trees
}

/// The pairs in the order of their names.
pub(crate) fn pairs_in_order(pairs: Pairs) -> Pairs
    requires { DifferInNames (are_under (pairs_view pairs)) }
    ensures sorted { IsTrue (fin.is_sorted text_cmp (pairs_view result)) }
    ensures same { KeepsMap (pairs_view pairs) (pairs_view result) }
{
    Pairs::new(trees_in_order(pairs.into_inner()))
}

/// The shapes in the order of their ids.
pub(crate) fn shapes_in_order(mut shapes: Vec<GraphShape>) -> Vec<GraphShape>
    requires { DifferInNames (given_ids (given_view shapes.items)) }
    ensures moved { IsPermutation shapes.items result.items }
    ensures rise { Rise (given_ids (given_view result.items)) }
{
    shapes.sort_unstable_by(|a, b| a.id.cmp(&b.id));
    shapes
}

/// The rows in the order of their ids.
pub(crate) fn rows_in_order(mut rows: Vec<GraphRow>) -> Vec<GraphRow>
    requires { DifferInNames (ids_of rows.items) }
    ensures moved { IsPermutation rows.items result.items }
    ensures rise { Rise (ids_of result.items) }
{
    rows.sort_unstable_by(|a, b| a.id.cmp(&b.id));
    rows
}
