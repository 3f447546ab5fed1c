// What is looked up once for the rules on values: the shapes for which nodes are checked, and all that stands as a trait.
ghost use Rattle.std.specs.Prelude.{IfOk};
ghost use Rattle.sm_select.specs.Ways.{AreWays};
ghost use Rattle.sm_value_rules.specs.Marking.{AreValueMarks};

use crate::checked::checked_shapes;
use crate::used::used_traits;
use sm_model::Graph;
use sm_select::Ways;
use sm_tree::NoMemory;
use std::alloc::Global;

/// Shapes and members as marks by their numbers, for the rules on values.
#[derive(Drop)]
pub struct ValueMarks {
    /// The shapes for which nodes are checked.
    pub checked: Vec<bool>,
    /// What stands as a trait somewhere.
    pub used: Vec<bool>,
}

impl ValueMarks {
    /// The marks of a graph, by its ways. n log n.
    pub fn new(alloc: Global, graph: &Graph, ways: &Ways) -> Result<Self, NoMemory>
        requires { AreWays graph.now ways.now }
        ensures { IfOk result (λ marks. AreValueMarks graph.now marks) }
    {
        let checked = checked_shapes(alloc, graph, &ways.links)?;
        let used = used_traits(alloc, graph)?;
        Ok(ValueMarks { checked, used })
    }
}
