// What several rules look up in a graph, made once for all of them.
ghost use Rattle.std.specs.Prelude.{IfOk};
ghost use Rattle.sm_load.specs.steps.Sharing.{AreShared};

use sm_http_rules::sides::Sides;
use sm_model::Graph;
use sm_select::Ways;
use sm_tree::NoMemory;
use sm_value_rules::value_marks::ValueMarks;
use std::alloc::Global;

/// What the rules of a graph share.
#[derive(Drop)]
pub(crate) struct Shared {
    /// Its links, and the steps along them.
    pub(crate) ways: Ways,
    /// The shapes on each side of messages of HTTP.
    pub(crate) sides: Sides,
    /// The shapes for which nodes are checked, and what stands as a trait.
    pub(crate) marks: ValueMarks,
}

impl Shared {
    /// That of a graph. n log n.
    pub(crate) fn new(alloc: Global, graph: &Graph) -> Result<Self, NoMemory>
        ensures { IfOk result (λ shared. AreShared graph.now shared) }
    {
        let ways = Ways::new(alloc, graph)?;
        let sides = Sides::new(alloc, graph, &ways)?;
        let marks = ValueMarks::new(alloc, graph, &ways)?;
        Ok(Shared { ways, sides, marks })
    }
}
