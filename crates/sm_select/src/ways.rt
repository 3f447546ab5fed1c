// Ways along the links of a graph, and the numbers to which one relation, one step or a walk leads from marked ones.
ghost use Rattle.std.specs.Prelude.{◌≡◌, IfOk, length};
ghost use Rattle.sm_model.specs.GraphView.{entries_of, maps_of};
ghost use Rattle.sm_model.specs.Links.{AreLinks};
ghost use Rattle.sm_model.specs.Relations.{IsNeighbor, Reaches};
ghost use Rattle.sm_select.specs.Images.{AreImage, turned};
ghost use Rattle.sm_select.specs.Picks.{LeadsAlong};
ghost use Rattle.sm_select.specs.Ways.{AreSteps, AreWays};

use crate::follow::followed;
use crate::neighbors::Neighbors;
use crate::reach::reached;
use sm_model::{Graph, Link, Relation};
use sm_tree::NoMemory;
use std::alloc::Global;

/// The relations that are followed where none is named.
const FOLLOWED: [Relation; 9] = [
    Relation::Member,
    Relation::Target,
    Relation::Input,
    Relation::Output,
    Relation::Error,
    Relation::Operation,
    Relation::Resource,
    Relation::Identifier,
    Relation::Property,
];

/// What is looked up once for all steps along the links of a graph.
#[derive(Drop)]
pub struct Ways {
    /// The links of the graph.
    pub links: Vec<Link>,
    /// Where a step leads to from each number.
    pub on: Neighbors,
    /// From where one leads to it.
    pub back: Neighbors,
}

impl Ways {
    /// The ways of a graph. `NoMemory` where they find no room.
    pub fn new(alloc: Global, graph: &Graph) -> Result<Self, NoMemory>
        ensures { IfOk result (λ ways. AreWays graph.now ways) }
    {
        let links = graph.links(alloc)?;
        let on = steps_of_links(alloc, graph, &links, false)?;
        let back = steps_of_links(alloc, graph, &links, true)?;
        Ok(Ways { links, on, back })
    }
}

/// The numbers to which links of these relations lead from marked ones, or with `back` from which they lead to them, as marks. Each
/// link is looked at once. `NoMemory` where the marks find no room.
pub fn image_along(
    alloc: Global,
    graph: &Graph,
    ways: &Ways,
    relations: &[Relation],
    back: bool,
    starts: &[bool],
) -> Result<Vec<bool>, NoMemory>
    requires count { length starts.now ≡ length (entries_of graph.now) }
    requires ways { AreWays graph.now ways.now }
    ensures { IfOk result (λ marks. AreImage graph.now starts.now
        (turned back (LeadsAlong (maps_of graph.now) relations.now)) marks.items) }
{
    followed(alloc, &ways.links, relations, back, starts)
}

/// The numbers to which one link of any relation but that from a member to its shape leads from marked ones, or with `back` from which
/// it leads to them, as marks.
pub(crate) fn image_of_one(
    alloc: Global,
    graph: &Graph,
    ways: &Ways,
    back: bool,
    starts: &[bool],
) -> Result<Vec<bool>, NoMemory>
    requires count { length starts.now ≡ length (entries_of graph.now) }
    requires ways { AreWays graph.now ways.now }
    ensures { IfOk result (λ marks. AreImage graph.now starts.now (turned back (IsNeighbor (maps_of graph.now))) marks.items) }
{
    image_along(alloc, graph, ways, &FOLLOWED, back, starts)
}

/// The numbers to which one link or more of any relation but that from a member to its shape lead from marked ones, or with `back`
/// from which they lead to them, as marks. Each link is taken once.
pub fn image_of_walk(
    alloc: Global,
    graph: &Graph,
    ways: &Ways,
    back: bool,
    starts: &[bool],
) -> Result<Vec<bool>, NoMemory>
    requires count { length starts.now ≡ length (entries_of graph.now) }
    requires ways { AreWays graph.now ways.now }
    ensures { IfOk result (λ marks. AreImage graph.now starts.now (turned back (Reaches (maps_of graph.now))) marks.items) }
{
    if back {
        image_by_steps(alloc, graph, &ways.back, back, starts)
    } else {
        image_by_steps(alloc, graph, &ways.on, back, starts)
    }
}

// The numbers to which one of these steps or more lead from marked ones, as marks.
fn image_by_steps(
    alloc: Global,
    graph: &Graph,
    neighbors: &Neighbors,
    back: bool,
    starts: &[bool],
) -> Result<Vec<bool>, NoMemory>
    requires count { length starts.now ≡ length (entries_of graph.now) }
    requires steps { AreSteps graph.now back neighbors.now }
    ensures { IfOk result (λ marks. AreImage graph.now starts.now (turned back (Reaches (maps_of graph.now))) marks.items) }
{
    reached(alloc, neighbors, starts)
}

// The steps of a graph whose links these are.
fn steps_of_links(
    alloc: Global,
    graph: &Graph,
    links: &[Link],
    back: bool,
) -> Result<Neighbors, NoMemory>
    requires { AreLinks graph.now links.now }
    ensures { IfOk result (λ rows. AreSteps graph.now back rows) }
{
    Neighbors::new(alloc, graph.count(), links, back)
}
