// Room for walks over a graph, and what each of them told of a shape: where a shape is asked for again no walk goes, and the way from it is
// shared by all that ask.
ghost use Rattle.std.specs.Prelude.{◌≡◌, IfOk, None, replicate};
ghost use Rattle.sm_model.specs.GraphView.{IsShapeNumber, maps_of};
ghost use Rattle.sm_model.specs.Reaching.{id_of_number};
ghost use Rattle.sm_compile.specs.Answers.{TellsServed};
ghost use Rattle.sm_compile.specs.WayRooms.{AreKnownServed, IsRoomFor};
ghost use Rattle.sm_compile.specs.declared.compiled.Served.TheVariants.{Unserved};
ghost use Rattle.sm_service.specs.steps.ServingRooms.{IsServingRoom, shape_said};

use sm_compile::{Served, WayRoom};
use sm_model::Graph;
use sm_tree::{NoMemory, Text};
use std::alloc::Global;
use std::rc::Rc;

/// Whether values of all that a shape reaches can be carried.
#[derive(Drop)]
pub(crate) enum ShapeServed {
    /// They can.
    Yes,
    /// The names of the members on the first way to a shape whose values can't, joined by `/`; empty for the shape itself.
    Unserved(Rc<Text>),
}

impl ShapeServed {
    // The same answer; a way is shared.
    fn share(&self) -> Result<Self, NoMemory>
        ensures { IfOk result (λ same. shape_said same ≡ shape_said self.now) }
    {
        match self {
            ShapeServed::Yes => Ok(ShapeServed::Yes),
            ShapeServed::Unserved(way) => match way.clone() {
                Ok(way) => Ok(ShapeServed::Unserved(way)),
                Err(_) => Err(NoMemory),
            },
        }
    }
}

/// Room for the walks over one graph, and what they told.
#[derive(Drop)]
pub(crate) struct ServingRoom<'a> {
    // Room for one walk after the other.
    walks: WayRoom<'a>,
    // What was told of the shape at each number of the graph: nothing, where it wasn't asked for.
    told: Vec<Option<ShapeServed>>,
}

impl<'a> ServingRoom<'a> {
    /// Room for the walks over a graph in which these shapes, marks of all numbers, are known to be served. Nothing is told yet.
    pub(crate) fn over(alloc: Global, graph: &Graph, known: Vec<bool>) -> Result<Self, NoMemory>
        requires known { AreKnownServed graph.now known.items }
        ensures { IfOk result (λ room. IsServingRoom graph.now room) }
    {
        let walks = WayRoom::over(alloc, graph, known)?;
        let told = none_told(alloc, graph.count() as usize)?;
        Ok(ServingRoom { walks, told })
    }

    /// Whether values of all that a shape reaches can be carried, or the first way to a shape whose values can't. One step where the shape
    /// was asked for before, else a walk. The room serves again, whatever is answered.
    pub(crate) fn served(
        &mut self,
        alloc: Global,
        graph: &'a Graph,
        root: u32,
    ) -> Result<ShapeServed, NoMemory>
        requires number { IsShapeNumber graph.now root }
        requires room { IsServingRoom graph.now self.old }
        ensures room { IsServingRoom graph.now self.new }
        ensures served { IfOk result (λ s. TellsServed (maps_of graph.now) (id_of_number graph.now root) (shape_said s)) }
    {
        match &self.told[root as usize] {
            Some(told) => told.share(),
            None => self.ask(alloc, graph, root),
        }
    }

    // The answer of a walk, which is kept.
    fn ask(&mut self, alloc: Global, graph: &'a Graph, root: u32) -> Result<ShapeServed, NoMemory>
        requires number { IsShapeNumber graph.now root }
        requires room { IsServingRoom graph.now self.old }
        ensures room { IsServingRoom graph.now self.new }
        ensures served { IfOk result (λ s. TellsServed (maps_of graph.now) (id_of_number graph.now root) (shape_said s)) }
    {
        let served = walk_from(alloc, graph, &mut self.walks, root)?;
        let kept = served.share()?;
        self.told[root as usize] = Some(kept);
        Ok(served)
    }
}

// Nothing under so many numbers.
fn none_told(alloc: Global, count: usize) -> Result<Vec<Option<ShapeServed>>, NoMemory>
    ensures { IfOk result (λ told. told.items ≡ replicate count None) }
{
    let mut told = Vec::with_capacity(alloc, count)?;
    for _ in 0..count {
        told.push(None)?;
    }
    Ok(told)
}

// The answer of a walk, whose way may be shared.
fn walk_from<'a>(
    alloc: Global,
    graph: &'a Graph,
    walks: &mut WayRoom<'a>,
    root: u32,
) -> Result<ShapeServed, NoMemory>
    requires number { IsShapeNumber graph.now root }
    requires room { IsRoomFor graph.now walks.old }
    ensures room { IsRoomFor graph.now walks.new }
    ensures served { IfOk result (λ s. TellsServed (maps_of graph.now) (id_of_number graph.now root) (shape_said s)) }
{
    match walks.served(alloc, graph, root) {
        Ok(Served::Yes) => Ok(ShapeServed::Yes),
        Ok(Served::Unserved(way)) => unserved_by(alloc, way),
        Err(refusal) => Err(refusal),
    }
}

// That a shape isn't served, by this way.
fn unserved_by(alloc: Global, way: Text) -> Result<ShapeServed, NoMemory>
    ensures { IfOk result (λ s. shape_said s ≡ Unserved way) }
{
    match Rc::new(alloc, way) {
        Ok(way) => Ok(ShapeServed::Unserved(way)),
        Err(_) => Err(NoMemory),
    }
}
