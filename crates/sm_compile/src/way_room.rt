// Room for walks over a graph, one after the other: what a walk marks is taken back, so that it costs what it reaches, and not the graph.
// What is known to be served before they go costs nothing.
ghost use Rattle.std.specs.Prelude.{◌≡◌, IfOk, OnOk, [], false, length, replicate};
ghost use Rattle.sm_model.specs.GraphView.{IsShapeNumber, maps_of};
ghost use Rattle.sm_model.specs.Reaching.{AreFound, id_of_number};
ghost use Rattle.sm_compile.specs.Answers.{TellsServed};
ghost use Rattle.sm_compile.specs.Served.{IsUnserved};
ghost use Rattle.sm_compile.specs.WayRooms.{AreKnownServed, IsClearWalk, IsRoomFor};
ghost use Rattle.sm_compile.specs.steps.Walking.{AreEntered, IsWalk};

use crate::compiled::Served;
use crate::reach::unmark_all;
use crate::unserved::is_unserved;
use crate::way::{Turn, Walk, take_turn};
use sm_model::{Graph, no_marks};
use sm_tree::{NoMemory, Text};
use std::alloc::Global;

/// Room for walks over one graph, one after the other.
#[derive(Drop)]
pub struct WayRoom<'a> {
    walk: Walk<'a>,
}

impl<'a> WayRoom<'a> {
    /// Room for the walks over a graph: a mark for each of its numbers. `NoMemory` where they find none.
    pub fn new(alloc: Global, graph: &Graph) -> Result<Self, NoMemory>
        ensures { IfOk result (λ room. IsRoomFor graph.now room) }
    {
        let known = no_marks(alloc, graph.count() as usize)?;
        WayRoom::over(alloc, graph, known)
    }

    /// The same where these shapes, marks of all numbers, are known to be served: no walk goes to them.
    pub fn over(alloc: Global, graph: &Graph, known: Vec<bool>) -> Result<Self, NoMemory>
        requires known { AreKnownServed graph.now known.items }
        ensures { IfOk result (λ room. IsRoomFor graph.now room) }
    {
        let marks = no_marks(alloc, graph.count() as usize)?;
        let walk = Walk {
            known,
            marks,
            entered: Vec::new(alloc),
            above: Vec::new(alloc),
            shape: 0,
            at: 0,
        };
        Ok(WayRoom { walk })
    }

    /// Whether values of all that a shape reaches can be carried, or the first member path to a shape whose values can't. One step where
    /// the shape is known to be served, else n log n in what is reached by steps that don't go by one that is. `NoMemory` where the walk,
    /// or the path, finds no room. The room serves again, whatever is answered.
    pub fn served(&mut self, alloc: Global, graph: &'a Graph, root: u32) -> Result<Served, NoMemory>
        requires number { IsShapeNumber graph.now root }
        requires room { IsRoomFor graph.now self.old }
        ensures room { IsRoomFor graph.now self.new }
        ensures served { IfOk result (λ s. TellsServed (maps_of graph.now) (id_of_number graph.now root) s) }
    {
        if self.walk.known[root as usize] {
            Ok(Served::Yes)
        } else if is_unserved(graph, root) {
            unserved_root(alloc, graph, root)
        } else {
            let answer = walk_from(alloc, graph, &mut self.walk, root);
            clear(&mut self.walk);
            answer
        }
    }
}

/// The same of one shape alone, in room of its own.
pub(crate) fn served(alloc: Global, graph: &Graph, root: u32) -> Result<Served, NoMemory>
    requires { IsShapeNumber graph.now root }
    ensures { IfOk result (λ s. TellsServed (maps_of graph.now) (id_of_number graph.now root) s) }
{
    let mut room = WayRoom::new(alloc, graph)?;
    room.served(alloc, graph, root)
}

// The answer where the shape itself isn't served.
fn unserved_root(alloc: Global, graph: &Graph, root: u32) -> Result<Served, NoMemory>
    requires { IsUnserved (maps_of graph.now) (id_of_number graph.now root) }
    ensures { IfOk result (λ s. TellsServed (maps_of graph.now) (id_of_number graph.now root) s) }
{
    let path = Text::copy(alloc, "")?;
    Ok(Served::Unserved(path))
}

// The answer where the shape itself is served. What was entered is marked then, and nothing else.
fn walk_from<'a>(
    alloc: Global,
    graph: &'a Graph,
    walk: &mut Walk<'a>,
    root: u32,
) -> Result<Served, NoMemory>
    requires number { IsShapeNumber graph.now root }
    requires clear { IsClearWalk graph.now walk.old }
    requires served { IsUnserved (maps_of graph.now) (id_of_number graph.now root) → ⊥ }
    ensures kept { AreEntered graph.now walk.new }
    ensures served { IfOk result (λ s. TellsServed (maps_of graph.now) (id_of_number graph.now root) s) }
{
    begin(graph, walk, root)?;
    loop {
        match take_turn(alloc, graph, walk) {
            Ok(Turn::On) => {}
            Ok(Turn::Ended(served)) => return Ok(served),
            Err(refusal) => return Err(refusal),
        }
    }
}

// A walk that has entered its root alone.
fn begin<'a>(graph: &'a Graph, walk: &mut Walk<'a>, root: u32) -> Result<(), NoMemory>
    requires number { IsShapeNumber graph.now root }
    requires clear { IsClearWalk graph.now walk.old }
    requires served { IsUnserved (maps_of graph.now) (id_of_number graph.now root) → ⊥ }
    ensures kept { AreEntered graph.now walk.new }
    ensures walk { OnOk result (IsWalk graph.now (id_of_number graph.now root) walk.new) }
{
    walk.entered.push(root)?;
    walk.marks[root as usize] = true;
    walk.shape = root;
    walk.at = 0;
    Ok(())
}

// Takes back the marks of what was entered: nothing is marked then, and nothing is above.
fn clear(walk: &mut Walk<'_>)
    requires { AreFound walk.old.marks.items walk.old.entered.items }
    ensures marks { walk.new.marks.items ≡ replicate (length walk.old.marks.items) false }
    ensures entered { walk.new.entered.items ≡ [] }
    ensures above { walk.new.above.items ≡ [] }
    ensures known { walk.new.known.items ≡ walk.old.known.items }
{
    unmark_all(walk.entered.as_slice(), &mut walk.marks);
    walk.entered.clear();
    walk.above.clear();
}
