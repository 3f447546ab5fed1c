// Turns of a walk that enters each shape once, without recursion, and none that is known to be served, and so finds the first way to a shape
// that isn't served.
ghost use Rattle.std.specs.Prelude.{◌≡◌, ◌++◌, ◌∷◌, [], IfOk, OnOk, Some, length, slice_get, string_bytes};
ghost use Rattle.sm_bytes.specs.Ascii.{slash};
ghost use Rattle.sm_model.specs.GraphView.{IsShapeNumber, entries_of, maps_of};
ghost use Rattle.sm_model.specs.Reaching.{id_of_number};
ghost use Rattle.sm_compile.specs.Compiled.{members_under};
ghost use Rattle.sm_compile.specs.Served.{IsUnserved};
ghost use Rattle.sm_compile.specs.steps.Looked.{target_under};
ghost use Rattle.sm_compile.specs.steps.Walking.{AreEntered, FindsAt, FindsNext, FindsTo, IsNext, NoneIsNext, Turns, Walks, path_by};

use crate::compiled::Served;
use crate::look::target_of;
use crate::names::member_name;
use crate::numbering::value_members;
use crate::unserved::is_unserved;
use sm_model::Graph;
use sm_tree::{NoMemory, Text};
use std::alloc::Global;

/// A shape from which a walk went on, with the number and the name of the member by which it did.
#[derive(Clone, Copy, Drop)]
pub(crate) struct Above<'a> {
    /// The shape's number in the graph.
    pub shape: u32,
    /// The member's number in the shape.
    pub at: usize,
    /// Its name.
    pub name: &'a str,
}

/// A step from a shape: by the member of this number and name, to this shape.
#[derive(Clone, Copy, Drop)]
pub(crate) struct NextStep<'a> {
    /// The member's number in the shape.
    pub at: usize,
    /// Its name.
    pub name: &'a str,
    /// The target's number in the graph.
    pub to: u32,
}

/// Where a walk stands.
#[derive(Drop)]
pub(crate) struct Walk<'a> {
    /// Which shapes are known to be served, as marks of all numbers: it goes to none of them.
    pub known: Vec<bool>,
    /// Which shapes it has entered, as marks of all numbers.
    pub marks: Vec<bool>,
    /// The numbers of those, each once.
    pub entered: Vec<u32>,
    /// The shapes that lead to the one where it stands, the outermost first.
    pub above: Vec<Above<'a>>,
    /// The shape where it stands.
    pub shape: u32,
    /// The member of it that comes next.
    pub at: usize,
}

/// How a turn of a walk ends.
#[derive(Drop)]
pub(crate) enum Turn {
    /// It goes on.
    On,
    /// It has come to an end.
    Ended(Served),
}

/// One turn: on to the next shape that wasn't entered, back from a shape that has none, or to the end.
pub(crate) fn take_turn<'a>(
    alloc: Global,
    graph: &'a Graph,
    walk: &mut Walk<'a>,
) -> Result<Turn, NoMemory>
    requires { Walks graph.now walk.old }
    ensures kept { AreEntered graph.now walk.new }
    ensures turn { IfOk result (λ turn. Turns graph.now walk.old walk.new turn) }
{
    match next_step(
        graph,
        walk.known.as_slice(),
        walk.marks.as_slice(),
        walk.shape,
        walk.at,
    ) {
        Some(next) => go_on(alloc, graph, walk, next),
        None => Ok(leave(graph, walk)),
    }
}

// On to the next shape, or the end, where it isn't served by itself.
fn go_on<'a>(
    alloc: Global,
    graph: &'a Graph,
    walk: &mut Walk<'a>,
    next: NextStep<'a>,
) -> Result<Turn, NoMemory>
    requires walk { Walks graph.now walk.old }
    requires next { IsNext graph.now walk.old.known.items walk.old.marks.items walk.old.shape walk.old.at next }
    ensures kept { AreEntered graph.now walk.new }
    ensures turn { IfOk result (λ turn. Turns graph.now walk.old walk.new turn) }
{
    if is_unserved(graph, next.to) {
        find(alloc, graph, walk, next)
    } else {
        enter(graph, walk, next)
    }
}

// The end, at the next shape.
fn find<'a>(
    alloc: Global,
    graph: &'a Graph,
    walk: &mut Walk<'a>,
    next: NextStep<'a>,
) -> Result<Turn, NoMemory>
    requires walk { Walks graph.now walk.old }
    requires next { IsNext graph.now walk.old.known.items walk.old.marks.items walk.old.shape walk.old.at next }
    requires unserved { IsUnserved (maps_of graph.now) (id_of_number graph.now next.to) }
    ensures kept { AreEntered graph.now walk.new }
    ensures turn { IfOk result (λ turn. Turns graph.now walk.old walk.new turn) }
{
    let path = path_of(alloc, walk.above.as_slice(), next.name)?;
    Ok(Turn::Ended(Served::Unserved(path)))
}

// Into the next shape.
fn enter<'a>(graph: &'a Graph, walk: &mut Walk<'a>, next: NextStep<'a>) -> Result<Turn, NoMemory>
    requires walk { Walks graph.now walk.old }
    requires next { IsNext graph.now walk.old.known.items walk.old.marks.items walk.old.shape walk.old.at next }
    requires served { IsUnserved (maps_of graph.now) (id_of_number graph.now next.to) → ⊥ }
    ensures kept { AreEntered graph.now walk.new }
    ensures turn { IfOk result (λ turn. Turns graph.now walk.old walk.new turn) }
{
    let above = Above {
        shape: walk.shape,
        at: next.at,
        name: next.name,
    };
    walk.above.push(above)?;
    walk.entered.push(next.to)?;
    walk.marks[next.to as usize] = true;
    walk.shape = next.to;
    walk.at = 0;
    Ok(Turn::On)
}

// Back to the shape from which the walk came; there the member by which it went on is looked at again, and passed by.
fn leave<'a>(graph: &'a Graph, walk: &mut Walk<'a>) -> Turn
    requires walk { Walks graph.now walk.old }
    requires none { NoneIsNext graph.now walk.old.known.items walk.old.marks.items walk.old.shape walk.old.at }
    ensures kept { AreEntered graph.now walk.new }
    ensures turn { Turns graph.now walk.old walk.new result }
{
    match walk.above.pop() {
        Some(above) => {
            walk.shape = above.shape;
            walk.at = above.at;
            Turn::On
        }
        None => Turn::Ended(Served::Yes),
    }
}

// The names of the members by which a walk went, with one more behind them, as a path.
fn path_of(alloc: Global, above: &[Above<'_>], last: &str) -> Result<Text, NoMemory>
    ensures { IfOk result (λ path. path ≡ path_by above.now last.now) }
{
    let mut path = String::new(alloc);
    for step in above {
        put_name(&mut path, step.name)?;
    }
    path.push_str(last)?;
    Ok(Text::new(path))
}

fn put_name(path: &mut String, name: &str) -> Result<(), NoMemory>
    ensures { OnOk result (string_bytes path.new ≡ string_bytes path.old ++ name.now ++ slash ∷ []) }
{
    path.push_str(name)?;
    path.push('/')?;
    Ok(())
}

// The first step from a shape, by a member of this number or a later one, to a shape that wasn't entered and isn't known to be served.
fn next_step<'a>(
    graph: &'a Graph,
    known: &[bool],
    marks: &[bool],
    shape: u32,
    start: usize,
) -> Option<NextStep<'a>>
    requires known { length known.now ≡ length (entries_of graph.now) }
    requires count { length marks.now ≡ length (entries_of graph.now) }
    requires number { IsShapeNumber graph.now shape }
    ensures { FindsNext graph.now known.now marks.now shape start result }
{
    let members = value_members(graph, shape);
    for at in start..members.len() {
        match fresh_step(graph, known, marks, shape, at, members[at]) {
            Some(next) => return Some(next),
            None => {}
        }
    }
    None
}

// The step by the member of this number, where it leads to a shape that wasn't entered and isn't known to be served.
fn fresh_step<'a>(
    graph: &'a Graph,
    known: &[bool],
    marks: &[bool],
    shape: u32,
    at: usize,
    member: u32,
) -> Option<NextStep<'a>>
    requires known { length known.now ≡ length (entries_of graph.now) }
    requires count { length marks.now ≡ length (entries_of graph.now) }
    requires shape { IsShapeNumber graph.now shape }
    requires member { IsShapeNumber graph.now member }
    requires stands { slice_get (members_under (maps_of graph.now) (id_of_number graph.now shape)) at
        ≡ Some (id_of_number graph.now member) }
    ensures { FindsAt graph.now known.now marks.now shape at result }
{
    match target_of(graph, member) {
        Some(to) => {
            if marks[to as usize] || known[to as usize] {
                None
            } else {
                named_step(graph, shape, at, member, to)
            }
        }
        None => None,
    }
}

// The step by a member to its target, where the member has a name.
fn named_step<'a>(
    graph: &'a Graph,
    shape: u32,
    at: usize,
    member: u32,
    to: u32,
) -> Option<NextStep<'a>>
    requires shape { IsShapeNumber graph.now shape }
    requires member { IsShapeNumber graph.now member }
    requires stands { slice_get (members_under (maps_of graph.now) (id_of_number graph.now shape)) at
        ≡ Some (id_of_number graph.now member) }
    requires target { target_under (maps_of graph.now) (id_of_number graph.now member) ≡ Some (id_of_number graph.now to) }
    ensures { FindsTo graph.now shape at to result }
{
    match member_name(graph, shape, member) {
        Some(name) => Some(NextStep { at, name, to }),
        None => None,
    }
}
