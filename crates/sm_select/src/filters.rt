// Filters: whether a step keeps a shape or member.
ghost use Rattle.std.specs.Prelude.{◌≡◌, ◌↔◌, ℕ, IfOk, IsTrue, List, Some, length, map, true};
ghost use Rattle.std.specs.List.{Contains};
ghost use Rattle.sm_model.specs.Graphs.{GraphMaps};
ghost use Rattle.sm_model.specs.GraphView.{IsShapeNumber, entries_of, maps_of};
ghost use Rattle.sm_model.specs.Reaching.{id_of_number};
ghost use Rattle.sm_select.specs.Picks.{Compares, IsTaken, folded};
ghost use Rattle.sm_select.specs.View.{path_view};
ghost use Rattle.sm_select.specs.steps.Filtering.{AreKept, HasSomeValue, IsNamedAt};
ghost use Rattle.sm_select.specs.steps.Staying.{AreKeptAmong};

use crate::compare::{folded_values, shows};
use crate::selector::{Compare, SelectorOp, SelectorPath};
use crate::values::value_of;
use sm_model::{Graph, Kind};
use sm_tree::{NoMemory, Text};
use std::alloc::Global;

/// What a step asks of a shape or member that it keeps.
pub(crate) trait Filter {
    ghost keeps: { Self → GraphMaps → List ℕ → Type 0 };

    /// Whether it keeps what stands at this number. `NoMemory` where the text to compare finds no room.
    fn keeps(&self, alloc: Global, graph: &Graph, number: u32) -> Result<bool, NoMemory>
        requires { IsShapeNumber graph.now number }
        ensures { IfOk result (λ kept. IsTrue kept ↔ keeps self.now (maps_of graph.now) (id_of_number graph.now number)) };
}

/// The marked numbers that the filter keeps, as marks.
pub(crate) fn kept<F: Filter>(
    alloc: Global,
    graph: &Graph,
    filter: &F,
    starts: &[bool],
) -> Result<Vec<bool>, NoMemory>
    requires { length starts.now ≡ length (entries_of graph.now) }
    ensures { IfOk result (λ marks. AreKept graph.now starts.now (F.keeps filter.now (maps_of graph.now)) marks.items) }
{
    let mut marks = Vec::with_capacity(alloc, starts.len())?;
    for number in 0..graph.count() {
        let keeps = keeps_start(alloc, graph, filter, starts[number as usize], number)?;
        marks.push(keeps)?;
    }
    Ok(marks)
}

/// The marked places of some numbers at which the filter keeps what stands there, as marks.
pub(crate) fn kept_among<F: Filter>(
    alloc: Global,
    graph: &Graph,
    filter: &F,
    numbers: &[u32],
    starts: &[bool],
) -> Result<Vec<bool>, NoMemory>
    requires numbers { (k : ℕ) → Contains numbers.now k → IsShapeNumber graph.now k }
    requires count { length starts.now ≡ length numbers.now }
    ensures { IfOk result
        (λ marks. AreKeptAmong graph.now numbers.now starts.now (F.keeps filter.now (maps_of graph.now)) marks.items) }
{
    let mut marks = Vec::with_capacity(alloc, numbers.len())?;
    for place in 0..numbers.len() {
        let keeps = keeps_start(alloc, graph, filter, starts[place], numbers[place])?;
        marks.push(keeps)?;
    }
    Ok(marks)
}

// Whether a number is a start, and the filter keeps it.
fn keeps_start<F: Filter>(
    alloc: Global,
    graph: &Graph,
    filter: &F,
    start: bool,
    number: u32,
) -> Result<bool, NoMemory>
    requires { IsShapeNumber graph.now number }
    ensures { IfOk result (λ kept. IsTrue kept
        ↔ ((start ≡ true) × F.keeps filter.now (maps_of graph.now) (id_of_number graph.now number))) }
{
    if start {
        filter.keeps(alloc, graph, number)
    } else {
        Ok(false)
    }
}

/// The marked numbers of shapes of a type, or of members.
pub(crate) fn kept_by_kind(
    alloc: Global,
    graph: &Graph,
    named: Option<Kind>,
    starts: &[bool],
) -> Result<Vec<bool>, NoMemory>
    requires { length starts.now ≡ length (entries_of graph.now) }
    ensures { IfOk result (λ marks. AreKept graph.now starts.now (IsNamedAt named (maps_of graph.now)) marks.items) }
{
    kept(alloc, graph, &ByKind { named }, starts)
}

/// The marked numbers at which a path has a value.
pub(crate) fn kept_by_path(
    alloc: Global,
    graph: &Graph,
    path: &SelectorPath,
    starts: &[bool],
) -> Result<Vec<bool>, NoMemory>
    requires { length starts.now ≡ length (entries_of graph.now) }
    ensures { IfOk result (λ marks. AreKept graph.now starts.now (HasSomeValue (path_view path.now) (maps_of graph.now)) marks.items) }
{
    kept(alloc, graph, &ByPath { path }, starts)
}

/// The marked numbers at which the value of a path shows a text that is asked for.
pub(crate) fn kept_by_text(
    alloc: Global,
    graph: &Graph,
    compare: &Compare,
    starts: &[bool],
) -> Result<Vec<bool>, NoMemory>
    requires { length starts.now ≡ length (entries_of graph.now) }
    ensures { IfOk result (λ marks. AreKept graph.now starts.now
        (λ id. Compares (maps_of graph.now) id (path_view compare.now.path) compare.now.op compare.now.fold
        (map (folded compare.now.fold) compare.now.values)) marks.items) }
{
    let values = folded_values(alloc, compare.fold, compare.values.as_slice())?;
    kept(
        alloc,
        graph,
        &ByText::of(compare, values.as_slice()),
        starts,
    )
}

/// The shapes of a type, or the members.
#[derive(Clone, Copy)]
pub(crate) struct ByKind {
    /// The type; `None` for members.
    pub named: Option<Kind>,
}

impl Filter for ByKind {
    ghost use Rattle.sm_select.specs.steps.Filtering.{IsNamedAt};

    ghost keeps = { λ filter g id. IsNamedAt filter.named g id };

    fn keeps(&self, _alloc: Global, graph: &Graph, number: u32) -> Result<bool, NoMemory> {
        Ok(is_named(graph, number, self.named))
    }
}

/// Where a path has a value.
#[derive(Clone, Copy)]
pub(crate) struct ByPath<'a> {
    /// The path.
    pub path: &'a SelectorPath,
}

impl Filter for ByPath<'_> {
    ghost use Rattle.sm_select.specs.View.{path_view};
    ghost use Rattle.sm_select.specs.steps.Filtering.{HasSomeValue};

    ghost keeps = { λ filter g id. HasSomeValue (path_view filter.path.now) g id };

    fn keeps(&self, _alloc: Global, graph: &Graph, number: u32) -> Result<bool, NoMemory> {
        Ok(has_value(graph, number, self.path))
    }
}

/// Where the value of a path shows a text that stands so to one of some values.
#[derive(Clone, Copy)]
pub(crate) struct ByText<'a> {
    /// The path.
    pub path: &'a SelectorPath,
    /// How the text must stand to a value.
    pub op: SelectorOp,
    /// Whether the text is folded before.
    pub fold: bool,
    /// The values, which are folded where the text is.
    pub values: &'a [Text],
}

impl<'a> ByText<'a> {
    /// What a comparison asks by its values, which are folded where the text is.
    pub fn of(compare: &'a Compare, values: &'a [Text]) -> Self
        ensures path { result.path.now ≡ compare.now.path }
        ensures op { result.op ≡ compare.now.op }
        ensures fold { result.fold ≡ compare.now.fold }
        ensures values { result.values.now ≡ values.now }
    {
        ByText {
            path: &compare.path,
            op: compare.op,
            fold: compare.fold,
            values,
        }
    }
}

impl Filter for ByText<'_> {
    ghost use Rattle.sm_select.specs.Picks.{Compares};
    ghost use Rattle.sm_select.specs.View.{path_view};

    ghost keeps = { λ filter g id. Compares g id (path_view filter.path.now) filter.op filter.fold filter.values.now };

    fn keeps(&self, alloc: Global, graph: &Graph, number: u32) -> Result<bool, NoMemory> {
        compares(alloc, graph, number, *self)
    }
}

/// Whether a path has a value at a shape or member. No memory.
pub(crate) fn has_value(graph: &Graph, number: u32, path: &SelectorPath) -> bool
    requires { IsShapeNumber graph.now number }
    ensures { IsTrue result ↔ HasSomeValue (path_view path.now) (maps_of graph.now) (id_of_number graph.now number) }
{
    match value_of(graph, number, path) {
        Some(_) => true,
        None => false,
    }
}

// Whether the value of a path shows a text that stands so to one of the values.
fn compares(alloc: Global, graph: &Graph, number: u32, by: ByText<'_>) -> Result<bool, NoMemory>
    requires { IsShapeNumber graph.now number }
    ensures { IfOk result (λ said. IsTrue said
        ↔ Compares (maps_of graph.now) (id_of_number graph.now number) (path_view by.entry.path.now) by.entry.op by.entry.fold
        by.entry.values.now) }
{
    match value_of(graph, number, by.path) {
        Some(found) => shows(alloc, found, by.op, by.fold, by.values),
        None => Ok(false),
    }
}

/// Whether a shape has the type that is named, where `string` takes enums too and `integer` intEnums; with `None` whether it is a
/// member. No memory.
pub(crate) fn is_named(graph: &Graph, number: u32, named: Option<Kind>) -> bool
    requires { IsShapeNumber graph.now number }
    ensures { IsTrue result ↔ IsNamedAt named (maps_of graph.now) (id_of_number graph.now number) }
{
    match named {
        Some(kind) => is_of_kind(graph, number, kind),
        None => graph.is_member(number),
    }
}

// Whether a shape has the type that is named, or one that it takes in.
fn is_of_kind(graph: &Graph, number: u32, named: Kind) -> bool
    requires { IsShapeNumber graph.now number }
    ensures { IsTrue result ↔ IsNamedAt (Some named) (maps_of graph.now) (id_of_number graph.now number) }
{
    if graph.is_member(number) {
        false
    } else {
        is_taken(named, graph.kind(number))
    }
}

// Whether the type that is named takes shapes of a type in.
fn is_taken(named: Kind, kind: Kind) -> bool
    ensures { IsTrue result ↔ IsTaken named kind }
{
    if is_same(kind, named) {
        return true;
    }
    if is_same(kind, Kind::Enum) {
        return is_same(named, Kind::Text);
    }
    if is_same(kind, Kind::IntEnum) {
        return is_same(named, Kind::Integer);
    }
    false
}

fn is_same(a: Kind, b: Kind) -> bool
    ensures { IsTrue result ↔ (a ≡ b) }
{
    a == b
}
