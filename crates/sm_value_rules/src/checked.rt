// Shapes for which nodes are checked: they have values, and all that they reach is in order and of no type left out.
ghost use Rattle.std.specs.Prelude.{◌≡◌, ◌++◌, ◌∷◌, [], IfOk, List, MatchBool, OnOk, length, true};
ghost use Rattle.sm_model.specs.GraphView.{IsShapeNumber, entries_of};
ghost use Rattle.sm_model.specs.Links.{AreLinks};
ghost use Rattle.sm_model.specs.Reaching.{AreMarks};
ghost use Rattle.sm_model.specs.declared.link.Link.{Link};
ghost use Rattle.sm_value_rules.specs.Marking.{AreCheckedMarks};
ghost use Rattle.sm_value_rules.specs.steps.Checking.{AreFaultMarks, AreOfValues, AreValueLinks, IsOfValues, TellsFault, has_values_at};
ghost use Rattle.sm_value_rules.specs.steps.Checking.{is_checked_at, is_type_left_out};

use sm_compile::{has_values, is_left_out, is_sound_shape, kind_of, table_kind};
use sm_model::{Graph, Kind, Link, Relation};
use sm_select::{Neighbors, reached};
use sm_tree::NoMemory;
use std::alloc::Global;

/// The shapes for which nodes are checked, as marks by their numbers, by the links of the graph. n log n.
pub(crate) fn checked_shapes(
    alloc: Global,
    graph: &Graph,
    all: &[Link],
) -> Result<Vec<bool>, NoMemory>
    requires { AreLinks graph.now all.now }
    ensures { IfOk result (λ marks. AreCheckedMarks graph.now marks.items) }
{
    let faulty = faulty_shapes(alloc, graph)?;
    let links = value_links(alloc, graph, all)?;
    let back = Neighbors::new(alloc, graph.count(), links.as_slice(), true)?;
    let before = reached(alloc, &back, faulty.as_slice())?;
    checked_where(alloc, graph, faulty.as_slice(), before.as_slice())
}

// Which shapes have a fault themselves.
fn faulty_shapes(alloc: Global, graph: &Graph) -> Result<Vec<bool>, NoMemory>
    ensures { IfOk result (λ marks. AreFaultMarks graph.now marks.items) }
{
    let mut marks = Vec::new(alloc);
    for number in 0..graph.count() {
        let faulty = is_faulty(alloc, graph, number)?;
        marks.push(faulty)?;
    }
    Ok(marks)
}

// Whether a shape is of a type left out, or isn't in order.
fn is_faulty(alloc: Global, graph: &Graph, number: u32) -> Result<bool, NoMemory>
    requires { IsShapeNumber graph.now number }
    ensures { IfOk result (λ b. TellsFault graph.now number b) }
{
    if is_type_left_out(kind_of(graph, number)) {
        return Ok(true);
    }
    let sound = is_sound_shape(alloc, graph, number)?;
    Ok(!sound)
}

fn is_type_left_out(kind: Option<Kind>) -> bool
    ensures { result ≡ is_type_left_out kind }
{
    match kind {
        Some(kind) => is_left_out(table_kind(kind)),
        None => false,
    }
}

// The links from shapes to their members and from members to their targets.
fn value_links(alloc: Global, graph: &Graph, all: &[Link]) -> Result<Vec<Link>, NoMemory>
    requires { AreLinks graph.now all.now }
    ensures { IfOk result (λ links. AreValueLinks graph.now links.items) }
{
    links_of_values(alloc, all)
}

fn links_of_values(alloc: Global, all: &[Link]) -> Result<Vec<Link>, NoMemory>
    ensures { IfOk result (λ links. AreOfValues all.now links.items) }
{
    let mut links = Vec::new(alloc);
    for link in all {
        put_link(link, &mut links)?;
    }
    Ok(links)
}

fn put_link(link: &Link, links: &mut Vec<Link>) -> Result<(), NoMemory>
    ensures { OnOk result
        ((all : List Link) → AreOfValues all links.old.items → AreOfValues (all ++ link.now ∷ []) links.new.items) }
{
    if is_of_values(link.relation) {
        links.push(*link)?;
    }
    Ok(())
}

fn is_of_values(relation: Relation) -> bool
    ensures { MatchBool result (IsOfValues relation) (IsOfValues relation → ⊥) }
{
    match relation {
        Relation::Member | Relation::Target => true,
        Relation::Container
        | Relation::Input
        | Relation::Output
        | Relation::Error
        | Relation::Operation
        | Relation::Resource
        | Relation::Identifier
        | Relation::Property => false,
    }
}

// Shapes that have values, aren't faulty, and don't lead to one that is.
fn checked_where(
    alloc: Global,
    graph: &Graph,
    faulty: &[bool],
    before: &[bool],
) -> Result<Vec<bool>, NoMemory>
    requires faulty { length faulty.now ≡ length (entries_of graph.now) }
    requires before { length before.now ≡ length (entries_of graph.now) }
    ensures { IfOk result (λ marks. AreMarks (length (entries_of graph.now))
        (λ k. is_checked_at graph.now faulty.now before.now k ≡ true) marks.items) }
{
    let mut marks = Vec::with_capacity(alloc, graph.count() as usize)?;
    for number in 0..graph.count() {
        marks.push(is_checked(graph, faulty, before, number))?;
    }
    Ok(marks)
}

fn is_checked(graph: &Graph, faulty: &[bool], before: &[bool], number: u32) -> bool
    requires number { IsShapeNumber graph.now number }
    requires faulty { length faulty.now ≡ length (entries_of graph.now) }
    requires before { length before.now ≡ length (entries_of graph.now) }
    ensures { result ≡ is_checked_at graph.now faulty.now before.now number }
{
    has_values_at(graph, number) && (!faulty[number as usize] && !before[number as usize])
}

fn has_values_at(graph: &Graph, number: u32) -> bool
    requires { IsShapeNumber graph.now number }
    ensures { result ≡ has_values_at graph.now number }
{
    match kind_of(graph, number) {
        Some(kind) => has_values(kind),
        None => false,
    }
}
