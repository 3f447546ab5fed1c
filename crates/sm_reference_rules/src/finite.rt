// Shape.Infinite: structures and unions have finite values.
ghost use Rattle.std.specs.Prelude.{◌≡◌, ◌↔◌, ◌<◌, [], ℕ, IfOk, OnOk, Some, false, length, map, replicate, true};
ghost use Rattle.std.specs.List.{Contains};
ghost use Rattle.sm_model.specs.declared.kind.Kind.TheVariants.{Structure};
ghost use Rattle.sm_model.specs.GraphView.{AreShapeNumbers, IsShapeNumber, entries_of, maps_of};
ghost use Rattle.sm_model.specs.Reaching.{IsMarked, id_of_number};
ghost use Rattle.sm_select.specs.Ways.{AreSteps, AreWays};
ghost use Rattle.sm_compile.specs.Looked.{kind_under, listed_under};
ghost use Rattle.sm_rules.specs.RuleEvents.{IsEventAt, IsEventOf, Puts};
ghost use Rattle.sm_rules.specs.declared.rule.Rule.TheVariants.{ShapeInfinite};
ghost use Rattle.sm_rules.specs.Shapes.{HasNoFinite};
ghost use Rattle.sm_reference_rules.specs.steps.Finding.{AreFinite, IsHome, IsHomeOf, IsNext, IsUser, Knows, Lacks, Moves, Opens, Sees};
ghost use Rattle.sm_reference_rules.specs.steps.Finding.{SomeClosed, Waits, Wants, is_compound, is_infinite, way_of};

use sm_compile::trait_ids::REQUIRED;
use sm_compile::{id_text, kind_of, members_of, target_of};
use sm_model::{Graph, Kind, is_in_prelude, mark, no_marks};
use sm_passes::carried::{carries, is_member};
use sm_passes::each::{AtEach, put_each};
use sm_passes::putting::{Events, Put, put_if};
use sm_rules::Rule;
use sm_select::{Neighbors, Ways};
use sm_tree::NoMemory;
use std::alloc::Global;

/// Puts the events of the rule, by the ways of the graph. Each member is looked at once, and each step back.
pub fn put_infinite(alloc: Global, graph: &Graph, ways: &Ways, events: &mut Events) -> Put
    requires { AreWays graph.now ways.now }
    ensures { OnOk result
        (Puts (IsEventOf ShapeInfinite (HasNoFinite (maps_of graph.now))) events.old.items events.new.items) }
{
    let finite = finite_shapes(alloc, graph, &ways.back)?;
    put_each(
        alloc,
        graph,
        &Infinite {
            marks: finite.as_slice(),
        },
        events,
    )?;
    Ok(())
}

// What has a finite value, as marks.
#[derive(Drop)]
struct Infinite<'a> {
    marks: &'a [bool],
}

impl AtEach for Infinite<'_> {
    ghost tells = { λ rule g id. IsEventAt ShapeInfinite (HasNoFinite g) id };

    ghost knows = { λ rule g. AreFinite g rule.marks.now };

    fn put_at(&self, alloc: Global, graph: &Graph, number: u32, events: &mut Events) -> Put {
        let infinite = is_infinite(graph, self.marks, number);
        put_if(
            alloc,
            graph,
            Rule::ShapeInfinite,
            number,
            infinite,
            "",
            events,
        )?;
        Ok(())
    }
}

fn is_infinite(graph: &Graph, marks: &[bool], number: u32) -> bool
    requires number { IsShapeNumber graph.now number }
    requires whole { length marks.now ≡ length (entries_of graph.now) }
    ensures { result ≡ is_infinite graph.now marks.now number }
{
    is_compound(kind_of(graph, number))
        && !is_in_prelude(id_text(graph, number))
        && !marks[number as usize]
}

fn is_compound(kind: Option<Kind>) -> bool
    ensures { result ≡ is_compound kind }
{
    match kind {
        Some(kind) => match kind {
            Kind::Structure => true,
            Kind::Union => true,
            _ => false,
        },
        None => false,
    }
}

// The shapes that have a finite value, as marks. A structure is looked at from the member at which it was left, once for each
// target that is found.
fn finite_shapes(alloc: Global, graph: &Graph, back: &Neighbors) -> Result<Vec<bool>, NoMemory>
    requires { AreSteps graph.now true back.now }
    ensures { IfOk result (λ marks. AreFinite graph.now marks.items) }
{
    let mut known = Known::new(alloc, graph)?;
    look_at_all(graph, &mut known)?;
    follow(graph, back, &mut known)?;
    Ok(known.marks)
}

// What is known to have a finite value, as marks and in the order in which it was found; and at which of its members each structure
// was left.
#[derive(Drop)]
struct Known {
    marks: Vec<bool>,
    found: Vec<u32>,
    places: Vec<usize>,
}

impl Known {
    // Nothing.
    fn new(alloc: Global, graph: &Graph) -> Result<Self, NoMemory>
        ensures { IfOk result (λ known. Knows graph.now known) }
    {
        let marks = no_marks(alloc, graph.count() as usize)?;
        let places = no_places(alloc, graph.count() as usize)?;
        Ok(Known {
            marks,
            found: Vec::new(alloc),
            places,
        })
    }
}

fn no_places(alloc: Global, count: usize) -> Result<Vec<usize>, NoMemory>
    ensures { IfOk result (λ places. places.items ≡ replicate count 0) }
{
    let mut places = Vec::with_capacity(alloc, count)?;
    for _ in 0..count {
        places.push(0)?;
    }
    Ok(places)
}

// Looks at each shape.
fn look_at_all(graph: &Graph, known: &mut Known) -> Result<(), NoMemory>
    requires { Knows graph.now known.old }
    ensures { OnOk result (Moves graph.now (λ k. k < length (entries_of graph.now)) known.old known.new) }
{
    for number in 0..graph.count() {
        look_at(graph, number, known)?;
    }
    Ok(())
}

// Looks again at what uses each shape that was found, those found later too. Each is taken once.
fn follow(graph: &Graph, back: &Neighbors, known: &mut Known) -> Result<(), NoMemory>
    requires ways { AreSteps graph.now true back.now }
    requires knows { Knows graph.now known.old }
    requires waits { Waits graph.now (λ k. ⊥) known.old }
    ensures knows { OnOk result (Knows graph.now known.new) }
    ensures waits { OnOk result (Waits graph.now (IsMarked known.new.marks.items) known.new) }
{
    for at in 0..known.marks.len() {
        if at >= known.found.len() {
            return Ok(());
        }
        let target = known.found[at];
        look_at_users(graph, back, target, known)?;
    }
    Ok(())
}

// Looks at the shapes whose members target this one.
fn look_at_users(
    graph: &Graph,
    back: &Neighbors,
    target: u32,
    known: &mut Known,
) -> Result<(), NoMemory>
    requires ways { AreSteps graph.now true back.now }
    requires target { IsShapeNumber graph.now target }
    requires knows { Knows graph.now known.old }
    ensures { OnOk result (Moves graph.now (IsUser graph.now back.now target) known.old known.new) }
{
    look_at_members(graph, back, back.row(target), known)
}

// Looks at the shapes that have one of these members.
fn look_at_members(
    graph: &Graph,
    back: &Neighbors,
    members: &[u32],
    known: &mut Known,
) -> Result<(), NoMemory>
    requires ways { AreSteps graph.now true back.now }
    requires members { (k : ℕ) → Contains members.now k → IsShapeNumber graph.now k }
    requires knows { Knows graph.now known.old }
    ensures { OnOk result (Moves graph.now (IsHomeOf graph.now back.now members.now) known.old known.new) }
{
    for member in members {
        look_at_homes(graph, back, *member, known)?;
    }
    Ok(())
}

// Looks at the shapes that have this member.
fn look_at_homes(
    graph: &Graph,
    back: &Neighbors,
    member: u32,
    known: &mut Known,
) -> Result<(), NoMemory>
    requires ways { AreSteps graph.now true back.now }
    requires member { IsShapeNumber graph.now member }
    requires knows { Knows graph.now known.old }
    ensures { OnOk result (Moves graph.now (IsHome graph.now back.now member) known.old known.new) }
{
    if is_member(graph, member) {
        look_at_each(graph, back.row(member), known)
    } else {
        Ok(())
    }
}

fn look_at_each(graph: &Graph, shapes: &[u32], known: &mut Known) -> Result<(), NoMemory>
    requires shapes { (k : ℕ) → Contains shapes.now k → IsShapeNumber graph.now k }
    requires knows { Knows graph.now known.old }
    ensures { OnOk result (Moves graph.now (Contains shapes.now) known.old known.new) }
{
    for shape in shapes {
        look_at(graph, *shape, known)?;
    }
    Ok(())
}

// Marks a shape that is seen to have a finite value.
fn look_at(graph: &Graph, shape: u32, known: &mut Known) -> Result<(), NoMemory>
    requires number { IsShapeNumber graph.now shape }
    requires knows { Knows graph.now known.old }
    ensures { OnOk result (Moves graph.now (λ k. shape ≡ k) known.old known.new) }
{
    if known.marks[shape as usize] {
        return Ok(());
    }
    if is_seen(graph, shape, known) {
        mark(shape, &mut known.marks, &mut known.found)?;
    }
    Ok(())
}

// Whether a shape is seen to have a finite value by what is marked; where it is none, a structure is left at the member that it wants.
fn is_seen(graph: &Graph, shape: u32, known: &mut Known) -> bool
    requires number { IsShapeNumber graph.now shape }
    requires knows { Knows graph.now known.old }
    ensures { Sees graph.now shape known.old result known.new }
{
    match kind_of(graph, shape) {
        Some(kind) => match way_of(kind) {
            FiniteWay::ByRequired => is_passed(graph, shape, members_of(graph, shape), known),
            FiniteWay::ByOne => some_closed(
                graph,
                members_of(graph, shape),
                known.marks.as_slice(),
            ),
            FiniteWay::Always => true,
            FiniteWay::Never => false,
        },
        None => false,
    }
}

// How a shape comes to a finite value: by those of all required members, by that of one member, in any case, or never.
enum FiniteWay {
    ByRequired,
    ByOne,
    Always,
    Never,
}

fn way_of(kind: Kind) -> FiniteWay
    ensures { result ≡ way_of kind }
{
    match kind {
        Kind::Structure => FiniteWay::ByRequired,
        Kind::Union => FiniteWay::ByOne,
        Kind::Service => FiniteWay::Never,
        Kind::Operation => FiniteWay::Never,
        Kind::Resource => FiniteWay::Never,
        _ => FiniteWay::Always,
    }
}

// Whether a structure wants none of its members.
fn is_passed(graph: &Graph, shape: u32, members: &[u32], known: &mut Known) -> bool
    requires number { IsShapeNumber graph.now shape }
    requires members { AreShapeNumbers graph.now members.now }
    requires listed { map (id_of_number graph.now) members.now ≡ listed_under (maps_of graph.now) (id_of_number graph.now shape) }
    requires kind { kind_under (maps_of graph.now) (id_of_number graph.now shape) ≡ Some Structure }
    requires knows { Knows graph.now known.old }
    ensures { Sees graph.now shape known.old result known.new }
{
    let from = known.places[shape as usize];
    let place = next_wanted(graph, members, from, known.marks.as_slice());
    known.places[shape as usize] = place;
    place >= members.len()
}

// The place of the next member that is wanted, from one on; their number where none is.
fn next_wanted(graph: &Graph, members: &[u32], from: usize, marks: &[bool]) -> usize
    requires members { AreShapeNumbers graph.now members.now }
    requires whole { length marks.now ≡ length (entries_of graph.now) }
    ensures { IsNext (Wants graph.now (IsMarked marks.now)) (map (id_of_number graph.now) members.now) from result }
{
    for place in from..members.len() {
        if is_wanted(graph, members[place], marks) {
            return place;
        }
    }
    members.len()
}

fn is_wanted(graph: &Graph, member: u32, marks: &[bool]) -> bool
    requires member { IsShapeNumber graph.now member }
    requires whole { length marks.now ≡ length (entries_of graph.now) }
    ensures { (result ≡ true) ↔ Wants graph.now (IsMarked marks.now) (id_of_number graph.now member) }
{
    if is_member(graph, member) {
        carries(graph, member, REQUIRED) && is_open(graph, member, marks)
    } else {
        true
    }
}

// Whether the target of one of these members of a union is there and marked, or isn't there.
fn some_closed(graph: &Graph, members: &[u32], marks: &[bool]) -> bool
    requires members { AreShapeNumbers graph.now members.now }
    requires whole { length marks.now ≡ length (entries_of graph.now) }
    ensures { SomeClosed graph.now (IsMarked marks.now) (map (id_of_number graph.now) members.now) result }
{
    for member in members {
        if is_closed(graph, *member, marks) {
            return true;
        }
    }
    false
}

fn is_closed(graph: &Graph, member: u32, marks: &[bool]) -> bool
    requires member { IsShapeNumber graph.now member }
    requires whole { length marks.now ≡ length (entries_of graph.now) }
    ensures { (result ≡ false) ↔ Lacks graph.now (IsMarked marks.now) (id_of_number graph.now member) }
{
    is_member(graph, member) && !is_open(graph, member, marks)
}

// Whether the target of a member is there, and isn't marked.
fn is_open(graph: &Graph, member: u32, marks: &[bool]) -> bool
    requires member { IsShapeNumber graph.now member }
    requires whole { length marks.now ≡ length (entries_of graph.now) }
    ensures { (result ≡ true) ↔ Opens graph.now (IsMarked marks.now) (id_of_number graph.now member) }
{
    match target_of(graph, member) {
        Some(target) => !marks[target as usize],
        None => false,
    }
}
