// Trait.Conflict: of two traits that exclude each other, by the table or by their shapes, a shape or member carries one at most.
ghost use Rattle.std.specs.Prelude.{◌≡◌, false, IfOk, OnOk, Some};
ghost use Rattle.std.specs.Option.{option_and_then, option_map, unwrap_or};
ghost use Rattle.sm_tree.specs.Node.{no_nodes, nodes_of, text};
ghost use Rattle.sm_tree.specs.Parts.{entries_in};
ghost use Rattle.sm_tree.specs.View.{node_of, nodes_view};
ghost use Rattle.sm_model.specs.Graphs.{text_cmp};
ghost use Rattle.sm_model.specs.GraphView.{IsShapeNumber, maps_of};
ghost use Rattle.sm_model.specs.PreludeShapes.{is_prelude_id};
ghost use Rattle.sm_model.specs.Reaching.{id_of_number};
ghost use Rattle.sm_model.specs.Relations.{IsEntryText};
ghost use Rattle.sm_model.specs.Joins.{Joins};
ghost use Rattle.sm_rules.specs.RuleEvents.{IsEventAt, IsEventOf, Puts};
ghost use Rattle.sm_rules.specs.declared.rule.Rule.TheVariants.{TraitConflict};
ghost use Rattle.sm_trait_rules.specs.steps.Conflicting.{AreExcluded, AreTextsOf, HasText, IsExcludedAt, IsGreaterBy, IsGreaterIfHeld};
ghost use Rattle.sm_trait_rules.specs.steps.Conflicting.{IsGreaterOfAny, IsGreaterOfBoth, IsGreaterOfTrait, IsGreaterThere, IsHeldThere};
ghost use Rattle.sm_trait_rules.specs.steps.Conflicting.{ToldHeld, conflicts_in, conflicts_under};
ghost use Rattle.sm_trait_rules.specs.steps.Silent.{no_excluded};
ghost use Rattle.sm_rules.specs.TraitShapes.{HasConflict, HasExcludedTrait};

use crate::exclusive::put_exclusive;
use crate::text_set::TextSet;
use sm_compile::trait_ids::TRAIT;
use sm_compile::{field_of, trait_node};
use sm_model::{Graph, entries_of, text_of};
use sm_passes::carried::carries;
use sm_passes::each::{AtOwn, put_outside};
use sm_passes::owned::is_own_shape;
use sm_passes::putting::{Events, Put, put_if};
use sm_passes::rows::form::{RowForm, is_of_form};
use sm_rules::Rule;
use sm_tree::{NoMemory, Tree};
use std::alloc::Global;
use std::cmp::Ordering;

/// Puts the events of Trait.Conflict: those that the table tells, and those that the shapes of traits tell.
pub fn put_conflicts(alloc: Global, graph: &Graph, events: &mut Events) -> Put
    ensures { OnOk result
        (Puts (IsEventOf TraitConflict (HasConflict (maps_of graph.now))) events.old.items events.new.items) }
{
    put_exclusive(alloc, graph, events)?;
    put_excluded(alloc, graph, events)?;
    Ok(())
}

/// Puts the events of Trait.Conflict that the shapes of traits tell. For each trait that stands somewhere the shorter of two lists is
/// walked, with a look-up at each step: what the trait excludes, and what stands beside it. A trait is told once at each carrier.
pub fn put_excluded(alloc: Global, graph: &Graph, events: &mut Events) -> Put
    ensures { OnOk result
        (Puts (IsEventOf TraitConflict (HasExcludedTrait (maps_of graph.now))) events.old.items events.new.items) }
{
    let sets = excluded_sets(alloc, graph)?;
    put_outside(
        alloc,
        graph,
        &Excluding {
            graph,
            sets: sets.as_slice(),
        },
        events,
    )?;
    Ok(())
}

// What the trait at a number excludes: the entries, and the set of their texts. They are looked up once for all its carriers, since
// whether the value of `trait` reads is a question to each entry.
#[derive(Drop)]
struct Excluded<'a> {
    entries: &'a [Tree],
    set: TextSet<'a>,
}

impl<'a> Excluded<'a> {
    fn at(alloc: Global, graph: &'a Graph, number: u32) -> Result<Self, NoMemory>
        requires { IsShapeNumber graph.now number }
        ensures { IfOk result (λ e. IsExcludedAt graph.now number e) }
    {
        let entries = conflicts_at(graph, number);
        let set = TextSet::among(alloc, entries)?;
        Ok(Excluded { entries, set })
    }
}

// What is told of what carries traits.
#[derive(Drop)]
struct Excluding<'a, 'b> {
    // The graph, as long as what the traits exclude: ids of traits and entries go into one set.
    graph: &'b Graph,
    // What the trait at each number excludes.
    sets: &'a [Excluded<'b>],
}

impl AtOwn for Excluding<'_, '_> {
    ghost tells = { λ rule g id. IsEventAt TraitConflict (HasExcludedTrait g) id };

    ghost knows = { λ rule g. (rule.graph.now ≡ g) × AreExcluded g rule.sets.now };

    fn put_own(&self, alloc: Global, graph: &Graph, number: u32, events: &mut Events) -> Put {
        put_carried(alloc, self.graph, self.sets, number, events)?;
        Ok(())
    }

    ghost silent = { λ rule. no_excluded };
}

// For each number what the trait there excludes. n log n.
fn excluded_sets<'a>(alloc: Global, graph: &'a Graph) -> Result<Vec<Excluded<'a>>, NoMemory>
    ensures { IfOk result (λ sets. AreExcluded graph.now sets.items) }
{
    let mut sets = Vec::new(alloc);
    for number in 0..graph.count() {
        let excluded = Excluded::at(alloc, graph, number)?;
        sets.push(excluded)?;
    }
    Ok(sets)
}

// Of the traits of a shape or member. Each is told once, whatever it stands beside.
fn put_carried<'a>(
    alloc: Global,
    graph: &'a Graph,
    sets: &[Excluded<'a>],
    number: u32,
    events: &mut Events,
) -> Put
    requires number { IsShapeNumber graph.now number }
    requires own { is_prelude_id (id_of_number graph.now number) ≡ false }
    requires sets { AreExcluded graph.now sets.now }
    ensures { OnOk result
        (Puts (IsEventAt TraitConflict (HasExcludedTrait (maps_of graph.now)) (id_of_number graph.now number))
        events.old.items events.new.items) }
{
    let mut told: TextSet<'a> = TextSet::new(alloc);
    take_carried(graph, sets, number, &mut told)?;
    put_told(alloc, graph, number, &told, events)?;
    Ok(())
}

// Puts those of its traits that a set has.
fn put_told(
    alloc: Global,
    graph: &Graph,
    number: u32,
    told: &TextSet<'_>,
    events: &mut Events,
) -> Put
    requires { IsShapeNumber graph.now number }
    ensures { OnOk result
        (Puts (IsEventAt TraitConflict (λ at id. IsHeldThere (maps_of graph.now) at told.now.texts id) (id_of_number graph.now number))
        events.old.items events.new.items) }
{
    let traits = graph.traits(number);
    for pair in traits {
        put_if_told(alloc, graph, number, told, pair.0.as_str(), events)?;
    }
    Ok(())
}

fn put_if_told(
    alloc: Global,
    graph: &Graph,
    number: u32,
    told: &TextSet<'_>,
    name: &str,
    events: &mut Events,
) -> Put
    requires { IsShapeNumber graph.now number }
    ensures { OnOk result
        (Puts (ToldHeld (id_of_number graph.now number) told.now.texts name.now) events.old.items events.new.items) }
{
    let wrong = told.has(name);
    put_if(
        alloc,
        graph,
        Rule::TraitConflict,
        number,
        wrong,
        name,
        events,
    )?;
    Ok(())
}

// Takes the greater of each two traits there of which one excludes the other.
fn take_carried<'a>(
    graph: &'a Graph,
    sets: &[Excluded<'a>],
    number: u32,
    told: &mut TextSet<'a>,
) -> Result<(), NoMemory>
    requires number { IsShapeNumber graph.now number }
    requires sets { AreExcluded graph.now sets.now }
    ensures { OnOk result
        (Joins (HasText told.old.texts) (IsGreaterThere (maps_of graph.now) (id_of_number graph.now number)) (HasText told.new.texts)) }
{
    let traits = graph.traits(number);
    for pair in traits {
        take_of_trait(graph, sets, number, pair.0.as_str(), told)?;
    }
    Ok(())
}

// Of one of them and those that it excludes. What has no shape in the graph excludes nothing.
fn take_of_trait<'a>(
    graph: &'a Graph,
    sets: &[Excluded<'a>],
    number: u32,
    name: &'a str,
    told: &mut TextSet<'a>,
) -> Result<(), NoMemory>
    requires number { IsShapeNumber graph.now number }
    requires sets { AreExcluded graph.now sets.now }
    ensures { OnOk result
        (Joins (HasText told.old.texts) (IsGreaterOfTrait (maps_of graph.now) (id_of_number graph.now number) name.now)
        (HasText told.new.texts)) }
{
    match graph.number(name) {
        Some(found) => {
            take_shorter(graph, number, name, &sets[found as usize], told)?;
            Ok(())
        }
        None => Ok(()),
    }
}

// Of one that excludes these.
fn take_shorter<'a>(
    graph: &'a Graph,
    number: u32,
    name: &'a str,
    excluded: &Excluded<'a>,
    told: &mut TextSet<'a>,
) -> Result<(), NoMemory>
    requires number { IsShapeNumber graph.now number }
    requires texts { AreTextsOf (nodes_of (nodes_view excluded.now.entries.now)) excluded.now.set.texts }
    ensures { OnOk result
        (Joins (HasText told.old.texts) (IsGreaterOfAny (maps_of graph.now) (id_of_number graph.now number) name.now
        (λ other. IsEntryText other (nodes_of (nodes_view excluded.now.entries.now)))) (HasText told.new.texts)) }
{
    if excluded.entries.len() <= graph.traits(number).len() {
        take_entries(graph, number, name, excluded.entries, told)?;
        Ok(())
    } else {
        take_named(graph, number, name, &excluded.set, told)?;
        Ok(())
    }
}

// Of each entry that stands beside it.
fn take_entries<'a>(
    graph: &Graph,
    number: u32,
    name: &'a str,
    conflicts: &'a [Tree],
    told: &mut TextSet<'a>,
) -> Result<(), NoMemory>
    requires { IsShapeNumber graph.now number }
    ensures { OnOk result
        (Joins (HasText told.old.texts) (IsGreaterOfAny (maps_of graph.now) (id_of_number graph.now number) name.now
        (λ other. IsEntryText other (nodes_of (nodes_view conflicts.now)))) (HasText told.new.texts)) }
{
    for entry in conflicts {
        take_entry(graph, number, name, entry, told)?;
    }
    Ok(())
}

fn take_entry<'a>(
    graph: &Graph,
    number: u32,
    name: &'a str,
    entry: &'a Tree,
    told: &mut TextSet<'a>,
) -> Result<(), NoMemory>
    requires { IsShapeNumber graph.now number }
    ensures { OnOk result
        (Joins (HasText told.old.texts) (IsGreaterOfAny (maps_of graph.now) (id_of_number graph.now number) name.now
        (λ other. node_of entry.now ≡ text other)) (HasText told.new.texts)) }
{
    match text_of(entry) {
        Some(other) => {
            take_both(graph, number, name, other, told)?;
            Ok(())
        }
        None => Ok(()),
    }
}

// Of each trait that stands beside it and is in the set.
fn take_named<'a>(
    graph: &'a Graph,
    number: u32,
    name: &'a str,
    set: &TextSet<'_>,
    told: &mut TextSet<'a>,
) -> Result<(), NoMemory>
    requires { IsShapeNumber graph.now number }
    ensures { OnOk result
        (Joins (HasText told.old.texts) (IsGreaterOfAny (maps_of graph.now) (id_of_number graph.now number) name.now
        (HasText set.now.texts)) (HasText told.new.texts)) }
{
    let traits = graph.traits(number);
    for pair in traits {
        take_if_held(graph, number, name, set, pair.0.as_str(), told)?;
    }
    Ok(())
}

fn take_if_held<'a>(
    graph: &Graph,
    number: u32,
    name: &'a str,
    set: &TextSet<'_>,
    other: &'a str,
    told: &mut TextSet<'a>,
) -> Result<(), NoMemory>
    requires { IsShapeNumber graph.now number }
    ensures { OnOk result
        (Joins (HasText told.old.texts)
        (IsGreaterIfHeld (maps_of graph.now) (id_of_number graph.now number) name.now set.now.texts other.now) (HasText told.new.texts)) }
{
    if set.has(other) {
        take_both(graph, number, name, other, told)?;
        Ok(())
    } else {
        Ok(())
    }
}

// Of two traits, where the other stands there too.
fn take_both<'a>(
    graph: &Graph,
    number: u32,
    name: &'a str,
    other: &'a str,
    told: &mut TextSet<'a>,
) -> Result<(), NoMemory>
    requires { IsShapeNumber graph.now number }
    ensures { OnOk result
        (Joins (HasText told.old.texts) (IsGreaterOfBoth (maps_of graph.now) (id_of_number graph.now number) name.now other.now)
        (HasText told.new.texts)) }
{
    if carries(graph, number, other) {
        take_greater(name, other, told)?;
        Ok(())
    } else {
        Ok(())
    }
}

// Takes the greater of two traits.
fn take_greater<'a>(name: &'a str, other: &'a str, told: &mut TextSet<'a>) -> Result<(), NoMemory>
    ensures { OnOk result
        (Joins (HasText told.old.texts) (IsGreaterBy (text_cmp name.now other.now) name.now other.now) (HasText told.new.texts)) }
{
    match order_of(name, other) {
        Ordering::Less => {
            told.put(other)?;
            Ok(())
        }
        Ordering::Equal => Ok(()),
        Ordering::Greater => {
            told.put(name)?;
            Ok(())
        }
    }
}

fn order_of(one: &str, other: &str) -> Ordering
    ensures { result ≡ text_cmp one.now other.now }
{
    one.cmp(other)
}

// The entries of `conflicts` of a trait shape outside of the prelude.
fn conflicts_at(graph: &Graph, number: u32) -> &[Tree]
    requires { IsShapeNumber graph.now number }
    ensures { nodes_of (nodes_view result.now) ≡ conflicts_under (maps_of graph.now) (id_of_number graph.now number) }
{
    if is_own_shape(graph, number) {
        conflicts_in(trait_node(graph, number, TRAIT))
    } else {
        &[]
    }
}

// Those in the value of `trait`.
fn conflicts_in(tree: Option<&Tree>) -> &[Tree]
    ensures { nodes_of (nodes_view result.now) ≡ conflicts_in (option_map (λ t. node_of t.now) tree.entry) }
{
    match tree {
        Some(tree) => conflicts_of(tree),
        None => &[],
    }
}

fn conflicts_of(tree: &Tree) -> &[Tree]
    ensures { nodes_of (nodes_view result.now) ≡ conflicts_in (Some (node_of tree.now)) }
{
    if is_of_form(RowForm::Trait, tree) {
        entries_where(field_of(tree, "conflicts"))
    } else {
        &[]
    }
}

// The entries of a list, where one is there.
fn entries_where(tree: Option<&Tree>) -> &[Tree]
    ensures { nodes_of (nodes_view result.now)
        ≡ unwrap_or (option_and_then entries_in (option_map (λ t. node_of t.now) tree.entry)) no_nodes }
{
    match tree {
        Some(tree) => listed(tree),
        None => &[],
    }
}

fn listed(tree: &Tree) -> &[Tree]
    ensures { nodes_of (nodes_view result.now) ≡ unwrap_or (entries_in (node_of tree.now)) no_nodes }
{
    match entries_of(tree) {
        None => &[],
        Some(entries) => entries,
    }
}
