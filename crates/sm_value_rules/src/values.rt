// Trait.Value: a trait's value is as its row says, and is one of the trait's shape.
ghost use Rattle.std.specs.Prelude.{◌≡◌, IfOk, MatchOption, OnOk, Some, length};
ghost use Rattle.sm_tree.specs.View.{node_of};
ghost use Rattle.sm_model.specs.GraphView.{IsShapeNumber, entries_of, maps_of};
ghost use Rattle.sm_model.specs.Reaching.{id_of_number};
ghost use Rattle.sm_compile.specs.Sound.{trait_of};
ghost use Rattle.sm_rules.specs.RuleEvents.{IsEventOf, Puts};
ghost use Rattle.sm_rules.specs.declared.rule.Rule.TheVariants.{TraitValue};
ghost use Rattle.sm_passes.specs.Putting.{ToldOf};
ghost use Rattle.sm_value_rules.specs.Marking.{AreCheckedMarks, AreValueMarks};
ghost use Rattle.sm_value_rules.specs.steps.Nodes.{AddsRoots, AreRoots, IsNodeTable};
ghost use Rattle.sm_value_rules.specs.Used.{AreUsed};
ghost use Rattle.sm_trait_rules.specs.steps.StandingTraits.{AreTraitsAt};
ghost use Rattle.sm_value_rules.specs.steps.Valuing.{IsJudgedTrait, IsWantedTrait, ToldValue, ToldValues, WantsTrait, is_judged_at};
ghost use Rattle.sm_rules.specs.TraitShapes.{HasFaultyValue, HasWrongValue};

use crate::nodes::NodeTable;
use crate::value_marks::ValueMarks;
use sm_compile::id_text;
use sm_model::{Graph, is_in_prelude};
use sm_passes::carried::carries;
use sm_passes::owned::is_own_shape;
use sm_passes::putting::{Events, Put, put_event};
use sm_rules::Rule;
use sm_trait_rules::table_rules::put_other_values;
use sm_tree::{NoMemory, Text, Tree};
use std::alloc::Global;

/// Puts the events of the rule, by the marks of the graph: those that the table tells, and those that the shapes of traits tell.
/// n log n.
pub fn put_values(alloc: Global, graph: &Graph, marks: &ValueMarks, events: &mut Events) -> Put
    requires { AreValueMarks graph.now marks.now }
    ensures { OnOk result
        (Puts (IsEventOf TraitValue (HasWrongValue (maps_of graph.now))) events.old.items events.new.items) }
{
    put_other_values(alloc, graph, events)?;
    put_faulty_values(alloc, graph, marks, events)?;
    Ok(())
}

/// Puts the events of Trait.Value that the shapes of traits tell, by the marks of the graph. n log n, besides the checks of the values
/// themselves.
pub fn put_faulty_values(
    alloc: Global,
    graph: &Graph,
    marks: &ValueMarks,
    events: &mut Events,
) -> Put
    requires { AreValueMarks graph.now marks.now }
    ensures { OnOk result
        (Puts (IsEventOf TraitValue (HasFaultyValue (maps_of graph.now))) events.old.items events.new.items) }
{
    put_by_marks(
        alloc,
        graph,
        marks.checked.as_slice(),
        marks.used.as_slice(),
        events,
    )
}

// Where these are the marks of the shapes for which nodes are checked, and of all that stands as a trait.
fn put_by_marks(
    alloc: Global,
    graph: &Graph,
    checked: &[bool],
    used: &[bool],
    events: &mut Events,
) -> Put
    requires checked { AreCheckedMarks graph.now checked.now }
    requires used { AreUsed graph.now used.now }
    ensures { OnOk result
        (Puts (IsEventOf TraitValue (HasFaultyValue (maps_of graph.now))) events.old.items events.new.items) }
{
    let roots = judged_traits(alloc, graph, checked, used)?;
    let mut nodes = NodeTable::new(alloc, graph, roots.as_slice())?;
    for number in 0..graph.count() {
        put_at(alloc, graph, checked, number, &mut nodes, events)?;
    }
    Ok(())
}

// The shapes of all traits in use.
fn judged_traits(
    alloc: Global,
    graph: &Graph,
    checked: &[bool],
    used: &[bool],
) -> Result<Vec<u32>, NoMemory>
    requires checked { AreCheckedMarks graph.now checked.now }
    requires used { AreUsed graph.now used.now }
    ensures { IfOk result (λ roots. AreRoots graph.now (WantsTrait graph.now) (length (entries_of graph.now)) roots.items) }
{
    let mut roots = Vec::new(alloc);
    for number in 0..graph.count() {
        put_root(graph, checked, used, number, &mut roots)?;
    }
    Ok(roots)
}

fn put_root(
    graph: &Graph,
    checked: &[bool],
    used: &[bool],
    number: u32,
    roots: &mut Vec<u32>,
) -> Result<(), NoMemory>
    requires checked { AreCheckedMarks graph.now checked.now }
    requires used { AreUsed graph.now used.now }
    requires number { IsShapeNumber graph.now number }
    ensures { OnOk result (AddsRoots graph.now (WantsTrait graph.now number) roots.old.items roots.new.items) }
{
    if !used[number as usize] {
        return Ok(());
    }
    if is_judged(graph, checked, number) {
        roots.push(number)?;
    }
    Ok(())
}

// Whether this is the number of a trait's shape for which nodes are checked.
fn is_judged(graph: &Graph, checked: &[bool], number: u32) -> bool
    requires checked { length checked.now ≡ length (entries_of graph.now) }
    requires number { IsShapeNumber graph.now number }
    ensures { result ≡ is_judged_at graph.now checked.now number }
{
    is_own_shape(graph, number)
        && (carries(graph, number, "smithy.api#trait") && checked[number as usize])
}

// Of a shape or member, where it is outside of the prelude.
fn put_at(
    alloc: Global,
    graph: &Graph,
    checked: &[bool],
    number: u32,
    nodes: &mut NodeTable,
    events: &mut Events,
) -> Put
    requires checked { AreCheckedMarks graph.now checked.now }
    requires number { IsShapeNumber graph.now number }
    requires nodes { IsNodeTable graph.now (IsWantedTrait graph.now) nodes.old }
    ensures told { OnOk result
        (Puts (ToldValues (maps_of graph.now) (id_of_number graph.now number)) events.old.items events.new.items) }
    ensures nodes { OnOk result (IsNodeTable graph.now (IsWantedTrait graph.now) nodes.new) }
{
    if is_in_prelude(id_text(graph, number)) {
        return Ok(());
    }
    put_of_traits(
        alloc,
        graph,
        checked,
        number,
        graph.traits(number),
        nodes,
        events,
    )?;
    Ok(())
}

// Of these traits of a shape or member.
fn put_of_traits(
    alloc: Global,
    graph: &Graph,
    checked: &[bool],
    number: u32,
    traits: &[(Text, Tree)],
    nodes: &mut NodeTable,
    events: &mut Events,
) -> Put
    requires checked { AreCheckedMarks graph.now checked.now }
    requires number { IsShapeNumber graph.now number }
    requires traits { AreTraitsAt (maps_of graph.now) (id_of_number graph.now number) traits.now }
    requires nodes { IsNodeTable graph.now (IsWantedTrait graph.now) nodes.old }
    ensures told { OnOk result
        (Puts (ToldOf (ToldValue (maps_of graph.now) (id_of_number graph.now number)) traits.now) events.old.items events.new.items) }
    ensures nodes { OnOk result (IsNodeTable graph.now (IsWantedTrait graph.now) nodes.new) }
{
    for pair in traits {
        put_of_trait(alloc, graph, checked, number, pair, nodes, events)?;
    }
    Ok(())
}

fn put_of_trait(
    alloc: Global,
    graph: &Graph,
    checked: &[bool],
    number: u32,
    pair: &(Text, Tree),
    nodes: &mut NodeTable,
    events: &mut Events,
) -> Put
    requires checked { AreCheckedMarks graph.now checked.now }
    requires number { IsShapeNumber graph.now number }
    requires stands { trait_of (maps_of graph.now) (id_of_number graph.now number) pair.now.0 ≡ Some (node_of pair.now.1) }
    requires nodes { IsNodeTable graph.now (IsWantedTrait graph.now) nodes.old }
    ensures told { OnOk result
        (Puts (ToldValue (maps_of graph.now) (id_of_number graph.now number) pair.now) events.old.items events.new.items) }
    ensures nodes { OnOk result (IsNodeTable graph.now (IsWantedTrait graph.now) nodes.new) }
{
    match judged_trait(graph, checked, pair.0.as_str()) {
        Some(root) => {
            put_value(alloc, graph, number, root, pair, nodes, events)?;
            Ok(())
        }
        None => Ok(()),
    }
}

// The number of the trait with this name, if nodes are checked for its shape.
fn judged_trait(graph: &Graph, checked: &[bool], name: &str) -> Option<u32>
    requires { AreCheckedMarks graph.now checked.now }
    ensures { MatchOption result
        (IsJudgedTrait (maps_of graph.now) name.now → ⊥)
        (λ k. IsShapeNumber graph.now k × (id_of_number graph.now k ≡ name.now) × IsJudgedTrait (maps_of graph.now) name.now) }
{
    match graph.number(name) {
        Some(number) => {
            if is_judged(graph, checked, number) {
                Some(number)
            } else {
                None
            }
        }
        None => None,
    }
}

// Of a value of the trait at this number.
fn put_value(
    alloc: Global,
    graph: &Graph,
    number: u32,
    root: u32,
    pair: &(Text, Tree),
    nodes: &mut NodeTable,
    events: &mut Events,
) -> Put
    requires number { IsShapeNumber graph.now number }
    requires root { IsShapeNumber graph.now root }
    requires named { id_of_number graph.now root ≡ pair.now.0 }
    requires judged { IsJudgedTrait (maps_of graph.now) pair.now.0 }
    requires stands { trait_of (maps_of graph.now) (id_of_number graph.now number) pair.now.0 ≡ Some (node_of pair.now.1) }
    requires nodes { IsNodeTable graph.now (IsWantedTrait graph.now) nodes.old }
    ensures told { OnOk result
        (Puts (ToldValue (maps_of graph.now) (id_of_number graph.now number) pair.now) events.old.items events.new.items) }
    ensures nodes { OnOk result (IsNodeTable graph.now (IsWantedTrait graph.now) nodes.new) }
{
    let found = nodes.first_fault(alloc, root, &pair.1)?;
    match found {
        Some(_) => {
            put_event(
                alloc,
                graph,
                Rule::TraitValue,
                number,
                pair.0.as_str(),
                events,
            )?;
            Ok(())
        }
        None => Ok(()),
    }
}
