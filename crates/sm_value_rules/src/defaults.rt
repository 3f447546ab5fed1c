// Default.Value: the default of a member is a value of the shape that the member targets.
ghost use Rattle.std.specs.Prelude.{◌≡◌, ℕ, IfOk, List, MatchOption, OnOk, length};
ghost use Rattle.sm_tree.specs.Node.{Node};
ghost use Rattle.sm_tree.specs.View.{node_of};
ghost use Rattle.sm_model.specs.GraphView.{AreShapeNumbers, IsShapeNumber, entries_of, maps_of};
ghost use Rattle.sm_model.specs.Reaching.{id_of_number};
ghost use Rattle.sm_codec.specs.Named.{is_null};
ghost use Rattle.sm_rules.specs.RuleEvents.{IsEventOf, Puts};
ghost use Rattle.sm_rules.specs.declared.rule.Rule.TheVariants.{DefaultValue};
ghost use Rattle.sm_passes.specs.Putting.{ToldOf};
ghost use Rattle.sm_value_rules.specs.steps.Defaulting.{IsCheckedTarget, IsDefault, IsSaidDefault, IsWantedTarget, ToldDefault};
ghost use Rattle.sm_value_rules.specs.steps.Defaulting.{ToldDefaults, WantsTarget};
ghost use Rattle.sm_value_rules.specs.Marking.{AreCheckedMarks, AreValueMarks};
ghost use Rattle.sm_value_rules.specs.steps.Nodes.{AddsRoots, AreRoots, IsNodeTable};
ghost use Rattle.sm_rules.specs.Defaults.{HasWrongDefault};

use crate::nodes::NodeTable;
use crate::value_marks::ValueMarks;
use sm_compile::{members_of, target_of, trait_node};
use sm_model::Graph;
use sm_passes::owned::is_own_shape;
use sm_passes::putting::{Events, Put, put_event};
use sm_rules::Rule;
use sm_tree::{NoMemory, Tree};
use std::alloc::Global;

/// Puts the events of the rule, by the marks of the graph. n log n, besides the checks of the defaults themselves.
pub fn put_defaults(alloc: Global, graph: &Graph, marks: &ValueMarks, events: &mut Events) -> Put
    requires { AreValueMarks graph.now marks.now }
    ensures { OnOk result
        (Puts (IsEventOf DefaultValue (HasWrongDefault (maps_of graph.now))) events.old.items events.new.items) }
{
    put_by_marks(alloc, graph, marks.checked.as_slice(), events)
}

// Where these are the marks of the shapes for which nodes are checked.
fn put_by_marks(alloc: Global, graph: &Graph, checked: &[bool], events: &mut Events) -> Put
    requires { AreCheckedMarks graph.now checked.now }
    ensures { OnOk result
        (Puts (IsEventOf DefaultValue (HasWrongDefault (maps_of graph.now))) events.old.items events.new.items) }
{
    let roots = targets_of_defaults(alloc, graph, checked)?;
    let mut nodes = NodeTable::new(alloc, graph, roots.as_slice())?;
    for number in 0..graph.count() {
        put_in_shape(alloc, graph, checked, number, &mut nodes, events)?;
    }
    Ok(())
}

// The targets of all members with a default.
fn targets_of_defaults(alloc: Global, graph: &Graph, checked: &[bool]) -> Result<Vec<u32>, NoMemory>
    requires { AreCheckedMarks graph.now checked.now }
    ensures { IfOk result (λ roots. AreRoots graph.now (WantsTarget graph.now) (length (entries_of graph.now)) roots.items) }
{
    let mut roots = Vec::new(alloc);
    for number in 0..graph.count() {
        put_target(graph, checked, number, &mut roots)?;
    }
    Ok(roots)
}

fn put_target(
    graph: &Graph,
    checked: &[bool],
    number: u32,
    roots: &mut Vec<u32>,
) -> Result<(), NoMemory>
    requires checked { AreCheckedMarks graph.now checked.now }
    requires number { IsShapeNumber graph.now number }
    ensures { OnOk result (AddsRoots graph.now (WantsTarget graph.now number) roots.old.items roots.new.items) }
{
    match default_of(graph, checked, number) {
        Some(default) => {
            roots.push(default.target)?;
            Ok(())
        }
        None => Ok(()),
    }
}

// The default of a member, with the number of the shape that the member targets.
#[derive(Clone, Copy, Drop)]
struct Default<'a> {
    target: u32,
    tree: &'a Tree,
}

fn default_of<'a>(graph: &'a Graph, checked: &[bool], number: u32) -> Option<Default<'a>>
    requires checked { AreCheckedMarks graph.now checked.now }
    requires number { IsShapeNumber graph.now number }
    ensures { MatchOption result
        ((target : List ℕ) (n : Node) → IsDefault (maps_of graph.now) (id_of_number graph.now number) target n → ⊥)
        (λ d. IsShapeNumber graph.now d.target
        × IsDefault (maps_of graph.now) (id_of_number graph.now number) (id_of_number graph.now d.target) (node_of d.tree.now)) }
{
    match said_default(graph, number) {
        Some(tree) => match checked_target(graph, checked, number) {
            Some(target) => Some(Default { target, tree }),
            None => None,
        },
        None => None,
    }
}

// The value of `default`, where it isn't null.
fn said_default(graph: &Graph, number: u32) -> Option<&Tree>
    requires { IsShapeNumber graph.now number }
    ensures { MatchOption result
        ((n : Node) → IsSaidDefault (maps_of graph.now) (id_of_number graph.now number) n → ⊥)
        (λ t. IsSaidDefault (maps_of graph.now) (id_of_number graph.now number) (node_of t.now)) }
{
    match trait_node(graph, number, "smithy.api#default") {
        Some(tree) => { if is_null(tree) { None } else { Some(tree) } }
        None => None,
    }
}

fn is_null(tree: &Tree) -> bool
    ensures { result ≡ is_null (node_of tree.now) }
{
    match tree {
        Tree::Null => true,
        _ => false,
    }
}

// What a member targets, if nodes are checked for it.
fn checked_target(graph: &Graph, checked: &[bool], number: u32) -> Option<u32>
    requires checked { AreCheckedMarks graph.now checked.now }
    requires number { IsShapeNumber graph.now number }
    ensures { MatchOption result
        ((target : List ℕ) → IsCheckedTarget (maps_of graph.now) (id_of_number graph.now number) target → ⊥)
        (λ k. IsShapeNumber graph.now k × IsCheckedTarget (maps_of graph.now) (id_of_number graph.now number) (id_of_number graph.now k)) }
{
    match target_of(graph, number) {
        Some(target) => {
            if checked[target as usize] {
                Some(target)
            } else {
                None
            }
        }
        None => None,
    }
}

// Of a shape, where it is outside of the prelude.
fn put_in_shape(
    alloc: Global,
    graph: &Graph,
    checked: &[bool],
    shape: u32,
    nodes: &mut NodeTable,
    events: &mut Events,
) -> Put
    requires checked { AreCheckedMarks graph.now checked.now }
    requires shape { IsShapeNumber graph.now shape }
    requires nodes { IsNodeTable graph.now (IsWantedTarget graph.now) nodes.old }
    ensures told { OnOk result
        (Puts (ToldDefaults (maps_of graph.now) (id_of_number graph.now shape)) events.old.items events.new.items) }
    ensures nodes { OnOk result (IsNodeTable graph.now (IsWantedTarget graph.now) nodes.new) }
{
    if is_own_shape(graph, shape) {
        put_of_members(
            alloc,
            graph,
            checked,
            members_of(graph, shape),
            nodes,
            events,
        )?;
        Ok(())
    } else {
        Ok(())
    }
}

fn put_of_members(
    alloc: Global,
    graph: &Graph,
    checked: &[bool],
    members: &[u32],
    nodes: &mut NodeTable,
    events: &mut Events,
) -> Put
    requires checked { AreCheckedMarks graph.now checked.now }
    requires numbers { AreShapeNumbers graph.now members.now }
    requires nodes { IsNodeTable graph.now (IsWantedTarget graph.now) nodes.old }
    ensures told { OnOk result
        (Puts (ToldOf (λ k. ToldDefault (maps_of graph.now) (id_of_number graph.now k)) members.now) events.old.items events.new.items) }
    ensures nodes { OnOk result (IsNodeTable graph.now (IsWantedTarget graph.now) nodes.new) }
{
    for member in members {
        put_of_member(alloc, graph, checked, *member, nodes, events)?;
    }
    Ok(())
}

fn put_of_member(
    alloc: Global,
    graph: &Graph,
    checked: &[bool],
    member: u32,
    nodes: &mut NodeTable,
    events: &mut Events,
) -> Put
    requires checked { AreCheckedMarks graph.now checked.now }
    requires member { IsShapeNumber graph.now member }
    requires nodes { IsNodeTable graph.now (IsWantedTarget graph.now) nodes.old }
    ensures told { OnOk result
        (Puts (ToldDefault (maps_of graph.now) (id_of_number graph.now member)) events.old.items events.new.items) }
    ensures nodes { OnOk result (IsNodeTable graph.now (IsWantedTarget graph.now) nodes.new) }
{
    match default_of(graph, checked, member) {
        Some(default) => {
            put_default(alloc, graph, member, default, nodes, events)?;
            Ok(())
        }
        None => Ok(()),
    }
}

// Of a member with this default.
fn put_default(
    alloc: Global,
    graph: &Graph,
    member: u32,
    default: Default<'_>,
    nodes: &mut NodeTable,
    events: &mut Events,
) -> Put
    requires member { IsShapeNumber graph.now member }
    requires target { IsShapeNumber graph.now default.target }
    requires default { IsDefault (maps_of graph.now) (id_of_number graph.now member) (id_of_number graph.now default.target)
        (node_of default.tree.now) }
    requires nodes { IsNodeTable graph.now (IsWantedTarget graph.now) nodes.old }
    ensures told { OnOk result
        (Puts (ToldDefault (maps_of graph.now) (id_of_number graph.now member)) events.old.items events.new.items) }
    ensures nodes { OnOk result (IsNodeTable graph.now (IsWantedTarget graph.now) nodes.new) }
{
    match nodes.first_fault(alloc, default.target, default.tree)? {
        Some(kind) => {
            put_event(
                alloc,
                graph,
                Rule::DefaultValue,
                member,
                kind.word(),
                events,
            )?;
            Ok(())
        }
        None => Ok(()),
    }
}
