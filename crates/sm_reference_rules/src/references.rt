// What bodies refer to, one reference after the other.
ghost use Rattle.std.specs.Prelude.{◌≡◌, ℕ, List, MatchOption, OnOk, Some};
ghost use Rattle.std.specs.FinMap as fin;
ghost use Rattle.sm_tree.specs.Node.{Members, members_of, object};
ghost use Rattle.sm_tree.specs.View.{members_view, node_of};
ghost use Rattle.sm_model.specs.EventView.{EventTold};
ghost use Rattle.sm_model.specs.GraphView.{IsShapeNumber, maps_of};
ghost use Rattle.sm_model.specs.Graphs.{GraphMaps};
ghost use Rattle.sm_model.specs.Reaching.{id_of_number};
ghost use Rattle.sm_rules.specs.RuleEvents.{Puts};
ghost use Rattle.sm_passes.specs.Putting.{ToldOf};
ghost use Rattle.sm_reference_rules.specs.steps.References.{ToldByBodies, ToldField, ToldInBody, ToldIn, ToldOwnBody, ToldPair, ToldText};
ghost use Rattle.sm_reference_rules.specs.steps.References.{body_in};
ghost use Rattle.sm_passes.specs.Owned.{own_kind};

use sm_model::{Graph, Kind, Relation, entries_of, pairs_of, text_of};
use sm_passes::each::{AtEach, put_each};
use sm_passes::owned::own_kind;
use sm_passes::putting::{Events, Put};
use sm_tree::{Text, Tree};
use std::alloc::Global;

/// What a rule tells of one reference.
pub trait AtReference {
    ghost use Rattle.sm_model.specs.declared.relation.Relation.{Relation};

    /// What it tells of a shape that refers to an id by a relation.
    ghost tells: { Self → GraphMaps → List ℕ → Relation → List ℕ → EventTold → Type 0 };

    /// Puts the events.
    fn put_for(
        &self,
        alloc: Global,
        graph: &Graph,
        from: u32,
        relation: Relation,
        id: &str,
        events: &mut Events,
    ) -> Put
        requires { IsShapeNumber graph.now from }
        ensures { OnOk result
            (Puts (tells self.now (maps_of graph.now) (id_of_number graph.now from) relation id.now)
            events.old.items events.new.items) };
}

/// Puts what is told of each reference of the bodies of shapes outside of the prelude. n log n.
pub fn put_bodies<A: AtReference>(
    alloc: Global,
    graph: &Graph,
    rule: &A,
    events: &mut Events,
) -> Put
    ensures { OnOk result
        (Puts (ToldByBodies (maps_of graph.now) (A.tells rule.now (maps_of graph.now))) events.old.items events.new.items) }
{
    put_each(alloc, graph, &Bodies { rule }, events)?;
    Ok(())
}

// What a rule tells of the body of a shape.
#[derive(Drop)]
struct Bodies<'a, A> {
    rule: &'a A,
}

impl<A: AtReference> AtEach for Bodies<'_, A> {
    ghost tells = { λ told g id. ToldOwnBody g (A.tells told.rule.now g) id };

    ghost knows = { λ told g. Unit {0} };

    fn put_at(&self, alloc: Global, graph: &Graph, number: u32, events: &mut Events) -> Put {
        match own_kind(graph, number) {
            Some(kind) => {
                put_body(alloc, graph, self.rule, number, kind, events)?;
                Ok(())
            }
            None => Ok(()),
        }
    }
}

// Of the body of a shape of this type.
fn put_body<A: AtReference>(
    alloc: Global,
    graph: &Graph,
    rule: &A,
    shape: u32,
    kind: Kind,
    events: &mut Events,
) -> Put
    requires number { IsShapeNumber graph.now shape }
    requires kind { own_kind (maps_of graph.now) (id_of_number graph.now shape) ≡ Some kind }
    ensures { OnOk result
        (Puts (ToldInBody (A.tells rule.now (maps_of graph.now) (id_of_number graph.now shape)) kind
        (body_in (fin.get (maps_of graph.now).shapes (id_of_number graph.now shape)))) events.old.items events.new.items) }
{
    match body_of(graph, shape) {
        Some(pairs) => {
            put_fields(alloc, graph, rule, shape, kind, pairs, events)?;
            Ok(())
        }
        None => Ok(()),
    }
}

// The pairs of a shape's body.
fn body_of(graph: &Graph, number: u32) -> Option<&[(Text, Tree)]>
    requires { IsShapeNumber graph.now number }
    ensures { MatchOption result
        ((ms : Members) → body_in (fin.get (maps_of graph.now).shapes (id_of_number graph.now number)) ≡ Some (object ms) → ⊥)
        (λ pairs. body_in (fin.get (maps_of graph.now).shapes (id_of_number graph.now number))
        ≡ Some (object (members_of (members_view pairs.now)))) }
{
    if graph.is_member(number) {
        None
    } else {
        pairs_of(graph.properties(number))
    }
}

fn put_fields<A: AtReference>(
    alloc: Global,
    graph: &Graph,
    rule: &A,
    shape: u32,
    kind: Kind,
    pairs: &[(Text, Tree)],
    events: &mut Events,
) -> Put
    requires { IsShapeNumber graph.now shape }
    ensures { OnOk result
        (Puts (ToldOf (ToldPair (A.tells rule.now (maps_of graph.now) (id_of_number graph.now shape)) kind) pairs.now)
        events.old.items events.new.items) }
{
    for pair in pairs {
        put_pair(alloc, graph, rule, shape, kind, pair, events)?;
    }
    Ok(())
}

fn put_pair<A: AtReference>(
    alloc: Global,
    graph: &Graph,
    rule: &A,
    shape: u32,
    kind: Kind,
    pair: &(Text, Tree),
    events: &mut Events,
) -> Put
    requires { IsShapeNumber graph.now shape }
    ensures { OnOk result
        (Puts (ToldPair (A.tells rule.now (maps_of graph.now) (id_of_number graph.now shape)) kind pair.now)
        events.old.items events.new.items) }
{
    let relation = Relation::of_field(kind, pair.0.as_str());
    put_field(alloc, graph, rule, shape, relation, &pair.1, events)?;
    Ok(())
}

// Of what a field says, where it says a relation.
fn put_field<A: AtReference>(
    alloc: Global,
    graph: &Graph,
    rule: &A,
    shape: u32,
    relation: Option<Relation>,
    value: &Tree,
    events: &mut Events,
) -> Put
    requires { IsShapeNumber graph.now shape }
    ensures { OnOk result
        (Puts (ToldField (A.tells rule.now (maps_of graph.now) (id_of_number graph.now shape)) relation (node_of value.now))
        events.old.items events.new.items) }
{
    match relation {
        Some(relation) => {
            put_value(alloc, graph, rule, shape, relation, value, events)?;
            Ok(())
        }
        None => Ok(()),
    }
}

// Of each id that a value refers to: the text that it is, or those that are its entries or its values.
fn put_value<A: AtReference>(
    alloc: Global,
    graph: &Graph,
    rule: &A,
    shape: u32,
    relation: Relation,
    value: &Tree,
    events: &mut Events,
) -> Put
    requires { IsShapeNumber graph.now shape }
    ensures { OnOk result
        (Puts (ToldIn (A.tells rule.now (maps_of graph.now) (id_of_number graph.now shape) relation) (node_of value.now))
        events.old.items events.new.items) }
{
    match text_of(value) {
        Some(id) => {
            rule.put_for(alloc, graph, shape, relation, id, events)?;
            Ok(())
        }
        None => match entries_of(value) {
            Some(items) => {
                put_entries(alloc, graph, rule, shape, relation, items, events)?;
                Ok(())
            }
            None => match pairs_of(value) {
                Some(pairs) => {
                    put_values(alloc, graph, rule, shape, relation, pairs, events)?;
                    Ok(())
                }
                None => Ok(()),
            },
        },
    }
}

fn put_entries<A: AtReference>(
    alloc: Global,
    graph: &Graph,
    rule: &A,
    shape: u32,
    relation: Relation,
    items: &[Tree],
    events: &mut Events,
) -> Put
    requires { IsShapeNumber graph.now shape }
    ensures { OnOk result
        (Puts (ToldOf (λ t. ToldText (A.tells rule.now (maps_of graph.now) (id_of_number graph.now shape) relation) (node_of t))
        items.now) events.old.items events.new.items) }
{
    for item in items {
        put_text(alloc, graph, rule, shape, relation, item, events)?;
    }
    Ok(())
}

fn put_values<A: AtReference>(
    alloc: Global,
    graph: &Graph,
    rule: &A,
    shape: u32,
    relation: Relation,
    pairs: &[(Text, Tree)],
    events: &mut Events,
) -> Put
    requires { IsShapeNumber graph.now shape }
    ensures { OnOk result
        (Puts (ToldOf (λ p. ToldText (A.tells rule.now (maps_of graph.now) (id_of_number graph.now shape) relation) (node_of p.1))
        pairs.now) events.old.items events.new.items) }
{
    for pair in pairs {
        put_text(alloc, graph, rule, shape, relation, &pair.1, events)?;
    }
    Ok(())
}

// Of the id that a text is.
fn put_text<A: AtReference>(
    alloc: Global,
    graph: &Graph,
    rule: &A,
    shape: u32,
    relation: Relation,
    tree: &Tree,
    events: &mut Events,
) -> Put
    requires { IsShapeNumber graph.now shape }
    ensures { OnOk result
        (Puts (ToldText (A.tells rule.now (maps_of graph.now) (id_of_number graph.now shape) relation) (node_of tree.now))
        events.old.items events.new.items) }
{
    match text_of(tree) {
        Some(id) => {
            rule.put_for(alloc, graph, shape, relation, id, events)?;
            Ok(())
        }
        None => Ok(()),
    }
}
