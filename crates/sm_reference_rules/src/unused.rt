// Shape.Unused: each shape is used by some service, where there is one.
ghost use Rattle.std.specs.Prelude.{◌≡◌, Bool, OnOk, length, true};
ghost use Rattle.std.specs.List.{list_any};
ghost use Rattle.sm_model.specs.GraphView.{IsShapeNumber, entries_of, maps_of};
ghost use Rattle.sm_model.specs.Reaching.{AreMarks, id_of_number};
ghost use Rattle.sm_select.specs.Ways.{AreWays};
ghost use Rattle.sm_rules.specs.RuleEvents.{IsEventAt, IsEventOf, Puts};
ghost use Rattle.sm_rules.specs.declared.rule.Rule.TheVariants.{ShapeUnused};
ghost use Rattle.sm_rules.specs.Shapes.{IsUnused};
ghost use Rattle.sm_reference_rules.specs.steps.Using.{AreUsed, is_unused, wants_use};
ghost use Rattle.sm_passes.specs.Owned.{is_own_service, is_service};

use sm_compile::kind_of;
use sm_compile::trait_ids::{MIXIN, TRAIT};
use sm_model::Graph;
use sm_passes::carried::carries;
use sm_passes::closures::{is_own_service, is_service};
use sm_passes::each::{AtEach, put_each};
use sm_passes::marked::{NumberTest, marked_where};
use sm_passes::owned::is_own_shape;
use sm_passes::putting::{Events, Put, put_if};
use sm_rules::Rule;
use sm_select::{Ways, image_of_walk};
use std::alloc::Global;

// Services outside of the prelude.
#[derive(Drop)]
struct Services;

impl NumberTest for Services {
    ghost passes = { λ test. is_own_service };

    fn passes(&self, graph: &Graph, number: u32) -> bool {
        is_own_service(graph, number)
    }
}

/// Puts the events of the rule, by the ways of the graph. Each link is looked at once.
pub fn put_unused(alloc: Global, graph: &Graph, ways: &Ways, events: &mut Events) -> Put
    requires { AreWays graph.now ways.now }
    ensures { OnOk result
        (Puts (IsEventOf ShapeUnused (IsUnused (maps_of graph.now))) events.old.items events.new.items) }
{
    let services = marked_where(alloc, graph, &Services)?;
    put_unused_where(alloc, graph, ways, services.as_slice(), events)?;
    Ok(())
}

// The same with the services as marks: where there are none, nothing is told.
fn put_unused_where(
    alloc: Global,
    graph: &Graph,
    ways: &Ways,
    services: &[bool],
    events: &mut Events,
) -> Put
    requires ways { AreWays graph.now ways.now }
    requires services { AreMarks (length (entries_of graph.now))
        (λ k. is_own_service (maps_of graph.now) (id_of_number graph.now k) ≡ true) services.now }
    ensures { OnOk result
        (Puts (IsEventOf ShapeUnused (IsUnused (maps_of graph.now))) events.old.items events.new.items) }
{
    if some_marked(services) {
        let used = image_of_walk(alloc, graph, ways, false, services)?;
        put_each(
            alloc,
            graph,
            &Unused {
                marks: used.as_slice(),
            },
            events,
        )?;
        Ok(())
    } else {
        Ok(())
    }
}

fn some_marked(marks: &[bool]) -> bool
    ensures { result ≡ list_any (λ (b : Bool). b) marks.now }
{
    for mark in marks {
        if *mark {
            return true;
        }
    }
    false
}

// What the services use, as marks.
#[derive(Drop)]
struct Unused<'a> {
    marks: &'a [bool],
}

impl AtEach for Unused<'_> {
    ghost tells = { λ rule g id. IsEventAt ShapeUnused (IsUnused g) id };

    ghost knows = { λ rule g. AreUsed g rule.marks.now };

    fn put_at(&self, alloc: Global, graph: &Graph, number: u32, events: &mut Events) -> Put {
        let unused = is_unused(graph, self.marks, number);
        put_if(alloc, graph, Rule::ShapeUnused, number, unused, "", events)?;
        Ok(())
    }
}

fn is_unused(graph: &Graph, marks: &[bool], number: u32) -> bool
    requires number { IsShapeNumber graph.now number }
    requires whole { length marks.now ≡ length (entries_of graph.now) }
    ensures { result ≡ is_unused graph.now marks.now number }
{
    wants_use(graph, number) && !marks[number as usize]
}

fn wants_use(graph: &Graph, number: u32) -> bool
    requires { IsShapeNumber graph.now number }
    ensures { result ≡ wants_use (maps_of graph.now) (id_of_number graph.now number) }
{
    is_own_shape(graph, number)
        && !is_service(kind_of(graph, number))
        && !carries(graph, number, TRAIT)
        && !carries(graph, number, MIXIN)
}
