// A rule that is told number by number, and the walk that skips the prelude.
ghost use Rattle.std.specs.Prelude.{◌≡◌, ℕ, List, OnOk, false, length, true};
ghost use Rattle.sm_model.specs.EventView.{EventTold};
ghost use Rattle.sm_model.specs.GraphView.{IsShapeNumber, entries_of, maps_of};
ghost use Rattle.sm_model.specs.Graphs.{GraphMaps};
ghost use Rattle.sm_model.specs.PreludeShapes.{is_prelude_id};
ghost use Rattle.sm_model.specs.Reaching.{id_of_number};
ghost use Rattle.sm_rules.specs.RuleEvents.{Puts};
ghost use Rattle.sm_passes.specs.Putting.{Below};

use crate::putting::{Events, Put};
use sm_compile::id_text;
use sm_model::{Graph, is_in_prelude};
use std::alloc::Global;

/// What a rule tells of one shape or member.
pub trait AtEach {
    ghost use Rattle.sm_model.specs.declared.graph.Graph.{Graph};

    /// What it tells at an id.
    ghost tells: { Self → GraphMaps → List ℕ → EventTold → Type 0 };
    /// What it knows of the graph.
    ghost knows: { Self → Graph → Type 0 };

    /// Puts the events at a number.
    fn put_at(&self, alloc: Global, graph: &Graph, number: u32, events: &mut Events) -> Put
        requires number { IsShapeNumber graph.now number }
        requires knows { knows self.now graph.now }
        ensures { OnOk result
            (Puts (tells self.now (maps_of graph.now) (id_of_number graph.now number)) events.old.items events.new.items) };
}

/// Puts the events at all numbers.
pub fn put_each<A: AtEach>(alloc: Global, graph: &Graph, rule: &A, events: &mut Events) -> Put
    requires { A.knows rule.now graph.now }
    ensures { OnOk result
        (Puts (Below (λ k. A.tells rule.now (maps_of graph.now) (id_of_number graph.now k)) (length (entries_of graph.now)))
        events.old.items events.new.items) }
{
    for number in 0..graph.count() {
        rule.put_at(alloc, graph, number, events)?;
    }
    Ok(())
}

/// What a rule tells of one shape or member outside of the prelude.
pub trait AtOwn {
    ghost use Rattle.sm_model.specs.declared.graph.Graph.{Graph};

    /// What it tells at an id.
    ghost tells: { Self → GraphMaps → List ℕ → EventTold → Type 0 };
    /// What it knows of the graph.
    ghost knows: { Self → Graph → Type 0 };

    /// Puts the events at a number.
    fn put_own(&self, alloc: Global, graph: &Graph, number: u32, events: &mut Events) -> Put
        requires number { IsShapeNumber graph.now number }
        requires own { is_prelude_id (id_of_number graph.now number) ≡ false }
        requires knows { knows self.now graph.now }
        ensures { OnOk result
            (Puts (tells self.now (maps_of graph.now) (id_of_number graph.now number)) events.old.items events.new.items) };

    ghost silent: { (rule : Self) (g : GraphMaps) (id : List ℕ) (e : EventTold) → is_prelude_id id ≡ true → tells rule g id e → ⊥ };
}

// Such a rule at each number.
#[derive(Drop)]
struct Outside<'a, A> {
    rule: &'a A,
}

impl<A: AtOwn> AtEach for Outside<'_, A> {
    ghost tells = { λ told. A.tells told.rule.now };

    ghost knows = { λ told. A.knows told.rule.now };

    fn put_at(&self, alloc: Global, graph: &Graph, number: u32, events: &mut Events) -> Put {
        if is_in_prelude(id_text(graph, number)) {
            return Ok(());
        }
        self.rule.put_own(alloc, graph, number, events)?;
        Ok(())
    }
}

/// Puts the events at all numbers outside of the prelude: in the prelude the rule tells nothing.
pub fn put_outside<A: AtOwn>(alloc: Global, graph: &Graph, rule: &A, events: &mut Events) -> Put
    requires { A.knows rule.now graph.now }
    ensures { OnOk result
        (Puts (Below (λ k. A.tells rule.now (maps_of graph.now) (id_of_number graph.now k)) (length (entries_of graph.now)))
        events.old.items events.new.items) }
{
    put_each(alloc, graph, &Outside { rule }, events)?;
    Ok(())
}
