// Events without those that are suppressed.
ghost use Rattle.std.specs.Prelude.{◌≡◌, IfOk, MatchOption, OnOk};
ghost use Rattle.std.specs.List.{Contains, filter};
ghost use Rattle.sm_model.specs.EventView.{event_view};
ghost use Rattle.sm_model.specs.GraphView.{maps_of};
ghost use Rattle.sm_rules.specs.RuleList.{rule_id};
ghost use Rattle.sm_load.specs.Suppressions.{is_suppressed};
ghost use Rattle.sm_load.specs.steps.Suppressing.{AreSuppressors, IsMade, IsSuppressor, stays};
ghost use Rattle.sm_load.specs.declared.suppressed.Suppressor.{Suppressor};

use crate::suppressing::{is_in, is_marked, named_there, namespaces_for};
use sm_model::{Graph, ModelEvent};
use sm_passes::rows::names::either;
use sm_rules::Rule;
use sm_tree::NoMemory;
use std::alloc::Global;
use std::collections::BTreeSet;

// What suppresses the events of a rule: the namespaces for which metadata does, and marks of the shapes and members whose traits do.
#[derive(Drop)]
struct Suppressor<'a> {
    rule: Rule,
    namespaces: BTreeSet<&'a str>,
    marks: Vec<bool>,
}

fn suppressor_of(alloc: Global, graph: &Graph, rule: Rule) -> Result<Suppressor<'_>, NoMemory>
    ensures rule { IfOk result (λ s. s.rule ≡ rule) }
    ensures is { IfOk result (λ s. IsSuppressor graph.now s) }
{
    let namespaces = namespaces_for(alloc, graph, rule.id())?;
    let marks = named_there(alloc, graph, rule.id())?;
    Ok(Suppressor {
        rule,
        namespaces,
        marks,
    })
}

impl Suppressor<'_> {
    // Whether an event of its rule that speaks of this id is suppressed.
    fn suppresses(&self, graph: &Graph, id: &str) -> bool
        ensures { IsSuppressor graph.now self.now → result ≡ is_suppressed (maps_of graph.now) id.now (rule_id self.now.rule) }
    {
        let there = is_marked(graph, self.marks.as_slice(), id);
        let in_metadata = is_in(&self.namespaces, id);
        either(there, in_metadata)
    }
}

// One for each rule whose events may be suppressed.
fn suppressors_of(alloc: Global, graph: &Graph) -> Result<Vec<Suppressor<'_>>, NoMemory>
    ensures { IfOk result (λ all. AreSuppressors graph.now all.items) }
{
    let mut all = Vec::new(alloc);
    let rules = Rule::all();
    for rule in rules {
        put_suppressor(alloc, graph, *rule, &mut all)?;
    }
    Ok(all)
}

// Puts that of a rule, if its events may be suppressed.
fn put_suppressor<'a>(
    alloc: Global,
    graph: &'a Graph,
    rule: Rule,
    all: &mut Vec<Suppressor<'a>>,
) -> Result<(), NoMemory>
    ensures { OnOk result (IsMade graph.now rule all.old.items all.new.items) }
{
    if rule.may_be_suppressed() {
        let suppressor = suppressor_of(alloc, graph, rule)?;
        all.push(suppressor)?;
    }
    Ok(())
}

// That of the rule of an event, if there is one.
fn suppressor_for<'s, 'a>(
    suppressors: &'s [Suppressor<'a>],
    event: &str,
) -> Option<&'s Suppressor<'a>>
    ensures { MatchOption result ((s : Suppressor) → Contains suppressors.now s → rule_id s.rule ≡ event.now → ⊥)
        (λ s. Contains suppressors.now s.now × (rule_id s.now.rule ≡ event.now)) }
{
    for suppressor in suppressors {
        if suppressor.rule.id() == event {
            return Some(suppressor);
        }
    }
    None
}

// Whether an event isn't suppressed.
fn keeps(suppressors: &[Suppressor<'_>], graph: &Graph, event: &ModelEvent) -> bool
    ensures { AreSuppressors graph.now suppressors.now → result ≡ stays (maps_of graph.now) (event_view event.now) }
{
    let id = event.id.as_str();
    let shape = event.shape.as_str();
    match suppressor_for(suppressors, id) {
        Some(suppressor) => !suppressor.suppresses(graph, shape),
        None => true,
    }
}

/// The events that aren't suppressed. n log n.
pub(crate) fn without_suppressed(
    alloc: Global,
    graph: &Graph,
    mut events: Vec<ModelEvent>,
) -> Result<Vec<ModelEvent>, NoMemory>
    ensures { IfOk result (λ kept. kept.items ≡ filter (λ e. stays (maps_of graph.now) (event_view e)) events.items) }
{
    let suppressors = suppressors_of(alloc, graph)?;
    let all = suppressors.as_slice();
    events.retain(|event| keeps(all, graph, event));
    Ok(events)
}
