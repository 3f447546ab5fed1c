// Id.Case: ids of shapes differ, not by case alone.
ghost use Rattle.std.specs.Prelude.{◌≡◌, ◌++◌, ℕ, List, IfOk, OnOk, Some, length};
ghost use Rattle.std.specs.List.{Contains};
ghost use Rattle.sm_model.specs.GraphView.{IsShapeNumber, entries_of, maps_of};
ghost use Rattle.sm_rules.specs.RuleEvents.{IsEventOf, Puts};
ghost use Rattle.sm_rules.specs.declared.rule.Rule.TheVariants.{IdCase};
ghost use Rattle.sm_rules.specs.Names.{HasCaseTwin};
ghost use Rattle.sm_passes.specs.Firsts.{ToldAmong, ToldFirst, number_in};
ghost use Rattle.sm_passes.specs.Folded.{folded, folded_at, folded_below};

use sm_compile::id_text;
use sm_model::Graph;
use sm_passes::firsts::{first_numbers, first_of};
use sm_passes::folded::folded;
use sm_passes::owned::is_own_shape;
use sm_passes::putting::{Events, Put, put_if};
use sm_rules::Rule;
use sm_tree::{NoMemory, Text};
use std::alloc::Global;
use std::collections::BTreeMap;

/// Puts the events of the rule. n log n.
pub fn put_twins(alloc: Global, graph: &Graph, events: &mut Events) -> Put
    ensures { OnOk result
        (Puts (IsEventOf IdCase (HasCaseTwin (maps_of graph.now))) events.old.items events.new.items) }
{
    let rows = folded_ids(alloc, graph)?;
    let firsts = first_numbers(alloc, rows.as_slice())?;
    put_each_twin(alloc, graph, &firsts, rows.as_slice(), events)?;
    Ok(())
}

fn put_each_twin(
    alloc: Global,
    graph: &Graph,
    firsts: &BTreeMap<&str, u32>,
    rows: &[(Text, u32)],
    events: &mut Events,
) -> Put
    requires numbers { (r : List ℕ × ℕ) → Contains rows.now r → IsShapeNumber graph.now r.1 }
    requires firsts { (key : List ℕ) (j : ℕ) → number_in firsts.now key ≡ Some j → IsShapeNumber graph.now j }
    ensures { OnOk result
        (Puts (ToldAmong graph.now (number_in firsts.now) rows.now) events.old.items events.new.items) }
{
    for row in rows {
        put_twin(alloc, graph, firsts, row, events)?;
    }
    Ok(())
}

// The ids of shapes outside of the prelude in small letters, with their numbers.
fn folded_ids(alloc: Global, graph: &Graph) -> Result<Vec<(Text, u32)>, NoMemory>
    ensures { IfOk result (λ rows. rows.items ≡ folded_below graph.now (length (entries_of graph.now))) }
{
    let mut rows = Vec::new(alloc);
    for number in 0..graph.count() {
        put_folded(alloc, graph, number, &mut rows)?;
    }
    Ok(rows)
}

fn put_folded(
    alloc: Global,
    graph: &Graph,
    shape: u32,
    rows: &mut Vec<(Text, u32)>,
) -> Result<(), NoMemory>
    requires { IsShapeNumber graph.now shape }
    ensures { OnOk result (rows.new.items ≡ rows.old.items ++ folded_at graph.now shape) }
{
    if !is_own_shape(graph, shape) {
        return Ok(());
    }
    let folded = folded(alloc, id_text(graph, shape))?;
    rows.push((folded, shape))?;
    Ok(())
}

// Puts an event where another id stands first.
fn put_twin(
    alloc: Global,
    graph: &Graph,
    firsts: &BTreeMap<&str, u32>,
    row: &(Text, u32),
    events: &mut Events,
) -> Put
    requires number { IsShapeNumber graph.now row.now.1 }
    requires firsts { (key : List ℕ) (j : ℕ) → number_in firsts.now key ≡ Some j → IsShapeNumber graph.now j }
    ensures { OnOk result
        (Puts (ToldFirst graph.now (number_in firsts.now row.now.0) row.now.1) events.old.items events.new.items) }
{
    match first_of(firsts, row.0.as_str()) {
        Some(first) => {
            let other = first != row.1;
            put_if(
                alloc,
                graph,
                Rule::IdCase,
                row.1,
                other,
                id_text(graph, first),
                events,
            )?;
            Ok(())
        }
        None => Ok(()),
    }
}
