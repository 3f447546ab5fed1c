// Rows whose keys earlier rows have too.
ghost use Rattle.std.specs.Prelude.{◌≡◌, ℕ, List, OnOk, Some, None, cond, length};
ghost use Rattle.std.specs.List.{Contains};
ghost use Rattle.std.specs.Option.{option_or};
ghost use Rattle.std.specs.Str.{bytes_eq};
ghost use Rattle.sm_model.specs.EventView.{EventTold};
ghost use Rattle.sm_model.specs.GraphView.{IsShapeNumber};
ghost use Rattle.sm_rules.specs.RuleEvents.{Puts};
ghost use Rattle.sm_passes.specs.Earlier.{ToldAfter, ToldAt};
ghost use Rattle.sm_passes.specs.Firsts.{number_in};
ghost use Rattle.sm_passes.specs.Putting.{Below};

use crate::firsts::first_of;
use crate::putting::{Events, Put};
use sm_model::Graph;
use sm_tree::Text;
use std::alloc::Global;
use std::collections::BTreeMap;

/// What a rule tells of a number by the first one that has its key.
pub trait OfFirst {
    ghost use Rattle.sm_model.specs.declared.graph.Graph.{Graph};

    /// What it tells.
    ghost tells: { Self → Graph → ℕ → ℕ → EventTold → Type 0 };
    /// What it knows of the graph.
    ghost knows: { Self → Graph → Type 0 };

    /// Puts the events.
    fn put_of(
        &self,
        alloc: Global,
        graph: &Graph,
        first: u32,
        number: u32,
        events: &mut Events,
    ) -> Put
        requires first { IsShapeNumber graph.now first }
        requires number { IsShapeNumber graph.now number }
        requires knows { knows self.now graph.now }
        ensures { OnOk result (Puts (tells self.now graph.now first number) events.old.items events.new.items) };
}

/// Puts the events of each of these rows whose key an earlier one has. n log n.
pub fn put_later<F: OfFirst>(
    alloc: Global,
    graph: &Graph,
    rule: &F,
    rows: &[(Text, u32)],
    events: &mut Events,
) -> Put
    requires numbers { (r : List ℕ × ℕ) → Contains rows.now r → IsShapeNumber graph.now r.1 }
    requires knows { F.knows rule.now graph.now }
    ensures { OnOk result
        (Puts (Below (ToldAt (F.tells rule.now graph.now) rows.now) (length rows.now)) events.old.items events.new.items) }
{
    let mut seen: BTreeMap<&str, u32> = BTreeMap::new(alloc);
    for row in rows {
        put_row(alloc, graph, rule, row, &mut seen, events)?;
    }
    Ok(())
}

// Puts those of a row, which is seen then.
fn put_row<'a, F: OfFirst>(
    alloc: Global,
    graph: &Graph,
    rule: &F,
    row: &'a (Text, u32),
    seen: &mut BTreeMap<&'a str, u32>,
    events: &mut Events,
) -> Put
    requires number { IsShapeNumber graph.now row.now.1 }
    requires firsts { (key : List ℕ) (j : ℕ) → number_in seen.old key ≡ Some j → IsShapeNumber graph.now j }
    requires knows { F.knows rule.now graph.now }
    ensures seen { OnOk result ((key : List ℕ) → number_in seen.new key
        ≡ option_or (number_in seen.old key) (cond (bytes_eq row.now.0 key) (Some row.now.1) None)) }
    ensures told { OnOk result
        (Puts (ToldAfter (F.tells rule.now graph.now) (number_in seen.old row.now.0) row.now.1) events.old.items events.new.items) }
{
    let key = row.0.as_str();
    match first_of(seen, key) {
        Some(first) => {
            rule.put_of(alloc, graph, first, row.1, events)?;
            Ok(())
        }
        None => {
            seen.insert(key, row.1)?;
            Ok(())
        }
    }
}
