// Trait.Place by the shape of the trait: it stands only on what the selector of its shape picks.
ghost use Rattle.std.specs.Prelude.{◌≡◌, ℕ, IfOk, OnOk, Some, length, map, not};
ghost use Rattle.sm_model.specs.GraphView.{IsShapeNumber, maps_of};
ghost use Rattle.sm_model.specs.Reaching.{id_of_number};
ghost use Rattle.sm_select.specs.Selectors.{steps_of};
ghost use Rattle.sm_select.specs.View.{selector_view};
ghost use Rattle.sm_select.specs.Ways.{AreWays};
ghost use Rattle.sm_rules.specs.RuleEvents.{IsEventOf, Puts};
ghost use Rattle.sm_rules.specs.declared.rule.Rule.TheVariants.{TraitPlace};
ghost use Rattle.sm_passes.specs.Putting.{Below, IsWhere, ToldOf};
ghost use Rattle.sm_trait_rules.specs.steps.Placing.{AreOfText, AreSharedUses, AreUsesThere, ToldOfUse, ToldOutside, ToldUnmarked};
ghost use Rattle.sm_trait_rules.specs.steps.Placing.{selector_under, told_use};
ghost use Rattle.sm_rules.specs.TraitShapes.{IsNotPicked};

use crate::first_texts::{first_texts, selector_at};
use crate::uses::{TraitUses, uses_of};
use sm_compile::id_text;
use sm_model::Graph;
use sm_passes::putting::{Events, Put, put_if};
use sm_rules::Rule;
use sm_select::{Selector, SelectorRefusal, Ways, parse_selector, select_among};
use sm_tree::NoMemory;
use std::alloc::Global;

/// Puts the events of Trait.Place that the shapes of traits tell. The selectors of one text are asked once, of what carries their
/// traits: n log n in all where they follow no relation; else a pass over the graph and its links for each step of each text.
pub fn put_unpicked(alloc: Global, graph: &Graph, ways: &Ways, events: &mut Events) -> Put
    requires { AreWays graph.now ways.now }
    ensures { OnOk result
        (Puts (IsEventOf TraitPlace (IsNotPicked (maps_of graph.now))) events.old.items events.new.items) }
{
    let firsts = first_texts(alloc, graph)?;
    let rows = uses_of(alloc, graph, firsts.as_slice())?;
    put_by_texts(alloc, graph, ways, rows.as_slice(), events)?;
    Ok(())
}

// Of all uses.
fn put_by_texts(
    alloc: Global,
    graph: &Graph,
    ways: &Ways,
    rows: &[TraitUses],
    events: &mut Events,
) -> Put
    requires ways { AreWays graph.now ways.now }
    requires rows { AreSharedUses graph.now rows.now }
    ensures { OnOk result
        (Puts (IsEventOf TraitPlace (IsNotPicked (maps_of graph.now))) events.old.items events.new.items) }
{
    for number in 0..graph.count() {
        put_shared(
            alloc,
            graph,
            ways,
            number,
            rows[number as usize].as_slice(),
            events,
        )?;
    }
    Ok(())
}

// Of uses of traits that have the selector of the trait at a number.
fn put_shared(
    alloc: Global,
    graph: &Graph,
    ways: &Ways,
    number: u32,
    uses: &[(u32, u32)],
    events: &mut Events,
) -> Put
    requires ways { AreWays graph.now ways.now }
    requires number { IsShapeNumber graph.now number }
    requires uses { AreOfText graph.now (selector_under (maps_of graph.now) (id_of_number graph.now number)) uses.now }
    ensures { OnOk result (Puts (ToldOf (ToldOfUse graph.now) uses.now) events.old.items events.new.items) }
{
    if uses.is_empty() {
        return Ok(());
    }
    match selector_at(graph, number) {
        Some(text) => put_by_text(alloc, graph, ways, text, uses, events),
        None => Ok(()),
    }
}

// Of those whose selectors have this text. A text that is none isn't applied.
fn put_by_text(
    alloc: Global,
    graph: &Graph,
    ways: &Ways,
    text: &str,
    uses: &[(u32, u32)],
    events: &mut Events,
) -> Put
    requires ways { AreWays graph.now ways.now }
    requires uses { AreOfText graph.now (Some text.now) uses.now }
    ensures { OnOk result (Puts (ToldOf (ToldOfUse graph.now) uses.now) events.old.items events.new.items) }
{
    match parse_selector(alloc, text) {
        Ok(selector) => {
            put_by_selector(alloc, graph, ways, &selector, uses, events)?;
            Ok(())
        }
        Err(refusal) => match refusal {
            SelectorRefusal::Syntax(_) => Ok(()),
            SelectorRefusal::OutOfProfile(_) => Ok(()),
            SelectorRefusal::NoMemory => Err(NoMemory),
        },
    }
}

// Of those that this selector doesn't pick.
fn put_by_selector(
    alloc: Global,
    graph: &Graph,
    ways: &Ways,
    selector: &Selector,
    uses: &[(u32, u32)],
    events: &mut Events,
) -> Put
    requires ways { AreWays graph.now ways.now }
    requires uses { AreUsesThere graph.now uses.now }
    ensures { OnOk result
        (Puts (ToldOf (ToldOutside graph.now (steps_of (selector_view selector.now))) uses.now) events.old.items events.new.items) }
{
    let carriers = carriers_of(alloc, uses)?;
    let picked = select_among(alloc, graph, ways, selector, carriers.as_slice())?;
    put_unmarked(alloc, graph, uses, picked.as_slice(), events)?;
    Ok(())
}

// What carries the traits of these uses.
fn carriers_of(alloc: Global, uses: &[(u32, u32)]) -> Result<Vec<u32>, NoMemory>
    ensures { IfOk result (λ carriers. carriers.items ≡ map (λ (u : ℕ × ℕ). u.0) uses.now) }
{
    let mut carriers = Vec::with_capacity(alloc, uses.len())?;
    for used in uses {
        carriers.push(used.0)?;
    }
    Ok(carriers)
}

// Of those whose places aren't marked.
fn put_unmarked(
    alloc: Global,
    graph: &Graph,
    uses: &[(u32, u32)],
    marks: &[bool],
    events: &mut Events,
) -> Put
    requires count { length marks.now ≡ length uses.now }
    requires uses { AreUsesThere graph.now uses.now }
    ensures { OnOk result (Puts (Below (ToldUnmarked graph.now uses.now marks.now) (length uses.now)) events.old.items events.new.items) }
{
    for place in 0..uses.len() {
        let used = &uses[place];
        put_unless(alloc, graph, used.0, used.1, marks[place], events)?;
    }
    Ok(())
}

fn put_unless(
    alloc: Global,
    graph: &Graph,
    carrier: u32,
    of: u32,
    picked: bool,
    events: &mut Events,
) -> Put
    requires carrier { IsShapeNumber graph.now carrier }
    requires of { IsShapeNumber graph.now of }
    ensures { OnOk result (Puts (IsWhere (not picked) (told_use graph.now (carrier, of))) events.old.items events.new.items) }
{
    put_if(
        alloc,
        graph,
        Rule::TraitPlace,
        carrier,
        !picked,
        id_text(graph, of),
        events,
    )?;
    Ok(())
}
