// Putting an event of a rule behind those that are there.
ghost use Rattle.std.specs.Prelude.{◌≡◌, IfOk, OnOk};
ghost use Rattle.sm_model.specs.EventView.{event_view};
ghost use Rattle.sm_model.specs.GraphView.{IsShapeNumber};
ghost use Rattle.sm_model.specs.Reaching.{id_of_number};
ghost use Rattle.sm_rules.specs.RuleEvents.{Puts, rule_event};
ghost use Rattle.sm_rules.specs.RuleList.{severity_of};
ghost use Rattle.sm_passes.specs.Putting.{IsWhere};

use sm_ids::ShapeId;
use sm_model::{Graph, ModelEvent};
use sm_rules::Rule;
use sm_tree::{NoMemory, Text};
use std::alloc::Global;

/// The events of a pass, in the order in which they are put.
pub type Events = Vec<ModelEvent>;

/// What putting events comes to: out of memory, or nothing more.
pub type Put = Result<(), NoMemory>;

/// Puts an event of a rule at a shape or member.
pub fn put_event(
    alloc: Global,
    graph: &Graph,
    rule: Rule,
    number: u32,
    detail: &str,
    events: &mut Events,
) -> Put
    requires { IsShapeNumber graph.now number }
    ensures { OnOk result (Puts (λ e. e ≡ rule_event rule (id_of_number graph.now number) detail.now) events.old.items events.new.items) }
{
    let event = event_of(alloc, graph, rule, number, detail)?;
    events.push(event)?;
    Ok(())
}

/// Puts an event where something is wrong.
pub fn put_if(
    alloc: Global,
    graph: &Graph,
    rule: Rule,
    number: u32,
    wrong: bool,
    detail: &str,
    events: &mut Events,
) -> Put
    requires { IsShapeNumber graph.now number }
    ensures { OnOk result
        (Puts (IsWhere wrong (rule_event rule (id_of_number graph.now number) detail.now)) events.old.items events.new.items) }
{
    if wrong {
        put_event(alloc, graph, rule, number, detail, events)?;
    }
    Ok(())
}

fn event_of(
    alloc: Global,
    graph: &Graph,
    rule: Rule,
    number: u32,
    detail: &str,
) -> Result<ModelEvent, NoMemory>
    requires { IsShapeNumber graph.now number }
    ensures told { IfOk result (λ e. event_view e ≡ rule_event rule (id_of_number graph.now number) detail.now) }
    ensures severity { IfOk result (λ e. e.severity ≡ severity_of rule) }
{
    let shape = id_at(alloc, graph, number)?;
    let id = Text::copy(alloc, rule.id())?;
    let detail = Text::copy(alloc, detail)?;
    Ok(ModelEvent {
        id,
        severity: rule.severity(),
        shape,
        detail,
    })
}

// A copy of the id at a number.
fn id_at(alloc: Global, graph: &Graph, number: u32) -> Result<ShapeId, NoMemory>
    requires { IsShapeNumber graph.now number }
    ensures { IfOk result (λ id. id ≡ id_of_number graph.now number) }
{
    let id = copied_id(alloc, graph.id(number))?;
    Ok(id)
}

fn copied_id(alloc: Global, id: &ShapeId) -> Result<ShapeId, NoMemory>
    ensures { IfOk result (λ copy. copy ≡ id.now) }
{
    match ShapeId::new(alloc, &id.as_ref()) {
        Ok(copy) => Ok(copy),
        Err(_) => Err(NoMemory),
    }
}
