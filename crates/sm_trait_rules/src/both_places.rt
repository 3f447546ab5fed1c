// Trait.Place, of which two passes tell: one by the table of traits, one by the shapes of traits.
ghost use Rattle.std.specs.Prelude.{OnOk};
ghost use Rattle.sm_model.specs.GraphView.{maps_of};
ghost use Rattle.sm_select.specs.Ways.{AreWays};
ghost use Rattle.sm_rules.specs.RuleEvents.{IsEventOf, Puts};
ghost use Rattle.sm_rules.specs.declared.rule.Rule.TheVariants.{TraitPlace};
ghost use Rattle.sm_rules.specs.TraitShapes.{HasWrongPlace};

use crate::places::put_unpicked;
use crate::table_rules::put_other_places;
use sm_model::Graph;
use sm_passes::putting::{Events, Put};
use sm_select::Ways;
use std::alloc::Global;

/// Puts the events of the rule: n log n, beside the selectors of traits.
pub fn put_places(alloc: Global, graph: &Graph, ways: &Ways, events: &mut Events) -> Put
    requires { AreWays graph.now ways.now }
    ensures { OnOk result
        (Puts (IsEventOf TraitPlace (HasWrongPlace (maps_of graph.now))) events.old.items events.new.items) }
{
    put_other_places(alloc, graph, events)?;
    put_unpicked(alloc, graph, ways, events)?;
    Ok(())
}
