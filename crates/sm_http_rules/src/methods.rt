// Http.Method: the method of an operation is one that is routed.
ghost use Rattle.std.specs.Prelude.{◌≡◌, OnOk};
ghost use Rattle.sm_model.specs.GraphView.{maps_of};
ghost use Rattle.sm_rules.specs.RuleEvents.{IsEventAt, IsEventOf, Puts};
ghost use Rattle.sm_rules.specs.declared.rule.Rule.TheVariants.{HttpMethod};
ghost use Rattle.sm_rules.specs.Http.{HasOtherMethod, is_routed};

use sm_http_traits::http::method_of;
use sm_model::Graph;
use sm_passes::each::{AtEach, put_each};
use sm_passes::putting::{Events, Put, put_if};
use sm_rules::Rule;
use std::alloc::Global;

#[derive(Drop)]
struct Methods;

impl AtEach for Methods {
    ghost tells = { λ rule g id. IsEventAt HttpMethod (HasOtherMethod g) id };

    ghost knows = { λ rule g. Unit {0} };

    fn put_at(&self, alloc: Global, graph: &Graph, number: u32, events: &mut Events) -> Put {
        match method_of(graph, number) {
            Some(method) => {
                let other = !is_routed(method);
                put_if(
                    alloc,
                    graph,
                    Rule::HttpMethod,
                    number,
                    other,
                    method,
                    events,
                )?;
                Ok(())
            }
            None => Ok(()),
        }
    }
}

/// Puts the events of the rule.
pub fn put_methods(alloc: Global, graph: &Graph, events: &mut Events) -> Put
    ensures { OnOk result
        (Puts (IsEventOf HttpMethod (HasOtherMethod (maps_of graph.now))) events.old.items events.new.items) }
{
    put_each(alloc, graph, &Methods, events)?;
    Ok(())
}

/// Whether requests of this method are routed.
pub fn is_routed(method: &str) -> bool
    ensures { result ≡ is_routed method.now }
{
    method == "GET"
        || method == "PUT"
        || method == "POST"
        || method == "PATCH"
        || method == "DELETE"
}
