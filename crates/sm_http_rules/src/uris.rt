// Http.Uri: the `uri` of an operation is a pattern.
ghost use Rattle.std.specs.Prelude.{[], OnOk};
ghost use Rattle.sm_model.specs.GraphView.{IsShapeNumber, maps_of};
ghost use Rattle.sm_model.specs.Reaching.{id_of_number};
ghost use Rattle.sm_uri.specs.UriPattern.{IsUriText};
ghost use Rattle.sm_rules.specs.Http.{HasNoUri};
ghost use Rattle.sm_rules.specs.RuleEvents.{IsEventAt, IsEventOf, Puts, rule_event};
ghost use Rattle.sm_rules.specs.declared.rule.Rule.TheVariants.{HttpUri};
ghost use Rattle.sm_passes.specs.Putting.{IsUnless};

use sm_http_traits::http::uri_of;
use sm_model::Graph;
use sm_passes::each::{AtEach, put_each};
use sm_passes::putting::{Events, Put, put_event};
use sm_rules::Rule;
use sm_tree::NoMemory;
use sm_uri::{UriPattern, UriRefusal};
use std::alloc::Global;

#[derive(Drop)]
struct Uris;

impl AtEach for Uris {
    ghost tells = { λ rule g id. IsEventAt HttpUri (HasNoUri g) id };

    ghost knows = { λ rule g. Unit {0} };

    fn put_at(&self, alloc: Global, graph: &Graph, number: u32, events: &mut Events) -> Put {
        match uri_of(graph, number) {
            Some(text) => {
                put_no_uri(alloc, graph, number, text, events)?;
                Ok(())
            }
            None => Ok(()),
        }
    }
}

/// Puts the events of the rule. n log n in the texts.
pub fn put_uris(alloc: Global, graph: &Graph, events: &mut Events) -> Put
    ensures { OnOk result (Puts (IsEventOf HttpUri (HasNoUri (maps_of graph.now))) events.old.items events.new.items) }
{
    put_each(alloc, graph, &Uris, events)?;
    Ok(())
}

// Puts an event where a text is no pattern.
fn put_no_uri(alloc: Global, graph: &Graph, number: u32, text: &str, events: &mut Events) -> Put
    requires { IsShapeNumber graph.now number }
    ensures { OnOk result
        (Puts (IsUnless (IsUriText text.now) (rule_event HttpUri (id_of_number graph.now number) []))
        events.old.items events.new.items) }
{
    match UriPattern::parse(alloc, text) {
        Ok(_uri) => Ok(()),
        Err(UriRefusal::Bad(_)) => {
            put_event(alloc, graph, Rule::HttpUri, number, "", events)?;
            Ok(())
        }
        Err(UriRefusal::NoMemory) => Err(NoMemory),
    }
}
