// What `http` of an operation says, as a service has it.
ghost use Rattle.std.specs.Prelude.{◌≡◌, IfOk, pos};
ghost use Rattle.std.specs.Option.{option_map, unwrap_or};
ghost use Rattle.sm_model.specs.GraphView.{IsShapeNumber, maps_of};
ghost use Rattle.sm_model.specs.Reaching.{id_of_number};
ghost use Rattle.sm_uri.specs.UriPattern.{uri_said};
ghost use Rattle.sm_http_traits.specs.Http.{code_seen, method_seen};
ghost use Rattle.sm_service.specs.Compiled.{SaysHttp, SaysHttpRule};
ghost use Rattle.sm_service.specs.ServiceView.{http_data};
ghost use Rattle.sm_service.specs.steps.HttpReads.{HasHttpFields, IsUriSeen, ReadsHttp};

use crate::operation::HttpRule;
use sm_compile::has_trait;
use sm_compile::trait_ids::HTTP;
use sm_http_traits::http::{code_of, method_of, uri_of};
use sm_model::Graph;
use sm_tree::{NoMemory, Text};
use sm_uri::{UriPattern, UriRefusal};
use std::alloc::Global;

/// The status of success that counts where `http` names none.
const USUAL_CODE: u16 = 200;

/// What `http` of an operation says; `None` where it doesn't carry the trait.
pub(crate) fn http_rule(
    alloc: Global,
    graph: &Graph,
    operation: u32,
) -> Result<Option<HttpRule>, NoMemory>
    requires number { IsShapeNumber graph.now operation }
    requires reads { ReadsHttp (maps_of graph.now) (id_of_number graph.now operation) }
    ensures { IfOk result (λ rule.
        SaysHttp (maps_of graph.now) (id_of_number graph.now operation) (option_map http_data rule)) }
{
    if has_trait(graph, operation, HTTP) {
        let rule = rule_of(alloc, graph, operation)?;
        Ok(Some(rule))
    } else {
        Ok(None)
    }
}

// What it says, where it is there.
fn rule_of(alloc: Global, graph: &Graph, operation: u32) -> Result<HttpRule, NoMemory>
    requires number { IsShapeNumber graph.now operation }
    requires fields { HasHttpFields (maps_of graph.now) (id_of_number graph.now operation) }
    ensures { IfOk result (λ rule. SaysHttpRule (maps_of graph.now) (id_of_number graph.now operation) (http_data rule)) }
{
    let method = method_text(alloc, graph, operation)?;
    let uri = uri_pattern(alloc, graph, operation)?;
    let code = success_code(graph, operation);
    Ok(HttpRule { method, uri, code })
}

fn method_text(alloc: Global, graph: &Graph, operation: u32) -> Result<Text, NoMemory>
    requires number { IsShapeNumber graph.now operation }
    requires fields { HasHttpFields (maps_of graph.now) (id_of_number graph.now operation) }
    ensures { IfOk result (λ method. method_seen (maps_of graph.now) (id_of_number graph.now operation) ≡ Some method) }
{
    match method_of(graph, operation) {
        Some(method) => Text::copy(alloc, method),
        None => unreachable!(),
    }
}

fn uri_pattern(alloc: Global, graph: &Graph, operation: u32) -> Result<UriPattern, NoMemory>
    requires number { IsShapeNumber graph.now operation }
    requires fields { HasHttpFields (maps_of graph.now) (id_of_number graph.now operation) }
    ensures { IfOk result (λ uri. IsUriSeen (maps_of graph.now) (id_of_number graph.now operation) (uri_said uri)) }
{
    match uri_of(graph, operation) {
        Some(text) => match UriPattern::parse(alloc, text) {
            Ok(pattern) => Ok(pattern),
            Err(UriRefusal::Bad(_)) => unreachable!(),
            Err(UriRefusal::NoMemory) => Err(NoMemory),
        },
        None => unreachable!(),
    }
}

fn success_code(graph: &Graph, operation: u32) -> u16
    requires number { IsShapeNumber graph.now operation }
    requires fields { HasHttpFields (maps_of graph.now) (id_of_number graph.now operation) }
    ensures { pos result ≡ unwrap_or (code_seen (maps_of graph.now) (id_of_number graph.now operation)) (pos 200) }
{
    match code_of(graph, operation) {
        Some(code) => code as u16,
        None => USUAL_CODE,
    }
}
