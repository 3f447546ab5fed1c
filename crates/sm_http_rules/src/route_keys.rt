// The routes of operations as texts: patterns without the names of labels, each with its method.
ghost use Rattle.std.specs.Prelude.{◌≡◌, ◌++◌, IfOk, OnOk, Some};
ghost use Rattle.std.specs.List.{Contains};
ghost use Rattle.std.specs.Option.{option_copied};
ghost use Rattle.sm_model.specs.GraphView.{IsShapeNumber, maps_of};
ghost use Rattle.sm_model.specs.Reaching.{id_of_number};
ghost use Rattle.sm_model.specs.Joins.{Joins};
ghost use Rattle.sm_uri.specs.UriPattern.{uri_said};
ghost use Rattle.sm_http_traits.specs.Http.{uri_seen};
ghost use Rattle.sm_http_rules.specs.steps.Routes.{AreRoutes, IsKeyAt, IsRouteKey, key_of, method_tail};

use sm_http_traits::http::{method_of, uri_of};
use sm_model::Graph;
use sm_tree::{NoMemory, Text};
use sm_uri::{UriPattern, UriRefusal, route_text};
use std::alloc::Global;

/// The routes of operations, each with the operation's number. Linear in the texts, and n log n in labels.
pub(crate) fn route_rows(alloc: Global, graph: &Graph) -> Result<Vec<(Text, u32)>, NoMemory>
    ensures { IfOk result (λ rows. AreRoutes graph.now rows.items) }
{
    let mut rows = Vec::new(alloc);
    for number in 0..graph.count() {
        put_key(alloc, graph, number, &mut rows)?;
    }
    Ok(rows)
}

fn put_key(
    alloc: Global,
    graph: &Graph,
    number: u32,
    rows: &mut Vec<(Text, u32)>,
) -> Result<(), NoMemory>
    requires { IsShapeNumber graph.now number }
    ensures { OnOk result (Joins (Contains rows.old.items)
        (λ r. (r.1 ≡ number) × IsRouteKey (maps_of graph.now) (id_of_number graph.now r.1) r.0) (Contains rows.new.items)) }
{
    match key_at(alloc, graph, number)? {
        Some(key) => {
            rows.push((key, number))?;
            Ok(())
        }
        None => Ok(()),
    }
}

fn key_at(alloc: Global, graph: &Graph, number: u32) -> Result<Option<Text>, NoMemory>
    requires { IsShapeNumber graph.now number }
    ensures { IfOk result (IsKeyAt graph.now number) }
{
    match uri_of(graph, number) {
        Some(text) => key_of_text(alloc, graph, number, text),
        None => Ok(None),
    }
}

// By the text of its pattern.
fn key_of_text(
    alloc: Global,
    graph: &Graph,
    number: u32,
    text: &str,
) -> Result<Option<Text>, NoMemory>
    requires number { IsShapeNumber graph.now number }
    requires said { Some text.now ≡ uri_seen (maps_of graph.now) (id_of_number graph.now number) }
    ensures { IfOk result (IsKeyAt graph.now number) }
{
    match UriPattern::parse(alloc, text) {
        Ok(uri) => {
            let key = key_of(alloc, &uri, method_of(graph, number))?;
            Ok(Some(key))
        }
        Err(UriRefusal::Bad(_)) => Ok(None),
        Err(UriRefusal::NoMemory) => Err(NoMemory),
    }
}

fn key_of(alloc: Global, uri: &UriPattern, method: Option<&str>) -> Result<Text, NoMemory>
    ensures { IfOk result (λ key. key ≡ key_of (uri_said uri.now) (option_copied method.entry)) }
{
    let route = route_text(alloc, uri)?;
    let key = with_method(alloc, route.as_str(), method)?;
    Ok(key)
}

// No pattern has a `#`.
fn with_method(alloc: Global, route: &str, method: Option<&str>) -> Result<Text, NoMemory>
    ensures { IfOk result (λ key. key ≡ route.now ++ method_tail (option_copied method.entry)) }
{
    match method {
        Some(method) => joined(alloc, route, method),
        None => Text::copy(alloc, route),
    }
}

fn joined(alloc: Global, route: &str, method: &str) -> Result<Text, NoMemory>
    ensures { IfOk result (λ key. key ≡ route.now ++ method_tail (Some method.now)) }
{
    let mut out = String::new(alloc);
    out.push_str(route)?;
    out.push_str("#")?;
    out.push_str(method)?;
    Ok(Text::new(out))
}
