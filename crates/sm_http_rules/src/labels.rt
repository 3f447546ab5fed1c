// Http.Labels: labels of a pattern and the members of the input that are bound to them.
ghost use Rattle.std.specs.Prelude.{◌≡◌, [], OnOk, Some, length};
ghost use Rattle.sm_model.specs.GraphView.{IsShapeNumber, entries_of, maps_of};
ghost use Rattle.sm_model.specs.Links.{IsLinked};
ghost use Rattle.sm_model.specs.Reaching.{id_of_number};
ghost use Rattle.sm_select.specs.Ways.{AreWays};
ghost use Rattle.sm_rules.specs.Http.{HasWrongLabel};
ghost use Rattle.std.specs.List.{Contains};
ghost use Rattle.sm_rules.specs.RuleEvents.{IsEventOf, Puts};
ghost use Rattle.sm_rules.specs.declared.rule.Rule.TheVariants.{HttpLabels};
ghost use Rattle.sm_http_traits.specs.Http.{uri_seen};
ghost use Rattle.sm_passes.specs.Putting.{ToldOf};
ghost use Rattle.sm_http_rules.specs.steps.Labels.{AreBoundOf, AreEach, is_input, ToldByLink, ToldLabels, ToldOfUri};

use crate::label_rows::{BoundRows, all_bound_rows, label_rows};
use crate::label_told::put_by_rows;
use sm_http_traits::http::uri_of;
use sm_model::{Graph, Link, Relation};
use sm_passes::putting::{Events, Put};
use sm_select::Ways;
use sm_tree::{NoMemory, Text};
use sm_uri::{Segment, UriPattern, UriRefusal};
use std::alloc::Global;

/// Puts the events of the rule, by the ways of the graph. n log n.
pub fn put_labels(alloc: Global, graph: &Graph, ways: &Ways, events: &mut Events) -> Put
    requires { AreWays graph.now ways.now }
    ensures { OnOk result
        (Puts (IsEventOf HttpLabels (HasWrongLabel (maps_of graph.now))) events.old.items events.new.items) }
{
    let bound = all_bound_rows(alloc, graph)?;
    put_by_links(
        alloc,
        graph,
        ways.links.as_slice(),
        bound.as_slice(),
        events,
    )?;
    Ok(())
}

fn put_by_links(
    alloc: Global,
    graph: &Graph,
    links: &[Link],
    bound: &[BoundRows],
    events: &mut Events,
) -> Put
    requires links { (l : Link) → Contains links.now l → IsLinked graph.now l }
    requires bound { AreEach (AreBoundOf graph.now) [] (length (entries_of graph.now)) bound.now }
    ensures { OnOk result (Puts (ToldOf (ToldByLink graph.now) links.now) events.old.items events.new.items) }
{
    for link in links {
        put_by_link(alloc, graph, link, bound, events)?;
    }
    Ok(())
}

// Where an operation has this input.
fn put_by_link(
    alloc: Global,
    graph: &Graph,
    link: &Link,
    bound: &[BoundRows],
    events: &mut Events,
) -> Put
    requires link { IsLinked graph.now link.now }
    requires bound { AreEach (AreBoundOf graph.now) [] (length (entries_of graph.now)) bound.now }
    ensures { OnOk result (Puts (ToldByLink graph.now link.now) events.old.items events.new.items) }
{
    if is_input(link.relation) {
        put_of_operation(
            alloc,
            graph,
            link,
            bound[link.to as usize].as_slice(),
            events,
        )?;
        Ok(())
    } else {
        Ok(())
    }
}

fn is_input(relation: Relation) -> bool
    ensures { result ≡ is_input relation }
{
    match relation {
        Relation::Input => true,
        _ => false,
    }
}

// By the rows of the members of its input that are bound to labels.
fn put_of_operation(
    alloc: Global,
    graph: &Graph,
    link: &Link,
    bound: &[(Text, u32)],
    events: &mut Events,
) -> Put
    requires operation { IsShapeNumber graph.now link.now.from }
    requires bound { AreBoundOf graph.now link.now.to bound.now }
    ensures { OnOk result
        (Puts (ToldLabels (maps_of graph.now) (id_of_number graph.now link.now.from) (id_of_number graph.now link.now.to))
        events.old.items events.new.items) }
{
    match uri_of(graph, link.from) {
        Some(text) => {
            put_of_text(alloc, graph, link, bound, text, events)?;
            Ok(())
        }
        None => Ok(()),
    }
}

// By the text of its pattern.
fn put_of_text(
    alloc: Global,
    graph: &Graph,
    link: &Link,
    bound: &[(Text, u32)],
    text: &str,
    events: &mut Events,
) -> Put
    requires operation { IsShapeNumber graph.now link.now.from }
    requires bound { AreBoundOf graph.now link.now.to bound.now }
    requires said { Some text.now ≡ uri_seen (maps_of graph.now) (id_of_number graph.now link.now.from) }
    ensures { OnOk result
        (Puts (ToldLabels (maps_of graph.now) (id_of_number graph.now link.now.from) (id_of_number graph.now link.now.to))
        events.old.items events.new.items) }
{
    match UriPattern::parse(alloc, text) {
        Ok(uri) => {
            put_of_uri(alloc, graph, link, bound, uri.segments.as_slice(), events)?;
            Ok(())
        }
        Err(UriRefusal::Bad(_)) => Ok(()),
        Err(UriRefusal::NoMemory) => Err(NoMemory),
    }
}

// By the segments of its pattern.
fn put_of_uri(
    alloc: Global,
    graph: &Graph,
    link: &Link,
    bound: &[(Text, u32)],
    segments: &[Segment],
    events: &mut Events,
) -> Put
    requires operation { IsShapeNumber graph.now link.now.from }
    requires bound { AreBoundOf graph.now link.now.to bound.now }
    ensures { OnOk result
        (Puts (ToldOfUri (maps_of graph.now) (id_of_number graph.now link.now.from) (id_of_number graph.now link.now.to) segments.now)
        events.old.items events.new.items) }
{
    let labels = label_rows(alloc, segments, false)?;
    let greedy = label_rows(alloc, segments, true)?;
    put_by_rows(
        alloc,
        graph,
        link.from,
        labels.as_slice(),
        greedy.as_slice(),
        bound,
        events,
    )?;
    Ok(())
}
