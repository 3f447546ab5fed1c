// Headers that begin with a prefix of their shape.
ghost use Rattle.std.specs.Prelude.{◌≡◌, ◌++◌, [], IfOk, OnOk, true};
ghost use Rattle.std.specs.List.{cons_option};
ghost use Rattle.std.specs.Option.{option_copied};
ghost use Rattle.sm_model.specs.GraphView.{AreShapeNumbers, IsShapeNumber, maps_of};
ghost use Rattle.sm_model.specs.Reaching.{id_of_number};
ghost use Rattle.sm_rules.specs.WireNames.{header_name};
ghost use Rattle.sm_rules.specs.RuleEvents.{Puts};
ghost use Rattle.sm_passes.specs.Owned.{is_own_shape};
ghost use Rattle.sm_passes.specs.Putting.{ToldOf};
ghost use Rattle.sm_http_rules.specs.steps.Shortest.{AreApart};
ghost use Rattle.sm_http_rules.specs.steps.WireNames.{IsHeader, ToldBegun, ToldPrefixed, prefix_in, prefix_of, prefixes_of};

use crate::naming::read_trait;
use crate::shortest::{begins_with_one, shortest};
use sm_compile::trait_ids::{HTTP_HEADER, HTTP_PREFIX_HEADERS};
use sm_compile::{members_of, text_in_trait};
use sm_model::Graph;
use sm_passes::folded::folded;
use sm_passes::putting::{Events, Put, put_event};
use sm_rules::Rule;
use sm_tree::{NoMemory, Text};
use std::alloc::Global;

/// Puts the events of the members of a shape.
pub(crate) fn put_prefixed(alloc: Global, graph: &Graph, shape: u32, events: &mut Events) -> Put
    requires shape { IsShapeNumber graph.now shape }
    requires own { is_own_shape (maps_of graph.now) (id_of_number graph.now shape) ≡ true }
    ensures { OnOk result (Puts (ToldPrefixed (maps_of graph.now) (id_of_number graph.now shape)) events.old.items events.new.items) }
{
    put_begun(alloc, graph, members_of(graph, shape), events)?;
    Ok(())
}

// Of these members of a shape.
fn put_begun(alloc: Global, graph: &Graph, members: &[u32], events: &mut Events) -> Put
    requires { AreShapeNumbers graph.now members.now }
    ensures { OnOk result
        (Puts (ToldOf (ToldBegun graph.now (prefixes_of graph.now members.now)) members.now) events.old.items events.new.items) }
{
    let prefixes = prefixes_among(alloc, graph, members)?;
    let prefixes = shortest(prefixes);
    put_each_begun(alloc, graph, prefixes.as_slice(), members, events)?;
    Ok(())
}

// The prefixes of members, in small letters.
fn prefixes_among(alloc: Global, graph: &Graph, members: &[u32]) -> Result<Vec<Text>, NoMemory>
    requires { AreShapeNumbers graph.now members.now }
    ensures { IfOk result (λ prefixes. prefixes.items ≡ prefixes_of graph.now members.now) }
{
    let mut prefixes = Vec::new(alloc);
    for member in members {
        add_prefix(alloc, graph, *member, &mut prefixes)?;
    }
    Ok(prefixes)
}

fn add_prefix(
    alloc: Global,
    graph: &Graph,
    member: u32,
    prefixes: &mut Vec<Text>,
) -> Result<(), NoMemory>
    requires { IsShapeNumber graph.now member }
    ensures { OnOk result (prefixes.new.items ≡ prefixes.old.items ++ cons_option
        (prefix_of (maps_of graph.now) (id_of_number graph.now member)) []) }
{
    let prefix = text_in_trait(read_trait(graph, member, HTTP_PREFIX_HEADERS));
    add_text(alloc, prefix, prefixes)?;
    Ok(())
}

fn add_text(alloc: Global, prefix: Option<&str>, prefixes: &mut Vec<Text>) -> Result<(), NoMemory>
    ensures { OnOk result (prefixes.new.items ≡ prefixes.old.items ++ cons_option (prefix_in (option_copied prefix.entry)) []) }
{
    match prefix {
        Some(prefix) => {
            if prefix.is_empty() {
                Ok(())
            } else {
                prefixes.push(folded(alloc, prefix)?)?;
                Ok(())
            }
        }
        None => Ok(()),
    }
}

fn put_each_begun(
    alloc: Global,
    graph: &Graph,
    prefixes: &[Text],
    members: &[u32],
    events: &mut Events,
) -> Put
    requires apart { AreApart prefixes.now }
    requires members { AreShapeNumbers graph.now members.now }
    ensures { OnOk result (Puts (ToldOf (ToldBegun graph.now prefixes.now) members.now) events.old.items events.new.items) }
{
    for member in members {
        put_begun_at(alloc, graph, prefixes, *member, events)?;
    }
    Ok(())
}

fn put_begun_at(
    alloc: Global,
    graph: &Graph,
    prefixes: &[Text],
    member: u32,
    events: &mut Events,
) -> Put
    requires apart { AreApart prefixes.now }
    requires member { IsShapeNumber graph.now member }
    ensures { OnOk result (Puts (ToldBegun graph.now prefixes.now member) events.old.items events.new.items) }
{
    match header_name(graph, member) {
        Some(header) => {
            put_header(alloc, graph, prefixes, member, header, events)?;
            Ok(())
        }
        None => Ok(()),
    }
}

fn header_name(graph: &Graph, member: u32) -> Option<&str>
    requires { IsShapeNumber graph.now member }
    ensures { option_copied result ≡ header_name (maps_of graph.now) (id_of_number graph.now member) }
{
    text_in_trait(read_trait(graph, member, HTTP_HEADER))
}

// Where the header of a member begins with one of them.
fn put_header(
    alloc: Global,
    graph: &Graph,
    prefixes: &[Text],
    member: u32,
    header: &str,
    events: &mut Events,
) -> Put
    requires apart { AreApart prefixes.now }
    requires member { IsShapeNumber graph.now member }
    ensures { OnOk result
        (Puts (IsHeader (id_of_number graph.now member) prefixes.now header.now) events.old.items events.new.items) }
{
    let small = folded(alloc, header)?;
    if begins_with_one(small.as_str(), prefixes) {
        put_event(alloc, graph, Rule::WireNames, member, header, events)?;
        Ok(())
    } else {
        Ok(())
    }
}
