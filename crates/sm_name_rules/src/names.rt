// Service.Names: names in the closure of a service differ, not by case alone, and `rename` names what may have a new name.
ghost use Rattle.std.specs.Prelude.{◌≡◌, ◌↔◌, ℕ, None, OnOk, length, true};
ghost use Rattle.std.specs.List.{Contains};
ghost use Rattle.std.specs.Option.{option_map, unwrap_or};
ghost use Rattle.sm_tree.specs.Node.{members_of, no_members};
ghost use Rattle.sm_tree.specs.Parts.{pairs_in};
ghost use Rattle.sm_tree.specs.View.{members_view, node_of};
ghost use Rattle.sm_model.specs.GraphView.{IsShapeNumber, entries_of, maps_of};
ghost use Rattle.sm_model.specs.Reaching.{id_of_number};
ghost use Rattle.sm_select.specs.Ways.{AreWays};
ghost use Rattle.sm_rules.specs.Services.{HasWrongNames};
ghost use Rattle.sm_rules.specs.RuleEvents.{IsEventAt, IsEventOf, Puts, rule_event};
ghost use Rattle.sm_rules.specs.declared.rule.Rule.TheVariants.{ServiceNames};
ghost use Rattle.sm_passes.specs.Putting.{ToldOf};
ghost use Rattle.sm_passes.specs.Closures.{AreInside, AreInsideOf, AreOwnServices};
ghost use Rattle.sm_passes.specs.Firsts.{number_in};
ghost use Rattle.sm_passes.specs.Owned.{is_own_service};
ghost use Rattle.sm_name_rules.specs.steps.Naming.{GivesNone, IsWrongBy, IsWrongName, ToldAgain, ToldNames, ToldWrong, is_kept_kind};
ghost use Rattle.sm_name_rules.specs.steps.Naming.{is_left, keeps_name, pairs_where, renames_under};
ghost use Rattle.sm_name_rules.specs.steps.NameTwins.{AreNames, AreNamesInside, earlier_in};

use crate::earlier::{are_apart, earlier_numbers, own_rows};
use crate::given_names::numbers_alike;
use crate::name_twins::{NamesInside, names_inside};
use crate::named::{names_given, rows_among};
use sm_compile::trait_ids::ERROR;
use sm_compile::{field_of, id_text, kind_of};
use sm_model::{Graph, Kind, pairs_of};
use sm_passes::carried::carries;
use sm_passes::closures::Closure;
use sm_passes::earlier::{OfFirst, put_later};
use sm_passes::firsts::first_numbers;
use sm_passes::putting::{Events, Put, put_event, put_if};
use sm_passes::services::{OfServices, put_by_closures};
use sm_rules::Rule;
use sm_select::Ways;
use sm_tree::{Text, Tree};
use std::alloc::Global;
use std::collections::BTreeMap;

/// Puts the events of the rule, by the ways of the graph. n log n where no two names of the graph are equal but for case and no service
/// gives names. Else services with the same references share a walk of their closure and what it has of names, n log n in the closure.
/// Each of them is then n log n in the names that others of its closure have and in its `rename`.
pub fn put_names(alloc: Global, graph: &Graph, ways: &Ways, events: &mut Events) -> Put
    requires { AreWays graph.now ways.now }
    ensures { OnOk result
        (Puts (IsEventOf ServiceNames (HasWrongNames (maps_of graph.now))) events.old.items events.new.items) }
{
    let rows = own_rows(alloc, graph)?;
    let firsts = first_numbers(alloc, rows.as_slice())?;
    let earlier = earlier_numbers(alloc, graph, &firsts, rows.as_slice())?;
    let names = Names {
        firsts: &firsts,
        earlier: earlier.as_slice(),
        apart: are_apart(earlier.as_slice()),
    };
    put_by_closures(alloc, graph, ways, &names, events)?;
    Ok(())
}

// The names of a graph: what stands first under each, and, for each other number of a name, that first one.
#[derive(Drop)]
struct Names<'a, 'b> {
    firsts: &'a BTreeMap<&'b str, u32>,
    earlier: &'a [Option<u32>],
    // No two are equal but for case.
    apart: bool,
}

impl OfServices for Names<'_, '_> {
    ghost tells = { λ rule g k e. ToldNames g k e };

    ghost knows = { λ rule g. AreNames g (number_in rule.firsts.now) (earlier_in rule.earlier.now)
        × (rule.apart ≡ true → (k : ℕ) → earlier_in rule.earlier.now k ≡ None) };

    fn may_tell(&self, graph: &Graph, services: &[u32]) -> bool {
        !self.apart || !give_none(graph, services)
    }

    fn put_of_services(
        &self,
        alloc: Global,
        graph: &Graph,
        services: &[u32],
        closure: &Closure,
        events: &mut Events,
    ) -> Put {
        let inside = names_inside(alloc, self.firsts, self.earlier, closure)?;
        put_names_each(alloc, graph, &inside, services, events)?;
        Ok(())
    }
}

// Whether none of these services gives any.
fn give_none(graph: &Graph, services: &[u32]) -> bool
    requires { AreOwnServices graph.now services.now }
    ensures { result ≡ true → (k : ℕ) → Contains services.now k → GivesNone graph.now k }
{
    for service in services {
        if !renames_of(graph, *service).is_empty() {
            return false;
        }
    }
    true
}

// Of each of these services, with what their closure has of names.
fn put_names_each(
    alloc: Global,
    graph: &Graph,
    names: &NamesInside,
    services: &[u32],
    events: &mut Events,
) -> Put
    requires own { AreOwnServices graph.now services.now }
    requires inside { AreInsideOf graph.now services.now names.now.inside.now }
    requires names { AreNamesInside graph.now names.now }
    ensures { OnOk result (Puts (ToldOf (ToldNames graph.now) services.now) events.old.items events.new.items) }
{
    for service in services {
        put_names_of_service(alloc, graph, names, *service, events)?;
    }
    Ok(())
}

// Of a service, by what its closure has of names. n log n in the twins of the closure and in `rename`, beside the look-up of each id.
fn put_names_of_service(
    alloc: Global,
    graph: &Graph,
    names: &NamesInside,
    service: u32,
    events: &mut Events,
) -> Put
    requires number { IsShapeNumber graph.now service }
    requires own { is_own_service (maps_of graph.now) (id_of_number graph.now service) ≡ true }
    requires inside { AreInside graph.now service names.now.inside.now }
    requires names { AreNamesInside graph.now names.now }
    ensures { OnOk result
        (Puts (IsEventAt ServiceNames (HasWrongNames (maps_of graph.now)) (id_of_number graph.now service))
        events.old.items events.new.items) }
{
    let renames = renames_of(graph, service);
    let given = names_given(alloc, renames)?;
    let numbers = numbers_alike(alloc, graph, names, renames)?;
    let rows = rows_among(alloc, graph, &given, names.inside(), numbers.as_slice())?;
    put_later(alloc, graph, &Again { service }, rows.as_slice(), events)?;
    put_renames(alloc, graph, service, names.inside(), renames, events)?;
    Ok(())
}

// The pairs of its `rename`.
fn renames_of(graph: &Graph, service: u32) -> &[(Text, Tree)]
    requires { IsShapeNumber graph.now service }
    ensures { members_of (members_view result.now) ≡ renames_under (maps_of graph.now) (id_of_number graph.now service) }
{
    if graph.is_member(service) {
        &[]
    } else {
        pairs_where(field_of(graph.properties(service), "rename"))
    }
}

fn pairs_where(tree: Option<&Tree>) -> &[(Text, Tree)]
    ensures { members_of (members_view result.now) ≡ pairs_where (option_map (λ t. node_of t.now) tree.entry) }
{
    match tree {
        Some(tree) => pairs_there(tree),
        None => &[],
    }
}

fn pairs_there(tree: &Tree) -> &[(Text, Tree)]
    ensures { members_of (members_view result.now) ≡ unwrap_or (pairs_in (node_of tree.now)) no_members }
{
    match pairs_of(tree) {
        Some(pairs) => pairs,
        None => &[],
    }
}

// What is told of a name that stands again, at the service.
#[derive(Drop)]
struct Again {
    service: u32,
}

impl OfFirst for Again {
    ghost tells = { λ rule g. ToldAgain g rule.service };

    ghost knows = { λ rule g. IsShapeNumber g rule.service };

    fn put_of(
        &self,
        alloc: Global,
        graph: &Graph,
        _first: u32,
        number: u32,
        events: &mut Events,
    ) -> Put {
        put_event(
            alloc,
            graph,
            Rule::ServiceNames,
            self.service,
            id_text(graph, number),
            events,
        )?;
        Ok(())
    }
}

// Of these pairs of `rename`.
fn put_renames(
    alloc: Global,
    graph: &Graph,
    service: u32,
    inside: &[bool],
    pairs: &[(Text, Tree)],
    events: &mut Events,
) -> Put
    requires number { IsShapeNumber graph.now service }
    requires inside { AreInside graph.now service inside.now }
    ensures { OnOk result
        (Puts (ToldOf (ToldWrong (maps_of graph.now) (id_of_number graph.now service)) pairs.now) events.old.items events.new.items) }
{
    for pair in pairs {
        put_if_wrong(alloc, graph, service, inside, pair.0.as_str(), events)?;
    }
    Ok(())
}

fn put_if_wrong(
    alloc: Global,
    graph: &Graph,
    service: u32,
    inside: &[bool],
    name: &str,
    events: &mut Events,
) -> Put
    requires number { IsShapeNumber graph.now service }
    requires inside { AreInside graph.now service inside.now }
    ensures { OnOk result
        (Puts (λ e. IsWrongName (maps_of graph.now) (id_of_number graph.now service) name.now
        × (e ≡ rule_event ServiceNames (id_of_number graph.now service) name.now)) events.old.items events.new.items) }
{
    let wrong = is_wrong_name(graph, inside, name);
    put_if(
        alloc,
        graph,
        Rule::ServiceNames,
        service,
        wrong,
        name,
        events,
    )?;
    Ok(())
}

// Whether a name of `rename` is wrong: of a shape that keeps its name, or of none in the closure.
fn is_wrong_name(graph: &Graph, inside: &[bool], name: &str) -> bool
    requires { length inside.now ≡ length (entries_of graph.now) }
    ensures { (result ≡ true) ↔ IsWrongBy graph.now inside.now name.now }
{
    match graph.number(name) {
        Some(number) => is_left(graph, inside, number),
        None => true,
    }
}

fn is_left(graph: &Graph, inside: &[bool], number: u32) -> bool
    requires number { IsShapeNumber graph.now number }
    requires whole { length inside.now ≡ length (entries_of graph.now) }
    ensures { result ≡ is_left graph.now inside.now number }
{
    keeps_name(graph, number) || !inside[number as usize]
}

fn keeps_name(graph: &Graph, number: u32) -> bool
    requires { IsShapeNumber graph.now number }
    ensures { result ≡ keeps_name (maps_of graph.now) (id_of_number graph.now number) }
{
    kind_of(graph, number).is_some()
        && (carries(graph, number, ERROR) || is_kept_kind(kind_of(graph, number)))
}

fn is_kept_kind(kind: Option<Kind>) -> bool
    ensures { result ≡ is_kept_kind kind }
{
    match kind {
        Some(kind) => match kind {
            Kind::Operation => true,
            Kind::Resource => true,
            Kind::Service => true,
            _ => false,
        },
        None => false,
    }
}
