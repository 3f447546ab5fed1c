// Which targets the bindings of HTTP allow.
ghost use Rattle.std.specs.Prelude.{◌≡◌, List, map};
ghost use Rattle.std.specs.FinMap as fin;
ghost use Rattle.std.specs.List.{list_all};
ghost use Rattle.sm_model.specs.GraphView.{AreShapeNumbers, IsShapeNumber, maps_of};
ghost use Rattle.sm_model.specs.Reaching.{id_of_number};
ghost use Rattle.sm_rules.specs.Bindings.{allows_target, have_strings_to, is_list_of, is_map_to, is_one_or_list, passes, targets};
ghost use Rattle.sm_http_traits.specs.Bindings.{binding_said};
ghost use Rattle.sm_http_rules.specs.steps.Allowing.{map_test, test_of};

use crate::targets::{Wanted, passes_at, targets_at};
use sm_compile::trait_ids::SPARSE;
use sm_compile::{kind_of, members_of, target_of};
use sm_http_traits::bindings::BindingKind;
use sm_model::{Graph, Kind};
use sm_passes::carried::carries;
use sm_passes::rows::kinds::is_kind;

/// Values of maps.
#[derive(Debug, Clone, Copy, PartialEq, Eq, Drop)]
pub enum MapValues {
    /// Strings, or lists of them.
    TextsOrLists,
    /// Strings.
    Texts,
}

/// Whether a binding allows the target of a member, or nothing stands there.
pub(crate) fn allows(graph: &Graph, binding: BindingKind, member: u32) -> bool
    requires { IsShapeNumber graph.now member }
    ensures { result
        ≡ targets (allows_target (maps_of graph.now) (binding_said binding)) (maps_of graph.now) (id_of_number graph.now member) }
{
    match target_of(graph, member) {
        Some(target) => allows_at(graph, binding, target),
        None => true,
    }
}

fn allows_at(graph: &Graph, binding: BindingKind, number: u32) -> bool
    requires { IsShapeNumber graph.now number }
    ensures { result
        ≡ allows_target (maps_of graph.now) (binding_said binding) (fin.get (maps_of graph.now).shapes (id_of_number graph.now number)) }
{
    match binding {
        BindingKind::Label => passes_at(graph, Wanted::Spelled, number),
        BindingKind::Query => is_one_or_list_at(graph, Wanted::Spelled, number),
        BindingKind::QueryParams => is_map_at(graph, MapValues::TextsOrLists, number),
        BindingKind::Header => is_one_or_list_at(graph, Wanted::Spelled, number),
        BindingKind::PrefixHeaders => is_map_at(graph, MapValues::Texts, number),
        BindingKind::Payload => passes_at(graph, Wanted::Payload, number),
        BindingKind::ResponseCode => passes_at(graph, Wanted::Integer, number),
    }
}

fn is_one_or_list_at(graph: &Graph, wanted: Wanted, number: u32) -> bool
    requires { IsShapeNumber graph.now number }
    ensures { result
        ≡ is_one_or_list (maps_of graph.now) (test_of wanted) (fin.get (maps_of graph.now).shapes (id_of_number graph.now number)) }
{
    passes_at(graph, wanted, number) || is_list_at(graph, wanted, number)
}

fn is_list_at(graph: &Graph, wanted: Wanted, number: u32) -> bool
    requires { IsShapeNumber graph.now number }
    ensures { result
        ≡ is_list_of (maps_of graph.now) (test_of wanted) (fin.get (maps_of graph.now).shapes (id_of_number graph.now number)) }
{
    match kind_of(graph, number) {
        Some(kind) => {
            is_kind(Kind::List, kind)
                && (!carries(graph, number, SPARSE)
                    && all_target(graph, wanted, members_of(graph, number)))
        }
        None => false,
    }
}

fn all_target(graph: &Graph, wanted: Wanted, members: &[u32]) -> bool
    requires { AreShapeNumbers graph.now members.now }
    ensures { result ≡ list_all (targets (passes (test_of wanted)) (maps_of graph.now)) (map (id_of_number graph.now) members.now) }
{
    for member in members {
        if !targets_at(graph, wanted, *member) {
            return false;
        }
    }
    true
}

fn is_map_at(graph: &Graph, values: MapValues, number: u32) -> bool
    requires { IsShapeNumber graph.now number }
    ensures { result
        ≡ is_map_to (maps_of graph.now) (map_test (maps_of graph.now) values)
        (fin.get (maps_of graph.now).shapes (id_of_number graph.now number)) }
{
    match kind_of(graph, number) {
        Some(kind) => {
            is_kind(Kind::Map, kind)
                && (!carries(graph, number, SPARSE)
                    && have_strings_to(graph, values, members_of(graph, number)))
        }
        None => false,
    }
}

fn have_strings_to(graph: &Graph, values: MapValues, members: &[u32]) -> bool
    requires { AreShapeNumbers graph.now members.now }
    ensures { result
        ≡ have_strings_to (maps_of graph.now) (map_test (maps_of graph.now) values) (map (id_of_number graph.now) members.now) }
{
    if members.len() == 2 {
        targets_at(graph, Wanted::Text, members[0]) && has_value(graph, values, members[1])
    } else {
        true
    }
}

fn has_value(graph: &Graph, values: MapValues, member: u32) -> bool
    requires { IsShapeNumber graph.now member }
    ensures { result ≡ targets (map_test (maps_of graph.now) values) (maps_of graph.now) (id_of_number graph.now member) }
{
    match target_of(graph, member) {
        Some(target) => is_value_at(graph, values, target),
        None => true,
    }
}

fn is_value_at(graph: &Graph, values: MapValues, number: u32) -> bool
    requires { IsShapeNumber graph.now number }
    ensures { result ≡ map_test (maps_of graph.now) values (fin.get (maps_of graph.now).shapes (id_of_number graph.now number)) }
{
    match values {
        MapValues::TextsOrLists => is_one_or_list_at(graph, Wanted::Text, number),
        MapValues::Texts => passes_at(graph, Wanted::Text, number),
    }
}
