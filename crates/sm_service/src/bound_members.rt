// The binding of each member of a table, and the media types of its members and shapes, as the graph says them.
ghost use Rattle.std.specs.Prelude.{◌≡◌, IfOk, MatchOption, false, map, true};
ghost use Rattle.std.specs.List.{flat_map, list_any};
ghost use Rattle.std.specs.Option.{option_copied, option_map};
ghost use Rattle.std.specs.Prelude.{is_some};
ghost use Rattle.sm_tree.specs.View.{node_of};
ghost use Rattle.sm_model.specs.GraphView.{AreShapeNumbers, IsShapeNumber, maps_of};
ghost use Rattle.sm_model.specs.Reaching.{id_of_number};
ghost use Rattle.sm_shapes.specs.BindingPuts.{bindings_view};
ghost use Rattle.sm_shapes.specs.TableView.{binding_data};
ghost use Rattle.sm_compile.specs.Compiled.{EachSays, members_under};
ghost use Rattle.sm_compile.specs.Sound.{trait_of};
ghost use Rattle.sm_compile.specs.TraitIds.{binding_ids};
ghost use Rattle.sm_compile.specs.TraitNodes.{text_of};
ghost use Rattle.sm_http_traits.specs.Bindings.{carries_binding};
ghost use Rattle.sm_service.specs.steps.BindingsTold.{SeesMedia, TellsBinding, TellsMedia, TellsShapeMedia};

use sm_compile::trait_ids::{HTTP_HEADER, HTTP_PREFIX_HEADERS, HTTP_QUERY, MEDIA_TYPE};
use sm_compile::{target_of, text_in_trait, trait_node, value_members};
use sm_http_traits::bindings::{BindingKind, carries_binding};
use sm_model::Graph;
use sm_shapes::tables::Binding;
use sm_tree::{NoMemory, Text, Tree};
use std::alloc::Global;

/// The numbers of the members at which values of these shapes stand, shape by shape, in model order.
pub(crate) fn member_numbers(
    alloc: Global,
    graph: &Graph,
    shapes: &[u32],
) -> Result<Vec<u32>, NoMemory>
    requires { AreShapeNumbers graph.now shapes.now }
    ensures ids { IfOk result (λ members. map (id_of_number graph.now) members.items
        ≡ flat_map (members_under (maps_of graph.now)) (map (id_of_number graph.now) shapes.now)) }
    ensures numbers { IfOk result (λ members. AreShapeNumbers graph.now members.items) }
{
    let mut members = Vec::new(alloc);
    for shape in shapes {
        members.extend_from_slice(value_members(graph, *shape))?;
    }
    Ok(members)
}

/// The bindings of these members.
pub(crate) fn bindings_of_members(
    alloc: Global,
    graph: &Graph,
    members: &[u32],
) -> Result<Vec<Option<Binding>>, NoMemory>
    requires { AreShapeNumbers graph.now members.now }
    ensures { IfOk result (λ bindings. EachSays (TellsBinding (maps_of graph.now)) (map (id_of_number graph.now) members.now)
        (bindings_view bindings.items)) }
{
    let mut bindings = Vec::with_capacity(alloc, members.len())?;
    for member in members {
        bindings.push(binding_of(alloc, graph, *member)?)?;
    }
    Ok(bindings)
}

// The binding of a member, where the value of its trait reads.
fn binding_of(alloc: Global, graph: &Graph, member: u32) -> Result<Option<Binding>, NoMemory>
    requires { IsShapeNumber graph.now member }
    ensures { IfOk result (λ b. TellsBinding (maps_of graph.now) (id_of_number graph.now member) (option_map binding_data b)) }
{
    match binding_kind(graph, member) {
        Some(kind) => binding_of_kind(alloc, graph, member, kind),
        None => Ok(None),
    }
}

// The kind of the first binding that a member carries.
fn binding_kind(graph: &Graph, member: u32) -> Option<BindingKind>
    requires { IsShapeNumber graph.now member }
    ensures { MatchOption result
        (list_any (λ id. is_some (trait_of (maps_of graph.now) (id_of_number graph.now member) id)) binding_ids ≡ false)
        (λ kind. carries_binding (maps_of graph.now) (id_of_number graph.now member) kind ≡ true) }
{
    if carries_binding(graph, BindingKind::Label, member) {
        Some(BindingKind::Label)
    } else if carries_binding(graph, BindingKind::Query, member) {
        Some(BindingKind::Query)
    } else if carries_binding(graph, BindingKind::QueryParams, member) {
        Some(BindingKind::QueryParams)
    } else if carries_binding(graph, BindingKind::Header, member) {
        Some(BindingKind::Header)
    } else if carries_binding(graph, BindingKind::PrefixHeaders, member) {
        Some(BindingKind::PrefixHeaders)
    } else if carries_binding(graph, BindingKind::Payload, member) {
        Some(BindingKind::Payload)
    } else if carries_binding(graph, BindingKind::ResponseCode, member) {
        Some(BindingKind::ResponseCode)
    } else {
        None
    }
}

// The binding of this kind, with the name that its trait says.
fn binding_of_kind(
    alloc: Global,
    graph: &Graph,
    member: u32,
    kind: BindingKind,
) -> Result<Option<Binding>, NoMemory>
    requires number { IsShapeNumber graph.now member }
    requires carried { carries_binding (maps_of graph.now) (id_of_number graph.now member) kind ≡ true }
    ensures { IfOk result (λ b. TellsBinding (maps_of graph.now) (id_of_number graph.now member) (option_map binding_data b)) }
{
    match kind {
        BindingKind::Label => Ok(Some(Binding::Label)),
        BindingKind::QueryParams => Ok(Some(Binding::QueryParams)),
        BindingKind::Payload => Ok(Some(Binding::Payload)),
        BindingKind::ResponseCode => Ok(Some(Binding::ResponseCode)),
        BindingKind::Query => match text_at(alloc, graph, member, HTTP_QUERY)? {
            Some(name) => Ok(Some(Binding::Query(name))),
            None => Ok(None),
        },
        BindingKind::Header => match text_at(alloc, graph, member, HTTP_HEADER)? {
            Some(name) => Ok(Some(Binding::Header(name))),
            None => Ok(None),
        },
        BindingKind::PrefixHeaders => match text_at(alloc, graph, member, HTTP_PREFIX_HEADERS)? {
            Some(prefix) => Ok(Some(Binding::PrefixHeaders(prefix))),
            None => Ok(None),
        },
    }
}

// The text of a trait, where it is there and a text.
fn text_at(alloc: Global, graph: &Graph, number: u32, name: &str) -> Result<Option<Text>, NoMemory>
    requires { IsShapeNumber graph.now number }
    ensures { IfOk result (λ text. text ≡ text_of (trait_of (maps_of graph.now) (id_of_number graph.now number) name.now)) }
{
    copy_of(alloc, text_in_trait(trait_node(graph, number, name)))
}

// A copy of the text that may be there.
fn copy_of(alloc: Global, text: Option<&str>) -> Result<Option<Text>, NoMemory>
    ensures { IfOk result (λ copy. copy ≡ option_copied text.entry) }
{
    match text {
        Some(text) => Ok(Some(Text::copy(alloc, text)?)),
        None => Ok(None),
    }
}

/// The media types of values at these members: each the member's own, else its target's.
pub(crate) fn media_of_members(
    alloc: Global,
    graph: &Graph,
    members: &[u32],
) -> Result<Vec<Option<Text>>, NoMemory>
    requires { AreShapeNumbers graph.now members.now }
    ensures { IfOk result (λ media. EachSays (TellsMedia (maps_of graph.now)) (map (id_of_number graph.now) members.now) media.items) }
{
    let mut media = Vec::with_capacity(alloc, members.len())?;
    for member in members {
        media.push(media_of_member(alloc, graph, *member)?)?;
    }
    Ok(media)
}

fn media_of_member(alloc: Global, graph: &Graph, member: u32) -> Result<Option<Text>, NoMemory>
    requires { IsShapeNumber graph.now member }
    ensures { IfOk result (λ t. TellsMedia (maps_of graph.now) (id_of_number graph.now member) t) }
{
    copy_of(alloc, text_in_trait(media_seen(graph, member)))
}

fn media_seen(graph: &Graph, member: u32) -> Option<&Tree>
    requires { IsShapeNumber graph.now member }
    ensures { SeesMedia (maps_of graph.now) (id_of_number graph.now member) (option_map (λ t. node_of t.now) result) }
{
    match trait_node(graph, member, MEDIA_TYPE) {
        Some(tree) => Some(tree),
        None => match target_of(graph, member) {
            Some(target) => trait_node(graph, target, MEDIA_TYPE),
            None => None,
        },
    }
}

/// The media types of these shapes.
pub(crate) fn media_of_shapes(
    alloc: Global,
    graph: &Graph,
    shapes: &[u32],
) -> Result<Vec<Option<Text>>, NoMemory>
    requires { AreShapeNumbers graph.now shapes.now }
    ensures { IfOk result (λ media. EachSays (TellsShapeMedia (maps_of graph.now)) (map (id_of_number graph.now) shapes.now) media.items) }
{
    let mut media = Vec::with_capacity(alloc, shapes.len())?;
    for shape in shapes {
        media.push(text_at(alloc, graph, *shape, MEDIA_TYPE)?)?;
    }
    Ok(media)
}
