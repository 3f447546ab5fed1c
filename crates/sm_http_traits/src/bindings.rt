// The traits that bind members to parts of messages, and those that count on each side.
ghost use Rattle.std.specs.Prelude.{◌≡◌};
ghost use Rattle.std.specs.List.{list_any};
ghost use Rattle.sm_model.specs.GraphView.{IsShapeNumber, maps_of};
ghost use Rattle.sm_model.specs.Reaching.{id_of_number};
ghost use Rattle.sm_rules.specs.Bindings.{binding_id};
ghost use Rattle.sm_http_traits.specs.Bindings.{bindings_in, binding_said, carries_binding};

use sm_compile::has_trait;
use sm_compile::trait_ids::{
    HTTP_HEADER, HTTP_LABEL, HTTP_PAYLOAD, HTTP_PREFIX_HEADERS, HTTP_QUERY, HTTP_QUERY_PARAMS,
    HTTP_RESPONSE_CODE,
};
use sm_model::Graph;

/// The kind of a binding: the trait that binds a member to a part of a message, whatever its value.
#[derive(Debug, Clone, Copy, PartialEq, Eq, Drop)]
pub enum BindingKind {
    /// `httpLabel`.
    Label,
    /// `httpQuery`.
    Query,
    /// `httpQueryParams`.
    QueryParams,
    /// `httpHeader`.
    Header,
    /// `httpPrefixHeaders`.
    PrefixHeaders,
    /// `httpPayload`.
    Payload,
    /// `httpResponseCode`.
    ResponseCode,
}

/// The side of a message.
#[derive(Debug, Clone, Copy, PartialEq, Eq, Drop)]
pub enum BindingSide {
    /// The input of an operation.
    Input,
    /// Its output.
    Output,
    /// An error.
    Error,
}

/// The id of the trait. No memory.
pub fn binding_name(binding: BindingKind) -> &'static str
    ensures { result.now ≡ binding_id (binding_said binding) }
{
    match binding {
        BindingKind::Label => HTTP_LABEL,
        BindingKind::Query => HTTP_QUERY,
        BindingKind::QueryParams => HTTP_QUERY_PARAMS,
        BindingKind::Header => HTTP_HEADER,
        BindingKind::PrefixHeaders => HTTP_PREFIX_HEADERS,
        BindingKind::Payload => HTTP_PAYLOAD,
        BindingKind::ResponseCode => HTTP_RESPONSE_CODE,
    }
}

/// The bindings that count on a side. No memory.
pub fn bindings_of(side: BindingSide) -> &'static [BindingKind]
    ensures { result.now ≡ bindings_in side }
{
    match side {
        BindingSide::Input => &[
            BindingKind::Label,
            BindingKind::Query,
            BindingKind::QueryParams,
            BindingKind::Header,
            BindingKind::PrefixHeaders,
            BindingKind::Payload,
        ],
        BindingSide::Output => &[
            BindingKind::Header,
            BindingKind::PrefixHeaders,
            BindingKind::Payload,
            BindingKind::ResponseCode,
        ],
        BindingSide::Error => &[
            BindingKind::Header,
            BindingKind::PrefixHeaders,
            BindingKind::Payload,
        ],
    }
}

/// Whether a trait of a binding stands at a number. No memory.
pub fn carries_binding(graph: &Graph, binding: BindingKind, number: u32) -> bool
    requires { IsShapeNumber graph.now number }
    ensures { result ≡ carries_binding (maps_of graph.now) (id_of_number graph.now number) binding }
{
    has_trait(graph, number, binding_name(binding))
}

/// Whether one of these does. No memory.
pub fn carries_one(graph: &Graph, bindings: &[BindingKind], number: u32) -> bool
    requires { IsShapeNumber graph.now number }
    ensures { result ≡ list_any (carries_binding (maps_of graph.now) (id_of_number graph.now number)) bindings.now }
{
    for binding in bindings {
        if carries_binding(graph, *binding, number) {
            return true;
        }
    }
    false
}
