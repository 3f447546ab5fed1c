// The traits that are seen at a shape, or at a member with its target, and what they say of values.
ghost use Rattle.std.specs.Prelude.{◌≡◌, is_some};
ghost use Rattle.std.specs.Option.{ForSome, option_copied, option_map};
ghost use Rattle.sm_tree.specs.View.{node_of};
ghost use Rattle.sm_model.specs.GraphView.{IsShapeNumber, maps_of};
ghost use Rattle.sm_model.specs.Reaching.{id_of_number};
ghost use Rattle.sm_compile.specs.Said.{bounds_seen, format_seen, pattern_seen};
ghost use Rattle.sm_compile.specs.Sound.{trait_of};
ghost use Rattle.sm_compile.specs.TraitNodes.{least_of, most_of};
ghost use Rattle.sm_compile.specs.steps.Seeing.{is_bound_under, traits_seen};

use crate::kinds::{has_length, is_text_kind, is_whole_kind};
use crate::look::trait_node;
use crate::trait_ids::{
    HTTP_HEADER, HTTP_LABEL, HTTP_PAYLOAD, HTTP_PREFIX_HEADERS, HTTP_QUERY, HTTP_QUERY_PARAMS,
    HTTP_RESPONSE_CODE, LENGTH, PATTERN, RANGE, TIMESTAMP_FORMAT,
};
use crate::traits::{bound_of, format_of, text_in_trait};
use crate::values::EnumValues;
use sm_model::{Graph, Kind};
use sm_shapes::constraints::Constraints;
use sm_time::Format;
use sm_tree::Tree;

/// The traits of what has a number, and behind them those of a member's target.
#[derive(Clone, Copy, Drop)]
pub(crate) struct SeenTraits<'a> {
    /// The graph.
    pub graph: &'a Graph,
    /// The shape or member.
    pub own: u32,
    /// The target of a member.
    pub target: Option<u32>,
    pub ghost own_within: { IsShapeNumber graph.now own },
    pub ghost target_within: { ForSome target (λ t. IsShapeNumber graph.now t) },
}

impl<'a> SeenTraits<'a> {
    /// The value of a trait.
    pub(crate) fn value(&self, name: &str) -> Option<&'a Tree>
        ensures { option_map (λ t. node_of t.now) result ≡ traits_seen self.now.graph.now self.now.own self.now.target name.now }
    {
        match trait_node(self.graph, self.own, name) {
            Some(tree) => Some(tree),
            None => match self.target {
                Some(target) => trait_node(self.graph, target, name),
                None => None,
            },
        }
    }

    /// The bounds that count for values of a type.
    pub(crate) fn bounds(&self, kind: Kind) -> Option<&'a Tree>
        ensures { option_map (λ t. node_of t.now) result ≡ bounds_seen kind (traits_seen self.now.graph.now self.now.own self.now.target) }
    {
        if has_length(kind) {
            self.value(LENGTH)
        } else if is_whole_kind(kind) {
            self.value(RANGE)
        } else {
            None
        }
    }

    /// The pattern that counts for values of a type.
    pub(crate) fn pattern(&self, kind: Kind) -> Option<&'a str>
        ensures { option_copied result ≡ pattern_seen kind (traits_seen self.now.graph.now self.now.own self.now.target) }
    {
        if is_text_kind(kind) {
            text_in_trait(self.value(PATTERN))
        } else {
            None
        }
    }

    /// The format of a timestamp.
    pub(crate) fn format(&self) -> Option<Format>
        ensures { result ≡ format_seen (traits_seen self.now.graph.now self.now.own self.now.target) }
    {
        format_of(self.value(TIMESTAMP_FORMAT))
    }

    /// The constraints of values of a type, with these values of an enum and this pattern.
    pub(crate) fn constraints(
        &self,
        kind: Kind,
        values: EnumValues,
        pattern: Option<u32>,
    ) -> Constraints
        ensures min { result.min ≡ least_of (bounds_seen kind (traits_seen self.now.graph.now self.now.own self.now.target)) }
        ensures max { result.max ≡ most_of (bounds_seen kind (traits_seen self.now.graph.now self.now.own self.now.target)) }
        ensures texts { result.texts ≡ values.texts }
        ensures numbers { result.numbers ≡ values.numbers }
        ensures pattern { result.pattern ≡ pattern }
    {
        let bounds = self.bounds(kind);
        let EnumValues { texts, numbers } = values;
        Constraints {
            min: bound_of(bounds, "min"),
            max: bound_of(bounds, "max"),
            pattern,
            texts,
            numbers,
        }
    }
}

/// Whether a trait binds a member to a part of an HTTP message.
pub(crate) fn is_bound(graph: &Graph, member: u32) -> bool
    requires { IsShapeNumber graph.now member }
    ensures { result ≡ is_bound_under (maps_of graph.now) (id_of_number graph.now member) }
{
    has_trait(graph, member, HTTP_LABEL)
        || has_trait(graph, member, HTTP_QUERY)
        || has_trait(graph, member, HTTP_QUERY_PARAMS)
        || has_trait(graph, member, HTTP_HEADER)
        || has_trait(graph, member, HTTP_PREFIX_HEADERS)
        || has_trait(graph, member, HTTP_PAYLOAD)
        || has_trait(graph, member, HTTP_RESPONSE_CODE)
}

/// Whether a shape or member has a trait. No memory.
pub fn has_trait(graph: &Graph, number: u32, name: &str) -> bool
    requires { IsShapeNumber graph.now number }
    ensures { result ≡ is_some (trait_of (maps_of graph.now) (id_of_number graph.now number) name.now) }
{
    trait_node(graph, number, name).is_some()
}
