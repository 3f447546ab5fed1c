// What `http` of an operation says.
ghost use Rattle.std.specs.Prelude.{◌≡◌};
ghost use Rattle.std.specs.Option.{option_copied, option_map};
ghost use Rattle.sm_tree.specs.View.{node_of};
ghost use Rattle.sm_model.specs.GraphView.{IsShapeNumber, maps_of};
ghost use Rattle.sm_model.specs.Reaching.{id_of_number};
ghost use Rattle.sm_compile.specs.TraitNodes.{is_number, is_text, where_there};
ghost use Rattle.sm_rules.specs.Words.{field_in};
ghost use Rattle.sm_http_traits.specs.Http.{code_seen, http_seen, is_http_value, is_there_as, method_seen, that_is_http, uri_seen};

use crate::carriers::is_own_operation;
use sm_compile::trait_ids::HTTP;
use sm_compile::{field_of, is_number, is_object, is_text, number_of, text_in_trait, trait_node};
use sm_model::Graph;
use sm_tree::Tree;

/// The method of an operation outside of the prelude.
pub fn method_of(graph: &Graph, number: u32) -> Option<&str>
    requires { IsShapeNumber graph.now number }
    ensures { option_copied result ≡ method_seen (maps_of graph.now) (id_of_number graph.now number) }
{
    text_in_trait(http_field(graph, number, "method"))
}

/// The text of its `uri`.
pub fn uri_of(graph: &Graph, number: u32) -> Option<&str>
    requires { IsShapeNumber graph.now number }
    ensures { option_copied result ≡ uri_seen (maps_of graph.now) (id_of_number graph.now number) }
{
    text_in_trait(http_field(graph, number, "uri"))
}

/// Its `code`.
pub fn code_of(graph: &Graph, number: u32) -> Option<i64>
    requires { IsShapeNumber graph.now number }
    ensures { result ≡ code_seen (maps_of graph.now) (id_of_number graph.now number) }
{
    number_of(http_field(graph, number, "code"))
}

// A field of `http` of an operation.
fn http_field<'a>(graph: &'a Graph, number: u32, name: &str) -> Option<&'a Tree>
    requires { IsShapeNumber graph.now number }
    ensures { option_map (λ t. node_of t.now) result
        ≡ field_in name.now (http_seen (maps_of graph.now) (id_of_number graph.now number)) }
{
    match http_of(graph, number) {
        Some(http) => field_of(http, name),
        None => None,
    }
}

// `http` of an operation outside of the prelude, where it reads.
fn http_of(graph: &Graph, number: u32) -> Option<&Tree>
    requires { IsShapeNumber graph.now number }
    ensures { option_map (λ t. node_of t.now) result ≡ http_seen (maps_of graph.now) (id_of_number graph.now number) }
{
    if is_own_operation(graph, number) {
        that_is_http(trait_node(graph, number, HTTP))
    } else {
        None
    }
}

fn that_is_http(tree: Option<&Tree>) -> Option<&Tree>
    ensures { option_map (λ t. node_of t.now) result ≡ that_is_http (option_map (λ t. node_of t.now) tree.entry) }
{
    match tree {
        Some(tree) => {
            if is_http_value(tree) {
                Some(tree)
            } else {
                None
            }
        }
        None => None,
    }
}

/// Whether a value is as `http` has it. No memory.
pub fn is_http_value(tree: &Tree) -> bool
    ensures { result ≡ is_http_value (node_of tree.now) }
{
    is_object(tree)
        && is_text_there(field_of(tree, "method"))
        && is_text_there(field_of(tree, "uri"))
        && is_number_where(field_of(tree, "code"))
}

/// Whether a text stands there. No memory.
pub fn is_text_there(tree: Option<&Tree>) -> bool
    ensures { result ≡ is_there_as is_text (option_map (λ t. node_of t.now) tree.entry) }
{
    match tree {
        Some(tree) => is_text(tree),
        None => false,
    }
}

fn is_number_where(tree: Option<&Tree>) -> bool
    ensures { result ≡ where_there is_number (option_map (λ t. node_of t.now) tree.entry) }
{
    match tree {
        Some(tree) => is_number(tree),
        None => true,
    }
}
