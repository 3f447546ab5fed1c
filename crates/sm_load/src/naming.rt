// What names an event: a text, a text of the trait `suppress`, an entry of the metadata `suppressions`.
ghost use Rattle.std.specs.Prelude.{◌≡◌};
ghost use Rattle.std.specs.Option.{option_copied, unwrap_or};
ghost use Rattle.sm_tree.specs.Node.{no_nodes, nodes_of};
ghost use Rattle.sm_tree.specs.Parts.{entries_in};
ghost use Rattle.sm_tree.specs.View.{node_of, nodes_view};
ghost use Rattle.sm_model.specs.GraphView.{IsShapeNumber, maps_of};
ghost use Rattle.sm_model.specs.Reaching.{id_of_number};
ghost use Rattle.sm_load.specs.Suppressions.{is_suppressed_there, names_event, node_names, some_node, text_names};
ghost use Rattle.sm_load.specs.steps.Naming.{ends_word, value_names};

use sm_compile::trait_ids::SUPPRESS;
use sm_compile::{text_in_trait, trait_node};
use sm_model::{Graph, entries_of};
use sm_passes::rows::texts::are_text_nodes;
use sm_tree::Tree;

// Whether a text is an event's id, or what stands before one of its full stops.
fn names_event(event: &str, named: &str) -> bool
    ensures { result ≡ names_event event.now named.now }
{
    match event.as_bytes().strip_prefix(named.as_bytes()) {
        Some(rest) => ends_word(rest),
        None => false,
    }
}

fn ends_word(rest: &[u8]) -> bool
    ensures { result ≡ ends_word rest.now }
{
    match rest.first() {
        Some(byte) => *byte == b'.',
        None => true,
    }
}

/// Whether a text that may be there names an event.
pub(crate) fn text_names(event: &str, named: Option<&str>) -> bool
    ensures { result ≡ text_names event.now (option_copied named.entry) }
{
    match named {
        Some(named) => names_event(event, named),
        None => false,
    }
}

/// Whether the trait `suppress` at a number names an event.
pub(crate) fn is_suppressed_there(graph: &Graph, number: u32, event: &str) -> bool
    requires { IsShapeNumber graph.now number }
    ensures { result ≡ is_suppressed_there (maps_of graph.now) (id_of_number graph.now number) event.now }
{
    match trait_node(graph, number, SUPPRESS) {
        Some(tree) => value_names(tree, event),
        None => false,
    }
}

fn value_names(tree: &Tree, event: &str) -> bool
    ensures { result ≡ value_names event.now (node_of tree.now) }
{
    if are_text_nodes(tree) {
        some_names(listed(tree), event)
    } else {
        false
    }
}

fn some_names(entries: &[Tree], event: &str) -> bool
    ensures { result ≡ some_node (node_names event.now) (nodes_of (nodes_view entries.now)) }
{
    for entry in entries {
        if text_names(event, text_in_trait(Some(entry))) {
            return true;
        }
    }
    false
}

/// The entries of a list; none of any other tree.
pub(crate) fn listed(tree: &Tree) -> &[Tree]
    ensures { nodes_of (nodes_view result.now) ≡ unwrap_or (entries_in (node_of tree.now)) no_nodes }
{
    match entries_of(tree) {
        Some(entries) => entries,
        None => &[],
    }
}
