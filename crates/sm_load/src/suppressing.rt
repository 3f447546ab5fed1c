// The namespaces for which metadata suppresses the events of one id, and the shapes and members whose traits do.
ghost use Rattle.std.specs.Prelude.{◌≡◌, ◌||◌, ℕ, List, IfOk, OnOk, codes};
ghost use Rattle.std.specs.Option.{option_copied};
ghost use Rattle.std.specs.Str.{bytes_eq};
ghost use Rattle.sm_ids.specs.TextParts.{namespace_part};
ghost use Rattle.sm_tree.specs.Node.{nodes_of};
ghost use Rattle.sm_tree.specs.View.{node_of, nodes_view};
ghost use Rattle.sm_model.specs.GraphView.{maps_of};
ghost use Rattle.sm_merge.specs.steps.Known.{has_text};
ghost use Rattle.sm_compile.specs.TraitNodes.{field_of, text_of};
ghost use Rattle.sm_load.specs.Suppressions.{entry_names, is_suppressed_in, is_suppressed_there, suppressions, text_is};
ghost use Rattle.sm_load.specs.Suppressions.{text_names};
ghost use Rattle.sm_load.specs.steps.Suppressing.{AreNamedThere};

use crate::naming::{is_suppressed_there, listed, text_names};
use sm_compile::{field_of, text_in_trait};
use sm_ids::namespace_and_name;
use sm_model::{Graph, mark_at, tree_under};
use sm_passes::marked::{NumberTest, marked_where};
use sm_tree::{NoMemory, Tree};
use std::alloc::Global;
use std::collections::BTreeSet;

// The entries of the metadata `suppressions`.
fn suppressions(graph: &Graph) -> &[Tree]
    ensures { nodes_of (nodes_view result.now) ≡ suppressions (maps_of graph.now) }
{
    match tree_under(graph.metadata(), "suppressions") {
        Some(tree) => listed(tree),
        None => &[],
    }
}

/// The namespaces of those that name an event.
pub(crate) fn namespaces_for<'a>(
    alloc: Global,
    graph: &'a Graph,
    event: &str,
) -> Result<BTreeSet<&'a str>, NoMemory>
    ensures { IfOk result (λ set. (namespace : List ℕ) → has_text set namespace ≡ is_suppressed_in
        (maps_of graph.now) namespace event.now) }
{
    let mut namespaces: BTreeSet<&'a str> = BTreeSet::new(alloc);
    let entries = suppressions(graph);
    for entry in entries {
        put_namespace(&mut namespaces, entry, event)?;
    }
    Ok(namespaces)
}

// Puts the namespace of an entry that names the event.
fn put_namespace<'a>(
    namespaces: &mut BTreeSet<&'a str>,
    entry: &'a Tree,
    event: &str,
) -> Result<(), NoMemory>
    ensures { OnOk result ((namespace : List ℕ) → has_text namespaces.new namespace
        ≡ (has_text namespaces.old namespace || entry_names event.now namespace (node_of entry.now))) }
{
    if names_id(entry, event) {
        put_named(namespaces, entry)?;
        Ok(())
    } else {
        Ok(())
    }
}

// Whether the `id` of an entry names the event.
fn names_id(entry: &Tree, event: &str) -> bool
    ensures { result ≡ text_names event.now (text_of (field_of (codes "id") (node_of entry.now))) }
{
    text_names(event, text_under(entry, "id"))
}

fn text_under<'a>(entry: &'a Tree, name: &str) -> Option<&'a str>
    ensures { option_copied result ≡ text_of (field_of name.now (node_of entry.now)) }
{
    text_in_trait(field_of(entry, name))
}

// Puts the namespace of an entry.
fn put_named<'a>(namespaces: &mut BTreeSet<&'a str>, entry: &'a Tree) -> Result<(), NoMemory>
    ensures { OnOk result ((namespace : List ℕ) → has_text namespaces.new namespace
        ≡ (has_text namespaces.old namespace || text_is namespace (text_of (field_of (codes "namespace") (node_of entry.now))))) }
{
    match text_under(entry, "namespace") {
        Some(namespace) => {
            put_text(namespaces, namespace)?;
            Ok(())
        }
        None => Ok(()),
    }
}

fn put_text<'a>(texts: &mut BTreeSet<&'a str>, text: &'a str) -> Result<(), NoMemory>
    ensures { OnOk result ((q : List ℕ) → has_text texts.new q ≡ (has_text texts.old q || bytes_eq text.now q)) }
{
    match texts.insert(text) {
        Ok(_) => Ok(()),
        Err(_) => Err(NoMemory),
    }
}

/// Whether the metadata suppresses for every namespace, or for that of an id.
pub(crate) fn is_in(namespaces: &BTreeSet<&str>, id: &str) -> bool
    ensures { result ≡ (has_text namespaces.now (codes "*") || has_text namespaces.now (namespace_part id.now)) }
{
    namespaces.contains("*") || namespaces.contains(namespace_and_name(id).0)
}

// That the trait at a number names an event.
#[derive(Drop)]
struct NamedThere<'a> {
    event: &'a str,
}

impl NumberTest for NamedThere<'_> {
    ghost passes = { λ test g id. is_suppressed_there g id test.event.now };

    fn passes(&self, graph: &Graph, number: u32) -> bool {
        is_suppressed_there(graph, number, self.event)
    }
}

/// The numbers at which the trait names an event, as marks.
pub(crate) fn named_there(alloc: Global, graph: &Graph, event: &str) -> Result<Vec<bool>, NoMemory>
    ensures { IfOk result (λ marks. AreNamedThere graph.now event.now marks.items) }
{
    let marks = marked_where(alloc, graph, &NamedThere { event })?;
    Ok(marks)
}

/// Whether the number of an id is marked.
pub(crate) fn is_marked(graph: &Graph, marks: &[bool], id: &str) -> bool
    ensures { (event : List ℕ) → AreNamedThere graph.now event marks.now
        → result ≡ is_suppressed_there (maps_of graph.now) id.now event }
{
    match graph.number(id) {
        Some(number) => mark_at(marks, number),
        None => false,
    }
}
