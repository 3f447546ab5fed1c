// The names that members of a shape have in messages.
ghost use Rattle.std.specs.Prelude.{◌≡◌, ◌+◌, IfOk, Some, drop};
ghost use Rattle.std.specs.Option.{option_copied, option_map};
ghost use Rattle.std.specs.Str.{IsAscii};
ghost use Rattle.sm_tree.specs.View.{node_of};
ghost use Rattle.sm_model.specs.GraphView.{IsShapeNumber, maps_of};
ghost use Rattle.sm_model.specs.Reaching.{id_of_number};
ghost use Rattle.sm_rules.specs.TraitRows.{that_reads};
ghost use Rattle.sm_rules.specs.Words.{read_trait};
ghost use Rattle.sm_rules.specs.WireNames.{name_in_json, named_by, own_name};
ghost use Rattle.sm_passes.specs.RowTests.{reads_by};
ghost use Rattle.sm_http_rules.specs.steps.Naming.{key_of, name_of};

use sm_compile::trait_ids::{HTTP_HEADER, HTTP_QUERY, JSON_NAME};
use sm_compile::{id_text, text_in_trait, trait_node};
use sm_ids::ShapeId;
use sm_model::Graph;
use sm_passes::folded::folded;
use sm_passes::rows::form::{RowForm, is_of_form};
use sm_passes::rows::names::{RowTest, some_row};
use sm_passes::rows::place::RowPlace;
use sm_tree::{NoMemory, Text, Tree};
use std::alloc::Global;

/// Where members have names.
#[derive(Debug, Clone, Copy, PartialEq, Eq, Drop)]
pub enum Naming {
    /// Among the headers, without regard to case.
    Header,
    /// In the query.
    Query,
    /// In an object of JSON.
    Json,
}

/// The name of a member of a shape, where it has one. No memory.
pub(crate) fn name_of(graph: &Graph, naming: Naming, shape: u32, member: u32) -> Option<&str>
    requires shape { IsShapeNumber graph.now shape }
    requires member { IsShapeNumber graph.now member }
    ensures { option_copied result ≡ name_of naming (maps_of graph.now) (id_of_number graph.now shape) (id_of_number graph.now member) }
{
    match naming {
        Naming::Header => text_in_trait(read_trait(graph, member, HTTP_HEADER)),
        Naming::Query => text_in_trait(read_trait(graph, member, HTTP_QUERY)),
        Naming::Json => name_in_json(graph, shape, member),
    }
}

/// What names are compared by.
pub(crate) fn key_of(alloc: Global, naming: Naming, name: &str) -> Result<Text, NoMemory>
    ensures { IfOk result (λ key. key ≡ key_of naming name.now) }
{
    match naming {
        Naming::Header => folded(alloc, name),
        Naming::Query => Text::copy(alloc, name),
        Naming::Json => Text::copy(alloc, name),
    }
}

/// The value of a trait, where it reads. No memory.
pub(crate) fn read_trait<'a>(graph: &'a Graph, number: u32, name: &str) -> Option<&'a Tree>
    requires { IsShapeNumber graph.now number }
    ensures { option_map (λ t. node_of t.now) result ≡ read_trait (maps_of graph.now) (id_of_number graph.now number) name.now }
{
    that_reads(trait_node(graph, number, name), name)
}

fn that_reads<'a>(tree: Option<&'a Tree>, name: &str) -> Option<&'a Tree>
    ensures { option_map (λ t. node_of t.now) result ≡ that_reads name.now (option_map (λ t. node_of t.now) tree.entry) }
{
    match tree {
        Some(tree) => where_reads(tree, name),
        None => None,
    }
}

fn where_reads<'a>(tree: &'a Tree, name: &str) -> Option<&'a Tree>
    ensures { option_map (λ t. node_of t.now) result ≡ that_reads name.now (Some (node_of tree.now)) }
{
    if some_row(name, &Reads { tree }) {
        Some(tree)
    } else {
        None
    }
}

#[derive(Drop)]
struct Reads<'a> {
    tree: &'a Tree,
}

impl RowTest for Reads<'_> {
    ghost passes = { λ test. reads_by (node_of test.tree.now) };

    fn passes(&self, form: RowForm, _place: RowPlace) -> bool {
        is_of_form(form, self.tree)
    }
}

fn name_in_json(graph: &Graph, shape: u32, member: u32) -> Option<&str>
    requires shape { IsShapeNumber graph.now shape }
    requires member { IsShapeNumber graph.now member }
    ensures { option_copied result ≡ name_in_json (maps_of graph.now) (id_of_number graph.now shape) (id_of_number graph.now member) }
{
    let own = own_name(graph, shape, member);
    named_by(own, trait_node(graph, member, JSON_NAME))
}

fn named_by<'a>(own: &'a str, tree: Option<&'a Tree>) -> Option<&'a str>
    ensures { option_copied result ≡ named_by own.now (option_map (λ t. node_of t.now) tree.entry) }
{
    match tree {
        Some(tree) => text_in_trait(Some(tree)),
        None => Some(own),
    }
}

// What stands behind a shape's id and `$`.
fn own_name(graph: &Graph, shape: u32, member: u32) -> &str
    requires shape { IsShapeNumber graph.now shape }
    requires member { IsShapeNumber graph.now member }
    ensures { result.now ≡ own_name (id_of_number graph.now shape) (id_of_number graph.now member) }
{
    id_behind(graph.id(member), id_text(graph, shape).len())
}

// What stands in an id behind so many bytes and one.
fn id_behind(id: &ShapeId, at: usize) -> &str
    ensures { result.now ≡ drop (at + 1) id.now }
{
    let _parts = id.as_ref();
    text_behind(id.as_str(), at)
}

fn text_behind(text: &str, at: usize) -> &str
    requires { IsAscii text.now }
    ensures { result.now ≡ drop (at + 1) text.now }
{
    if at < text.len() { &text[at + 1..] } else { "" }
}
