// Shapes that are written, by their numbers in the graph.
ghost use Rattle.std.specs.Prelude.{◌≡◌, [], ◌∷◌, ◌++◌, map, get_or, OnOk};
ghost use Rattle.sm_bytes.specs.Ascii.{line_feed};
ghost use Rattle.sm_tree.specs.Parts.{pairs_in};
ghost use Rattle.sm_tree.specs.View.{node_of};
ghost use Rattle.sm_model.specs.Properties.{property_forms};
ghost use Rattle.sm_model.specs.GraphView.{AreShapeNumbers, At, entries_of, ids, IsShapeAt, IsShapeNumber, maps_of};
ghost use Rattle.sm_idl.specs.Written.{body_in_form, body_lines, braced, member_lines, shape_lines, stated_text, written_entry};
ghost use Rattle.sm_idl.specs.WrittenForms.{written_form};
ghost use Rattle.sm_idl.specs.steps.Writing.{IsShapeText};

use super::field::put_fields;
use super::form::{WrittenForm, form_of};
use super::id::is_its_own;
use super::member::put_members;
use super::put::put;
use super::traits::put_traits;
use sm_ids::namespace_and_name;
use sm_model::{Graph, Kind};
use sm_tree::{NoMemory, Tree};
use std::alloc::Global;

/// Puts the shapes of a namespace outside the prelude, in the order of their ids, each behind an empty line.
pub(crate) fn put_shapes(
    alloc: Global,
    graph: &Graph,
    namespace: &str,
    out: &mut Vec<u8>,
) -> Result<(), NoMemory>
    ensures { OnOk result (out.new.items ≡ out.old.items ++ shape_lines (maps_of graph.now).shapes namespace.now (entries_of graph.now)) }
{
    for number in 0..graph.count() {
        put_entry(alloc, graph, number, namespace, out)?;
    }
    Ok(())
}

// Puts what stands at a number, where it is a shape of the namespace.
fn put_entry(
    alloc: Global,
    graph: &Graph,
    number: u32,
    namespace: &str,
    out: &mut Vec<u8>,
) -> Result<(), NoMemory>
    requires { IsShapeNumber graph.now number }
    ensures { OnOk result (At graph.now number (λ id e. out.new.items
        ≡ out.old.items ++ written_entry (maps_of graph.now).shapes namespace.now id e)) }
{
    if graph.is_member(number) {
        return Ok(());
    }
    let id = graph.id(number).as_str();
    if is_its_own(namespace, id) {
        return put_shape(alloc, graph, number, namespace_and_name(id).1, out);
    }
    Ok(())
}

// Puts a shape behind an empty line.
fn put_shape(
    alloc: Global,
    graph: &Graph,
    number: u32,
    name: &str,
    out: &mut Vec<u8>,
) -> Result<(), NoMemory>
    requires number { IsShapeNumber graph.now number }
    requires is_shape { IsShapeAt graph.now number }
    ensures { OnOk result (At graph.now number (λ id e.
        IsShapeText (maps_of graph.now).shapes name.now (out.old.items ++ line_feed ∷ []) out.new.items e)) }
{
    let kind = graph.kind(number);
    let members = graph.members(number);
    let body = graph.properties(number);
    put("\n", out)?;
    put_traits(alloc, "", graph.traits(number), out)?;
    put_stated(alloc, graph, name, kind, members, body, out)
}

fn put_stated(
    alloc: Global,
    graph: &Graph,
    name: &str,
    kind: Kind,
    members: &[u32],
    body: &Tree,
    out: &mut Vec<u8>,
) -> Result<(), NoMemory>
    requires { AreShapeNumbers graph.now members.now }
    ensures { OnOk result (out.new.items ≡ out.old.items
        ++ stated_text (maps_of graph.now).shapes name.now kind (map (λ k. get_or (ids graph.now) k []) members.now) (node_of body.now)) }
{
    put(kind.name(), out)?;
    put(" ", out)?;
    put(name, out)?;
    put_body(alloc, graph, kind, members, body, out)
}

fn put_body(
    alloc: Global,
    graph: &Graph,
    kind: Kind,
    members: &[u32],
    body: &Tree,
    out: &mut Vec<u8>,
) -> Result<(), NoMemory>
    requires { AreShapeNumbers graph.now members.now }
    ensures { OnOk result (out.new.items ≡ out.old.items
        ++ body_in_form (written_form kind) (maps_of graph.now).shapes kind (map (λ k. get_or (ids graph.now) k []) members.now) (node_of body.now)) }
{
    match form_of(kind) {
        WrittenForm::Alone => put("\n", out),
        WrittenForm::Names => put_braced_members(alloc, graph, members, false, out),
        WrittenForm::Targets => put_braced_members(alloc, graph, members, true, out),
        WrittenForm::Fields => put_braced_fields(alloc, kind, body, out),
    }
}

fn put_braced_members(
    alloc: Global,
    graph: &Graph,
    members: &[u32],
    targets: bool,
    out: &mut Vec<u8>,
) -> Result<(), NoMemory>
    requires { AreShapeNumbers graph.now members.now }
    ensures { OnOk result (out.new.items ≡ out.old.items
        ++ braced (member_lines targets (maps_of graph.now).shapes (map (λ k. get_or (ids graph.now) k []) members.now))) }
{
    put(" {\n", out)?;
    put_members(alloc, graph, members, targets, out)?;
    put("}\n", out)
}

fn put_braced_fields(
    alloc: Global,
    kind: Kind,
    body: &Tree,
    out: &mut Vec<u8>,
) -> Result<(), NoMemory>
    ensures { OnOk result (out.new.items
        ≡ out.old.items ++ braced (body_lines (property_forms kind) (pairs_in (node_of body.now)))) }
{
    put(" {\n", out)?;
    put_fields(alloc, kind, body, out)?;
    put("}\n", out)
}
