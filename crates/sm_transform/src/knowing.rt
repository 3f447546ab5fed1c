// What a graph knows in a namespace: ids of shapes and members, of traits, and keys of `rename`.
ghost use Rattle.std.specs.Prelude.{◌≡◌, ◌↔◌, Some, true};
ghost use Rattle.std.specs.List.{list_any};
ghost use Rattle.sm_tree.specs.Node.{members_of};
ghost use Rattle.sm_tree.specs.View.{members_view, node_of};
ghost use Rattle.sm_model.specs.Given.{are_under};
ghost use Rattle.sm_model.specs.GraphView.{At, IsShapeNumber, maps_of};
ghost use Rattle.sm_model.specs.declared.property.PropertyForm.TheVariants.{Rename as rename_form};
ghost use Rattle.sm_transform.specs.Namespaces.{is_of_namespace};
ghost use Rattle.sm_transform.specs.Renamed.{HasNamespace, IsKnownIn};
ghost use Rattle.sm_transform.specs.steps.Knowing.{HasBodyKey, HasFieldKey, HasKeyIn, HasKeyOf, HasTraitIn};
ghost use Rattle.sm_transform.specs.steps.Knowing.{IsKeyField, IsInNamespaceAt, KnowsAt};

use sm_ids::namespace_and_name;
use sm_model::{Graph, Kind, PropertyForm, pairs_of};
use sm_tree::{Text, Tree};

/// Whether an id has this namespace. No memory.
pub(crate) fn is_of(id: &str, namespace: &str) -> bool
    ensures { result ≡ is_of_namespace namespace.now id.now }
{
    namespace_and_name(id).0 == namespace
}

/// Whether a shape or member of the graph is of this namespace. No memory.
pub(crate) fn has_namespace(graph: &Graph, namespace: &str) -> bool
    ensures { (result ≡ true) ↔ HasNamespace (maps_of graph.now) namespace.now }
{
    for number in 0..graph.count() {
        if is_in_namespace(graph, number, namespace) {
            return true;
        }
    }
    false
}

fn is_in_namespace(graph: &Graph, number: u32, namespace: &str) -> bool
    requires { IsShapeNumber graph.now number }
    ensures { (result ≡ true) ↔ IsInNamespaceAt graph.now namespace.now number }
{
    is_of(graph.id(number).as_str(), namespace)
}

/// Whether the graph knows an id of this namespace. No memory.
pub(crate) fn is_known_in(graph: &Graph, namespace: &str) -> bool
    ensures { (result ≡ true) ↔ IsKnownIn (maps_of graph.now) namespace.now }
{
    for number in 0..graph.count() {
        if knows_at(graph, number, namespace) {
            return true;
        }
    }
    false
}

// Whether what stands at a number does.
fn knows_at(graph: &Graph, number: u32, namespace: &str) -> bool
    requires { IsShapeNumber graph.now number }
    ensures { (result ≡ true) ↔ KnowsAt graph.now namespace.now number }
{
    if is_in_namespace(graph, number, namespace) {
        return true;
    }
    if has_trait_in(graph, number, namespace) {
        return true;
    }
    has_key_at(graph, number, namespace)
}

fn has_trait_in(graph: &Graph, number: u32, namespace: &str) -> bool
    requires { IsShapeNumber graph.now number }
    ensures { (result ≡ true) ↔ HasTraitIn graph.now namespace.now number }
{
    is_under(graph.traits(number), namespace)
}

// Whether one of some names is of this namespace.
fn is_under(pairs: &[(Text, Tree)], namespace: &str) -> bool
    ensures { result ≡ list_any (is_of_namespace namespace.now) (are_under (members_view pairs.now)) }
{
    for pair in pairs {
        if is_of(pair.0.as_str(), namespace) {
            return true;
        }
    }
    false
}

fn has_key_at(graph: &Graph, number: u32, namespace: &str) -> bool
    requires { IsShapeNumber graph.now number }
    ensures { (result ≡ true) ↔ At graph.now number (λ id e. HasKeyIn namespace.now e) }
{
    if graph.is_member(number) {
        return false;
    }
    has_key(graph.kind(number), graph.properties(number), namespace)
}

// Whether a key of `rename` in a body is of this namespace.
fn has_key(kind: Kind, body: &Tree, namespace: &str) -> bool
    ensures { (result ≡ true) ↔ HasBodyKey kind namespace.now (node_of body.now) }
{
    match pairs_of(body) {
        Some(fields) => some_key(kind, fields, namespace),
        None => false,
    }
}

fn some_key(kind: Kind, fields: &[(Text, Tree)], namespace: &str) -> bool
    ensures { (result ≡ true) ↔ HasFieldKey kind namespace.now (members_of (members_view fields.now)) }
{
    for field in fields {
        if is_key_field(kind, field.0.as_str(), &field.1, namespace) {
            return true;
        }
    }
    false
}

fn is_key_field(kind: Kind, name: &str, value: &Tree, namespace: &str) -> bool
    ensures { (result ≡ true) ↔ IsKeyField kind name.now (node_of value.now) namespace.now }
{
    if is_rename(PropertyForm::of(kind, name)) {
        has_key_in(value, namespace)
    } else {
        false
    }
}

fn is_rename(form: Option<PropertyForm>) -> bool
    ensures { (result ≡ true) ↔ (form ≡ Some rename_form) }
{
    match form {
        None => false,
        Some(PropertyForm::Rename) => true,
        Some(PropertyForm::Reference) => false,
        Some(PropertyForm::References) => false,
        Some(PropertyForm::NamedReferences) => false,
        Some(PropertyForm::Text) => false,
    }
}

fn has_key_in(value: &Tree, namespace: &str) -> bool
    ensures { (result ≡ true) ↔ HasKeyOf namespace.now (node_of value.now) }
{
    match pairs_of(value) {
        Some(pairs) => is_under(pairs, namespace),
        None => false,
    }
}
