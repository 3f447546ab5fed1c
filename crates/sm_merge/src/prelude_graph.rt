// The prelude as a graph (Smithy 2.0, "Prelude").
ghost use Rattle.std.specs.Prelude.{◌≡◌, ◌++◌, [], ◌∷◌, IfOk, OnOk};
ghost use Rattle.sm_ids.specs.Identifier.{IsIdentifier};
ghost use Rattle.sm_ids.specs.IdText.{printed};
ghost use Rattle.sm_ids.specs.View.{id_of as seen_id};
ghost use Rattle.sm_tree.specs.View.{members_view, node_of};
ghost use Rattle.sm_model.specs.GivenView.{given_view};
ghost use Rattle.sm_model.specs.GraphView.{maps_of};
ghost use Rattle.sm_model.specs.PreludeShapes.{api_id, defaulted_shape, fraction_shapes, integer_shapes, no_node_pairs, plain_shapes};
ghost use Rattle.sm_model.specs.PreludeShapes.{prelude_graph, prelude_shapes as the_shapes, primitive_shapes, shape_of_prelude};
ghost use Rattle.sm_model.specs.PreludeShapes.{unit_shape};
ghost use Rattle.sm_merge.specs.steps.PreludeRows.{AreNamedRows, preset_shape, preset_shapes};

use sm_ids::{ShapeId, ShapeIdRef};
use sm_model::{Graph, GraphMembers, GraphShape, Kind};
use sm_tree::{NoMemory, Pairs, Text, Tree};
use std::alloc::Global;

/// The graph of the prelude: its simple shapes, those whose default is set, and `Unit`.
pub fn prelude(alloc: Global) -> Result<Graph, NoMemory>
    ensures { IfOk result (λ g. maps_of g ≡ prelude_graph) }
{
    let shapes = prelude_shapes(alloc)?;
    Graph::build(alloc, shapes, Vec::new(alloc))
}

/// What a shape of the prelude is where no value is given.
#[derive(Clone, Copy)]
pub(crate) enum Preset {
    /// Nothing is set.
    Nothing,
    /// `false`.
    False,
    /// 0.
    Zero,
}

/// The shapes of the prelude.
pub(crate) fn prelude_shapes(alloc: Global) -> Result<Vec<GraphShape>, NoMemory>
    ensures { IfOk result (λ shapes. given_view shapes.items ≡ the_shapes) }
{
    let mut shapes = Vec::new(alloc);
    let rows = simple_rows();
    for row in rows {
        put_row(alloc, row.0, row.1, row.2, &mut shapes)?;
    }
    put_unit(alloc, &mut shapes)?;
    Ok(shapes)
}

// The simple shapes, and those whose default is set.
fn simple_rows() -> &'static [(&'static str, Kind, Preset)]
    ensures shapes { preset_shapes result.now ≡ plain_shapes ++ integer_shapes ++ fraction_shapes ++ primitive_shapes }
    ensures names { AreNamedRows result.now }
{
    &[
        ("Blob", Kind::Blob, Preset::Nothing),
        ("Boolean", Kind::Boolean, Preset::Nothing),
        ("String", Kind::Text, Preset::Nothing),
        ("Timestamp", Kind::Timestamp, Preset::Nothing),
        ("Document", Kind::Document, Preset::Nothing),
        ("Byte", Kind::Byte, Preset::Nothing),
        ("Short", Kind::Short, Preset::Nothing),
        ("Integer", Kind::Integer, Preset::Nothing),
        ("Long", Kind::Long, Preset::Nothing),
        ("BigInteger", Kind::BigInteger, Preset::Nothing),
        ("Float", Kind::Float, Preset::Nothing),
        ("Double", Kind::Double, Preset::Nothing),
        ("BigDecimal", Kind::BigDecimal, Preset::Nothing),
        ("PrimitiveBoolean", Kind::Boolean, Preset::False),
        ("PrimitiveByte", Kind::Byte, Preset::Zero),
        ("PrimitiveShort", Kind::Short, Preset::Zero),
        ("PrimitiveInteger", Kind::Integer, Preset::Zero),
        ("PrimitiveLong", Kind::Long, Preset::Zero),
        ("PrimitiveFloat", Kind::Float, Preset::Zero),
        ("PrimitiveDouble", Kind::Double, Preset::Zero),
    ]
}

fn put_row(
    alloc: Global,
    name: &str,
    kind: Kind,
    preset: Preset,
    shapes: &mut Vec<GraphShape>,
) -> Result<(), NoMemory>
    requires { IsIdentifier name.now }
    ensures { OnOk result (given_view shapes.new.items ≡ given_view shapes.old.items ++ preset_shape name.now kind preset ∷ []) }
{
    match preset {
        Preset::Nothing => put_shape(alloc, name, kind, Vec::new(alloc), shapes),
        Preset::False => put_defaulted(alloc, name, kind, Tree::Bool(false), shapes),
        Preset::Zero => put_defaulted(alloc, name, kind, Tree::Int(0), shapes),
    }
}

fn put_unit(alloc: Global, shapes: &mut Vec<GraphShape>) -> Result<(), NoMemory>
    ensures { OnOk result (given_view shapes.new.items ≡ given_view shapes.old.items ++ unit_shape ∷ []) }
{
    let traits = one_trait(alloc, "smithy.api#unitType", empty_object(alloc))?;
    put_shape(alloc, "Unit", Kind::Structure, traits, shapes)
}

fn empty_object(alloc: Global) -> Tree
    ensures { node_of result ≡ no_node_pairs }
{
    Tree::Object(Pairs::new(Vec::new(alloc)))
}

fn put_defaulted(
    alloc: Global,
    name: &str,
    kind: Kind,
    value: Tree,
    shapes: &mut Vec<GraphShape>,
) -> Result<(), NoMemory>
    requires { IsIdentifier name.now }
    ensures { OnOk result (given_view shapes.new.items
        ≡ given_view shapes.old.items ++ defaulted_shape name.now kind (node_of value) ∷ []) }
{
    let traits = one_trait(alloc, "smithy.api#default", value)?;
    put_shape(alloc, name, kind, traits, shapes)
}

fn one_trait(alloc: Global, id: &str, value: Tree) -> Result<Vec<(Text, Tree)>, NoMemory>
    ensures { IfOk result (λ traits. members_view traits.items ≡ (id.now, node_of value) ∷ []) }
{
    let mut traits = Vec::new(alloc);
    traits.push((Text::copy(alloc, id)?, value))?;
    Ok(traits)
}

// Puts the shape of this name, without members.
fn put_shape(
    alloc: Global,
    name: &str,
    kind: Kind,
    traits: Vec<(Text, Tree)>,
    shapes: &mut Vec<GraphShape>,
) -> Result<(), NoMemory>
    requires { IsIdentifier name.now }
    ensures { OnOk result (given_view shapes.new.items
        ≡ given_view shapes.old.items ++ shape_of_prelude name.now kind (members_view traits.items) ∷ []) }
{
    let Ok(id) = ShapeId::new(alloc, &id_of(name)) else {
        return Err(NoMemory);
    };
    shapes.push(GraphShape {
        id,
        kind,
        members: GraphMembers::new(Vec::new(alloc)),
        properties: empty_object(alloc),
        traits: Pairs::new(traits),
    })?;
    Ok(())
}

pub(crate) fn id_of(name: &str) -> ShapeIdRef<'_>
    requires { IsIdentifier name.now }
    ensures { printed (seen_id result) ≡ api_id name.now }
{
    ShapeIdRef {
        namespace: "smithy.api",
        name,
        member: None,
    }
}
