// The rows of a table, but for the numbers in them: each says what the graph says of a shape or of a member.
ghost use Rattle.std.specs.Prelude.{◌≡◌, IfOk, None, Some};
ghost use Rattle.std.specs.Option.{option_copied};
ghost use Rattle.std.specs.Str.{bytes_eq};
ghost use Rattle.sm_model.specs.GraphView.{IsShapeNumber, maps_of};
ghost use Rattle.sm_model.specs.PreludeShapes.{unit_id};
ghost use Rattle.sm_model.specs.Reaching.{id_of_number};
ghost use Rattle.sm_compile.specs.steps.Looked.{listed_under};
ghost use Rattle.sm_compile.specs.steps.Rows.{AreNumbers, MemberPlaced, TellsMember, TellsShape};
ghost use Rattle.sm_compile.specs.steps.Valued.{HasValues};

use crate::defaults::default_node;
use crate::kinds::table_kind;
use crate::look::{id_text, trait_node};
use crate::seen::{SeenTraits, has_trait};
use crate::trait_ids::{JSON_NAME, REQUIRED, SPARSE, UNIQUE_ITEMS};
use crate::traits::text_in_trait;
use crate::values::EnumValues;
use sm_model::{Graph, Kind};
use sm_shapes::MemberNumbers;
use sm_shapes::tables::{TableMember, TableShape};
use sm_tree::{NoMemory, Text};
use std::alloc::Global;

/// The numbers of a shape's members, in the orders that a table keeps.
#[derive(Drop)]
pub(crate) struct MemberOrders {
    /// In model order.
    pub members: Vec<u32>,
    /// In the byte order of their names.
    pub by_name: Vec<u32>,
    /// In that of their names in JSON.
    pub by_json_name: Vec<u32>,
    /// Those that an object doesn't just leave out, in model order.
    pub needed: Vec<u32>,
}

/// The row of a shape of this type, with its values where it is an enum.
pub(crate) fn shape_row(
    alloc: Global,
    graph: &Graph,
    shape: u32,
    kind: Kind,
    orders: MemberOrders,
    values: &EnumValues,
    pattern: Option<u32>,
) -> Result<TableShape, NoMemory>
    requires shape { IsShapeNumber graph.now shape }
    requires values { HasValues (maps_of graph.now) kind (listed_under (maps_of graph.now) (id_of_number graph.now shape)) values.now }
    ensures told { IfOk result (λ row. TellsShape graph.now shape kind row) }
    ensures numbers { IfOk result (λ row. AreNumbers orders row) }
    ensures pattern { IfOk result (λ row. row.constraints.pattern ≡ pattern) }
{
    let seen = SeenTraits {
        graph,
        own: shape,
        target: None,
    };
    let MemberOrders {
        members,
        by_name,
        by_json_name,
        needed,
    } = orders;
    let constraints = seen.constraints(kind, values.share()?, pattern);
    Ok(TableShape {
        kind: table_kind(kind),
        members: MemberNumbers::new(members),
        by_name: MemberNumbers::new(by_name),
        by_json_name: MemberNumbers::new(by_json_name),
        needed: MemberNumbers::new(needed),
        constraints,
        unique: has_trait(graph, shape, UNIQUE_ITEMS),
        sparse: has_trait(graph, shape, SPARSE),
        unit: is_unit(id_text(graph, shape)),
        format: seen.format(),
        media_type: None,
    })
}

fn is_unit(id: &str) -> bool
    ensures { result ≡ bytes_eq id.now unit_id }
{
    id == "smithy.api#Unit"
}

/// Where a member stands: its number and its target's in the graph, the types of its shape and of its target, and the numbers of both in
/// the table.
#[derive(Clone, Copy, Drop)]
pub(crate) struct MemberPlace {
    /// The member's number in the graph.
    pub member: u32,
    /// The target's number in the graph.
    pub target: u32,
    /// The type of the shape that it stands in.
    pub home_kind: Kind,
    /// The type of its target.
    pub target_kind: Kind,
    /// The number of its shape in the table.
    pub home_row: u32,
    /// The number of its target in the table.
    pub target_row: u32,
}

/// The row of a member of this name, with the values of its target.
pub(crate) fn member_row(
    alloc: Global,
    graph: &Graph,
    place: MemberPlace,
    name: &str,
    values: &EnumValues,
    pattern: Option<u32>,
) -> Result<TableMember, NoMemory>
    requires member { IsShapeNumber graph.now place.member }
    requires target { IsShapeNumber graph.now place.target }
    requires values { HasValues (maps_of graph.now) place.target_kind
        (listed_under (maps_of graph.now) (id_of_number graph.now place.target)) values.now }
    ensures told { IfOk result (λ row. TellsMember graph.now place row) }
    ensures placed { IfOk result (λ row. MemberPlaced place row) }
    ensures name { IfOk result (λ row. row.name ≡ name.now) }
    ensures pattern { IfOk result (λ row. row.constraints.pattern ≡ pattern) }
{
    let seen = SeenTraits {
        graph,
        own: place.member,
        target: Some(place.target),
    };
    let constraints = seen.constraints(place.target_kind, values.share()?, pattern);
    let node = default_node(
        alloc,
        graph,
        place.home_kind,
        place.member,
        place.target_kind,
    )?;
    let json_name = copy_of(
        alloc,
        text_in_trait(trait_node(graph, place.member, JSON_NAME)),
    )?;
    Ok(TableMember {
        shape: place.home_row,
        name: Text::copy(alloc, name)?,
        json_name,
        target: place.target_row,
        required: has_trait(graph, place.member, REQUIRED),
        constraints,
        format: seen.format(),
        media_type: None,
        binding: None,
        default_node: node,
        default: None,
    })
}

// A copy of the text that may be there.
fn copy_of(alloc: Global, text: Option<&str>) -> Result<Option<Text>, NoMemory>
    ensures { IfOk result (λ copy. copy ≡ option_copied text.entry) }
{
    match text {
        Some(text) => Ok(Some(Text::copy(alloc, text)?)),
        None => Ok(None),
    }
}
