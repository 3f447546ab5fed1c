// A table with the bindings of its members, and the media types of its members and shapes.
ghost use Rattle.std.specs.Prelude.{◌≡◌, IfOk, map};
ghost use Rattle.sm_model.specs.GraphView.{AreShapeNumbers};
ghost use Rattle.sm_shapes.specs.BindingPuts.{bindings_view};
ghost use Rattle.sm_shapes.specs.TableView.{member_data, member_rows, shape_data, shape_rows, table_data};
ghost use Rattle.sm_service.specs.steps.BindingsTold.{put_rows, table_bound, with_media, with_shape_media};
ghost use Rattle.sm_service.specs.steps.ServiceTables.{IsBoundFrom};

use crate::bound_members::{
    bindings_of_members, media_of_members, media_of_shapes, member_numbers,
};
use sm_model::Graph;
use sm_shapes::tables::{Binding, MemberRows, ShapeRows, Table, TableMember, TableShape};
use sm_tree::{NoMemory, Text};
use std::alloc::Global;

/// The table of the shapes with these numbers, with bindings and media types as the graph says them. Time as the shapes and their members.
pub(crate) fn bound_table(
    alloc: Global,
    graph: &Graph,
    shapes: &[u32],
    table: Table,
) -> Result<Table, NoMemory>
    requires { AreShapeNumbers graph.now shapes.now }
    ensures { IfOk result (λ bound. IsBoundFrom graph.now shapes.now (table_data table) (table_data bound)) }
{
    let members = member_numbers(alloc, graph, shapes)?;
    let bindings = bindings_of_members(alloc, graph, members.as_slice())?;
    let media = media_of_members(alloc, graph, members.as_slice())?;
    let shape_media = media_of_shapes(alloc, graph, shapes)?;
    Ok(table_with(table, bindings, media, shape_media))
}

// The table with these put at its rows, in order.
fn table_with(
    table: Table,
    bindings: Vec<Option<Binding>>,
    media: Vec<Option<Text>>,
    shape_media: Vec<Option<Text>>,
) -> Table
    ensures { table_data result ≡ table_bound (table_data table) (bindings_view bindings.items) media.items shape_media.items }
{
    let mut table = table;
    table.set_bindings(bindings);
    let Table {
        shapes,
        members,
        patterns,
    } = table;
    Table {
        shapes: shapes_with(shapes, shape_media),
        members: members_with(members, media),
        patterns,
    }
}

fn members_with(members: MemberRows, media: Vec<Option<Text>>) -> MemberRows
    ensures { member_rows result ≡ put_rows with_media (member_rows members) media.items }
{
    let mut rows = members.into_inner();
    set_media(&mut rows, media);
    MemberRows::new(rows)
}

fn shapes_with(shapes: ShapeRows, media: Vec<Option<Text>>) -> ShapeRows
    ensures { shape_rows result ≡ put_rows with_shape_media (shape_rows shapes) media.items }
{
    let mut rows = shapes.into_inner();
    set_shape_media(&mut rows, media);
    ShapeRows::new(rows)
}

// Puts each media type at the member of its place.
fn set_media(rows: &mut Vec<TableMember>, media: Vec<Option<Text>>)
    ensures { map member_data rows.new.items ≡ put_rows with_media (map member_data rows.old.items) media.items }
{
    let mut others = media.into_iter();
    for row in rows.iter_mut() {
        match others.next() {
            Some(media_type) => row.media_type = media_type,
            None => return,
        }
    }
}

// Puts each media type at the shape of its place.
fn set_shape_media(rows: &mut Vec<TableShape>, media: Vec<Option<Text>>)
    ensures { map shape_data rows.new.items ≡ put_rows with_shape_media (map shape_data rows.old.items) media.items }
{
    let mut others = media.into_iter();
    for row in rows.iter_mut() {
        match others.next() {
            Some(media_type) => row.media_type = media_type,
            None => return,
        }
    }
}
