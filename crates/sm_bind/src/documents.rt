// The table of documents: a structure more for each shape of which some members stand in the document on a side, and others don't.
ghost use Rattle.std.specs.Prelude.{◌≡◌, ◌<◌, ◌+◌, ◌++◌, ◌∷◌, ◌↔◌, [], IfOk, IsTrue, length, map, true};
ghost use Rattle.std.specs.List.{AllByRecursion, list_any};
ghost use Rattle.sm_shapes.specs.InOrder.{Shaped};
ghost use Rattle.sm_shapes.specs.Names.{AllDiffer};
ghost use Rattle.sm_shapes.specs.TableData.{TableData, json_name_at, kind_at, member_count, members_at, name_at, shape_count};
ghost use Rattle.sm_shapes.specs.TableView.{table_data};
ghost use Rattle.sm_shapes.specs.declared.kinds.ShapeKind.TheVariants.{Structure};
ghost use Rattle.sm_bind.specs.BindingsView.{bound_side};
ghost use Rattle.sm_bind.specs.steps.Growing.{AddsBody, Grows, HasBody, IsGrown};
ghost use Rattle.sm_bind.specs.Roles.{is_unbound_on};

use crate::members::{document_members, has_document, payload_shape};
use crate::side::PartSide;
use sm_excerpts::with_excerpt;
use sm_shapes::kinds::ShapeKind;
use sm_shapes::tables::Table;
use sm_tree::NoMemory;
use std::alloc::Global;

/// The table of documents so far, and the bodies of the shapes on a side as far as they are there.
#[derive(Debug, Drop)]
pub(crate) struct Growing {
    /// The table.
    pub table: Table,
    /// The bodies, by the numbers of the shapes.
    pub bodies: Vec<Option<u32>>,
}

/// The table with the documents on a side more. n log n in the members of all shapes.
///
/// # Errors
///
/// `NoMemory`.
pub(crate) fn documents_on(
    alloc: Global,
    table: &Table,
    side: PartSide,
    documents: Table,
) -> Result<Growing, NoMemory>
    requires shaped { Shaped (table_data table.now) }
    requires grown { IsGrown (table_data table.now) (table_data documents) }
    ensures { IfOk result (λ g. Grows (table_data table.now) (bound_side side) (table_data documents)
        (shape_count (table_data table.now)) g) }
{
    let Ok(count) = u32::try_from(table.shapes.as_slice().len()) else {
        return Err(NoMemory);
    };
    let mut growing = Growing {
        table: documents,
        bodies: Vec::new(alloc),
    };
    for shape in 0..count {
        match next(alloc, table, side, shape, growing) {
            Ok(more) => growing = more,
            Err(refusal) => return Err(refusal),
        }
    }
    Ok(growing)
}

// With the body of the next shape.
fn next(
    alloc: Global,
    table: &Table,
    side: PartSide,
    shape: u32,
    growing: Growing,
) -> Result<Growing, NoMemory>
    requires shaped { Shaped (table_data table.now) }
    requires shape { shape < shape_count (table_data table.now) }
    requires growing { (d : TableData) × Grows (table_data table.now) (bound_side side) d shape growing }
    ensures { IfOk result (λ g. Grows (table_data table.now) (bound_side side) (table_data growing.table) (shape + 1) g) }
{
    let Growing {
        table: documents,
        bodies,
    } = growing;
    match body_on(alloc, table, side, shape, documents) {
        Ok(body) => with_body(bodies, body),
        Err(refusal) => Err(refusal),
    }
}

// A table, and the body of one shape in it.
#[derive(Debug, Drop)]
pub(crate) struct Body {
    pub table: Table,
    pub body: Option<u32>,
}

fn with_body(bodies: Vec<Option<u32>>, body: Body) -> Result<Growing, NoMemory>
    ensures { IfOk result (λ g. (g.table ≡ body.table) × (g.bodies.items ≡ bodies.items ++ body.body ∷ [])) }
{
    let mut bodies = bodies;
    let Body { table, body } = body;
    match bodies.push(body) {
        Ok(()) => Ok(Growing { table, bodies }),
        Err(_) => Err(NoMemory),
    }
}

// The table with the body of one shape.
fn body_on(
    alloc: Global,
    table: &Table,
    side: PartSide,
    shape: u32,
    documents: Table,
) -> Result<Body, NoMemory>
    requires shaped { Shaped (table_data table.now) }
    requires shape { shape < shape_count (table_data table.now) }
    requires grown { IsGrown (table_data table.now) (table_data documents) }
    ensures { IfOk result (λ body. HasBody (table_data table.now) (bound_side side) (table_data documents) shape body) }
{
    if is_structure(table.kind(shape)) {
        structure_body(alloc, table, side, shape, documents)
    } else {
        Ok(Body {
            table: documents,
            body: None,
        })
    }
}

fn is_structure(kind: ShapeKind) -> bool
    ensures { IsTrue result ↔ kind ≡ Structure }
{
    match kind {
        ShapeKind::Structure => true,
        ShapeKind::Union => false,
        ShapeKind::Blob => false,
        ShapeKind::Boolean => false,
        ShapeKind::Text => false,
        ShapeKind::Enum => false,
        ShapeKind::Byte => false,
        ShapeKind::Short => false,
        ShapeKind::Integer => false,
        ShapeKind::IntEnum => false,
        ShapeKind::Long => false,
        ShapeKind::Timestamp => false,
        ShapeKind::List => false,
        ShapeKind::Map => false,
        ShapeKind::LeftOut => false,
    }
}

// That of a structure: its payload where none of its members stands in the document.
fn structure_body(
    alloc: Global,
    table: &Table,
    side: PartSide,
    shape: u32,
    documents: Table,
) -> Result<Body, NoMemory>
    requires shaped { Shaped (table_data table.now) }
    requires shape { shape < shape_count (table_data table.now) }
    requires kind { kind_at (table_data table.now) shape ≡ Structure }
    requires grown { IsGrown (table_data table.now) (table_data documents) }
    ensures { IfOk result (λ body. HasBody (table_data table.now) (bound_side side) (table_data documents) shape body) }
{
    let members = table.members(shape);
    if has_document(table, side, members) {
        document_body(alloc, table, side, shape, documents)
    } else {
        Ok(Body {
            table: documents,
            body: payload_shape(table, members),
        })
    }
}

// Itself, where all stand there; else an excerpt.
fn document_body(
    alloc: Global,
    table: &Table,
    side: PartSide,
    shape: u32,
    documents: Table,
) -> Result<Body, NoMemory>
    requires shaped { Shaped (table_data table.now) }
    requires shape { shape < shape_count (table_data table.now) }
    requires kind { kind_at (table_data table.now) shape ≡ Structure }
    requires some { list_any (is_unbound_on (table_data table.now) (bound_side side)) (members_at (table_data table.now) shape) ≡ true }
    requires grown { IsGrown (table_data table.now) (table_data documents) }
    ensures { IfOk result (λ body. HasBody (table_data table.now) (bound_side side) (table_data documents) shape body) }
{
    let members = table.members(shape);
    match document_members(alloc, table, side, members) {
        Ok(kept) => {
            if is_as_long(kept.as_slice(), members) {
                Ok(Body {
                    table: documents,
                    body: Some(shape),
                })
            } else {
                excerpt_body(alloc, documents, kept.as_slice())
            }
        }
        Err(refusal) => Err(refusal),
    }
}

fn is_as_long(kept: &[u32], members: &[u32]) -> bool
    ensures { IsTrue result → length kept.now ≡ length members.now }
{
    kept.len() == members.len()
}

// The excerpt of some members.
fn excerpt_body(alloc: Global, documents: Table, members: &[u32]) -> Result<Body, NoMemory>
    requires shaped { Shaped (table_data documents) }
    requires members { AllByRecursion (λ k. k < member_count (table_data documents)) members.now }
    requires names { AllDiffer (map (name_at (table_data documents)) members.now) }
    requires json_names { AllDiffer (map (json_name_at (table_data documents)) members.now) }
    ensures { IfOk result (λ body. AddsBody (table_data documents) members.now body) }
{
    let Ok(number) = u32::try_from(documents.shapes.as_slice().len()) else {
        return Err(NoMemory);
    };
    match with_excerpt(alloc, documents, members) {
        Ok(table) => Ok(Body {
            table,
            body: Some(number),
        }),
        Err(refusal) => Err(refusal),
    }
}
