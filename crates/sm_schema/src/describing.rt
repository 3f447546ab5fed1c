// The schema of a shape: the definitions of all places to which it leads, and a reference to the first.
ghost use Rattle.std.specs.Prelude.{◌≡◌, ◌<◌, [], true, IfOk, OnOk};
ghost use Rattle.sm_tree.specs.Json.{IsJson};
ghost use Rattle.sm_tree.specs.Node.{Node, no_members};
ghost use Rattle.sm_tree.specs.Same.{IsNode};
ghost use Rattle.sm_tree.specs.View.{members_view, node_of};
ghost use Rattle.sm_shapes.specs.InOrder.{Shaped, DefaultsPass};
ghost use Rattle.sm_shapes.specs.Places.{kind_of, root_place};
ghost use Rattle.sm_shapes.specs.TableData.{shape_count};
ghost use Rattle.sm_shapes.specs.TableView.{table_data};
ghost use Rattle.sm_codec.specs.Codec.{InTable};
ghost use Rattle.sm_codec.specs.PlaceView.{place_of};
ghost use Rattle.sm_codec.specs.Readings.{faults};
ghost use Rattle.sm_schema.specs.Definitions.{HaveTargetsValues, reference_text};
ghost use Rattle.sm_schema.specs.Described as the;
ghost use Rattle.sm_schema.specs.Noted.{IsNotedSchema};
ghost use Rattle.sm_schema.specs.NotesView.{notes_data};
ghost use Rattle.sm_schema.specs.SchemaLaws.{AllTold, HasNoNumber, json_codec};
ghost use Rattle.sm_schema.specs.Valid.{Valid};
ghost use Rattle.sm_schema.specs.steps.Joined.{joined};
ghost use Rattle.sm_schema.specs.steps.Numbered.{AreNumbered, listing_of, places_in};
ghost use Rattle.sm_schema.specs.steps.WithNotes.{IsTreeFor, definition_for, definitions_for, keywords_for, notes_seen};

use crate::aggregates::{list_definition, map_definition, structure_definition, union_definition};
use crate::annotations::{before_shape, noted};
use crate::definitions::{
    enum_definition, number_definition, number_enum_definition, text_definition, time_type,
    type_alone,
};
use crate::laws::{notes_dont_count, spelled_is_valid, valid_is_spelled};
use crate::listing::{DefinedPlaces, defined_places};
use crate::nodes::{object_of, put, put_text};
use crate::notes::Notes;
use crate::trees::{JsonPairs, JsonTree, bool_tree, no_pairs};
use sm_codec::ValuePlace;
use sm_shapes::Patterns;
use sm_shapes::kinds::ShapeKind;
use sm_shapes::tables::Table;
use sm_time::Format;
use sm_tree::{NoMemory, Tree};
use std::alloc::Global;

// The keywords of a place's definition.
fn keywords(
    alloc: Global,
    table: &Table,
    all: &DefinedPlaces,
    json_names: bool,
    notes: Option<&Notes<'_>>,
    place: ValuePlace,
) -> Result<JsonTree, NoMemory>
    requires shaped { Shaped (table_data table.now) }
    requires inside { InTable (table_data table.now) (place_of place) }
    requires numbered { AreNumbered (table_data table.now) all.now }
    ensures { IfOk result (λ tree. node_of tree.tree
        ≡ keywords_for (kind_of (table_data table.now) (place_of place)) (notes_seen notes.entry)
        (listing_of (table_data table.now) json_names all.now) (place_of place)) }
{
    let held = place.constraints(table);
    match place.kind(table) {
        ShapeKind::Blob => type_alone(alloc, "string"),
        ShapeKind::Boolean => type_alone(alloc, "boolean"),
        ShapeKind::Text => text_definition(alloc, table, held),
        ShapeKind::Enum => enum_definition(alloc, table, held),
        ShapeKind::Byte => number_definition(alloc, -128, 127, held),
        ShapeKind::Short => number_definition(alloc, -32_768, 32_767, held),
        ShapeKind::Integer => number_definition(alloc, -2_147_483_648, 2_147_483_647, held),
        ShapeKind::IntEnum => number_enum_definition(alloc, -2_147_483_648, 2_147_483_647, held),
        ShapeKind::Long => number_definition(alloc, i64::MIN, i64::MAX, held),
        ShapeKind::Timestamp => type_alone(
            alloc,
            time_type(place.format(table).unwrap_or(Format::EpochSeconds)),
        ),
        ShapeKind::List => list_definition(alloc, table, all, place),
        ShapeKind::Map => map_definition(alloc, table, all, place),
        ShapeKind::Structure => structure_definition(alloc, table, all, json_names, notes, place),
        ShapeKind::Union => union_definition(alloc, table, all, json_names, notes, place),
        ShapeKind::LeftOut => Ok(bool_tree(false)),
    }
}

// The definition of a place: its keywords, behind what is said of its shape.
fn definition(
    alloc: Global,
    table: &Table,
    all: &DefinedPlaces,
    json_names: bool,
    notes: Option<&Notes<'_>>,
    place: ValuePlace,
) -> Result<JsonTree, NoMemory>
    requires shaped { Shaped (table_data table.now) }
    requires inside { InTable (table_data table.now) (place_of place) }
    requires numbered { AreNumbered (table_data table.now) all.now }
    ensures { IfOk result (λ tree. node_of tree.tree
        ≡ definition_for (notes_seen notes.entry) (listing_of (table_data table.now) json_names all.now) (place_of place)) }
{
    let made = keywords(alloc, table, all, json_names, notes, place)?;
    match notes {
        None => Ok(made),
        Some(notes) => {
            let before = before_shape(alloc, table, notes, place)?;
            noted(before, made)
        }
    }
}

// All definitions, each under its name.
fn definitions(
    alloc: Global,
    table: &Table,
    all: &DefinedPlaces,
    json_names: bool,
    notes: Option<&Notes<'_>>,
) -> Result<JsonPairs, NoMemory>
    requires shaped { Shaped (table_data table.now) }
    requires numbered { AreNumbered (table_data table.now) all.now }
    ensures { IfOk result (λ pairs. joined (members_view pairs.pairs.items) no_members
        ≡ definitions_for (notes_seen notes.entry) (listing_of (table_data table.now) json_names all.now) 0 (places_in all.now)) }
{
    let mut pairs = no_pairs(alloc);
    for number in 0..all.places.len() {
        let tree = definition(alloc, table, all, json_names, notes, all.places[number])?;
        let name = format!(in alloc; "d{number}")?;
        put(alloc, &mut pairs, name.as_str(), tree)?;
    }
    Ok(pairs)
}

fn first_reference() -> &'static str
    ensures { result.now ≡ reference_text 0 }
{
    "#/$defs/d0"
}

/// The schema of the shape with this number (JSON Schema 2020-12), where members stand under their names or under their JSON names. It is a
/// tree that JSON can spell. The store isn't asked: its type's test is the one by which patterns find texts. `NoMemory` where the allocator
/// refuses the memory for it. A tree that has no fault for the shape is accepted by the schema; and one that the schema accepts has no
/// fault, where the schema can say all that the shape asks for. Linear in the table, but that the values of each member whose target is an
/// enum are compared with the enum's: of a table that was compiled, take `schema_of_compiled`.
pub fn schema<P: Patterns>(
    alloc: Global,
    table: &Table,
    shape: u32,
    json_names: bool,
    _patterns: &P,
) -> Result<Tree, NoMemory>
    requires shaped { Shaped (table_data table.now) }
    requires shape { shape < shape_count (table_data table.now) }
    ensures schema { IfOk result (λ tree. the.IsSchema (table_data table.now) json_names shape (node_of tree)) }
    ensures json { IfOk result (λ tree. IsJson (node_of tree)) }
    ensures spelled { IfOk result (λ tree. (n : Node) → DefaultsPass (table_data table.now) P.test → IsNode n
        → faults (json_codec (table_data table.now) json_names P.test) n (root_place shape) ≡ [] → Valid P.test (node_of tree) n) }
    ensures valid { IfOk result (λ tree. (n : Node) → AllTold (table_data table.now) (root_place shape) → IsNode n → HasNoNumber n
        → Valid P.test (node_of tree) n → faults (json_codec (table_data table.now) json_names P.test) n (root_place shape) ≡ []) }
{
    spelled_is_valid();
    valid_is_spelled();
    let made = schema_of(alloc, table, shape, json_names, None, false)?;
    Ok(made.tree)
}

/// The schema of the shape with this number, as `schema` gives it, of a table in which members have the values of their targets' enums, as
/// they have in each that is compiled. Linear in the table and in what is written.
pub fn schema_of_compiled<P: Patterns>(
    alloc: Global,
    table: &Table,
    shape: u32,
    json_names: bool,
    _patterns: &P,
) -> Result<Tree, NoMemory>
    requires shaped { Shaped (table_data table.now) }
    requires shape { shape < shape_count (table_data table.now) }
    requires values { HaveTargetsValues (table_data table.now) }
    ensures schema { IfOk result (λ tree. the.IsSchema (table_data table.now) json_names shape (node_of tree)) }
    ensures json { IfOk result (λ tree. IsJson (node_of tree)) }
    ensures spelled { IfOk result (λ tree. (n : Node) → DefaultsPass (table_data table.now) P.test → IsNode n
        → faults (json_codec (table_data table.now) json_names P.test) n (root_place shape) ≡ [] → Valid P.test (node_of tree) n) }
    ensures valid { IfOk result (λ tree. (n : Node) → AllTold (table_data table.now) (root_place shape) → IsNode n → HasNoNumber n
        → Valid P.test (node_of tree) n → faults (json_codec (table_data table.now) json_names P.test) n (root_place shape) ≡ []) }
{
    spelled_is_valid();
    valid_is_spelled();
    let made = schema_of(alloc, table, shape, json_names, None, true)?;
    Ok(made.tree)
}

/// The schema of the shape with this number, as `schema_of_compiled` gives it, with what these notes say to people: in each definition the
/// title, the documentation, that the shape is deprecated, and how texts of timestamps and blobs are written; in the schema of each member of
/// a structure or a union its documentation, its default as a body spells it, and that it is deprecated. None of it counts: both laws hold as
/// without it (`laws::notes_dont_count`). Linear in the table and in what is written.
pub fn schema_described<P: Patterns>(
    alloc: Global,
    table: &Table,
    shape: u32,
    json_names: bool,
    notes: &Notes<'_>,
    _patterns: &P,
) -> Result<Tree, NoMemory>
    requires shaped { Shaped (table_data table.now) }
    requires shape { shape < shape_count (table_data table.now) }
    requires values { HaveTargetsValues (table_data table.now) }
    ensures schema { IfOk result (λ tree. IsNotedSchema (table_data table.now) json_names (notes_data notes.now) shape (node_of tree)) }
    ensures json { IfOk result (λ tree. IsJson (node_of tree)) }
    ensures spelled { IfOk result (λ tree. (n : Node) → DefaultsPass (table_data table.now) P.test → IsNode n
        → faults (json_codec (table_data table.now) json_names P.test) n (root_place shape) ≡ [] → Valid P.test (node_of tree) n) }
    ensures valid { IfOk result (λ tree. (n : Node) → AllTold (table_data table.now) (root_place shape) → IsNode n → HasNoNumber n
        → Valid P.test (node_of tree) n → faults (json_codec (table_data table.now) json_names P.test) n (root_place shape) ≡ []) }
{
    spelled_is_valid();
    valid_is_spelled();
    notes_dont_count();
    let made = schema_of(alloc, table, shape, json_names, Some(notes), true)?;
    Ok(made.tree)
}

fn schema_of(
    alloc: Global,
    table: &Table,
    shape: u32,
    json_names: bool,
    notes: Option<&Notes<'_>>,
    values_known: bool,
) -> Result<JsonTree, NoMemory>
    requires shaped { Shaped (table_data table.now) }
    requires shape { shape < shape_count (table_data table.now) }
    requires known { values_known ≡ true → HaveTargetsValues (table_data table.now) }
    ensures { IfOk result (λ tree. IsTreeFor (table_data table.now) json_names (notes_seen notes.entry) shape (node_of tree.tree)) }
{
    let all = defined_places(alloc, table, shape, values_known)?;
    let definitions = definitions(alloc, table, &all, json_names, notes)?;
    let mut pairs = no_pairs(alloc);
    put_text(
        alloc,
        &mut pairs,
        "$schema",
        "https://json-schema.org/draft/2020-12/schema",
    )?;
    put_text(alloc, &mut pairs, "$ref", first_reference())?;
    put(alloc, &mut pairs, "$defs", object_of(definitions))?;
    Ok(object_of(pairs))
}
