// What the definition of each kind of place says, as a tree.
ghost use Rattle.std.specs.Prelude.{◌≡◌, ◌<◌, codes, string_bytes, IfOk, OnOk, Bool};
ghost use Rattle.sm_tree.specs.Node.{Members, list, member, no_members, no_nodes, node, object};
ghost use Rattle.sm_tree.specs.Node as nodes;
ghost use Rattle.sm_tree.specs.View.{members_view, node_of};
ghost use Rattle.sm_time.specs.declared.format.Format.{Format};
ghost use Rattle.sm_shapes.specs.ConstraintView.{constraint_data};
ghost use Rattle.sm_shapes.specs.InOrder.{NamesPattern, Shaped};
ghost use Rattle.sm_shapes.specs.Places.{constraints_of, kind_of, member_place, members_of_place, shape_of};
ghost use Rattle.sm_shapes.specs.TableData.{member_count};
ghost use Rattle.sm_shapes.specs.TableView.{table_data};
ghost use Rattle.sm_codec.specs.Codec.{InTable};
ghost use Rattle.sm_codec.specs.PlaceView.{place_of};
ghost use Rattle.sm_schema.specs.Definitions as defs;
ghost use Rattle.sm_schema.specs.Described as the;
ghost use Rattle.sm_schema.specs.steps.Joined.{joined};
ghost use Rattle.sm_schema.specs.steps.Numbered.{AllMembers, AreNumbered, listing_of, schema_for};

use crate::listing::{DefinedPlaces, defined_place};
use crate::nodes::{
    list_of, number_nodes, object_of, one_pair, put, put_bound, put_entry, put_text, text_nodes,
    typed,
};
use crate::trees::{JsonPairs, JsonTree, no_entries, number_tree, text_tree};
use sm_codec::ValuePlace;
use sm_shapes::constraints::Constraints;
use sm_shapes::kinds::ShapeKind;
use sm_shapes::tables::Table;
use sm_time::Format;
use sm_tree::NoMemory;
use std::alloc::Global;

// A schema of a type alone.
pub(crate) fn type_alone(alloc: Global, name: &str) -> Result<JsonTree, NoMemory>
    ensures { IfOk result (λ tree. node_of tree.tree ≡ the.typed name.now no_members) }
{
    let pairs = typed(alloc, name)?;
    Ok(object_of(pairs))
}

// Puts the keywords of a text behind the pairs that are there.
fn put_text_keywords(
    alloc: Global,
    pairs: &mut JsonPairs,
    table: &Table,
    held: &Constraints,
) -> Result<(), NoMemory>
    requires { NamesPattern (table_data table.now) held.now.pattern }
    ensures { OnOk result (joined (members_view pairs.new.pairs.items) no_members
        ≡ joined (members_view pairs.old.pairs.items) (the.text_keywords (table_data table.now) (constraint_data held.now))) }
{
    put_bound(alloc, pairs, "minLength", held.min)?;
    put_bound(alloc, pairs, "maxLength", held.max)?;
    match held.pattern {
        Some(pattern) => put_text(alloc, pairs, "pattern", table.pattern_text(pattern)),
        None => Ok(()),
    }
}

// Of a string.
pub(crate) fn text_definition(
    alloc: Global,
    table: &Table,
    held: &Constraints,
) -> Result<JsonTree, NoMemory>
    requires { NamesPattern (table_data table.now) held.now.pattern }
    ensures { IfOk result (λ tree. node_of tree.tree
        ≡ the.typed (codes "string") (the.text_keywords (table_data table.now) (constraint_data held.now))) }
{
    let mut pairs = typed(alloc, "string")?;
    put_text_keywords(alloc, &mut pairs, table, held)?;
    Ok(object_of(pairs))
}

// Of an enum.
pub(crate) fn enum_definition(
    alloc: Global,
    table: &Table,
    held: &Constraints,
) -> Result<JsonTree, NoMemory>
    requires { NamesPattern (table_data table.now) held.now.pattern }
    ensures { IfOk result (λ tree. node_of tree.tree ≡ the.typed (codes "string") (member (codes "enum")
        (list (the.text_nodes held.now.texts)) (the.text_keywords (table_data table.now) (constraint_data held.now)))) }
{
    let mut pairs = typed(alloc, "string")?;
    let texts = text_nodes(alloc, held.texts.as_slice())?;
    put(alloc, &mut pairs, "enum", texts)?;
    put_text_keywords(alloc, &mut pairs, table, held)?;
    Ok(object_of(pairs))
}

fn narrow_min(least: i64, bound: Option<i64>) -> i64
    ensures { result ≡ the.narrow_min least bound }
{
    match bound {
        None => least,
        Some(number) => { if least <= number { number } else { least } }
    }
}

fn narrow_max(greatest: i64, bound: Option<i64>) -> i64
    ensures { result ≡ the.narrow_max greatest bound }
{
    match bound {
        None => greatest,
        Some(number) => { if number <= greatest { number } else { greatest } }
    }
}

// Puts the bounds of whole numbers behind the pairs that are there.
fn put_range(
    alloc: Global,
    pairs: &mut JsonPairs,
    least: i64,
    greatest: i64,
    held: &Constraints,
) -> Result<(), NoMemory>
    ensures { OnOk result (joined (members_view pairs.new.pairs.items) no_members
        ≡ joined (members_view pairs.old.pairs.items) (the.range_between least greatest (constraint_data held.now))) }
{
    put(
        alloc,
        pairs,
        "minimum",
        number_tree(narrow_min(least, held.min)),
    )?;
    put(
        alloc,
        pairs,
        "maximum",
        number_tree(narrow_max(greatest, held.max)),
    )
}

// Of a whole number.
pub(crate) fn number_definition(
    alloc: Global,
    least: i64,
    greatest: i64,
    held: &Constraints,
) -> Result<JsonTree, NoMemory>
    ensures { IfOk result (λ tree. node_of tree.tree
        ≡ the.typed (codes "integer") (the.range_between least greatest (constraint_data held.now))) }
{
    let mut pairs = typed(alloc, "integer")?;
    put_range(alloc, &mut pairs, least, greatest, held)?;
    Ok(object_of(pairs))
}

// Of an intEnum.
pub(crate) fn number_enum_definition(
    alloc: Global,
    least: i64,
    greatest: i64,
    held: &Constraints,
) -> Result<JsonTree, NoMemory>
    ensures { IfOk result (λ tree. node_of tree.tree ≡ the.typed (codes "integer") (member (codes "enum")
        (list (the.number_nodes held.now.numbers)) (the.range_between least greatest (constraint_data held.now)))) }
{
    let mut pairs = typed(alloc, "integer")?;
    let numbers = number_nodes(alloc, held.numbers.as_slice())?;
    put(alloc, &mut pairs, "enum", numbers)?;
    put_range(alloc, &mut pairs, least, greatest, held)?;
    Ok(object_of(pairs))
}

pub(crate) fn time_type(format: Format) -> &'static str
    ensures { result.now ≡ the.time_type format }
{
    match format {
        Format::EpochSeconds => "number",
        Format::DateTime => "string",
        Format::HttpDate => "string",
    }
}

// The text of the reference to a place's definition. Each place whose reference is asked for has one, so the last answer never comes.
fn reference_words(
    alloc: Global,
    table: &Table,
    all: &DefinedPlaces,
    place: ValuePlace,
) -> Result<String, NoMemory>
    requires shaped { Shaped (table_data table.now) }
    requires inside { InTable (table_data table.now) (place_of place) }
    requires numbered { AreNumbered (table_data table.now) all.now }
    ensures { IfOk result (λ words. (json_names : Bool) → object (member (codes "$ref") (nodes.text (string_bytes words)) no_members)
        ≡ defs.reference (listing_of (table_data table.now) json_names all.now) (place_of place)) }
{
    match all.number(table, defined_place(table, place, all.values_known)) {
        Some(number) => {
            let words = format!(in alloc; "#/$defs/d{number}")?;
            Ok(words)
        }
        None => Err(NoMemory),
    }
}

// A reference to a place's definition.
pub(crate) fn reference(
    alloc: Global,
    table: &Table,
    all: &DefinedPlaces,
    place: ValuePlace,
) -> Result<JsonTree, NoMemory>
    requires shaped { Shaped (table_data table.now) }
    requires inside { InTable (table_data table.now) (place_of place) }
    requires numbered { AreNumbered (table_data table.now) all.now }
    ensures { IfOk result (λ tree. (json_names : Bool) → node_of tree.tree
        ≡ defs.reference (listing_of (table_data table.now) json_names all.now) (place_of place)) }
{
    let words = reference_words(alloc, table, all, place)?;
    let tree = text_tree(alloc, words.as_str())?;
    one_pair(alloc, "$ref", tree)
}

// A reference, or null.
pub(crate) fn nullable(alloc: Global, tree: JsonTree) -> Result<JsonTree, NoMemory>
    ensures { IfOk result (λ made. node_of made.tree ≡ the.nullable (node_of tree.tree)) }
{
    let null = type_alone(alloc, "null")?;
    let mut entries = no_entries(alloc);
    put_entry(&mut entries, tree)?;
    put_entry(&mut entries, null)?;
    one_pair(alloc, "oneOf", list_of(entries))
}

pub(crate) fn nullable_if(alloc: Global, nulls: bool, tree: JsonTree) -> Result<JsonTree, NoMemory>
    ensures { IfOk result (λ made. node_of made.tree ≡ the.nullable_if nulls (node_of tree.tree)) }
{
    if nulls {
        nullable(alloc, tree)
    } else {
        Ok(tree)
    }
}
