// What people read in a schema: annotations before the keywords of a definition, and of the schema of a member.
ghost use Rattle.std.specs.Prelude.{◌≡◌, ◌<◌, codes, Bool, List, Some, IfOk, IsTrue, OnOk};
ghost use Rattle.std.specs.Option.{option_copied, option_map};
ghost use Rattle.sm_tree.specs.Node.{Members, members_of, object};
ghost use Rattle.sm_tree.specs.View.{members_view, node_of};
ghost use Rattle.sm_shapes.specs.InOrder.{Shaped};
ghost use Rattle.sm_shapes.specs.Places.{Place};
ghost use Rattle.sm_shapes.specs.TableData.{default_at, member_count};
ghost use Rattle.sm_shapes.specs.TableView.{table_data};
ghost use Rattle.sm_shapes.specs.ValueView.{val_of};
ghost use Rattle.sm_codec.specs.Codec.{InTable};
ghost use Rattle.sm_codec.specs.PlaceView.{place_of};
ghost use Rattle.sm_schema.specs.Noted as the;
ghost use Rattle.sm_schema.specs.NotesView.{notes_data};
ghost use Rattle.sm_schema.specs.steps.Joined.{joined};
ghost use Rattle.sm_schema.specs.steps.Numbered.{listing};
ghost use Rattle.sm_schema.specs.steps.Plain.{are_plain_under};

use crate::nodes::{put, put_text};
use crate::notes::Notes;
use crate::trees::{JsonPairs, JsonTree, bool_tree, no_pairs};
use sm_codec::{JsonLeaves, ValuePlace, all_carried_at, encode_at};
use sm_shapes::kinds::ShapeKind;
use sm_shapes::tables::Table;
use sm_shapes::values::Value;
use sm_time::Format;
use sm_tree::{NoMemory, Pairs, Text, Tree};
use std::alloc::Global;

// Puts a text behind the pairs that are there, where there is one.
fn put_said(
    alloc: Global,
    pairs: &mut JsonPairs,
    name: &str,
    words: Option<&str>,
) -> Result<(), NoMemory>
    ensures { OnOk result ((more : Members) → joined (members_view pairs.new.pairs.items) more
        ≡ joined (members_view pairs.old.pairs.items) (the.with_text name.now (option_copied words.entry) more)) }
{
    match words {
        Some(words) => put_text(alloc, pairs, name, words),
        None => Ok(()),
    }
}

// Puts that something is deprecated behind the pairs that are there, where it is.
fn put_deprecated(alloc: Global, pairs: &mut JsonPairs, deprecated: bool) -> Result<(), NoMemory>
    ensures { OnOk result ((more : Members) → joined (members_view pairs.new.pairs.items) more
        ≡ joined (members_view pairs.old.pairs.items) (the.with_deprecated deprecated more)) }
{
    if deprecated {
        put(alloc, pairs, "deprecated", bool_tree(true))
    } else {
        Ok(())
    }
}

// Puts the format of timestamps behind the pairs that are there, where JSON Schema has a name for it.
fn put_format(alloc: Global, pairs: &mut JsonPairs, format: Format) -> Result<(), NoMemory>
    ensures { OnOk result ((more : Members) → joined (members_view pairs.new.pairs.items) more
        ≡ joined (members_view pairs.old.pairs.items) (the.with_format format more)) }
{
    match format {
        Format::DateTime => put_text(alloc, pairs, "format", "date-time"),
        Format::HttpDate => Ok(()),
        Format::EpochSeconds => Ok(()),
    }
}

// Puts how the texts of timestamps and blobs are written behind the pairs that are there.
fn put_form(
    alloc: Global,
    pairs: &mut JsonPairs,
    kind: ShapeKind,
    format: Format,
) -> Result<(), NoMemory>
    ensures { OnOk result ((more : Members) → joined (members_view pairs.new.pairs.items) more
        ≡ joined (members_view pairs.old.pairs.items) (the.with_form kind format more)) }
{
    match kind {
        ShapeKind::Timestamp => put_format(alloc, pairs, format),
        ShapeKind::Blob => put_text(alloc, pairs, "contentEncoding", "base64"),
        ShapeKind::Boolean => Ok(()),
        ShapeKind::Text => Ok(()),
        ShapeKind::Enum => Ok(()),
        ShapeKind::Byte => Ok(()),
        ShapeKind::Short => Ok(()),
        ShapeKind::Integer => Ok(()),
        ShapeKind::IntEnum => Ok(()),
        ShapeKind::Long => Ok(()),
        ShapeKind::List => Ok(()),
        ShapeKind::Map => Ok(()),
        ShapeKind::Structure => Ok(()),
        ShapeKind::Union => Ok(()),
        ShapeKind::LeftOut => Ok(()),
    }
}

/// What stands before the keywords of a place's definition.
pub(crate) fn before_shape(
    alloc: Global,
    table: &Table,
    notes: &Notes<'_>,
    place: ValuePlace,
) -> Result<JsonPairs, NoMemory>
    requires shaped { Shaped (table_data table.now) }
    requires inside { InTable (table_data table.now) (place_of place) }
    ensures { IfOk result (λ pairs. (json_names : Bool) (ps : List Place) (more : Members) → joined (members_view pairs.pairs.items) more
        ≡ the.before_shape (notes_data notes.now) (listing (table_data table.now) json_names ps) (place_of place) more) }
{
    let said = notes.shape(place.shape(table));
    let format = place.format(table).unwrap_or(Format::EpochSeconds);
    let mut pairs = no_pairs(alloc);
    put_text(alloc, &mut pairs, "title", said.title)?;
    put_said(alloc, &mut pairs, "description", said.description)?;
    put_deprecated(alloc, &mut pairs, said.deprecated)?;
    put_form(alloc, &mut pairs, place.kind(table), format)?;
    Ok(pairs)
}

// A default as a body spells it, where JSON can.
fn default_spelled(
    alloc: Global,
    table: &Table,
    json_names: bool,
    member: u32,
    value: &Value,
) -> Result<Option<JsonTree>, NoMemory>
    requires shaped { Shaped (table_data table.now) }
    requires member { member < member_count (table_data table.now) }
    requires value { default_at (table_data table.now) member ≡ Some (val_of value.now) }
    ensures { IfOk result (λ made. (ps : List Place) → option_map (λ t. node_of t.tree) made
        ≡ the.default_spelled (listing (table_data table.now) json_names ps) member (Some (val_of value.now))) }
{
    let leaves = JsonLeaves { json_names };
    let place = ValuePlace::Member(member);
    sm_codec::laws::written_is_json();
    sm_codec::laws::json_leaves_written();
    if all_carried_at(table, place, value, &leaves) {
        let tree = encode_at(alloc, table, place, value, &leaves)?;
        Ok(Some(JsonTree { tree }))
    } else {
        Ok(None)
    }
}

// Puts the default of a member behind the pairs that are there, where it has one that counts, and JSON can spell it.
fn put_default(
    alloc: Global,
    pairs: &mut JsonPairs,
    table: &Table,
    json_names: bool,
    member: u32,
) -> Result<(), NoMemory>
    requires shaped { Shaped (table_data table.now) }
    requires member { member < member_count (table_data table.now) }
    ensures { OnOk result ((ps : List Place) (more : Members) → joined (members_view pairs.new.pairs.items) more
        ≡ joined (members_view pairs.old.pairs.items)
        (the.with_tree (codes "default") (the.default_tree (listing (table_data table.now) json_names ps) member) more)) }
{
    match &table.member(member).default {
        None => Ok(()),
        Some(value) => match default_spelled(alloc, table, json_names, member, value) {
            Ok(made) => put_where(alloc, pairs, "default", made),
            Err(NoMemory) => Err(NoMemory),
        },
    }
}

// Puts a tree behind the pairs that are there, where there is one.
fn put_where(
    alloc: Global,
    pairs: &mut JsonPairs,
    name: &str,
    tree: Option<JsonTree>,
) -> Result<(), NoMemory>
    ensures { OnOk result ((more : Members) → joined (members_view pairs.new.pairs.items) more
        ≡ joined (members_view pairs.old.pairs.items) (the.with_tree name.now (option_map (λ t. node_of t.tree) tree) more)) }
{
    match tree {
        Some(tree) => put(alloc, pairs, name, tree),
        None => Ok(()),
    }
}

/// What stands before the keywords of a member's schema.
pub(crate) fn before_member(
    alloc: Global,
    table: &Table,
    json_names: bool,
    notes: &Notes<'_>,
    member: u32,
) -> Result<JsonPairs, NoMemory>
    requires shaped { Shaped (table_data table.now) }
    requires member { member < member_count (table_data table.now) }
    ensures { IfOk result (λ pairs. (ps : List Place) (more : Members) → joined (members_view pairs.pairs.items) more
        ≡ the.before_member (notes_data notes.now) (listing (table_data table.now) json_names ps) member more) }
{
    let said = notes.member(member);
    let mut pairs = no_pairs(alloc);
    put_said(alloc, &mut pairs, "description", said.description)?;
    put_default(alloc, &mut pairs, table, json_names, member)?;
    put_deprecated(alloc, &mut pairs, said.deprecated)?;
    Ok(pairs)
}

// The object of these pairs and, behind them, those that another object had.
fn behind(before: JsonPairs, pairs: Vec<(Text, Tree)>) -> Result<JsonTree, NoMemory>
    requires { IsTrue (are_plain_under (members_of (members_view pairs.items))) }
    ensures { IfOk result (λ made. node_of made.tree
        ≡ object (joined (members_view before.pairs.items) (members_of (members_view pairs.items)))) }
{
    let JsonPairs { pairs: mut all } = before;
    let mut pairs = pairs;
    all.append(&mut pairs)?;
    Ok(JsonTree {
        tree: Tree::Object(Pairs::new(all)),
    })
}

/// A schema with these pairs before its keywords.
pub(crate) fn noted(before: JsonPairs, schema: JsonTree) -> Result<JsonTree, NoMemory>
    ensures { IfOk result (λ made. node_of made.tree
        ≡ the.noted (λ more. joined (members_view before.pairs.items) more) (node_of schema.tree)) }
{
    let JsonTree { tree } = schema;
    match tree {
        Tree::Object(pairs) => behind(before, pairs.into_inner()),
        tree => Ok(JsonTree { tree }),
    }
}
