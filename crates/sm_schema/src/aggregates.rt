// What the definitions of lists, maps, structures and unions say, as trees.
ghost use Rattle.std.specs.Prelude.{◌≡◌, ◌<◌, ℕ, List, cond, IfOk, OnOk, Bool, false, true};
ghost use Rattle.sm_tree.specs.Node.{Members, Nodes, list, member, no_members, no_nodes, node, object};
ghost use Rattle.sm_tree.specs.Node as nodes;
ghost use Rattle.sm_tree.specs.View.{members_view, node_of, nodes_view};
ghost use Rattle.sm_shapes.specs.InOrder.{Shaped};
ghost use Rattle.sm_shapes.specs.Places.{Place, kind_of, members_of_place, shape_of, sparse_of, unique_of};
ghost use Rattle.sm_shapes.specs.TableData.{member_count};
ghost use Rattle.sm_shapes.specs.TableView.{table_data};
ghost use Rattle.sm_shapes.specs.declared.kinds.ShapeKind.TheVariants as kinds;
ghost use Rattle.sm_codec.specs.Codec.{InTable};
ghost use Rattle.sm_codec.specs.Conventions.{json_name};
ghost use Rattle.sm_codec.specs.PlaceView.{place_of};
ghost use Rattle.sm_schema.specs.Described as the;
ghost use Rattle.sm_schema.specs.Noted.{structure_with, union_with};
ghost use Rattle.sm_schema.specs.steps.Joined.{joined, entries_joined};
ghost use Rattle.sm_schema.specs.steps.Numbered.{AllMembers, AreNumbered, listing, listing_of, schema_for};
ghost use Rattle.sm_schema.specs.steps.WithNotes.{notes_seen, schema_with};

use crate::annotations::{before_member, noted};
use crate::definitions::{nullable, nullable_if, reference};
use crate::listing::DefinedPlaces;
use crate::nodes::{list_of, object_of, one_pair, put, put_bound, put_entry, typed};
use crate::notes::Notes;
use crate::trees::{JsonEntries, JsonPairs, JsonTree, bool_tree, no_entries, no_pairs, text_tree};
use sm_codec::ValuePlace;
use sm_shapes::tables::Table;
use sm_tree::NoMemory;
use std::alloc::Global;

fn is_sparse(table: &Table, place: ValuePlace) -> bool
    requires shaped { Shaped (table_data table.now) }
    requires inside { InTable (table_data table.now) (place_of place) }
    ensures { result ≡ sparse_of (table_data table.now) (place_of place) }
{
    table.shape(place.shape(table)).sparse
}

fn is_unique(table: &Table, place: ValuePlace) -> bool
    requires shaped { Shaped (table_data table.now) }
    requires inside { InTable (table_data table.now) (place_of place) }
    ensures { result ≡ unique_of (table_data table.now) (place_of place) }
{
    table.shape(place.shape(table)).unique
}

// Puts the keyword of entries that differ behind the pairs that are there, where they do.
fn put_unique(alloc: Global, pairs: &mut JsonPairs, unique: bool) -> Result<(), NoMemory>
    ensures { OnOk result (joined (members_view pairs.new.pairs.items) no_members
        ≡ joined (members_view pairs.old.pairs.items) (the.with_unique unique)) }
{
    if unique {
        put(alloc, pairs, "uniqueItems", bool_tree(true))
    } else {
        Ok(())
    }
}

/// Of a list.
pub(crate) fn list_definition(
    alloc: Global,
    table: &Table,
    all: &DefinedPlaces,
    place: ValuePlace,
) -> Result<JsonTree, NoMemory>
    requires shaped { Shaped (table_data table.now) }
    requires inside { InTable (table_data table.now) (place_of place) }
    requires kind { kind_of (table_data table.now) (place_of place) ≡ kinds.List }
    requires numbered { AreNumbered (table_data table.now) all.now }
    ensures { IfOk result (λ tree. (json_names : Bool) → node_of tree.tree
        ≡ the.list_definition (listing_of (table_data table.now) json_names all.now) (place_of place)) }
{
    let held = place.constraints(table);
    let entry = reference(alloc, table, all, place.entry(table))?;
    let items = nullable_if(alloc, is_sparse(table, place), entry)?;
    let mut pairs = typed(alloc, "array")?;
    put(alloc, &mut pairs, "items", items)?;
    put_bound(alloc, &mut pairs, "minItems", held.min)?;
    put_bound(alloc, &mut pairs, "maxItems", held.max)?;
    put_unique(alloc, &mut pairs, is_unique(table, place))?;
    Ok(object_of(pairs))
}

/// Of a map. Its key stands where a list's entries do: at the first member.
pub(crate) fn map_definition(
    alloc: Global,
    table: &Table,
    all: &DefinedPlaces,
    place: ValuePlace,
) -> Result<JsonTree, NoMemory>
    requires shaped { Shaped (table_data table.now) }
    requires inside { InTable (table_data table.now) (place_of place) }
    requires kind { kind_of (table_data table.now) (place_of place) ≡ kinds.Map }
    requires numbered { AreNumbered (table_data table.now) all.now }
    ensures { IfOk result (λ tree. (json_names : Bool) → node_of tree.tree
        ≡ the.map_definition (listing_of (table_data table.now) json_names all.now) (place_of place)) }
{
    let held = place.constraints(table);
    let key = reference(alloc, table, all, place.entry(table))?;
    let value = reference(alloc, table, all, place.value(table))?;
    let values = nullable_if(alloc, is_sparse(table, place), value)?;
    let mut pairs = typed(alloc, "object")?;
    put(alloc, &mut pairs, "propertyNames", key)?;
    put(alloc, &mut pairs, "additionalProperties", values)?;
    put_bound(alloc, &mut pairs, "minProperties", held.min)?;
    put_bound(alloc, &mut pairs, "maxProperties", held.max)?;
    Ok(object_of(pairs))
}

// The name under which a member stands.
fn wire_name<'t>(table: &'t Table, json_names: bool, member: u32) -> &'t str
    requires { member < member_count (table_data table.now) }
    ensures { (s : ℕ) → result.now ≡ json_name json_names (table_data table.now) s member }
{
    match json_names {
        true => table.json_name(member),
        false => table.name(member),
    }
}

// Whether an object without the member is no value.
fn must_stand(table: &Table, member: u32) -> bool
    requires { member < member_count (table_data table.now) }
    ensures { result ≡ the.must_stand (table_data table.now) member }
{
    let row = table.member(member);
    row.required && row.default.is_none()
}

// The reference of a member of a structure, or of a union, or null.
fn member_schema(
    alloc: Global,
    table: &Table,
    all: &DefinedPlaces,
    member: u32,
    choice: bool,
) -> Result<JsonTree, NoMemory>
    requires shaped { Shaped (table_data table.now) }
    requires member { member < member_count (table_data table.now) }
    requires numbered { AreNumbered (table_data table.now) all.now }
    ensures { IfOk result (λ tree. (json_names : Bool) → node_of tree.tree
        ≡ schema_for (listing_of (table_data table.now) json_names all.now) choice member) }
{
    let tree = reference(alloc, table, all, ValuePlace::Member(member))?;
    if choice {
        nullable(alloc, tree)
    } else {
        nullable_if(alloc, !must_stand(table, member), tree)
    }
}

// Its schema: the same, behind what is said of it.
fn member_with(
    alloc: Global,
    table: &Table,
    all: &DefinedPlaces,
    json_names: bool,
    notes: Option<&Notes<'_>>,
    member: u32,
    choice: bool,
) -> Result<JsonTree, NoMemory>
    requires shaped { Shaped (table_data table.now) }
    requires member { member < member_count (table_data table.now) }
    requires numbered { AreNumbered (table_data table.now) all.now }
    ensures { IfOk result (λ tree. node_of tree.tree
        ≡ schema_with (notes_seen notes.entry) (listing_of (table_data table.now) json_names all.now) choice member) }
{
    let schema = member_schema(alloc, table, all, member, choice)?;
    match notes {
        None => Ok(schema),
        Some(notes) => {
            let before = before_member(alloc, table, json_names, notes, member)?;
            noted(before, schema)
        }
    }
}

// The schemas of members, each under its name.
fn schemas_under(
    alloc: Global,
    table: &Table,
    all: &DefinedPlaces,
    json_names: bool,
    notes: Option<&Notes<'_>>,
    members: &[u32],
    choice: bool,
) -> Result<JsonPairs, NoMemory>
    requires shaped { Shaped (table_data table.now) }
    requires members { AllMembers (table_data table.now) members.now }
    requires numbered { AreNumbered (table_data table.now) all.now }
    ensures { IfOk result (λ pairs. (s : ℕ) → joined (members_view pairs.pairs.items) no_members
        ≡ the.schemas_under (listing_of (table_data table.now) json_names all.now) s
        (schema_with (notes_seen notes.entry) (listing_of (table_data table.now) json_names all.now) choice) members.now) }
{
    let mut pairs = no_pairs(alloc);
    for member in members {
        let tree = member_with(alloc, table, all, json_names, notes, *member, choice)?;
        put(
            alloc,
            &mut pairs,
            wire_name(table, json_names, *member),
            tree,
        )?;
    }
    Ok(pairs)
}

// Puts a name behind those that are there, where the member must stand.
fn put_name(
    alloc: Global,
    entries: &mut JsonEntries,
    must_stand: bool,
    name: &str,
) -> Result<(), NoMemory>
    ensures { OnOk result ((more : Nodes) → entries_joined (nodes_view entries.new.entries.items) more
        ≡ entries_joined (nodes_view entries.old.entries.items) (cond must_stand (node (nodes.text name.now) more) more)) }
{
    if must_stand {
        let tree = text_tree(alloc, name)?;
        put_entry(entries, tree)
    } else {
        Ok(())
    }
}

// The names of the members that must stand.
fn required_names(
    alloc: Global,
    table: &Table,
    json_names: bool,
    members: &[u32],
) -> Result<JsonEntries, NoMemory>
    requires members { AllMembers (table_data table.now) members.now }
    ensures { IfOk result (λ entries. (s : ℕ) (ps : List Place) → entries_joined (nodes_view entries.entries.items) no_nodes
        ≡ the.required_names (listing (table_data table.now) json_names ps) s members.now) }
{
    let mut entries = no_entries(alloc);
    for member in members {
        let name = wire_name(table, json_names, *member);
        put_name(alloc, &mut entries, must_stand(table, *member), name)?;
    }
    Ok(entries)
}

// Puts the keyword of names that must stand behind the pairs that are there, where there are any.
fn put_required(alloc: Global, pairs: &mut JsonPairs, names: JsonEntries) -> Result<(), NoMemory>
    ensures { OnOk result (joined (members_view pairs.new.pairs.items) no_members
        ≡ joined (members_view pairs.old.pairs.items) (the.with_required (entries_joined (nodes_view names.entries.items) no_nodes))) }
{
    if names.entries.is_empty() {
        Ok(())
    } else {
        put(alloc, pairs, "required", list_of(names))
    }
}

/// Of a structure.
pub(crate) fn structure_definition(
    alloc: Global,
    table: &Table,
    all: &DefinedPlaces,
    json_names: bool,
    notes: Option<&Notes<'_>>,
    place: ValuePlace,
) -> Result<JsonTree, NoMemory>
    requires shaped { Shaped (table_data table.now) }
    requires inside { InTable (table_data table.now) (place_of place) }
    requires numbered { AreNumbered (table_data table.now) all.now }
    ensures { IfOk result (λ tree. node_of tree.tree
        ≡ structure_with (listing_of (table_data table.now) json_names all.now) (place_of place)
        (schema_with (notes_seen notes.entry) (listing_of (table_data table.now) json_names all.now) false)) }
{
    let members = table.members(place.shape(table));
    let schemas = schemas_under(alloc, table, all, json_names, notes, members, false)?;
    let names = required_names(alloc, table, json_names, members)?;
    let mut pairs = typed(alloc, "object")?;
    put(alloc, &mut pairs, "properties", object_of(schemas))?;
    put_required(alloc, &mut pairs, names)?;
    Ok(object_of(pairs))
}

// That this member of a union stands, and isn't null.
fn choice(
    alloc: Global,
    table: &Table,
    all: &DefinedPlaces,
    json_names: bool,
    member: u32,
) -> Result<JsonTree, NoMemory>
    requires shaped { Shaped (table_data table.now) }
    requires member { member < member_count (table_data table.now) }
    requires numbered { AreNumbered (table_data table.now) all.now }
    ensures { IfOk result (λ tree. (s : ℕ) → node_of tree.tree
        ≡ the.choice (listing_of (table_data table.now) json_names all.now) s member) }
{
    let name = wire_name(table, json_names, member);
    let tree = reference(alloc, table, all, ValuePlace::Member(member))?;
    let properties = one_pair(alloc, name, tree)?;
    let mut names = no_entries(alloc);
    let words = text_tree(alloc, name)?;
    put_entry(&mut names, words)?;
    let mut pairs = no_pairs(alloc);
    put(alloc, &mut pairs, "properties", properties)?;
    put(alloc, &mut pairs, "required", list_of(names))?;
    Ok(object_of(pairs))
}

fn choices(
    alloc: Global,
    table: &Table,
    all: &DefinedPlaces,
    json_names: bool,
    members: &[u32],
) -> Result<JsonEntries, NoMemory>
    requires shaped { Shaped (table_data table.now) }
    requires members { AllMembers (table_data table.now) members.now }
    requires numbered { AreNumbered (table_data table.now) all.now }
    ensures { IfOk result (λ entries. (s : ℕ) → entries_joined (nodes_view entries.entries.items) no_nodes
        ≡ the.choices (listing_of (table_data table.now) json_names all.now) s members.now) }
{
    let mut entries = no_entries(alloc);
    for member in members {
        let tree = choice(alloc, table, all, json_names, *member)?;
        put_entry(&mut entries, tree)?;
    }
    Ok(entries)
}

/// Of a union.
pub(crate) fn union_definition(
    alloc: Global,
    table: &Table,
    all: &DefinedPlaces,
    json_names: bool,
    notes: Option<&Notes<'_>>,
    place: ValuePlace,
) -> Result<JsonTree, NoMemory>
    requires shaped { Shaped (table_data table.now) }
    requires inside { InTable (table_data table.now) (place_of place) }
    requires numbered { AreNumbered (table_data table.now) all.now }
    ensures { IfOk result (λ tree. node_of tree.tree
        ≡ union_with (listing_of (table_data table.now) json_names all.now) (place_of place)
        (schema_with (notes_seen notes.entry) (listing_of (table_data table.now) json_names all.now) true)) }
{
    let members = table.members(place.shape(table));
    let schemas = schemas_under(alloc, table, all, json_names, notes, members, true)?;
    let one_of = choices(alloc, table, all, json_names, members)?;
    let mut pairs = typed(alloc, "object")?;
    put(alloc, &mut pairs, "properties", object_of(schemas))?;
    put(alloc, &mut pairs, "oneOf", list_of(one_of))?;
    Ok(object_of(pairs))
}
