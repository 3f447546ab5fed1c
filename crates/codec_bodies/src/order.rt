// Whether a table is in order. What calls of the codec ask of a table is checked here, since rows may write down any.
ghost use Rattle.std.specs.Prelude.{◌≡◌, ◌<◌, IfOk, IsTrue, IsUtf8, ℕ, map, length, Some, None};
ghost use Rattle.std.specs.List.{Contains};
ghost use Rattle.std.specs.Option.{option_map};
ghost use Rattle.std.specs.List.Sorted.{IsStrictlySortedBy};
ghost use Rattle.std.specs.Ordering.{nat_cmp};
ghost use Rattle.std.specs.Cmp.Lexicographic.{slice_cmp};
ghost use Rattle.std.specs.declared.cmp.Ordering.TheVariants.{Less};
ghost use Rattle.sm_tree.specs.Node.{Node};
ghost use Rattle.sm_tree.specs.View.{node_of};
ghost use Rattle.sm_shapes.specs.Names.{AllDiffer, NoneIs};
ghost use Rattle.sm_shapes.specs.InOrder.{Shaped, AreMembersOf, AreByName, HasItsMembers, IsTextKind, NamesPattern, MayHaveNode};
ghost use Rattle.sm_shapes.specs.InOrder.{IsEmptyNode};
ghost use Rattle.sm_shapes.specs.TableData.{shape_count, member_count, kind_at, name_at, json_name_at, texts_numbered};
ghost use Rattle.sm_shapes.specs.TableView.{table_data, binding_data};
ghost use Rattle.sm_shapes.specs.declared.kinds.ShapeKind.TheVariants.{Structure};
ghost use Rattle.sm_shapes.specs.DefaultPuts.{HasNoDefault};
ghost use Rattle.codec_bodies.specs.Checked.{name_by, ShapeInOrder, MemberInOrder};

use crate::lookups::{kind_at, members_at, row_at, shape_at, target_at};
use crate::members::{name_by, needed_of, sorted};
use sm_shapes::kinds::ShapeKind;
use sm_shapes::tables::{Table, TableMember};
use sm_tree::{NoMemory, Text, Tree};
use std::alloc::Global;
use std::cmp::Ordering;

/// Whether a table is in order and has no default set.
pub fn is_in_order(alloc: Global, table: &Table) -> Result<bool, NoMemory>
    ensures shaped { IfOk result (λ good. IsTrue good → Shaped (table_data table.now)) }
    ensures unset { IfOk result (λ good. IsTrue good → HasNoDefault (table_data table.now)) }
{
    if !are_members_in_order(table) {
        return Ok(false);
    }
    are_shapes_in_order(alloc, table)
}

fn are_shapes_in_order(alloc: Global, table: &Table) -> Result<bool, NoMemory>
    ensures { IfOk result (λ good. IsTrue good → (s : ℕ) → s < shape_count (table_data table.now) → ShapeInOrder (table_data table.now) s) }
{
    let Ok(count) = u32::try_from(table.shapes.as_slice().len()) else {
        return Ok(false);
    };
    for shape in 0..count {
        if !is_shape_in_order(alloc, table, shape)? {
            return Ok(false);
        }
    }
    Ok(true)
}

fn are_members_in_order(table: &Table) -> bool
    ensures { IsTrue result → (k : ℕ) → k < member_count (table_data table.now) → MemberInOrder (table_data table.now) k }
{
    let count = count_of_members(table);
    for place in 0..count {
        let Ok(member) = u32::try_from(place) else {
            return false;
        };
        if !is_member_in_order(table, member) {
            return false;
        }
    }
    true
}

fn count_of_members(table: &Table) -> usize
    ensures { result ≡ member_count (table_data table.now) }
{
    table.members.as_slice().len()
}

// What is checked of one shape.
fn is_shape_in_order(alloc: Global, table: &Table, shape: u32) -> Result<bool, NoMemory>
    ensures { IfOk result (λ good. IsTrue good → ShapeInOrder (table_data table.now) shape) }
{
    let Some(row) = shape_at(table, shape) else {
        return Ok(false);
    };
    let members = row.members.as_slice();
    if !are_members_of(table, shape, members) {
        return Ok(false);
    }
    if !rise(members) {
        return Ok(false);
    }
    if !has_its_members(table, row.kind, members) {
        return Ok(false);
    }
    if !names_pattern(table, row.constraints.pattern) {
        return Ok(false);
    }
    let needed = needed_of(alloc, table, members)?;
    if !are_same(&needed, row.needed.as_slice()) {
        return Ok(false);
    }
    if !are_names_in_order(alloc, table, false, members, row.by_name.as_slice())? {
        return Ok(false);
    }
    are_names_in_order(alloc, table, true, members, row.by_json_name.as_slice())
}

fn are_same(first: &[u32], second: &[u32]) -> bool
    ensures { IsTrue result → first.now ≡ second.now }
{
    first == second
}

// Each is a member that stands in this shape.
fn are_members_of(table: &Table, shape: u32, members: &[u32]) -> bool
    ensures { IsTrue result → AreMembersOf (table_data table.now) shape members.now }
{
    for member in members {
        match row_at(table, *member) {
            Some(row) => {
                if row.shape != shape {
                    return false;
                }
            }
            None => return false,
        }
    }
    true
}

// Each number is greater than the one before it.
fn rise(numbers: &[u32]) -> bool
    ensures { IsTrue result → IsStrictlySortedBy nat_cmp numbers.now }
{
    let mut last: Option<u32> = None;
    for number in numbers {
        match last {
            Some(before) => {
                if *number <= before {
                    return false;
                }
            }
            None => {}
        }
        last = Some(*number);
    }
    true
}

// A list has one member, and a map its key, which is a text, and its value.
fn has_its_members(table: &Table, kind: ShapeKind, members: &[u32]) -> bool
    ensures { IsTrue result → HasItsMembers (table_data table.now) kind members.now }
{
    match kind {
        ShapeKind::List => members.len() == 1,
        ShapeKind::Map => match members {
            [key, _] => is_text_kind(kind_at(table, target_at(table, *key))),
            _ => false,
        },
        _ => true,
    }
}

// Whether values of this kind are texts.
fn is_text_kind(kind: ShapeKind) -> bool
    ensures { IsTrue result → IsTextKind kind }
{
    match kind {
        ShapeKind::Text => true,
        ShapeKind::Enum => true,
        _ => false,
    }
}

// Constraints name a pattern that stands once among those of the table, or none.
fn names_pattern(table: &Table, pattern: Option<u32>) -> bool
    ensures { IsTrue result → NamesPattern (table_data table.now) pattern }
{
    match pattern {
        Some(number) => count_of(table.patterns.as_slice(), number) == 1,
        None => true,
    }
}

// How many patterns stand under this number.
fn count_of(patterns: &[(u32, Text)], number: u32) -> usize
    ensures { result ≡ length (texts_numbered number patterns.now) }
{
    let mut count = 0;
    for pattern in patterns {
        if pattern.0 == number {
            count += 1;
        }
    }
    count
}

// Of the names of members, or of those where JSON names are looked at: they differ, and these are the members in their order.
#[tactic(auto, using(crate::proofs::CheckedParts::in_name_order))]
fn are_names_in_order(
    alloc: Global,
    table: &Table,
    json: bool,
    members: &[u32],
    ordered: &[u32],
) -> Result<bool, NoMemory>
    ensures ordered { IfOk result (λ good. IsTrue good → AreByName (name_by json (table_data table.now)) members.now ordered.now) }
    ensures differ { IfOk result (λ good. IsTrue good → AllDiffer (map (name_by json (table_data table.now)) members.now)) }
{
    let all = sorted(alloc, table, json, members)?;
    if !are_same(&all, ordered) {
        return Ok(false);
    }
    if !names_rise(table, json, ordered) {
        return Ok(false);
    }
    Ok(names_differ(table, json, members))
}

fn names_rise(table: &Table, json: bool, members: &[u32]) -> bool
    ensures { IsTrue result → IsStrictlySortedBy (slice_cmp nat_cmp) (map (name_by json (table_data table.now)) members.now) }
{
    let mut last: Option<u32> = None;
    for member in members {
        match last {
            Some(before) => {
                if !is_before(table, json, before, *member) {
                    return false;
                }
            }
            None => {}
        }
        last = Some(*member);
    }
    true
}

// The name of a member comes before that of another one, by bytes.
fn is_before(table: &Table, json: bool, first: u32, second: u32) -> bool
    ensures { IsTrue result → slice_cmp nat_cmp (name_by json (table_data table.now) first)
        (name_by json (table_data table.now) second) ≡ Less }
{
    name_by(table, json, first).cmp(name_by(table, json, second)) == Ordering::Less
}

// A member has another name.
fn is_named_otherwise(table: &Table, json: bool, member: u32, name: &str) -> bool
    ensures { IsTrue result → name_by json (table_data table.now) member ≡ name.now → ⊥ }
{
    name_by(table, json, member) != name
}

fn names_differ(table: &Table, json: bool, members: &[u32]) -> bool
    ensures { IsTrue result → AllDiffer (map (name_by json (table_data table.now)) members.now) }
{
    for place in 0..members.len() {
        if !none_is(
            table,
            json,
            name_by(table, json, members[place]),
            &members[place + 1..],
        ) {
            return false;
        }
    }
    true
}

// None of the members has the name.
fn none_is(table: &Table, json: bool, name: &str, members: &[u32]) -> bool
    ensures { IsTrue result → NoneIs name.now (map (name_by json (table_data table.now)) members.now) }
{
    for member in members {
        if !is_named_otherwise(table, json, *member, name) {
            return false;
        }
    }
    true
}

/// Whether the table has the shape.
pub fn is_shape(table: &Table, shape: u32) -> bool
    ensures { IsTrue result → shape < shape_count (table_data table.now) }
{
    (shape as usize) < table.shapes.as_slice().len()
}

// Whether the member is one of these.
fn stands_in(members: &[u32], member: u32) -> bool
    ensures { IsTrue result → Contains members.now member }
{
    members.contains(&member)
}

// The names of a member are texts by their types.
fn see_names(table: &Table, member: u32)
    ensures name { IsUtf8 (name_at (table_data table.now) member) }
    ensures json_name { IsUtf8 (json_name_at (table_data table.now) member) }
{
    let _name = table.name_of(member);
    let _json_name = table.json_name_of(member);
}

// What is checked of one member.
fn is_member_in_order(table: &Table, member: u32) -> bool
    ensures { IsTrue result → MemberInOrder (table_data table.now) member }
{
    let Some(row) = row_at(table, member) else {
        return false;
    };
    if !is_shape(table, row.target) {
        return false;
    }
    if !is_shape(table, row.shape) {
        return false;
    }
    if !stands_in(members_at(table, row.shape), member) {
        return false;
    }
    if !names_pattern(table, row.constraints.pattern) {
        return false;
    }
    if row.default.is_some() {
        return false;
    }
    see_names(table, member);
    is_default_in_order(table, row)
}

// The node of a default may stand at the member.
fn is_default_in_order(table: &Table, row: &TableMember) -> bool
    ensures { IsTrue result → (n : Node) → option_map node_of row.now.default_node ≡ Some n
        → (kind_at (table_data table.now) row.now.shape ≡ Structure) × (option_map binding_data row.now.binding ≡ None)
        × MayHaveNode (kind_at (table_data table.now) row.now.target) n }
{
    match &row.default_node {
        Some(node) => {
            if !may_default(table, row) {
                return false;
            }
            may_have_node(kind_at(table, row.target), node)
        }
        None => true,
    }
}

fn may_default(table: &Table, row: &TableMember) -> bool
    ensures home { IsTrue result → kind_at (table_data table.now) row.now.shape ≡ Structure }
    ensures unbound { IsTrue result → option_map binding_data row.now.binding ≡ None }
{
    if row.binding.is_some() {
        return false;
    }
    match kind_at(table, row.shape) {
        ShapeKind::Structure => true,
        _ => false,
    }
}

// At a list or a map the node is empty; structures and unions have none, nor has what has no values.
fn may_have_node(kind: ShapeKind, node: &Tree) -> bool
    ensures { IsTrue result → MayHaveNode kind (node_of node.now) }
{
    match kind {
        ShapeKind::List => is_empty_node(node),
        ShapeKind::Map => is_empty_node(node),
        ShapeKind::Structure => false,
        ShapeKind::Union => false,
        ShapeKind::LeftOut => false,
        ShapeKind::Blob => true,
        ShapeKind::Boolean => true,
        ShapeKind::Text => true,
        ShapeKind::Enum => true,
        ShapeKind::Byte => true,
        ShapeKind::Short => true,
        ShapeKind::Integer => true,
        ShapeKind::IntEnum => true,
        ShapeKind::Long => true,
        ShapeKind::Timestamp => true,
    }
}

fn is_empty_node(node: &Tree) -> bool
    ensures { IsTrue result → IsEmptyNode (node_of node.now) }
{
    match node {
        Tree::List(items) => items.as_slice().is_empty(),
        Tree::Object(pairs) => pairs.as_slice().is_empty(),
        _ => false,
    }
}
