// A table from the shapes that rows write down.
use crate::look::{copy_of, is_set, items_of, kind_named, number_of, pairs_of, part, text_of};
use crate::members::{needed_of, sorted};
use sm_shapes::MemberNumbers;
use sm_shapes::constraints::{Constraints, Numbers, Texts};
use sm_shapes::tables::{MemberRows, PatternRows, ShapeRows, Table, TableMember, TableShape};
use sm_time::Format;
use sm_tree::{NoMemory, Text, Tree, copy_tree};
use std::alloc::Global;

/// A shape as a row writes it down: its name, and what is said of it.
pub type Said = (Text, Tree);

/// The number of the shape with this name; of a name that no shape has, the number behind the last.
pub fn number_named(shapes: &[Said], name: &str) -> u32 {
    let mut number: u32 = 0;
    for shape in shapes {
        if shape.0.as_str() == name {
            return number;
        }
        number = number.saturating_add(1);
    }
    number
}

// What is said of the shape with this number; where there is none, what is said elsewhere.
fn said_of<'t>(shapes: &'t [Said], number: u32, elsewhere: &'t Tree) -> &'t Tree {
    match shapes.get(number as usize) {
        Some(shape) => &shape.1,
        None => elsewhere,
    }
}

// What a member says, else what its target says.
fn effective<'t>(own: &'t Tree, target: &'t Tree, name: &str) -> &'t Tree {
    match part(own, name) {
        Some(_) => own,
        None => target,
    }
}

fn texts_of(alloc: Global, said: &Tree) -> Result<Texts, NoMemory> {
    let mut texts = Vec::new(alloc);
    for item in items_of(said, "texts") {
        if let Tree::Text(text) = item {
            texts.push(Text::copy(alloc, text.as_str())?)?;
        }
    }
    Texts::new(alloc, texts)
}

fn numbers_of(alloc: Global, said: &Tree) -> Result<Numbers, NoMemory> {
    let mut numbers = Vec::new(alloc);
    for item in items_of(said, "numbers") {
        if let Tree::Int(number) = item {
            numbers.push(*number)?;
        }
    }
    Numbers::new(alloc, numbers)
}

// The number of the pattern that is said, which is put behind those before.
fn pattern_of(
    alloc: Global,
    said: &Tree,
    patterns: &mut Vec<(u32, Text)>,
) -> Result<Option<u32>, NoMemory> {
    let Some(text) = copy_of(alloc, said, "pattern")? else {
        return Ok(None);
    };
    let Ok(number) = u32::try_from(patterns.len()) else {
        return Err(NoMemory);
    };
    patterns.push((number, text))?;
    Ok(Some(number))
}

fn format_of(said: &Tree) -> Option<Format> {
    match text_of(said, "format") {
        Some("date-time") => Some(Format::DateTime),
        Some("http-date") => Some(Format::HttpDate),
        Some("epoch-seconds") => Some(Format::EpochSeconds),
        _ => None,
    }
}

// The constraints of a member, or of a shape that is its own target. Bounds are one trait.
fn constraints_of(
    alloc: Global,
    own: &Tree,
    target: &Tree,
    patterns: &mut Vec<(u32, Text)>,
) -> Result<Constraints, NoMemory> {
    let bounds = match part(own, "min") {
        Some(_) => own,
        None => effective(own, target, "max"),
    };
    let pattern = pattern_of(alloc, effective(own, target, "pattern"), patterns)?;
    let texts = texts_of(alloc, target)?;
    let numbers = numbers_of(alloc, target)?;
    Ok(Constraints {
        min: number_of(bounds, "min"),
        max: number_of(bounds, "max"),
        pattern,
        texts,
        numbers,
    })
}

// What is said of a member: a text alone is its target.
fn target_of(said: &Tree) -> &str {
    match said {
        Tree::Text(text) => text.as_str(),
        _ => text_of(said, "target").unwrap_or(""),
    }
}

fn default_node_of(alloc: Global, said: &Tree) -> Result<Option<Tree>, NoMemory> {
    match part(said, "default") {
        Some(node) => Ok(Some(copy_tree(alloc, node)?)),
        None => Ok(None),
    }
}

fn member_of(
    alloc: Global,
    shapes: &[Said],
    shape: u32,
    said: &Said,
    patterns: &mut Vec<(u32, Text)>,
) -> Result<TableMember, NoMemory> {
    let own = &said.1;
    let target = number_named(shapes, target_of(own));
    let behind = said_of(shapes, target, own);
    let name = Text::copy(alloc, said.0.as_str())?;
    let json_name = copy_of(alloc, own, "json")?;
    let constraints = constraints_of(alloc, own, behind, patterns)?;
    let default_node = default_node_of(alloc, own)?;
    Ok(TableMember {
        shape,
        name,
        json_name,
        target,
        required: is_set(own, "required"),
        constraints,
        format: format_of(effective(own, behind, "format")),
        media_type: None,
        binding: None,
        default_node,
        default: None,
    })
}

// Puts the members of a shape behind those before, and gives their numbers.
fn put_members(
    alloc: Global,
    shapes: &[Said],
    shape: u32,
    said: &Tree,
    members: &mut Vec<TableMember>,
    patterns: &mut Vec<(u32, Text)>,
) -> Result<Vec<u32>, NoMemory> {
    let mut numbers = Vec::new(alloc);
    for pair in pairs_of(said, "members") {
        let Ok(number) = u32::try_from(members.len()) else {
            return Err(NoMemory);
        };
        let member = member_of(alloc, shapes, shape, pair, patterns)?;
        members.push(member)?;
        numbers.push(number)?;
    }
    Ok(numbers)
}

// The row of a shape with these members, whose orders aren't put in yet.
fn shape_of(
    alloc: Global,
    said: &Tree,
    members: Vec<u32>,
    patterns: &mut Vec<(u32, Text)>,
) -> Result<TableShape, NoMemory> {
    let constraints = constraints_of(alloc, said, said, patterns)?;
    Ok(TableShape {
        kind: kind_named(text_of(said, "kind").unwrap_or("")),
        members: MemberNumbers::new(members),
        by_name: MemberNumbers::new(Vec::new(alloc)),
        by_json_name: MemberNumbers::new(Vec::new(alloc)),
        needed: MemberNumbers::new(Vec::new(alloc)),
        constraints,
        unique: is_set(said, "unique"),
        sparse: is_set(said, "sparse"),
        unit: false,
        format: format_of(said),
        media_type: None,
    })
}

// The same shape with its members by their names, and those that are needed.
fn in_order(alloc: Global, table: &Table, shape: TableShape) -> Result<TableShape, NoMemory> {
    let by_name = sorted(alloc, table, false, shape.members.as_slice())?;
    let by_json_name = sorted(alloc, table, true, shape.members.as_slice())?;
    let needed = needed_of(alloc, table, shape.members.as_slice())?;
    let mut shape = shape;
    shape.by_name = MemberNumbers::new(by_name);
    shape.by_json_name = MemberNumbers::new(by_json_name);
    shape.needed = MemberNumbers::new(needed);
    Ok(shape)
}

/// The table of these shapes, with no default yet.
pub fn table_of(alloc: Global, shapes: &[Said]) -> Result<Table, NoMemory> {
    let mut rows = Vec::new(alloc);
    let mut members = Vec::new(alloc);
    let mut patterns = Vec::new(alloc);
    let mut number: u32 = 0;
    for shape in shapes {
        let numbers = put_members(alloc, shapes, number, &shape.1, &mut members, &mut patterns)?;
        let row = shape_of(alloc, &shape.1, numbers, &mut patterns)?;
        rows.push(row)?;
        number = number.saturating_add(1);
    }
    let names = Table {
        shapes: ShapeRows::new(Vec::new(alloc)),
        members: MemberRows::new(members),
        patterns: PatternRows::new(Vec::new(alloc)),
    };
    let shapes = all_in_order(alloc, &names, rows)?;
    let mut table = names;
    table.shapes = ShapeRows::new(shapes);
    table.patterns = PatternRows::new(patterns);
    Ok(table)
}

fn all_in_order(
    alloc: Global,
    table: &Table,
    shapes: Vec<TableShape>,
) -> Result<Vec<TableShape>, NoMemory> {
    let mut rows = Vec::new(alloc);
    for shape in shapes {
        let row = in_order(alloc, table, shape)?;
        rows.push(row)?;
    }
    Ok(rows)
}
