// The shapes whose names count, as rows under their names in small letters, and the names that `rename` gives.
ghost use Rattle.std.specs.Prelude.{◌≡◌, ◌++◌, ◌∷◌, [], ℕ, List, IfOk, OnOk, length};
ghost use Rattle.std.specs.List.{Contains};
ghost use Rattle.std.specs.List.Sorted.{IsStrictlyIncreasing};
ghost use Rattle.std.specs.Option.{option_copied};
ghost use Rattle.sm_ids.specs.IdText.{Id, IdText};
ghost use Rattle.sm_tree.specs.Node.{members_of};
ghost use Rattle.sm_tree.specs.Parts.{tree_named};
ghost use Rattle.sm_tree.specs.View.{members_view};
ghost use Rattle.sm_model.specs.GraphView.{IsShapeNumber, entries_of};
ghost use Rattle.sm_model.specs.Reaching.{id_of_number};
ghost use Rattle.sm_compile.specs.TraitNodes.{text_of};
ghost use Rattle.sm_name_rules.specs.steps.Naming.{AreRowsAmong, AreRowsBelow, IsKeyBy, IsNameBy, MoreBy, is_named, is_named_kind, tree_in};

use sm_compile::{id_text, kind_of, text_in_trait};
use sm_ids::ShapeId;
use sm_model::{Graph, Kind};
use sm_passes::folded::folded;
use sm_passes::owned::is_own_shape;
use sm_tree::{NoMemory, Text, Tree};
use std::alloc::Global;
use std::collections::BTreeMap;

/// The first tree under each name. n log n.
pub(crate) fn names_given<'a>(
    alloc: Global,
    pairs: &'a [(Text, Tree)],
) -> Result<BTreeMap<&'a str, &'a Tree>, NoMemory>
    ensures { IfOk result (λ given. (key : List ℕ) → tree_in given key ≡ tree_named key (members_of (members_view pairs.now))) }
{
    let mut given: BTreeMap<&'a str, &'a Tree> = BTreeMap::new(alloc);
    let mut left = pairs.len();
    while left > 0 {
        left -= 1;
        let pair = &pairs[left];
        given.insert(pair.0.as_str(), &pair.1)?;
    }
    Ok(given)
}

/// The shapes among these whose names count, by number, under their names in small letters.
pub(crate) fn named_rows<'a>(
    alloc: Global,
    graph: &'a Graph,
    given: &BTreeMap<&'a str, &'a Tree>,
    inside: &[bool],
) -> Result<Vec<(Text, u32)>, NoMemory>
    requires { length inside.now ≡ length (entries_of graph.now) }
    ensures { IfOk result (λ rows. AreRowsBelow (is_named graph.now inside.now) (IsKeyBy (tree_in given.now) graph.now)
        (length (entries_of graph.now)) rows.items) }
{
    let mut rows = Vec::new(alloc);
    for number in 0..graph.count() {
        put_named(alloc, graph, given, inside, number, &mut rows)?;
    }
    Ok(rows)
}

/// The shapes among these rising numbers whose names count, under their names in small letters.
pub(crate) fn rows_among<'a>(
    alloc: Global,
    graph: &'a Graph,
    given: &BTreeMap<&'a str, &'a Tree>,
    inside: &[bool],
    numbers: &[u32],
) -> Result<Vec<(Text, u32)>, NoMemory>
    requires whole { length inside.now ≡ length (entries_of graph.now) }
    requires numbers { (k : ℕ) → Contains numbers.now k → IsShapeNumber graph.now k }
    requires rise { IsStrictlyIncreasing numbers.now }
    ensures { IfOk result (λ rows. AreRowsAmong (λ k. Contains numbers.now k) (is_named graph.now inside.now)
        (IsKeyBy (tree_in given.now) graph.now) rows.items) }
{
    let mut rows = Vec::new(alloc);
    for number in numbers {
        put_named(alloc, graph, given, inside, *number, &mut rows)?;
    }
    Ok(rows)
}

fn put_named<'a>(
    alloc: Global,
    graph: &'a Graph,
    given: &BTreeMap<&'a str, &'a Tree>,
    inside: &[bool],
    number: u32,
    rows: &mut Vec<(Text, u32)>,
) -> Result<(), NoMemory>
    requires number { IsShapeNumber graph.now number }
    requires whole { length inside.now ≡ length (entries_of graph.now) }
    ensures { OnOk result (MoreBy (is_named graph.now inside.now number) (IsKeyBy (tree_in given.now) graph.now number) number
        rows.old.items rows.new.items) }
{
    if is_named(graph, inside, number) {
        push_named(alloc, graph, given, number, rows)
    } else {
        Ok(())
    }
}

fn push_named<'a>(
    alloc: Global,
    graph: &'a Graph,
    given: &BTreeMap<&'a str, &'a Tree>,
    number: u32,
    rows: &mut Vec<(Text, u32)>,
) -> Result<(), NoMemory>
    requires { IsShapeNumber graph.now number }
    ensures { OnOk result ((key : List ℕ) × IsKeyBy (tree_in given.now) graph.now number key
        × (rows.new.items ≡ rows.old.items ++ (key, number) ∷ [])) }
{
    let key = folded(alloc, name_of(graph, given, number))?;
    rows.push((key, number))?;
    Ok(())
}

fn is_named(graph: &Graph, inside: &[bool], number: u32) -> bool
    requires number { IsShapeNumber graph.now number }
    requires whole { length inside.now ≡ length (entries_of graph.now) }
    ensures { result ≡ is_named graph.now inside.now number }
{
    inside[number as usize] && is_own_shape(graph, number) && is_named_kind(kind_of(graph, number))
}

fn is_named_kind(kind: Option<Kind>) -> bool
    ensures { result ≡ is_named_kind kind }
{
    match kind {
        Some(kind) => match kind {
            Kind::Structure => true,
            Kind::Union => true,
            Kind::Enum => true,
            Kind::IntEnum => true,
            Kind::Operation => true,
            Kind::Resource => true,
            _ => false,
        },
        None => false,
    }
}

// The name that a shape is given, else that of its id.
fn name_of<'a>(graph: &'a Graph, given: &BTreeMap<&'a str, &'a Tree>, number: u32) -> &'a str
    requires { IsShapeNumber graph.now number }
    ensures { IsNameBy (text_of (tree_in given.now (id_of_number graph.now number))) (id_of_number graph.now number) result.now }
{
    let own = own_name(graph.id(number));
    match given_name(given, id_text(graph, number)) {
        Some(name) => name,
        None => own,
    }
}

fn given_name<'a>(given: &BTreeMap<&'a str, &'a Tree>, id: &str) -> Option<&'a str>
    ensures { option_copied result ≡ text_of (tree_in given.now id.now) }
{
    match given.get(id) {
        Some(tree) => text_in_trait(Some(*tree)),
        None => None,
    }
}

fn own_name(id: &ShapeId) -> &str
    ensures { (parts : Id) × IdText parts id.now × (result.now ≡ parts.name) }
{
    id.as_ref().name
}
