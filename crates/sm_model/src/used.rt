// The ids that a file uses, and what stands first under each name, as all references of the file share them.
ghost use Rattle.std.specs.Prelude.{◌≡◌, ℕ, List, IfOk, OnOk, MatchOption, None, Some, if◌then◌else◌};
ghost use Rattle.std.specs.BTreeMap.{get_by_text};
ghost use Rattle.std.specs.Str.{bytes_eq};
ghost use Rattle.sm_model.specs.Used.{name_part, shape_part, used_under};

use sm_ids::{ShapeId, namespace_and_name, without_member};
use sm_tree::{NoMemory, Text};
use std::alloc::Global;
use std::collections::BTreeMap;
use std::marker::Model;

/// Ids, and the shape of the first under each name. Contracts see the list of their texts.
#[derive(Debug, Drop)]
pub(crate) struct UsedIds {
    /// The ids, in order.
    ids: Vec<ShapeId>,
    /// The shape of the first id of a name.
    shapes: BTreeMap<String, Text>,
    ghost first: { (name : List ℕ) → get_by_text shapes name ≡ used_under name ids.items },
}

impl Model for UsedIds {
    ghost use Rattle.std.specs.Prelude.{List, ℕ};

    ghost Value = { List (List ℕ) };

    ghost view = { λ a. a.ids.items };
}

impl UsedIds {
    /// The ids that a vector holds, with their index. n log n.
    pub(crate) fn new(alloc: Global, ids: Vec<ShapeId>) -> Result<Self, NoMemory>
        ensures { IfOk result (λ used. used ≡ ids.items) }
    {
        let shapes = first_shapes(alloc, ids.as_slice())?;
        Ok(UsedIds { ids, shapes })
    }

    /// The shape of the first id of a name. log n, no memory.
    pub(crate) fn named(&self, name: &str) -> Option<&str>
        ensures { MatchOption result (used_under name.now self.now ≡ None) (λ id. used_under name.now self.now ≡ Some id.now) }
    {
        match self.shapes.get(name) {
            Some(shape) => Some(shape.as_str()),
            None => None,
        }
    }
}

// The shape of the first id of each name: from the last id to the first, so that the first stays.
fn first_shapes(alloc: Global, ids: &[ShapeId]) -> Result<BTreeMap<String, Text>, NoMemory>
    ensures { IfOk result (λ shapes. (name : List ℕ) → get_by_text shapes name ≡ used_under name ids.now) }
{
    let mut shapes: BTreeMap<String, Text> = BTreeMap::new(alloc);
    let mut left = ids.len();
    while left > 0 {
        left -= 1;
        put_shape(alloc, &mut shapes, ids[left].as_str())?;
    }
    Ok(shapes)
}

// Puts the shape of an id under its name, in place of one behind it.
fn put_shape(alloc: Global, shapes: &mut BTreeMap<String, Text>, id: &str) -> Result<(), NoMemory>
    ensures { OnOk result ((name : List ℕ) → get_by_text shapes.new name
        ≡ (if bytes_eq (name_part id.now) name then Some (shape_part id.now) else get_by_text shapes.old name)) }
{
    let name = String::from_str(alloc, name_of(id))?;
    let shape = Text::copy(alloc, without_member(id))?;
    match shapes.insert(name, shape) {
        Ok(_) => Ok(()),
        Err(_) => Err(NoMemory),
    }
}

// The name of an absolute id, without its namespace and its member.
fn name_of(id: &str) -> &str
    ensures { result.now ≡ name_part id.now }
{
    without_member(namespace_and_name(id).1)
}
