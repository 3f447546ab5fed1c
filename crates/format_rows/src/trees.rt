// Answers on trees: how two compare, and the pointer of a path.
use crate::given::list_of;
use crate::show::show_text;
use sm_tree::{NoMemory, Path, Step, SyntaxRefusal, Text, Tree, is_same};
use std::alloc::Global;

pub fn same(alloc: Global, text: &str, out: &mut String) -> Result<(), NoMemory> {
    let Some(list) = list_of(alloc, text) else {
        return Ok(out.push_str("no list")?);
    };
    let [a, b] = list.as_slice() else {
        return Ok(out.push_str("no two trees")?);
    };
    let (same, equal) = (is_same(alloc, a, b)?, a == b);
    out.push_str(match (same, equal) {
        (true, true) => "equal",
        (true, false) => "same",
        (false, _) => "different",
    })?;
    Ok(())
}

pub fn pointer(alloc: Global, text: &str, out: &mut String) -> Result<(), NoMemory> {
    let Some(list) = list_of(alloc, text) else {
        return Ok(out.push_str("no list")?);
    };
    let mut steps = Vec::new(alloc);
    for tree in &list {
        match tree {
            Tree::Text(name) => steps.push(Step::Member(Text::copy(alloc, name.as_str())?))?,
            Tree::Int(index) if *index >= 0 => steps.push(Step::Index(*index as u64))?,
            _ => return Ok(out.push_str("no step")?),
        }
    }
    let pointer = Path::new(steps).print(alloc)?;
    show_text(alloc, pointer.as_str(), out)
}

/// Whether two readings of the same bytes have one outcome: equal trees, or the same refusal.
pub fn is_same_reading(
    first: &Result<Tree, SyntaxRefusal>,
    second: &Result<Tree, SyntaxRefusal>,
) -> bool {
    match (first, second) {
        (Ok(tree), Ok(other)) => *tree == *other,
        (Err(refusal), Err(other)) => *refusal == *other,
        _ => false,
    }
}
