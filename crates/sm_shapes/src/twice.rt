// Whether some entry of a list stands twice or more, told by sorting references to the entries.
ghost use Rattle.std.specs.Prelude.{◌≡◌, map, IfOk};
ghost use Rattle.sm_shapes.specs.Broken.{has_twice};
ghost use Rattle.sm_shapes.specs.ValueView.{val_of, items_view, vals_view};

use crate::values::{Items, Value};
use sm_tree::NoMemory;
use std::alloc::Global;

impl Items {
    /// Whether some entry stands twice or more. n log n comparisons of n entries. `NoMemory` where a reference to each finds no room.
    pub fn has_twice(&self, alloc: Global) -> Result<bool, NoMemory>
        ensures { IfOk result (λ twice. twice ≡ has_twice (items_view self.now)) }
    {
        match each(alloc, self.as_slice()) {
            Ok(all) => stand_twice(all),
            Err(refusal) => Err(refusal),
        }
    }
}

// A reference to each value.
fn each(alloc: Global, values: &[Value]) -> Result<Vec<&Value>, NoMemory>
    ensures { IfOk result (λ all. map (λ v. val_of v.now) all.items ≡ vals_view values.now) }
{
    let mut all = Vec::with_capacity(alloc, values.len())?;
    for value in values {
        match all.push(value) {
            Ok(()) => {}
            Err(_) => return Err(NoMemory),
        }
    }
    Ok(all)
}

// Whether two of these are the same: in their order they don't all rise.
fn stand_twice(values: Vec<&Value>) -> Result<bool, NoMemory>
    ensures { IfOk result (λ twice. twice ≡ has_twice (map (λ v. val_of v.now) values.entry.items)) }
{
    let mut values = values;
    values.sort_by(|a, b| a.compare(b))?;
    Ok(!values.is_sorted_by(|a, b| a.compare(b).is_lt()))
}
