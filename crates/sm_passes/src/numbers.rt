// Numbers of rows, and numbers in order.
ghost use Rattle.std.specs.Prelude.{◌≡◌, ◌↔◌, ℕ, IfOk};
ghost use Rattle.std.specs.List.{Contains};
ghost use Rattle.std.specs.List.Sorted.{IsStrictlyIncreasing};
ghost use Rattle.std.specs.Map.{values_of};

use sm_tree::NoMemory;
use std::alloc::Global;

/// The numbers of rows.
pub fn numbers_of<T>(alloc: Global, rows: &[(T, u32)]) -> Result<Vec<u32>, NoMemory>
    ensures { IfOk result (λ numbers. numbers.items ≡ values_of rows.now) }
{
    let mut numbers = Vec::with_capacity(alloc, rows.len())?;
    for row in rows {
        numbers.push(row.1)?;
    }
    Ok(numbers)
}

/// Numbers in rising order, each once. n log n.
pub fn rising(numbers: Vec<u32>) -> Vec<u32>
    ensures rise { IsStrictlyIncreasing result.items }
    ensures same { (k : ℕ) → Contains numbers.items k ↔ Contains result.items k }
{
    let mut numbers = numbers;
    numbers.sort_unstable();
    numbers.dedup();
    numbers
}
