// Where each key stands first.
ghost use Rattle.std.specs.Prelude.{◌≡◌, ℕ, List, IfOk};
ghost use Rattle.std.specs.FinMap as fin;
ghost use Rattle.sm_model.specs.Graphs.{text_cmp};
ghost use Rattle.sm_passes.specs.Firsts.{number_in};

use sm_tree::{NoMemory, Text};
use std::alloc::Global;
use std::collections::BTreeMap;

/// The number that stands first under each key. n log n.
pub fn first_numbers<'a>(
    alloc: Global,
    rows: &'a [(Text, u32)],
) -> Result<BTreeMap<&'a str, u32>, NoMemory>
    ensures { IfOk result (λ firsts. (key : List ℕ) → number_in firsts key ≡ fin.find text_cmp key rows.now) }
{
    let mut firsts: BTreeMap<&'a str, u32> = BTreeMap::new(alloc);
    let mut left = rows.len();
    while left > 0 {
        left -= 1;
        let row = &rows[left];
        firsts.insert(row.0.as_str(), row.1)?;
    }
    Ok(firsts)
}

/// The one under a key.
pub fn first_of(firsts: &BTreeMap<&str, u32>, key: &str) -> Option<u32>
    ensures { result ≡ number_in firsts.now key.now }
{
    match firsts.get(key) {
        Some(number) => Some(*number),
        None => None,
    }
}
