// The sizes of the pieces in which the bytes of a side come.
ghost use Rattle.std.specs.Prelude.{◌<◌, All, IfOk};

use sm_tree::NoMemory;
use std::alloc::Global;

/// The most pieces; all that is left behind them comes at once.
const MOST_PIECES: usize = 20_000;

/// Bytes one by one.
///
/// # Errors
///
/// `NoMemory`.
pub fn single_bytes(alloc: Global, length: usize) -> Result<Vec<u64>, NoMemory>
    ensures { IfOk result (λ cuts. All (λ cut. 0 < cut) cuts.items) }
{
    Ok(vec![in alloc; 1; length.min(MOST_PIECES)]?)
}

/// Sizes from 1 to 64 by a linear congruential generator that begins with `seed`, as many as there are bytes.
///
/// # Errors
///
/// `NoMemory`.
pub fn random_pieces(alloc: Global, seed: u64, length: usize) -> Result<Vec<u64>, NoMemory>
    ensures { IfOk result (λ cuts. All (λ cut. 0 < cut) cuts.items) }
{
    let mut cuts = Vec::new(alloc);
    let mut state = seed;
    for _ in 0..length.min(MOST_PIECES) {
        state = state
            .wrapping_mul(6_364_136_223_846_793_005)
            .wrapping_add(1_442_695_040_888_963_407);
        cuts.push((state >> 33) % 64 + 1)?;
    }
    Ok(cuts)
}
