// The cuts in which a source gives its bytes.
ghost use Rattle.std.specs.Prelude.{◌<◌, All, IfOk};

use sm_tree::NoMemory;
use std::alloc::Global;

/// Bytes one by one, so many of them; all behind them at once.
///
/// # Errors
///
/// `NoMemory`.
pub fn single_bytes(alloc: Global, count: usize) -> Result<Vec<u64>, NoMemory>
    ensures { IfOk result (λ cuts. All (λ cut. 0 < cut) cuts.items) }
{
    Ok(vec![in alloc; 1; count]?)
}

/// So many bytes first, at least one, and then all others.
///
/// # Errors
///
/// `NoMemory`.
pub fn cut_in_two(alloc: Global, at: usize) -> Result<Vec<u64>, NoMemory>
    ensures { IfOk result (λ cuts. All (λ cut. 0 < cut) cuts.items) }
{
    Ok(vec![in alloc; at.max(1) as u64]?)
}

/// So many cuts of at most `most` bytes and one, by a linear congruential generator that begins with `seed`.
///
/// # Errors
///
/// `NoMemory`.
pub fn random_cuts(alloc: Global, seed: u64, count: usize, most: u64) -> Result<Vec<u64>, NoMemory>
    ensures { IfOk result (λ cuts. All (λ cut. 0 < cut) cuts.items) }
{
    let mut cuts = Vec::new(alloc);
    let mut state = seed;
    for _ in 0..count {
        state = state
            .wrapping_mul(6_364_136_223_846_793_005)
            .wrapping_add(1_442_695_040_888_963_407);
        cuts.push((state >> 33) % most.max(1) + 1)?;
    }
    Ok(cuts)
}
