// A session of a row, over objects in memory.
ghost use Rattle.std.specs.Prelude.{◌<◌, All, IfOk};

use crate::echo::{Echo, Handed};
use sm_io::{MemSink, MemSource};
use sm_session::{SessionEnd, run_session};
use sm_tree::NoMemory;
use std::alloc::Global;

/// What a session read and wrote.
#[derive(Drop)]
pub struct Played {
    pub answers: Vec<u8>,
    pub requests: Vec<u8>,
    pub end: SessionEnd,
    /// How many bytes of bodies were handed on.
    pub handed: u64,
}

/// Which call of an object fails, counted from 1; none where it is 0.
#[derive(Clone, Copy, Drop)]
pub struct Failing {
    pub front_in: u64,
    pub front_out: u64,
    pub back_in: u64,
    pub back_out: u64,
}

/// Bytes one by one.
///
/// # Errors
///
/// `NoMemory`.
pub fn single_bytes(alloc: Global, count: usize) -> Result<Vec<u64>, NoMemory>
    ensures { IfOk result (λ cuts. All (λ cut. 0 < cut) cuts.items) }
{
    Ok(vec![in alloc; 1; count]?)
}

/// Runs a session of these bytes, which come in these cuts.
///
/// # Errors
///
/// `NoMemory`.
pub fn play(
    alloc: Global,
    front: &[u8],
    back: &[u8],
    cuts: &[u64],
    failing: Failing,
) -> Result<Played, NoMemory>
    requires { All (λ cut. 0 < cut) cuts.now }
{
    let front_cuts = cuts.to_vec(alloc)?;
    let back_cuts = cuts.to_vec(alloc)?;
    let mut front_in = MemSource::new(
        front.to_vec(alloc)?,
        front_cuts,
        vec![in alloc; failing.front_in]?,
    );
    let mut back_in = MemSource::new(
        back.to_vec(alloc)?,
        back_cuts,
        vec![in alloc; failing.back_in]?,
    );
    let mut front_out = MemSink::new(alloc, vec![in alloc; failing.front_out]?);
    let mut back_out = MemSink::new(alloc, vec![in alloc; failing.back_out]?);
    let mut handed = Handed { bytes: 0 };
    let end = run_session(
        alloc,
        &Echo,
        &mut handed,
        &mut front_in,
        &mut front_out,
        &mut back_in,
        &mut back_out,
    );
    Ok(Played {
        answers: front_out.bytes().to_vec(alloc)?,
        requests: back_out.bytes().to_vec(alloc)?,
        end,
        handed: handed.bytes,
    })
}
