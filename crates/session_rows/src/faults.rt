// A session in which the k-th call of an object fails, for each k: its end names that object or is that of the whole, and what is put is
// a prefix.
use crate::play::{Failing, Played, play};
use sm_session::SessionEnd;
use sm_tree::NoMemory;
use std::alloc::Global;

/// The most calls of one object that are failed in turn.
const MOST_CALLS: u64 = 40;

// Whether a session with a fault ended so, or as the whole one, and put prefixes of what that put.
fn is_cut_short(said: &Played, whole: &Played, fault: SessionEnd) -> bool {
    let ends = said.end == fault || said.end == whole.end;
    ends && whole.answers.starts_with(&said.answers) && whole.requests.starts_with(&said.requests)
}

// Whether it is so with each of the four objects at its k-th call.
fn is_cut_short_at(
    alloc: Global,
    front: &[u8],
    back: &[u8],
    whole: &Played,
    call: u64,
) -> Result<bool, NoMemory> {
    let calm = Failing {
        front_in: 0,
        front_out: 0,
        back_in: 0,
        back_out: 0,
    };
    let said = play(
        alloc,
        front,
        back,
        &[],
        Failing {
            front_in: call,
            ..calm
        },
    )?;
    let front_read = is_cut_short(&said, whole, SessionEnd::FrontRead);
    let said = play(
        alloc,
        front,
        back,
        &[],
        Failing {
            front_out: call,
            ..calm
        },
    )?;
    let front_write = is_cut_short(&said, whole, SessionEnd::FrontWrite);
    let said = play(
        alloc,
        front,
        back,
        &[],
        Failing {
            back_in: call,
            ..calm
        },
    )?;
    let back_read = is_cut_short(&said, whole, SessionEnd::BackRead);
    let said = play(
        alloc,
        front,
        back,
        &[],
        Failing {
            back_out: call,
            ..calm
        },
    )?;
    let back_write = is_cut_short(&said, whole, SessionEnd::BackWrite);
    Ok(front_read && front_write && back_read && back_write)
}

/// Whether it is so for each k.
///
/// # Errors
///
/// `NoMemory`.
pub fn faults_cut_short(
    alloc: Global,
    front: &[u8],
    back: &[u8],
    whole: &Played,
) -> Result<bool, NoMemory> {
    for call in 1..=MOST_CALLS {
        if !is_cut_short_at(alloc, front, back, whole, call)? {
            return Ok(false);
        }
    }
    Ok(true)
}
