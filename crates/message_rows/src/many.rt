// One message many times in a row, over random cuts.
use crate::cuts::random_cuts;
use crate::pieces::{MessageWay, read_once};
use crate::show::refusal_word;
use sm_http::{Held, HttpRefusal, Message, MessageSide};
use sm_io::{MemSource, Source};
use sm_tree::NoMemory;
use std::alloc::Global;

/// The most bytes of a cut.
const LONGEST: u64 = 150;

// How many messages a stream has, how many of them are as the first, and its refusal, if it has one.
fn count_same<S: Source>(
    alloc: Global,
    source: &mut S,
    side: MessageSide,
    way: MessageWay,
) -> Result<(u32, u32, Option<HttpRefusal>), NoMemory> {
    let mut held = Held::new(alloc);
    let mut first: Option<Message> = None;
    let (mut read, mut same): (u32, u32) = (0, 0);
    for _ in 0..u32::MAX {
        let message = match read_once(alloc, source, &mut held, side, way) {
            Ok(Some(message)) => message,
            Ok(None) => return Ok((read, same, None)),
            Err(HttpRefusal::NoMemory) => return Err(NoMemory),
            Err(refusal) => return Ok((read, same, Some(refusal))),
        };
        read = read.saturating_add(1);
        match &first {
            Some(first) => {
                if *first == message {
                    same = same.saturating_add(1);
                }
            }
            None => {
                same = 1;
                first = Some(message);
            }
        }
    }
    Ok((read, same, None))
}

fn show_counts(
    read: u32,
    same: u32,
    refusal: Option<HttpRefusal>,
    out: &mut String,
) -> Result<(), NoMemory> {
    write!(out, "{read} read, {same} as the first")?;
    if let Some(refusal) = refusal {
        write!(out, ", then {}", refusal_word(refusal))?;
    }
    Ok(())
}

/// Appends how many messages are read where bytes stand so many times in a row, and how many of them are as the first, over
/// cuts that begin with this seed.
///
/// # Errors
///
/// `NoMemory`.
pub fn show_many(
    alloc: Global,
    side: MessageSide,
    bytes: &[u8],
    seed: u64,
    count: u32,
    out: &mut String,
) -> Result<(), NoMemory> {
    let mut row = Vec::new(alloc);
    for _ in 0..count {
        row.extend_from_slice(bytes)?;
    }
    let cuts = random_cuts(alloc, seed, row.len(), LONGEST)?;
    let mut source = MemSource::new(row.clone()?, cuts.clone()?, Vec::new(alloc));
    let whole = count_same(alloc, &mut source, side, MessageWay::Whole)?;
    let mut source = MemSource::new(row, cuts, Vec::new(alloc));
    let pieces = count_same(alloc, &mut source, side, MessageWay::Pieces)?;
    if whole != pieces {
        return Ok(out.push_str("ways differ")?);
    }
    show_counts(whole.0, whole.1, whole.2, out)
}
