// The answer to each case.
ghost use Rattle.std.specs.Prelude.{◌<◌, All};

use crate::asked::show_asked;
use crate::cuts::{cut_in_two, random_cuts, single_bytes};
use crate::given::given;
use crate::many::show_many;
use crate::pieces::MessageWay;
use crate::prefixes::show_prefixes;
use crate::question::{StreamAsked, question_of};
use crate::stream::read_stream;
use sm_http::MessageSide;
use sm_io::MemSource;
use sm_tree::NoMemory;
use std::alloc::Global;

/// The most takes of one byte, before all that is left comes at once.
const SINGLES: usize = 5_000;

/// The most bytes of a case that is also cut in two at each place, and failed at each take.
const SHORT: usize = 600;

// What is asked of the bytes of a stream.
#[derive(Clone, Copy, Drop)]
struct Asking<'a> {
    bytes: &'a [u8],
    side: MessageSide,
    // how many messages are read at most
    most: u32,
}

// What is read in one way from a source of these cuts, whose takes of these numbers fail.
fn read_so(
    alloc: Global,
    asking: Asking<'_>,
    way: MessageWay,
    cuts: Vec<u64>,
    failing: Vec<u64>,
) -> Result<String, NoMemory>
    requires { All (λ cut. 0 < cut) cuts.items }
{
    let mut source = MemSource::new(asking.bytes.to_vec(alloc)?, cuts, failing);
    read_stream(alloc, &mut source, asking.side, way, asking.most)
}

// Whether a stream is read so in both ways, over these cuts.
fn is_read_over(
    alloc: Global,
    asking: Asking<'_>,
    said: &str,
    cuts: Vec<u64>,
) -> Result<bool, NoMemory>
    requires { All (λ cut. 0 < cut) cuts.items }
{
    let none = Vec::new(alloc);
    let whole = read_so(alloc, asking, MessageWay::Whole, cuts.clone()?, none)?;
    let pieces = read_so(alloc, asking, MessageWay::Pieces, cuts, Vec::new(alloc))?;
    Ok(whole.as_str() == said && pieces.as_str() == said)
}

// Whether a short stream is read so where it is cut in two, at whichever place.
fn is_read_in_two(alloc: Global, asking: Asking<'_>, said: &str) -> Result<bool, NoMemory> {
    for at in 1..asking.bytes.len() {
        if !is_read_over(alloc, asking, said, cut_in_two(alloc, at)?)? {
            return Ok(false);
        }
    }
    Ok(true)
}

// Whether what is said of a stream that fails behind some bytes is what is said of these alone, with `ReadFault` in the place of
// their end. So nothing behind a message's last byte was asked for.
fn is_cut_off(failed: &str, alone: &str) -> bool {
    let last = match alone.rsplit_once(" | ") {
        Some((_front, last)) => last,
        None => alone,
    };
    if !(last == "none" || last == "Ended" || last.starts_with("left ")) {
        return failed == alone;
    }
    match (failed.strip_suffix("ReadFault"), alone.strip_suffix(last)) {
        (Some(failed), Some(alone)) => failed == alone,
        _ => false,
    }
}

// What is read in one way from a source that gives single bytes, and whose take of this number fails.
fn read_up_to(
    alloc: Global,
    asking: Asking<'_>,
    way: MessageWay,
    call: usize,
) -> Result<String, NoMemory> {
    let cuts = single_bytes(alloc, asking.bytes.len())?;
    let failing = vec![in alloc; call as u64]?;
    read_so(alloc, asking, way, cuts, failing)
}

// Whether a short stream whose k-th take fails is read as the bytes before it, for each k up to one behind the last byte.
fn is_read_in_part(alloc: Global, asking: Asking<'_>) -> Result<bool, NoMemory> {
    for given in 0..=asking.bytes.len() {
        let before = Asking {
            bytes: &asking.bytes[..given],
            side: asking.side,
            most: asking.most,
        };
        let alone = read_so(
            alloc,
            before,
            MessageWay::Whole,
            Vec::new(alloc),
            Vec::new(alloc),
        )?;
        let whole = read_up_to(alloc, asking, MessageWay::Whole, given + 1)?;
        let pieces = read_up_to(alloc, asking, MessageWay::Pieces, given + 1)?;
        if !(is_cut_off(&whole, &alone) && is_cut_off(&pieces, &alone)) {
            return Ok(false);
        }
    }
    Ok(true)
}

// Appends what is read from a stream, if all ways of reading it agree.
fn show_stream(alloc: Global, asking: Asking<'_>, out: &mut String) -> Result<(), NoMemory> {
    let said = read_so(
        alloc,
        asking,
        MessageWay::Whole,
        Vec::new(alloc),
        Vec::new(alloc),
    )?;
    let len = asking.bytes.len();
    let mut agrees = is_read_over(alloc, asking, &said, Vec::new(alloc))?
        && is_read_over(alloc, asking, &said, single_bytes(alloc, len.min(SINGLES))?)?
        && is_read_over(
            alloc,
            asking,
            &said,
            random_cuts(alloc, 1, len.min(SINGLES), 40)?,
        )?;
    if agrees && len <= SHORT {
        agrees = is_read_in_two(alloc, asking, &said)? && is_read_in_part(alloc, asking)?;
    }
    out.push_str(if agrees { &said } else { "ways differ" })?;
    Ok(())
}

/// Appends the answer to a case.
///
/// # Errors
///
/// `NoMemory`.
pub fn answer_to(alloc: Global, row: &str, out: &mut String) -> Result<(), NoMemory> {
    let Some((question, text)) = question_of(row) else {
        return Ok(out.push_str("no case")?);
    };
    let Some(bytes) = given(alloc, text)? else {
        return Ok(out.push_str("no bytes")?);
    };
    let side = question.side;
    match question.asked {
        StreamAsked::One => show_stream(
            alloc,
            Asking {
                bytes: &bytes,
                side,
                most: 1,
            },
            out,
        ),
        StreamAsked::All => show_stream(
            alloc,
            Asking {
                bytes: &bytes,
                side,
                most: u32::MAX,
            },
            out,
        ),
        StreamAsked::Prefixes => show_prefixes(alloc, side, &bytes, out),
        StreamAsked::Many { seed, count } => show_many(alloc, side, &bytes, seed, count, out),
        StreamAsked::Message(asked) => show_asked(alloc, side, &bytes, asked, out),
    }
}
