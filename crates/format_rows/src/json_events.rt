// JSON texts by events: with which byte each event comes, and what is read of a text in pieces.
ghost use Rattle.std.specs.Prelude.{◌≡◌, ◌<◌, ℕ, List, None, OnOk};
ghost use Rattle.sm_json.specs.Stands.{JsonStands, refusal_of};

use crate::show::show_refusal;
use crate::shown::Shown;
use crate::trees::is_same_reading;
use sm_json::JsonReader;
use sm_tree::{NoMemory, SyntaxRefusal, Tree, TreeBuilder};
use std::alloc::Global;

/// The longest pieces that a text is cut into.
const LONGEST_PIECE: usize = 100;

// One byte of a text.
fn feed_byte(reader: &mut JsonReader, byte: u8, shown: &mut Shown) -> Result<(), SyntaxRefusal>
    requires fresh { refusal_of reader.old ≡ None }
    requires stands { (bytes : List ℕ) × JsonStands reader.old bytes }
    ensures fresh { OnOk result (refusal_of reader.new ≡ None) }
    ensures stands { OnOk result ((bytes : List ℕ) × JsonStands reader.new bytes) }
{
    reader.feed(&[byte], shown)
}

// All bytes of a text, one after the other, and its end.
fn feed_bytes(reader: &mut JsonReader, bytes: &[u8], shown: &mut Shown) -> Result<(), SyntaxRefusal>
    requires fresh { refusal_of reader.old ≡ None }
    requires stands { (bytes : List ℕ) × JsonStands reader.old bytes }
{
    for byte in bytes {
        shown.next_byte()?;
        feed_byte(reader, *byte, shown)?;
    }
    shown.next_byte()?;
    reader.flush(shown)?;
    reader.end()
}

/// Appends the events of a text as they come, with a bar before those of each further byte and of the end, and whether the one
/// event is that of `null`.
pub fn json_events(alloc: Global, bytes: &[u8], out: &mut String) -> Result<(), NoMemory> {
    let mut reader = JsonReader::new(alloc);
    let mut shown = Shown::new(alloc);
    let end = feed_bytes(&mut reader, bytes, &mut shown);
    out.push_str(shown.text())?;
    match end {
        Ok(()) => {}
        Err(refusal) => {
            out.push(' ')?;
            show_refusal(refusal, out)?;
        }
    }
    if reader.is_null() {
        out.push_str(" null alone")?;
    }
    Ok(())
}

// The tree of a text that comes in pieces of this length.
fn read_in_pieces(alloc: Global, bytes: &[u8], len: usize) -> Result<Tree, SyntaxRefusal>
    requires { 0 < len }
{
    let mut reader = JsonReader::new(alloc);
    let mut builder = TreeBuilder::new(alloc);
    let mut at = 0;
    while at < bytes.len() {
        let next = at + len.min(bytes.len() - at);
        reader.feed(&bytes[at..next], &mut builder)?;
        at = next;
    }
    reader.flush(&mut builder)?;
    reader.end()?;
    Ok(builder.finish())
}

/// Whether a text is read so in pieces of any one length, up to `LONGEST_PIECE`.
pub fn is_read_in_pieces(
    alloc: Global,
    bytes: &[u8],
    answer: &Result<Tree, SyntaxRefusal>,
) -> bool {
    for shorter in 0..bytes.len().min(LONGEST_PIECE) {
        if !is_same_reading(&read_in_pieces(alloc, bytes, shorter + 1), answer) {
            return false;
        }
    }
    true
}
