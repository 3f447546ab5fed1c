// Items of CBOR by events: with which byte each event comes, and what is read of an item in two pieces.
ghost use Rattle.std.specs.Prelude.{ℕ, List, OnOk};
ghost use Rattle.sm_cbor.specs.Stands.{CborStands};

use crate::show::show_refusal;
use crate::shown::Shown;
use crate::trees::is_same_reading;
use sm_cbor::CborReader;
use sm_cbor::readers::read_in_pieces;
use sm_tree::{NoMemory, SyntaxRefusal, Tree};
use std::alloc::Global;

// One byte of an item.
fn feed_byte(reader: &mut CborReader, byte: u8, shown: &mut Shown) -> Result<(), SyntaxRefusal>
    requires { (bytes : List ℕ) × CborStands reader.old bytes }
    ensures { OnOk result ((bytes : List ℕ) × CborStands reader.new bytes) }
{
    reader.feed(&[byte], shown)
}

// All bytes of an item, one after the other, and its end.
fn feed_bytes(reader: &mut CborReader, bytes: &[u8], shown: &mut Shown) -> Result<(), SyntaxRefusal>
    requires { (bytes : List ℕ) × CborStands reader.old bytes }
{
    for byte in bytes {
        shown.next_byte()?;
        feed_byte(reader, *byte, shown)?;
    }
    reader.end()
}

/// Appends the events of an item as they come, with a bar before those of each further byte.
pub fn cbor_events(alloc: Global, bytes: &[u8], out: &mut String) -> Result<(), NoMemory> {
    let mut reader = CborReader::new(alloc);
    let mut shown = Shown::new(alloc);
    let end = feed_bytes(&mut reader, bytes, &mut shown);
    out.push_str(shown.text())?;
    match end {
        Ok(()) => Ok(()),
        Err(refusal) => {
            out.push(' ')?;
            show_refusal(refusal, out)
        }
    }
}

/// Whether an item is read so wherever it is cut into two pieces.
pub fn is_read_in_pieces(
    alloc: Global,
    bytes: &[u8],
    answer: &Result<Tree, SyntaxRefusal>,
) -> bool {
    for cut in 0..bytes.len() {
        if !is_same_reading(&read_in_pieces(alloc, bytes, cut), answer) {
            return false;
        }
    }
    true
}
