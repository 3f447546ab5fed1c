// Writing into bytes that are there already, from a place on: the next place comes back, and what lies behind it stays as it
// was. A writer asks for its room once, by the length that it tells, and then places its bytes there.
ghost use Rattle.std.specs.Prelude.{◌≡◌, ◌+◌, ◌<◌, ◌≤◌, [], ◌∷◌, ◌++◌, length, take, drop, vec_len, vec_capacity, OnOk, OnErr, IsOk, IfOk};
ghost use Rattle.std.specs.Vec.{SameBlock};

use std::alloc::{AllocError, Global};
use std::mem;

/// Places one byte.
#[inline(always)]
pub fn place_byte(buf: &mut [u8], at: usize, byte: u8) -> usize
    requires room { at < length buf.old }
    ensures bytes { take result buf.new ≡ take at buf.old ++ byte ∷ [] }
    ensures next { result ≡ at + 1 }
    ensures after { drop result buf.new ≡ drop result buf.old }
{
    buf[at] = byte;
    at + 1
}

/// Places a slice of bytes.
#[inline(always)]
pub fn place_slice(buf: &mut [u8], at: usize, bytes: &[u8]) -> usize
    requires room { at + length bytes.now ≤ length buf.old }
    ensures bytes { take result buf.new ≡ take at buf.old ++ bytes.now }
    ensures next { result ≡ at + length bytes.now }
    ensures after { drop result buf.new ≡ drop result buf.old }
{
    let end = at + bytes.len();
    buf[at..end].copy_from_slice(bytes);
    end
}

// A vector owned, and not behind a reference, so that the loop becomes one fill.
fn lengthened(bytes: Vec<u8>, count: usize) -> Vec<u8>
    requires room { vec_len bytes + count ≤ vec_capacity bytes }
    ensures prefix { take (vec_len bytes) result.items ≡ bytes.items }
    ensures len { vec_len result ≡ vec_len bytes + count }
    ensures same_block { SameBlock bytes result }
{
    let mut bytes = bytes;
    for _ in 0..count {
        bytes.push_reserved(0);
    }
    bytes
}

/// Makes room for so many bytes at the end of a vector, and gives the place where it begins. The bytes there are zeros until
/// they are placed. `AllocError` where the allocator refuses the room, and then the vector is as before. Where the vector has the
/// room, no memory is taken.
pub fn make_room(alloc: Global, out: &mut Vec<u8>, len: usize) -> Result<usize, AllocError>
    ensures place { IfOk result (λ at. at ≡ length out.old.items) }
    ensures prefix { OnOk result (take (length out.old.items) out.new.items ≡ out.old.items) }
    ensures len { OnOk result (vec_len out.new ≡ vec_len out.old + len) }
    ensures unchanged { OnErr result (out.new.items ≡ out.old.items) }
    ensures succeeds { vec_len out.old + len ≤ vec_capacity out.old → IsOk result }
    ensures same_block { vec_len out.old + len ≤ vec_capacity out.old → SameBlock out.old out.new }
{
    if out.capacity() - out.len() < len {
        out.reserve(len)?;
    }
    let at = out.len();
    let bytes = mem::replace(out, Vec::new(alloc));
    *out = lengthened(bytes, len);
    Ok(at)
}
