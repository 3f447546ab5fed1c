// Runs of characters of one byte that stand for themselves in a string, sixteen bytes at a time.
ghost use Rattle.std.specs.Prelude.{◌≡◌, ◌≤◌, length, map};
ghost use Rattle.std.specs.List.{prefix_len};
ghost use Rattle.std.specs.Simd.Lanes.{mask_l};
ghost use Rattle.sm_json.specs.steps.StringRuns.{is_unescaped_ascii, ends_ascii_run};

use crate::byte_form::Unescaped;
use sm_bytes::{ByteClass, run_len};
use std::simd::prelude::*;

// The characters of one byte that stand for themselves in a string.
pub(crate) struct UnescapedAscii;

impl ByteClass for UnescapedAscii {
    ghost use Rattle.sm_json.specs.steps.StringRuns.{is_unescaped_ascii};

    ghost holds = { is_unescaped_ascii };

    #[inline(always)]
    fn has(byte: u8) -> bool {
        byte < 0x80 && Unescaped::has(byte)
    }
}

// A bit for each byte at which such a run ends, the first byte's lowest. A byte outside of 0x20..0x80 is far up behind
// the subtraction.
#[inline(always)]
fn run_ends(bytes: u8x16) -> u64
    ensures { result ≡ mask_l (map ends_ascii_run bytes) }
{
    ((bytes - u8x16::splat(0x20)).simd_ge(u8x16::splat(0x60))
        | (bytes.simd_eq(u8x16::splat(b'"')) | bytes.simd_eq(u8x16::splat(b'\\')))).to_bitmask()
}

// How many such characters stand first.
#[inline(always)]
pub(crate) fn ascii_run_len(bytes: &[u8]) -> usize
    ensures run { result ≡ prefix_len is_unescaped_ascii bytes.now }
    ensures within { result ≤ length bytes.now }
{
    let mut at = 0;
    while bytes.len() - at >= 16 {
        let ends = run_ends(u8x16::from_slice(&bytes[at..]));
        if ends != 0 {
            return at + ends.trailing_zeros() as usize;
        }
        at += 16;
    }
    at + run_len::<UnescapedAscii>(&bytes[at..])
}
