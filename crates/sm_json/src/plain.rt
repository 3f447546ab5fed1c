// Whether a text needs no escape, many bytes at once. Two loads that overlap cover a short text.
ghost use Rattle.std.specs.Prelude.{◌≡◌, ◌+◌, ◌≤◌, length};
ghost use Rattle.std.specs.Bool.{OnTrue};
ghost use Rattle.sm_json.specs.steps.Placing.{IsPlainBetween};
ghost use Rattle.sm_json.specs.Written.{written_bytes};

use std::simd::prelude::*;

#[inline(always)]
fn plain_4(text: &[u8], at: usize) -> bool
    requires { at + 4 ≤ length text.now }
    ensures { OnTrue result (IsPlainBetween text.now at (at + 4)) }
{
    let bytes = u8x4::from_slice(&text[at..]);
    (bytes.simd_lt(u8x4::splat(0x20))
        | (bytes.simd_eq(u8x4::splat(b'"')) | bytes.simd_eq(u8x4::splat(b'\\')))).to_bitmask()
        == 0
}

#[inline(always)]
fn plain_8(text: &[u8], at: usize) -> bool
    requires { at + 8 ≤ length text.now }
    ensures { OnTrue result (IsPlainBetween text.now at (at + 8)) }
{
    let bytes = u8x8::from_slice(&text[at..]);
    (bytes.simd_lt(u8x8::splat(0x20))
        | (bytes.simd_eq(u8x8::splat(b'"')) | bytes.simd_eq(u8x8::splat(b'\\')))).to_bitmask()
        == 0
}

#[inline(always)]
fn plain_16(text: &[u8], at: usize) -> bool
    requires { at + 16 ≤ length text.now }
    ensures { OnTrue result (IsPlainBetween text.now at (at + 16)) }
{
    let bytes = u8x16::from_slice(&text[at..]);
    (bytes.simd_lt(u8x16::splat(0x20))
        | (bytes.simd_eq(u8x16::splat(b'"')) | bytes.simd_eq(u8x16::splat(b'\\')))).to_bitmask()
        == 0
}

// Fewer than four bytes.
#[inline(always)]
fn plain_few(text: &[u8]) -> bool
    ensures { OnTrue result (IsPlainBetween text.now 0 (length text.now)) }
{
    for &byte in text {
        if byte < 0x20 || byte == b'"' || byte == b'\\' {
            return false;
        }
    }
    true
}

fn plain_long(text: &[u8]) -> bool
    requires { 16 ≤ length text.now }
    ensures { OnTrue result (IsPlainBetween text.now 0 (length text.now)) }
{
    let mut at = 0;
    while text.len() - at > 16 {
        if !plain_16(text, at) {
            return false;
        }
        at += 16;
    }
    plain_16(text, text.len() - 16)
}

#[inline(always)]
fn plain_short(text: &[u8]) -> bool
    requires { length text.now ≤ 16 }
    ensures { OnTrue result (IsPlainBetween text.now 0 (length text.now)) }
{
    let len = text.len();
    if len >= 8 {
        plain_8(text, 0) && plain_8(text, len - 8)
    } else if len >= 4 {
        plain_4(text, 0) && plain_4(text, len - 4)
    } else {
        plain_few(text)
    }
}

// Where it answers `true` the text stands for itself. `false` says nothing, and costs time alone.
#[inline(always)]
pub(crate) fn is_plain(text: &[u8]) -> bool
    ensures { OnTrue result (written_bytes text.now ≡ text.now) }
{
    if text.len() < 16 {
        plain_short(text)
    } else {
        plain_long(text)
    }
}
