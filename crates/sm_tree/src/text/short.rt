// Texts of few bytes, which lie in a value of one size. `Text` keeps most names so.
ghost use Rattle.std.specs.Prelude.{◌≡◌, ◌≤◌, ◌↔◌, length, take, IsTrue, IsSome, IfSome, IsAscii, IsUtf8};
ghost use Rattle.sm_tree.specs.Limits.{short_len};

use std::marker::Model;
use std::str;

/// The most bytes of a text that lies in its value. Most names have no more, and a value with room for more would be larger
/// than one that keeps a string.
pub const SHORT_LEN: usize = 16;

/// A text in UTF-8 of at most `SHORT_LEN` bytes.
#[derive(Drop)]
pub struct ShortText {
    // How many of the bytes are the text's.
    len: usize,
    // The text's bytes, and behind them any.
    bytes: [u8; SHORT_LEN],
    pub ghost fits: { len ≤ short_len },
    pub ghost utf8: { ∥ IsUtf8 (take len bytes) ∥₁ },
}

impl Model for ShortText {
    ghost use Rattle.std.specs.Prelude.{List, ℕ, take};

    ghost Value = { List ℕ };

    ghost view = { λ text. take text.len text.bytes };
}

// Whether the first `len` bytes are ASCII. Every byte is looked at, and `len` is a byte as they are, so that the compiler
// can make vector code of it.
#[inline(always)]
fn is_ascii_prefix(bytes: &[u8; SHORT_LEN], len: u8) -> bool
    requires { len ≤ short_len }
    ensures ascii { IsTrue result ↔ IsAscii (take len bytes.now) }
    ensures utf8 { IsTrue result → IsUtf8 (take len bytes.now) }
{
    let mut ascii = true;
    for at in 0..SHORT_LEN as u8 {
        ascii &= (at >= len) | (bytes[at as usize] < 128);
    }
    ascii
}

impl ShortText {
    /// A copy of a text. None where it has more than `SHORT_LEN` bytes.
    pub fn copy(text: &str) -> Option<Self>
        ensures some { IsSome result ↔ (length text.now ≤ short_len) }
        ensures bytes { IfSome result (λ copy. copy ≡ text.now) }
    {
        let len = text.len();
        if len > SHORT_LEN {
            return None;
        }
        let mut bytes = [0; SHORT_LEN];
        bytes[..len].copy_from_slice(text.as_bytes());
        Some(ShortText { len, bytes })
    }

    /// The text that a prefix of some bytes is, where that is seen at a glance: where it is ASCII and short enough, and where
    /// `SHORT_LEN` bytes are at hand, which are copied all.
    #[inline(always)]
    pub fn short_prefix(bytes: &[u8], len: usize) -> Option<Self>
        ensures some { IsSome result ↔ ((len ≤ short_len) × (short_len ≤ length bytes.now) × IsAscii (take len bytes.now)) }
        ensures bytes { IfSome result (λ text. text ≡ take len bytes.now) }
        ensures utf8 { IfSome result (λ text. IsUtf8 text) }
    {
        if len > SHORT_LEN || bytes.len() < SHORT_LEN {
            return None;
        }
        let mut all = [0; SHORT_LEN];
        all.copy_from_slice(&bytes[..SHORT_LEN]);
        if is_ascii_prefix(&all, len as u8) {
            Some(ShortText { len, bytes: all })
        } else {
            None
        }
    }

    /// The text.
    pub fn as_str(&self) -> &str
        ensures bytes { result.now ≡ self.now }
        ensures utf8 { IsUtf8 self.now }
    {
        unsafe { str::from_utf8_unchecked(&self.bytes[..self.len]) }
    }
}
