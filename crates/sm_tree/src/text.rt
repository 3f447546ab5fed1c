// The leaves of a tree that own memory: texts, and strings of bytes. Contracts see both as lists of bytes.
ghost use Rattle.std.specs.Prelude.{◌≡◌, ◌≤◌, ◌↔◌, length, take, IsOk, IsSome, IfOk, IfSome, IsAscii, IsUtf8, string_bytes};
ghost use Rattle.sm_tree.specs.Limits.{short_len};

mod short;

use crate::NoMemory;
pub use short::SHORT_LEN;
use short::ShortText;
use std::alloc::Global;
use std::fmt;
use std::marker::Model;

/// A text in UTF-8. One of at most `SHORT_LEN` bytes may lie in the value itself. Contracts see its bytes.
#[derive(Drop)]
pub struct Text {
    form: TextForm,
}

// Where the bytes of a text are.
#[derive(Drop)]
enum TextForm {
    // In the value itself.
    Short(ShortText),
    // In memory of their own.
    Long(String),
}

impl Model for Text {
    ghost use Rattle.std.specs.Prelude.{List, ℕ};
    ghost use Rattle.sm_tree.specs.TextView.{bytes_of};

    ghost Value = { List ℕ };

    ghost view = { λ a. bytes_of a.form };
}

impl Text {
    /// The text that a string holds. No memory.
    pub fn new(text: String) -> Self
        ensures bytes { result ≡ string_bytes text }
        ensures utf8 { IsUtf8 result }
    {
        Text {
            form: TextForm::Long(text),
        }
    }

    /// A copy of a text. One of at most `SHORT_LEN` bytes is never refused, and lies in the value; a longer one takes as much
    /// memory as its length.
    pub fn copy(alloc: Global, text: &str) -> Result<Self, NoMemory>
        ensures bytes { IfOk result (λ copy. copy ≡ text.now) }
        ensures utf8 { IfOk result (λ copy. IsUtf8 copy) }
        ensures short { length text.now ≤ short_len → IsOk result }
    {
        let form = match ShortText::copy(text) {
            Some(short) => TextForm::Short(short),
            None => TextForm::Long(String::from_str(alloc, text)?),
        };
        Ok(Text { form })
    }

    /// The text that a prefix of some bytes is, where that is seen at a glance: where it has at most `SHORT_LEN` bytes, which
    /// are ASCII, and the bytes are no fewer than `SHORT_LEN`. None says nothing: another prefix may be a text too. No memory.
    #[inline(always)]
    pub fn short_prefix(bytes: &[u8], len: usize) -> Option<Self>
        ensures some { IsSome result ↔ ((len ≤ short_len) × (short_len ≤ length bytes.now) × IsAscii (take len bytes.now)) }
        ensures bytes { IfSome result (λ text. text ≡ take len bytes.now) }
        ensures utf8 { IfSome result (λ text. IsUtf8 text) }
    {
        let short = ShortText::short_prefix(bytes, len)?;
        Some(Text {
            form: TextForm::Short(short),
        })
    }

    /// The text. No memory.
    pub fn as_str(&self) -> &str
        ensures bytes { result.now ≡ self.now }
        ensures utf8 { IsUtf8 self.now }
    {
        match &self.form {
            TextForm::Short(text) => text.as_str(),
            TextForm::Long(text) => text.as_str(),
        }
    }
}

impl fmt::Debug for Text {
    fn fmt<W: fmt::Write>(&self, f: &mut fmt::Formatter<W>) -> fmt::Result {
        f.debug_struct("Text")
            .field("text", &self.as_str())
            .finish()
    }
}

impl PartialEq for Text {
    ghost use Rattle.std.specs.Prelude.{nat_eq};
    ghost use Rattle.std.specs.Cmp.Lexicographic.{pointwise};
    ghost use Rattle.std.specs.Cmp.{partial_equiv_from_equiv};
    ghost use Rattle.std.proofs.lemmas.Cmp.{nat_list_eq_equiv};

    ghost eq = { pointwise nat_eq };

    ghost laws = { partial_equiv_from_equiv nat_list_eq_equiv };

    fn eq(&self, other: &Self) -> bool {
        self.as_str() == other.as_str()
    }
}

impl Eq for Text {
    ghost use Rattle.std.proofs.lemmas.Cmp.{nat_list_eq_equiv};

    ghost laws = { nat_list_eq_equiv };
}

/// A string of bytes. Contracts see the bytes.
#[derive(Debug, Drop)]
pub struct Bytes {
    bytes: Vec<u8>,
}

impl Model for Bytes {
    ghost use Rattle.std.specs.Prelude.{List, ℕ};

    ghost Value = { List ℕ };

    ghost view = { λ a. a.bytes.items };
}

impl Bytes {
    /// The bytes that a vector holds. No memory.
    pub fn new(bytes: Vec<u8>) -> Self
        ensures { result ≡ bytes.items }
    {
        Bytes { bytes }
    }

    /// The vector, which keeps its memory.
    pub fn into_inner(self) -> Vec<u8>
        ensures { result.items ≡ self }
    {
        self.bytes
    }

    /// The bytes. No memory.
    pub fn as_slice(&self) -> &[u8]
        ensures { result.now ≡ self.now }
    {
        self.bytes.as_slice()
    }
}

impl PartialEq for Bytes {
    ghost use Rattle.std.specs.Prelude.{nat_eq};
    ghost use Rattle.std.specs.Cmp.Lexicographic.{pointwise};
    ghost use Rattle.std.specs.Cmp.{partial_equiv_from_equiv};
    ghost use Rattle.std.proofs.lemmas.Cmp.{nat_list_eq_equiv};

    ghost eq = { pointwise nat_eq };

    ghost laws = { partial_equiv_from_equiv nat_list_eq_equiv };

    fn eq(&self, other: &Self) -> bool {
        self.bytes.as_slice() == other.bytes.as_slice()
    }
}

impl Eq for Bytes {
    ghost use Rattle.std.proofs.lemmas.Cmp.{nat_list_eq_equiv};

    ghost laws = { nat_list_eq_equiv };
}
