// Keys of a map that is open, and what is kept of the map.
ghost use Rattle.std.specs.Prelude.{◌≡◌, IfOk, IsUtf8};

use sm_shapes::Fault;
use sm_shapes::values::Value;
use sm_tree::{NoMemory, Text};
use std::alloc::Global;
use std::cmp::Ordering;
use std::collections::BTreeMap;
use std::marker::Model;

/// A key of a map. Contracts see its bytes, by which keys are compared.
#[derive(Debug, Drop)]
pub struct Key {
    text: Text,
}

impl Model for Key {
    ghost use Rattle.std.specs.Prelude.{List, ℕ};

    ghost Value = { List ℕ };

    ghost view = { λ a. a.text };
}

impl Key {
    /// A copy of a key.
    pub(crate) fn copy(alloc: Global, key: &str) -> Result<Self, NoMemory>
        ensures { IfOk result (λ copy. copy ≡ key.now) }
    {
        match Text::copy(alloc, key) {
            Ok(text) => Ok(Key { text }),
            Err(refusal) => Err(refusal),
        }
    }

    /// The key. No memory.
    pub(crate) fn as_str(&self) -> &str
        ensures bytes { result.now ≡ self.now }
        ensures utf8 { IsUtf8 self.now }
    {
        self.text.as_str()
    }

    /// The text. No memory.
    pub(crate) fn into_text(self) -> Text
        ensures { result ≡ self }
    {
        self.text
    }
}

impl PartialEq for Key {
    ghost use Rattle.std.specs.Prelude.{nat_eq};
    ghost use Rattle.std.specs.Cmp.Lexicographic.{pointwise};
    ghost use Rattle.std.specs.Cmp.{partial_equiv_from_equiv};
    ghost use Rattle.std.proofs.lemmas.Cmp.{nat_list_eq_equiv};

    ghost eq = { pointwise nat_eq };

    ghost laws = { partial_equiv_from_equiv nat_list_eq_equiv };

    fn eq(&self, other: &Self) -> bool {
        self.as_str() == other.as_str()
    }
}

impl Eq for Key {
    ghost use Rattle.std.proofs.lemmas.Cmp.{nat_list_eq_equiv};

    ghost laws = { nat_list_eq_equiv };
}

impl PartialOrd for Key {
    ghost use Rattle.std.specs.Prelude.{Some};
    ghost use Rattle.std.specs.Ordering.{nat_cmp};
    ghost use Rattle.std.specs.Cmp.Lexicographic.{slice_cmp, texts_po};

    ghost partial_cmp = { λ a b. Some (slice_cmp nat_cmp a b) };

    ghost laws = { texts_po };

    fn partial_cmp(&self, other: &Self) -> Option<Ordering> {
        Some(self.cmp(other))
    }
}

impl Ord for Key {
    ghost use Rattle.std.specs.Prelude.{refl};
    ghost use Rattle.std.specs.Ordering.{nat_cmp};
    ghost use Rattle.std.specs.Cmp.Lexicographic.{slice_cmp, texts_ties};
    ghost use Rattle.std.proofs.lemmas.Cmp.{nat_list_cmp_total};

    ghost cmp = { slice_cmp nat_cmp };

    ghost total = { nat_list_cmp_total };

    ghost matches_partial_cmp = { λ a b. refl };

    ghost matches_eq = { texts_ties };

    fn cmp(&self, other: &Self) -> Ordering {
        self.as_str().cmp(other.as_str())
    }
}

/// A map that is open.
#[derive(Drop)]
pub struct KeyFrame {
    /// The number of its shape.
    pub shape: u32,
    /// The keys that are closed, with their values where they have no fault.
    pub keys: BTreeMap<Key, Option<Value>>,
    /// The key whose value isn't closed yet.
    pub current: Option<Key>,
    /// The fault of the first closed key that has one, its path from here on.
    pub fault: Option<Fault>,
}
