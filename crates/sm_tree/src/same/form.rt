// The canonical form of a tree: words, which hold the tree's own bytes by reference. Contracts see a form as a list of
// pairs, a number and bytes.
ghost use Rattle.std.specs.Prelude.{◌≡◌, ◌++◌, [], ◌∷◌, OnOk};

use crate::NoMemory;
use std::alloc::Global;
use std::cmp::Ordering;
use std::marker::Model;

pub const NULL: i128 = 0;

pub const BOOL: i128 = 1;

pub const INT: i128 = 2;

pub const NUMBER: i128 = 3;

pub const TEXT: i128 = 4;

pub const BYTES: i128 = 5;

pub const TAG: i128 = 6;

pub const OPAQUE: i128 = 7;

pub const LIST: i128 = 8;

pub const OBJECT: i128 = 9;
// Where the entries of a list or the pairs of an object end.
pub const END: i128 = 10;

pub const NAME: i128 = 11;

// What kind of part begins, or a number of the tree; and the bytes of a text, a number's text or a byte string.
#[derive(Clone, Copy, PartialEq, Eq, PartialOrd, Ord, Drop)]
struct Word<'a> {
    number: i128,
    bytes: &'a [u8],
}

// The words of a tree's parts, in the order of their parts.
#[derive(Drop)]
pub struct SameForm<'a> {
    words: Vec<Word<'a>>,
}

impl<'a> Model for SameForm<'a> {
    ghost use Rattle.std.specs.Prelude.{List, map};
    ghost use Rattle.sm_tree.specs.steps.Canonical.{Word as AWord};

    ghost Value = { List AWord };

    ghost view = { λ a. map (λ w. (w.number, w.bytes.now)) a.words.items };
}

impl<'a> SameForm<'a> {
    pub fn new(alloc: Global) -> Self
        ensures { result ≡ [] }
    {
        SameForm {
            words: Vec::new(alloc),
        }
    }

    pub fn push(&mut self, number: i128, bytes: &'a [u8]) -> Result<(), NoMemory>
        ensures { OnOk result (self.new ≡ self.old ++ (number, bytes.now) ∷ []) }
    {
        self.words.push(Word { number, bytes })?;
        Ok(())
    }

    // The word that says what a number is, and the number.
    #[tactic(auto, using(crate::proofs::SameViews::words_assoc))]
    pub fn push_number(&mut self, kind: i128, number: i128) -> Result<(), NoMemory>
        ensures { OnOk result (self.new ≡ self.old ++ (kind, []) ∷ (number, []) ∷ []) }
    {
        self.push(kind, &[])?;
        self.push(number, &[])
    }

    pub fn append(&mut self, other: &SameForm<'a>) -> Result<(), NoMemory>
        ensures { OnOk result (self.new ≡ self.old ++ other.now) }
    {
        self.words.extend_from_slice(other.words.as_slice())?;
        Ok(())
    }
}

impl PartialEq for SameForm<'_> {
    ghost use Rattle.std.specs.Ordering.{eq_by_cmp};
    ghost use Rattle.std.specs.Cmp.{partial_equiv_from_equiv};
    ghost use Rattle.std.proofs.lemmas.Cmp.{eq_by_cmp_equiv};
    ghost use Rattle.sm_tree.specs.steps.Canonical.{form_cmp};
    ghost use Rattle.sm_tree.specs.steps.FormOrder.{form_total};

    ghost eq = { eq_by_cmp form_cmp };

    ghost laws = { partial_equiv_from_equiv (eq_by_cmp_equiv form_total) };

    fn eq(&self, other: &Self) -> bool {
        self.cmp(other).is_eq()
    }
}

impl Eq for SameForm<'_> {
    ghost use Rattle.std.proofs.lemmas.Cmp.{eq_by_cmp_equiv};
    ghost use Rattle.sm_tree.specs.steps.FormOrder.{form_total};

    ghost laws = { eq_by_cmp_equiv form_total };
}

impl PartialOrd for SameForm<'_> {
    ghost use Rattle.std.specs.Prelude.{Some, refl};
    ghost use Rattle.std.specs.Cmp.{partial_order_from_agreeing_total};
    ghost use Rattle.sm_tree.specs.steps.Canonical.{form_cmp};
    ghost use Rattle.sm_tree.specs.steps.FormOrder.{form_total};

    ghost partial_cmp = { λ x y. Some (form_cmp x y) };

    ghost laws = { partial_order_from_agreeing_total form_cmp form_total (λ x y. refl) (λ x y. refl) };

    fn partial_cmp(&self, other: &Self) -> Option<Ordering> {
        Some(self.cmp(other))
    }
}

impl Ord for SameForm<'_> {
    ghost use Rattle.std.specs.Prelude.{refl};
    ghost use Rattle.sm_tree.specs.steps.Canonical.{form_cmp};
    ghost use Rattle.sm_tree.specs.steps.FormOrder.{form_total};

    ghost cmp = { form_cmp };

    ghost total = { form_total };

    ghost matches_partial_cmp = { λ x y. refl };

    ghost matches_eq = { λ x y. refl };

    #[tactic(auto, using(crate::proofs::SameViews::compared))]
    fn cmp(&self, other: &Self) -> Ordering {
        self.words.as_slice().cmp(other.words.as_slice())
    }
}
