// A shape id that owns its printed text. Maps and sorted lists of shapes are keyed by it.
ghost use Rattle.std.specs.Prelude.{◌≡◌, ◌-◌, ◌^◌, ◌++◌, IfOk, OnOk, length, min, string_bytes};
ghost use Rattle.std.specs.Option.{option_copied};
ghost use Rattle.std.specs.Ordering.{nat_cmp};
ghost use Rattle.std.specs.Cmp.Lexicographic.{slice_cmp};
ghost use Rattle.sm_ids.specs.Identifier.{IsIdentifier, IsNamespace};
ghost use Rattle.sm_ids.specs.IdText.{member_text, printed, IdText, IsShapeId};
ghost use Rattle.sm_ids.specs.TextParts.{absolute_id, member_id};
ghost use Rattle.sm_ids.specs.View.{id_of};

use crate::id::ShapeIdRef;
use crate::refusal::NoMemory;
use crate::scan::Ends;
use std::alloc::Global;
use std::cmp::Ordering;
use std::fmt;
use std::marker::Model;

/// A shape id that owns its text (Smithy 2.0, "Shape ID"). Contracts see the printed text, by whose bytes
/// ids are compared.
#[derive(Debug, Drop)]
pub struct ShapeId {
    /// The printed text.
    text: String,
    /// Where its parts end.
    ends: Ends,
}

impl Model for ShapeId {
    ghost use Rattle.std.specs.Prelude.{List, ℕ, string_bytes};
    ghost use Rattle.sm_ids.specs.steps.Parts.{HasParts};

    ghost Value = { List ℕ };

    ghost view = { λ a. string_bytes a.text };

    ghost invariant = { λ a. HasParts (string_bytes a.text) a.ends };
}

impl ShapeId {
    /// A copy of an id. `NoMemory` where its text finds no room.
    pub fn new(alloc: Global, id: &ShapeIdRef<'_>) -> Result<Self, NoMemory>
        ensures { IfOk result (λ copy. copy ≡ printed (id_of id.now)) }
    {
        let mut text = String::with_capacity(alloc, printed_len(id))?;
        text.push_str(id.namespace)?;
        let namespace = text.len();
        text.push('#')?;
        text.push_str(id.name)?;
        let name = text.len();
        push_member(&mut text, id.member)?;
        Ok(ShapeId {
            text,
            ends: Ends { namespace, name },
        })
    }

    /// The id of a shape, put together from its namespace and its name. `NoMemory` where its text finds no room.
    pub fn in_namespace<'x>(
        alloc: Global,
        namespace: &'x str,
        name: &'x str,
    ) -> Result<Self, NoMemory>
        requires namespace { IsNamespace namespace.now }
        requires name { IsIdentifier name.now }
        ensures { IfOk result (λ id. id ≡ absolute_id namespace.now name.now) }
    {
        let id = ShapeIdRef {
            namespace,
            name,
            member: None,
        };
        ShapeId::new(alloc, &id)
    }

    /// The id of a member of this shape, put together from the parts of the shape's id. `NoMemory` where its text finds no room.
    pub fn with_member(&self, alloc: Global, name: &str) -> Result<Self, NoMemory>
        requires shape { IsShapeId self.now }
        requires name { IsIdentifier name.now }
        ensures { IfOk result (λ id. id ≡ member_id self.now name.now) }
    {
        let shape = self.as_ref();
        let id = ShapeIdRef {
            namespace: shape.namespace,
            name: shape.name,
            member: Some(name),
        };
        ShapeId::new(alloc, &id)
    }

    /// The id, borrowed. No memory.
    pub fn as_ref(&self) -> ShapeIdRef<'_>
        ensures { IdText (id_of result) self.now }
    {
        ShapeIdRef::cut(self.as_str(), self.ends)
    }

    /// The printed text. No memory.
    pub fn as_str(&self) -> &str
        ensures { result.now ≡ self.now }
    {
        self.text.as_str()
    }

    /// The order of an owned id and a borrowed one, by the bytes of their printed texts. No memory: sorted ids are
    /// searched for a borrowed one with it.
    pub fn compare(&self, other: &ShapeIdRef<'_>) -> Ordering
        ensures { result ≡ slice_cmp nat_cmp self.now (printed (id_of other.now)) }
    {
        self.as_ref().compare(other)
    }
}

// Appends a member's name and the `$` before it.
fn push_member(text: &mut String, member: Option<&str>) -> Result<(), NoMemory>
    ensures { OnOk result (string_bytes text.new ≡ string_bytes text.old ++ member_text (option_copied member.entry)) }
{
    if let Some(member) = member {
        text.push('$')?;
        text.push_str(member)?;
    }
    Ok(())
}

// How many bytes `push_member` appends, at most the greatest number of 64 bits.
fn member_len(member: Option<&str>) -> usize
    ensures { result ≡ min (length (member_text (option_copied member.entry))) (2 ^ 64 - 1) }
{
    match member {
        Some(member) => member.len().saturating_add(1),
        None => 0,
    }
}

// How many bytes the printed text has, at most the greatest number of 64 bits.
#[tactic(auto, using(crate::proofs::Parting::printed_length))]
fn printed_len(id: &ShapeIdRef<'_>) -> usize
    ensures { result ≡ min (length (printed (id_of id.now))) (2 ^ 64 - 1) }
{
    id.namespace
        .len()
        .saturating_add(1)
        .saturating_add(id.name.len())
        .saturating_add(member_len(id.member))
}

impl PartialEq for ShapeId {
    ghost use Rattle.std.specs.Prelude.{nat_eq};
    ghost use Rattle.std.specs.Cmp.Lexicographic.{pointwise};
    ghost use Rattle.std.specs.Cmp.{partial_equiv_from_equiv};
    ghost use Rattle.std.proofs.lemmas.Cmp.{nat_list_eq_equiv};

    ghost eq = { pointwise nat_eq };

    ghost laws = { partial_equiv_from_equiv nat_list_eq_equiv };

    fn eq(&self, other: &Self) -> bool {
        self.as_str() == other.as_str()
    }
}

impl Eq for ShapeId {
    ghost use Rattle.std.proofs.lemmas.Cmp.{nat_list_eq_equiv};

    ghost laws = { nat_list_eq_equiv };
}

impl PartialOrd for ShapeId {
    ghost use Rattle.std.specs.Prelude.{Some};
    ghost use Rattle.std.specs.Ordering.{nat_cmp};
    ghost use Rattle.std.specs.Cmp.Lexicographic.{slice_cmp, texts_po};

    ghost partial_cmp = { λ a b. Some (slice_cmp nat_cmp a b) };

    ghost laws = { texts_po };

    fn partial_cmp(&self, other: &Self) -> Option<Ordering> {
        Some(self.cmp(other))
    }
}

impl Ord for ShapeId {
    ghost use Rattle.std.specs.Prelude.{refl};
    ghost use Rattle.std.specs.Ordering.{nat_cmp};
    ghost use Rattle.std.specs.Cmp.Lexicographic.{slice_cmp, texts_ties};
    ghost use Rattle.std.proofs.lemmas.Cmp.{nat_list_cmp_total};

    ghost cmp = { slice_cmp nat_cmp };

    ghost total = { nat_list_cmp_total };

    ghost matches_partial_cmp = { λ a b. refl };

    ghost matches_eq = { texts_ties };

    fn cmp(&self, other: &Self) -> Ordering {
        self.as_str().cmp(other.as_str())
    }
}

impl fmt::Display for ShapeId {
    ghost use Rattle.std.specs.Prelude.{Some};

    ghost output = { λ id. Some id };

    fn fmt<W: fmt::Write>(&self, f: &mut fmt::Formatter<W>) -> fmt::Result {
        f.write_str(self.as_str())
    }
}
