// A message as its parts.
ghost use Rattle.std.specs.Prelude.{◌≡◌, IfOk};

use sm_tree::{Bytes, NoMemory, Text};
use std::alloc::Global;
use std::marker::Model;

/// A field of a head (RFC 9110, section 5).
#[derive(Debug, PartialEq, Eq, Drop)]
pub struct Field {
    /// As it was written; names that differ in case alone are the same.
    pub name: Text,
    /// Without the spaces and tabs at its ends.
    pub value: Bytes,
}

impl Field {
    /// A copy of a field.
    ///
    /// # Errors
    ///
    /// `NoMemory`.
    pub fn copy(&self, alloc: Global) -> Result<Self, NoMemory>
        ensures { IfOk result (λ copy. copy ≡ self.now) }
    {
        let name = Text::copy(alloc, self.name.as_str())?;
        let value = Bytes::new(self.value.as_slice().to_vec(alloc)?);
        Ok(Field { name, value })
    }
}

/// Fields in their order. Contracts see the list.
#[derive(Debug, Drop)]
pub struct FieldList {
    fields: Vec<Field>,
}

impl Model for FieldList {
    ghost use Rattle.std.specs.Prelude.{List};
    ghost use Rattle.sm_http.specs.declared.message.Field.{Field};

    ghost Value = { List Field };

    ghost view = { λ a. a.fields.items };
}

impl PartialEq for FieldList {
    ghost use Rattle.std.specs.Cmp.Lexicographic.{pointwise};
    ghost use Rattle.std.specs.Cmp.{partial_equiv_from_equiv};
    ghost use Rattle.std.proofs.lemmas.Cmp.{lists_equiv};
    ghost use Rattle.sm_http.specs.contracts.message.FieldEq.TheImpl.Laws.{laws-law};

    ghost eq = { pointwise ⟦<Field as PartialEq>⟧.eq };

    ghost laws = { partial_equiv_from_equiv (lists_equiv laws-law) };

    fn eq(&self, other: &Self) -> bool {
        self.fields.as_slice() == other.fields.as_slice()
    }
}

impl Eq for FieldList {
    ghost use Rattle.std.proofs.lemmas.Cmp.{lists_equiv};
    ghost use Rattle.sm_http.specs.contracts.message.FieldEq.TheImpl.Laws.{laws-law};

    ghost laws = { lists_equiv laws-law };
}

impl FieldList {
    /// The fields that a vector holds. No memory.
    pub fn new(fields: Vec<Field>) -> Self
        ensures { result ≡ fields.items }
    {
        FieldList { fields }
    }

    /// The vector, which keeps its memory.
    pub fn into_inner(self) -> Vec<Field>
        ensures { result.items ≡ self }
    {
        self.fields
    }

    /// The fields. No memory.
    pub fn as_slice(&self) -> &[Field]
        ensures { result.now ≡ self.now }
    {
        self.fields.as_slice()
    }
}

/// What the first line of a head says (RFC 9112, sections 3 and 4), but for its version and phrase.
#[derive(Debug, PartialEq, Eq, Drop)]
pub enum Start {
    /// A request's method and target.
    Request { method: Text, target: Text },
    /// A response's status.
    Response { status: u16 },
}

/// The head of a message.
#[derive(Debug, PartialEq, Eq, Drop)]
pub struct Head {
    pub start: Start,
    pub fields: FieldList,
}

/// A message. The body is the data alone, without the lines of a chunked coding.
#[derive(Debug, PartialEq, Eq, Drop)]
pub struct Message {
    pub head: Head,
    pub body: Bytes,
}

/// Which messages a stream of bytes has.
#[derive(Clone, Copy, Debug, PartialEq, Eq)]
pub enum MessageSide {
    Request,
    Response,
}

/// The protocols between which messages cross.
#[derive(Clone, Copy, Debug, PartialEq, Eq)]
pub enum Protocol {
    AwsJson10,
    AwsJson11,
    RestJson1,
    RpcV2Cbor,
}

/// How far a body has been read. Numbers count bytes.
#[derive(Clone, Copy, Debug, PartialEq, Eq)]
pub enum BodyLeft {
    /// So many bytes are left, by the head.
    Known(u64),
    /// A size line of a chunked body comes next; the chunks so far have together so many bytes.
    Size(u64),
    /// So many bytes of a chunk are left, and its line end; `total` counts all chunks so far, this one whole.
    Data { left: u64, total: u64 },
    /// The end.
    Done,
}
