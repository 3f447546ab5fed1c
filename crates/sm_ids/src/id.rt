// A shape id whose parts are borrowed from a text.
ghost use Rattle.std.specs.Prelude.{◌≡◌};
ghost use Rattle.std.specs.Option.{ForSome};
ghost use Rattle.std.specs.Ordering.{nat_cmp};
ghost use Rattle.std.specs.Cmp.Lexicographic.{slice_cmp};
ghost use Rattle.sm_ids.specs.Identifier.{IsIdentifier, IsNamespace};

use crate::refusal::IdRefusal;
use crate::scan::{Ends, scan};
use std::cmp::Ordering;
use std::fmt;

/// An absolute shape id (Smithy 2.0, "Shape ID"), `namespace#Name` of a shape or `namespace#Name$member` of
/// one of its members. Who writes one down proves that its parts are what they say: `is_namespace` and
/// `is_identifier` test it.
#[derive(Debug, Clone, Copy, PartialEq, Eq)]
pub struct ShapeIdRef<'a> {
    /// Identifiers joined by full stops.
    pub namespace: &'a str,
    /// The identifier of the shape.
    pub name: &'a str,
    /// The identifier of the member, where the id is a member's.
    pub member: Option<&'a str>,
    pub ghost is_namespace: { IsNamespace namespace.now },
    pub ghost is_name: { IsIdentifier name.now },
    pub ghost is_member: { ForSome member (λ m. IsIdentifier m.now) },
}

impl<'a> ShapeIdRef<'a> {
    ghost use Rattle.std.specs.Prelude.{◌≤◌, ℕ, List, Option, length, drop};
    ghost use Rattle.std.specs.Option.{option_copied};
    ghost use Rattle.std.specs.Str.{IsAscii};
    ghost use Rattle.sm_ids.specs.Answers.{Parses};
    ghost use Rattle.sm_ids.specs.IdText.{IdText, member_text, printed};
    ghost use Rattle.sm_ids.specs.steps.Parts.{HasParts};
    ghost use Rattle.sm_ids.specs.View.{id_of};

    /// The id that a text spells. `Empty` for the empty text; `BadIdentifier` for any other text that spells
    /// none, with the number of leading bytes that begin one. No memory.
    pub fn parse(text: &'a str) -> Result<Self, IdRefusal>
        ensures { Parses text.now result }
    {
        if text.is_empty() {
            return Err(IdRefusal::Empty);
        }
        match scan(text.as_bytes()) {
            Ok(ends) => Ok(ShapeIdRef::cut(text, ends)),
            Err(at) => Err(IdRefusal::BadIdentifier(at as u64)),
        }
    }

    // The member behind a name that ends at this place.
    fn member_at(text: &'a str, name: usize) -> Option<&'a str>
        requires ascii { IsAscii text.now }
        requires within { name ≤ length text.now }
        ensures { (m : Option (List ℕ)) → drop name text.now ≡ member_text m → option_copied result ≡ m }
    {
        if name < text.len() {
            Some(&text[name + 1..])
        } else {
            None
        }
    }

    // The id whose parts end at these places of its text.
    pub(crate) fn cut(text: &'a str, ends: Ends) -> Self
        requires { HasParts text.now ends }
        ensures { IdText (id_of result) text.now }
    {
        let namespace = &text[..ends.namespace];
        let name = &text[ends.namespace + 1..ends.name];
        let member = ShapeIdRef::member_at(text, ends.name);
        ShapeIdRef {
            namespace,
            name,
            member,
        }
    }

    // The order by the bytes of the printed texts. It is that of the parts one after the other, since `#` and `$`
    // come before every byte that a part can have.
    pub(crate) fn compare(&self, other: &ShapeIdRef<'_>) -> Ordering
        ensures { result ≡ slice_cmp nat_cmp (printed (id_of self.now)) (printed (id_of other.now)) }
    {
        let order = order_of(self.namespace, other.namespace);
        if order.is_ne() {
            return order;
        }
        let order = order_of(self.name, other.name);
        if order.is_ne() {
            return order;
        }
        order_of(self.member.unwrap_or(""), other.member.unwrap_or(""))
    }
}

fn order_of(a: &str, b: &str) -> Ordering
    ensures { result ≡ slice_cmp nat_cmp a.now b.now }
{
    a.cmp(b)
}

impl fmt::Display for ShapeIdRef<'_> {
    ghost use Rattle.std.specs.Prelude.{Some};
    ghost use Rattle.sm_ids.specs.IdText.{printed};
    ghost use Rattle.sm_ids.specs.View.{id_of};

    ghost output = { λ id. Some (printed (id_of id)) };

    fn fmt<W: fmt::Write>(&self, f: &mut fmt::Formatter<W>) -> fmt::Result {
        f.write_str(self.namespace)?;
        f.write_str("#")?;
        f.write_str(self.name)?;
        match self.member {
            Some(member) => {
                f.write_str("$")?;
                f.write_str(member)
            }
            None => Ok(()),
        }
    }
}
