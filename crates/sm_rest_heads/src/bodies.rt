// What stands in the body of a message.
ghost use Rattle.std.specs.Prelude.{◌≡◌, ◌<◌};
ghost use Rattle.std.specs.Option.{option_map};
ghost use Rattle.sm_shapes.specs.TableData.{shape_count};
ghost use Rattle.sm_shapes.specs.TableView.{table_data};
ghost use Rattle.sm_bind.specs.BindingsView.{bound_side};
ghost use Rattle.sm_bind.specs.Roles.{bound_on};
ghost use Rattle.sm_rest_heads.specs.BodyParts.{part_of, wanted_by};
ghost use Rattle.sm_rest_heads.specs.steps.Payloads.{first_payload, payload_stands};

use sm_bind::{PartSide, has_document, is_payload_at, is_tree_at};
use sm_shapes::tables::Table;

/// What stands in a body.
#[derive(Debug, Clone, Copy, PartialEq, Eq, Drop)]
pub enum BodyPart {
    /// A document.
    Document,
    /// A payload that is a structure or a union.
    Tree,
    /// The bytes of the payload that is this member.
    Raw(u32),
    /// Nothing: it isn't read.
    Nothing,
}

// The first payload among members.
fn first_payload(table: &Table, members: &[u32]) -> Option<u32>
    ensures { result ≡ first_payload (table_data table.now) members.now }
{
    for member in members {
        if is_payload_at(table, *member) {
            return Some(*member);
        }
    }
    None
}

// What stands in the body where there is no document.
fn payload_stands(table: &Table, payload: Option<u32>) -> BodyPart
    ensures { result ≡ payload_stands (table_data table.now) payload }
{
    match payload {
        Some(member) => {
            if is_tree_at(table, member) {
                BodyPart::Tree
            } else {
                BodyPart::Raw(member)
            }
        }
        None => BodyPart::Nothing,
    }
}

/// What stands in the body of a message to a shape on a side. Linear in its members; no memory.
pub fn body_part(table: &Table, side: PartSide, shape: u32) -> BodyPart
    requires { shape < shape_count (table_data table.now) }
    ensures { result ≡ part_of (bound_on (table_data table.now) (bound_side side) shape) }
{
    let members = table.members(shape);
    if has_document(table, side, members) {
        BodyPart::Document
    } else {
        payload_stands(table, first_payload(table, members))
    }
}

impl BodyPart {
    /// The content type that is looked at of a request with such a body, if it is. No memory.
    pub fn wanted(self) -> Option<&'static str>
        ensures { option_map (λ text. text.now) result ≡ wanted_by self }
    {
        match self {
            BodyPart::Document => Some("application/json"),
            BodyPart::Tree => Some("application/json"),
            BodyPart::Raw(_) => None,
            BodyPart::Nothing => None,
        }
    }
}
