// The content type of a body that isn't empty.
ghost use Rattle.std.specs.Prelude.{◌≡◌, ◌<◌, Some};
ghost use Rattle.sm_shapes.specs.TableData.{kind_at, shape_count};
ghost use Rattle.sm_shapes.specs.TableView.{table_data};
ghost use Rattle.sm_rest.specs.bind.BoundView.{bound_of};
ghost use Rattle.sm_rest.specs.RestGoals.{payload_type, type_by, type_or, usual_type, written_type};

use sm_rest::sm_bind::BoundPlace;
use sm_rest::sm_bind_write::is_media_type;
use sm_rest::sm_rest_heads::{BodyPart, body_part};
use sm_shapes::kinds::ShapeKind;
use sm_shapes::tables::Table;
use sm_tree::Text;

const JSON_TYPE: &str = "application/json";

// The type of a raw payload of this kind without a media type.
fn usual_type(kind: ShapeKind) -> &'static str
    ensures { result.now ≡ usual_type kind }
{
    match kind {
        ShapeKind::Blob => "application/octet-stream",
        ShapeKind::Boolean => "text/plain",
        ShapeKind::Text => "text/plain",
        ShapeKind::Enum => "text/plain",
        ShapeKind::Byte => "text/plain",
        ShapeKind::Short => "text/plain",
        ShapeKind::Integer => "text/plain",
        ShapeKind::IntEnum => "text/plain",
        ShapeKind::Long => "text/plain",
        ShapeKind::Timestamp => "text/plain",
        ShapeKind::List => "text/plain",
        ShapeKind::Map => "text/plain",
        ShapeKind::Structure => "text/plain",
        ShapeKind::Union => "text/plain",
        ShapeKind::LeftOut => "text/plain",
    }
}

// A media type that counts, or else the usual type.
fn type_or<'a>(told: &'a Option<Text>, usual: &'static str) -> &'a str
    ensures { result.now ≡ type_or told.now usual.now }
{
    match told {
        Some(text) => counted_or(text.as_str(), usual),
        None => usual,
    }
}

fn counted_or<'a>(text: &'a str, usual: &'static str) -> &'a str
    ensures { result.now ≡ type_or (Some text.now) usual.now }
{
    if is_media_type(text) { text } else { usual }
}

fn kind_at(table: &Table, shape: u32) -> ShapeKind
    ensures { result ≡ kind_at (table_data table.now) shape }
{
    match table.shapes.as_slice().get(shape as usize) {
        Some(row) => row.kind,
        None => ShapeKind::LeftOut,
    }
}

// The type of a raw payload.
fn payload_type(table: &Table, member: u32) -> &str
    ensures { result.now ≡ payload_type (table_data table.now) member }
{
    match table.members.as_slice().get(member as usize) {
        Some(row) => type_or(&row.media_type, usual_type(kind_at(table, row.target))),
        None => usual_type(kind_at(table, 0)),
    }
}

fn type_by(table: &Table, part: BodyPart) -> &str
    ensures { result.now ≡ type_by (table_data table.now) part }
{
    match part {
        BodyPart::Document => JSON_TYPE,
        BodyPart::Tree => JSON_TYPE,
        BodyPart::Raw(member) => payload_type(table, member),
        BodyPart::Nothing => JSON_TYPE,
    }
}

/// The content type of a body there, where it isn't empty.
pub(crate) fn body_type<'s>(place: &BoundPlace<'s>) -> &'s str
    requires { place.now.shape < shape_count (bound_of place.now).table }
    ensures { result.now ≡ written_type (bound_of place.now) }
{
    type_by(place.table, body_part(place.table, place.side, place.shape))
}
