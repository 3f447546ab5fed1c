// A payload that is bytes, and the status: members for which one value stands.
ghost use Rattle.std.specs.Prelude.{◌≡◌, ◌<◌, ◌↔◌, IsTrue, Ok, pos, true};
ghost use Rattle.sm_shapes.specs.InOrder.{AreStored, Shaped};
ghost use Rattle.sm_shapes.specs.Places.{kind_of, member_place};
ghost use Rattle.sm_shapes.specs.TableData.{member_count};
ghost use Rattle.sm_shapes.specs.TableView.{table_data};
ghost use Rattle.sm_shapes.specs.Values.{blob_val, int_val};
ghost use Rattle.sm_shapes.specs.ValueView.{val_of};
ghost use Rattle.sm_shapes.specs.declared.kinds.ShapeKind.TheVariants.{Blob};
ghost use Rattle.sm_codec.specs.Codec.{codec_of};
ghost use Rattle.sm_codec.specs.Convention.{are_bytes};
ghost use Rattle.sm_codec.specs.Conventions.{json_convention};
ghost use Rattle.sm_parts.specs.Texts.{number_read};
ghost use Rattle.sm_part_values.specs.Joins.{JoinsTo};
ghost use Rattle.sm_part_values.specs.PartTexts.{raw_by};
ghost use Rattle.sm_bind_read.specs.Parts.{status_child};

use sm_codec::{Refusal, ValuePlace};
use sm_part_values::{PartForm, judged, text_value};
use sm_shapes::Patterns;
use sm_shapes::kinds::ShapeKind;
use sm_shapes::tables::Table;
use sm_shapes::values::Value;
use sm_tree::Bytes;
use std::alloc::Global;

/// The value of a payload of these bytes.
pub(crate) fn raw_value<P: Patterns>(
    alloc: Global,
    table: &Table,
    member: u32,
    bytes: Bytes,
    patterns: &mut P,
) -> Result<Value, Refusal>
    requires shaped { Shaped (table_data table.now) }
    requires member { member < member_count (table_data table.now) }
    requires stored { AreStored (table_data table.now).patterns (P.added patterns.old) }
    ensures joins { JoinsTo (raw_by (kind_of (table_data table.now) (member_place member))
        (codec_of (table_data table.now) (json_convention true) P.test) (member_place member) bytes) result }
    ensures added { P.added patterns.new ≡ P.added patterns.old }
    ensures refused { P.refused patterns.new ≡ P.refused patterns.old }
    ensures refusals { P.refusals patterns.new ≡ P.refusals patterns.old }
{
    if is_blob(table.kind(table.target(member))) {
        blob_value(alloc, table, member, bytes, patterns)
    } else {
        text_value(
            alloc,
            table,
            ValuePlace::Member(member),
            PartForm::Target,
            bytes.as_slice(),
            patterns,
        )
    }
}

fn is_blob(kind: ShapeKind) -> bool
    ensures { IsTrue result ↔ kind ≡ Blob }
{
    match kind {
        ShapeKind::Blob => true,
        ShapeKind::Boolean => false,
        ShapeKind::Text => false,
        ShapeKind::Enum => false,
        ShapeKind::Byte => false,
        ShapeKind::Short => false,
        ShapeKind::Integer => false,
        ShapeKind::IntEnum => false,
        ShapeKind::Long => false,
        ShapeKind::Timestamp => false,
        ShapeKind::List => false,
        ShapeKind::Map => false,
        ShapeKind::Structure => false,
        ShapeKind::Union => false,
        ShapeKind::LeftOut => false,
    }
}

// That of a blob.
fn blob_value<P: Patterns>(
    alloc: Global,
    table: &Table,
    member: u32,
    bytes: Bytes,
    patterns: &mut P,
) -> Result<Value, Refusal>
    requires shaped { Shaped (table_data table.now) }
    requires member { member < member_count (table_data table.now) }
    requires stored { AreStored (table_data table.now).patterns (P.added patterns.old) }
    ensures joins { JoinsTo (raw_by Blob (codec_of (table_data table.now) (json_convention true) P.test) (member_place member) bytes) result }
    ensures added { P.added patterns.new ≡ P.added patterns.old }
    ensures refused { P.refused patterns.new ≡ P.refused patterns.old }
    ensures refusals { P.refusals patterns.new ≡ P.refusals patterns.old }
{
    see_bytes(bytes.as_slice());
    judged(
        alloc,
        table,
        ValuePlace::Member(member),
        blob_of(bytes),
        patterns,
    )
}

// Bytes are below 256.
fn see_bytes(bytes: &[u8])
    ensures { are_bytes bytes.now ≡ true }
{}

fn blob_of(bytes: Bytes) -> Value
    ensures { val_of result ≡ blob_val bytes }
{
    Value::Blob(bytes)
}

/// The value of a status.
pub(crate) fn status_value<P: Patterns>(
    alloc: Global,
    table: &Table,
    member: u32,
    status: u16,
    patterns: &mut P,
) -> Result<Value, Refusal>
    requires shaped { Shaped (table_data table.now) }
    requires member { member < member_count (table_data table.now) }
    requires stored { AreStored (table_data table.now).patterns (P.added patterns.old) }
    ensures joins { JoinsTo ((status_child (codec_of (table_data table.now) (json_convention true) P.test) status).reading
        (member_place member)) result }
    ensures added { P.added patterns.new ≡ P.added patterns.old }
    ensures refused { P.refused patterns.new ≡ P.refused patterns.old }
    ensures refusals { P.refusals patterns.new ≡ P.refusals patterns.old }
{
    see_status(status);
    judged(
        alloc,
        table,
        ValuePlace::Member(member),
        number_of(status),
        patterns,
    )
}

// A status is a number of 32 bits.
fn see_status(status: u16)
    ensures { number_read 32 (pos status) ≡ Ok (int_val (pos status)) }
{}

fn number_of(status: u16) -> Value
    ensures { val_of result ≡ int_val (pos status) }
{
    Value::Int(i64::from(status))
}
