// What of a payload isn't carried.
ghost use Rattle.std.specs.Prelude.{List, true};
ghost use Rattle.sm_tree.specs.declared.path.Step.{Step};
ghost use Rattle.sm_codec.specs.Conventions.{json_convention};
ghost use Rattle.sm_codec.specs.Written.{uncarried};
ghost use Rattle.sm_shapes.specs.Places.{member_place};
ghost use Rattle.sm_shapes.specs.ValueView.{val_of};
ghost use Rattle.sm_part_texts.specs.CarriedTexts.{here_unless};
ghost use Rattle.sm_bind.specs.BoundView.{bound_of};
ghost use Rattle.sm_bind_write.specs.CarriedParts.{uncarried_payload};
ghost use Rattle.sm_bind_write.specs.steps.SeenParts.{SeenAs};

use crate::spots::{PartSpot, Seen};
use sm_bind::BoundPlace;
use sm_part_texts::{Spot, is_filled};
use sm_shapes::values::Value;

/// What is told of a payload: one of raw bytes has some; of another its leaves decide.
pub(crate) fn seen_payload<'a>(place: &BoundPlace<'_>, member: u32, value: &'a Value) -> Seen<'a>
    ensures { SeenAs (uncarried_payload (bound_of place.now).table member (val_of value.now))
        (uncarried (bound_of place.now).table (json_convention true) (member_place member) (val_of value.now)) result }
{
    match value {
        Value::Text(text) => raw_unless(is_filled(text.as_str().as_bytes())),
        Value::Blob(bytes) => raw_unless(is_filled(bytes.as_slice())),
        Value::Null => Seen::Leaves,
        Value::Bool(_) => Seen::Leaves,
        Value::Int(_) => Seen::Leaves,
        Value::Time(_) => Seen::Leaves,
        Value::List(_) => Seen::Leaves,
        Value::Map(_) => Seen::Leaves,
        Value::Structure(_) => Seen::Leaves,
        Value::Union(_, _) => Seen::Leaves,
    }
}

fn raw_unless<'a>(carried: bool) -> Seen<'a>
    ensures { (tree : List (List Step)) → SeenAs (here_unless carried) tree result }
{
    if carried {
        Seen::Carried
    } else {
        Seen::Part(PartSpot::InValue(Spot::Whole))
    }
}
