// What is told of the value of a member by its binding.
ghost use Rattle.std.specs.Prelude.{◌≡◌, ◌<◌, List, Some, true};
ghost use Rattle.std.specs.Option.{option_map};
ghost use Rattle.sm_tree.specs.declared.path.Step.{Step};
ghost use Rattle.sm_shapes.specs.Fitting.{Fits, any_text};
ghost use Rattle.sm_shapes.specs.InOrder.{Shaped};
ghost use Rattle.sm_shapes.specs.Places.{member_place};
ghost use Rattle.sm_shapes.specs.TableData.{member_count, shape_count};
ghost use Rattle.sm_shapes.specs.TableView.{binding_data, table_data};
ghost use Rattle.sm_shapes.specs.ValueView.{val_of};
ghost use Rattle.sm_codec.specs.Conventions.{json_convention};
ghost use Rattle.sm_codec.specs.Encoded.{first_path};
ghost use Rattle.sm_codec.specs.Written.{uncarried};
ghost use Rattle.sm_part_texts.specs.CarriedTexts.{here_unless};
ghost use Rattle.sm_part_texts.specs.Spots.{spot_path};
ghost use Rattle.sm_bind.specs.BoundView.{bound_of};
ghost use Rattle.sm_bind.specs.Roles.{binding_on};
ghost use Rattle.sm_bind_write.specs.CarriedParts.{uncarried_bound};
ghost use Rattle.sm_bind_write.specs.PartSpots.{part_path};
ghost use Rattle.sm_bind_write.specs.steps.SeenParts.{SeenAs};

use crate::bound::counted;
use crate::map_spots::{params_spot, prefixed_spot};
use crate::payload::seen_payload;
use crate::spots::{PartSpot, Seen};
use crate::status::is_status;
use sm_bind::BoundPlace;
use sm_codec::ValuePlace;
use sm_part_texts::{Spot, TextTest, first_uncarried, is_carried};
use sm_shapes::tables::Binding;
use sm_shapes::values::Value;

/// What is told of the value of a member that is present.
pub(crate) fn seen<'a>(place: &BoundPlace<'_>, member: u32, value: &'a Value) -> Seen<'a>
    requires shaped { Shaped (bound_of place.now).table }
    requires shape { place.now.shape < shape_count (table_data place.now.table.now) }
    requires member { member < member_count (bound_of place.now).table }
    requires fits { Fits (bound_of place.now).table any_text (member_place member) (val_of value.now) }
    ensures { SeenAs (uncarried_bound (binding_on (bound_of place.now) member) (bound_of place.now) member (val_of value.now))
        (uncarried (bound_of place.now).table (json_convention true) (member_place member) (val_of value.now)) result }
{
    match counted(place.table, place.side, member) {
        Some(binding) => seen_bound(place, member, binding, value),
        None => Seen::Leaves,
    }
}

fn seen_bound<'a>(
    place: &BoundPlace<'_>,
    member: u32,
    binding: &Binding,
    value: &'a Value,
) -> Seen<'a>
    requires shaped { Shaped (bound_of place.now).table }
    requires shape { place.now.shape < shape_count (table_data place.now.table.now) }
    requires member { member < member_count (bound_of place.now).table }
    requires fits { Fits (bound_of place.now).table any_text (member_place member) (val_of value.now) }
    ensures { SeenAs (uncarried_bound (Some (binding_data binding.now)) (bound_of place.now) member (val_of value.now))
        (uncarried (bound_of place.now).table (json_convention true) (member_place member) (val_of value.now)) result }
{
    let table = place.table;
    let at = ValuePlace::Member(member);
    match binding {
        Binding::Label => told(whole_unless(is_carried(TextTest::OfLabel, table, at, value))),
        Binding::Query(_) => told(in_value(first_uncarried(
            TextTest::OfQuery,
            TextTest::OfQuery,
            table,
            at,
            value,
        ))),
        Binding::QueryParams => told(params_spot(place, at, value)),
        Binding::Header(_) => told(in_value(first_uncarried(
            TextTest::OfField,
            TextTest::OfEntry,
            table,
            at,
            value,
        ))),
        Binding::PrefixHeaders(prefix) => told(prefixed_spot(place, prefix.as_str(), at, value)),
        Binding::Payload => seen_payload(place, member, value),
        Binding::ResponseCode => told(whole_unless(is_status(place, value))),
    }
}

fn whole_unless<'a>(carried: bool) -> Option<PartSpot<'a>>
    ensures { option_map part_path result ≡ first_path (here_unless carried) }
{
    if carried {
        None
    } else {
        Some(PartSpot::InValue(Spot::Whole))
    }
}

fn in_value<'a>(spot: Option<Spot>) -> Option<PartSpot<'a>>
    ensures { option_map part_path result ≡ option_map spot_path spot }
{
    match spot {
        Some(spot) => Some(PartSpot::InValue(spot)),
        None => None,
    }
}

fn told<'a>(spot: Option<PartSpot<'a>>) -> Seen<'a>
    ensures { (paths tree : List (List Step)) → option_map part_path spot.entry ≡ first_path paths → SeenAs paths tree result }
{
    match spot {
        Some(spot) => Seen::Part(spot),
        None => Seen::Carried,
    }
}
