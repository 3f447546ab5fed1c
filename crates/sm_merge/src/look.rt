// Look-ups in tables that are in the order of their texts, by binary search. No look-up takes memory.
ghost use Rattle.std.specs.Prelude.{◌≡◌, ◌<◌, [], IsSomeAnd, MatchOption, None, Some, length, slice_get};
ghost use Rattle.std.specs.FinMap as fin;
ghost use Rattle.std.specs.Option.{unwrap_or};
ghost use Rattle.sm_model.specs.Graphs.{text_cmp};
ghost use Rattle.sm_model.specs.steps.Rising.{Rise};
ghost use Rattle.sm_merge.specs.steps.ShapeTables.{ids_of, IsAt, shapes_view};
ghost use Rattle.sm_merge.specs.steps.Tables.{names_in, named_view, places_in, places_view};

use crate::parts::BareShape;
use crate::table::{NamedValue, PlaceRow};
use crate::value::Folded;

/// What the values under a name came to.
pub(crate) fn value_named<'a>(values: &'a [NamedValue], name: &str) -> Option<&'a Folded>
    requires { Rise (names_in values.now) }
    ensures { MatchOption result
        (fin.find text_cmp name.now (named_view values.now) ≡ None)
        (λ f. fin.find text_cmp name.now (named_view values.now) ≡ Some f.now) }
{
    match values.binary_search_by(|value| value.name.as_str().cmp(name)) {
        Ok(place) => Some(folded_in(values, place)),
        Err(_) => None,
    }
}

fn folded_in(values: &[NamedValue], place: usize) -> &Folded
    requires { place < length values.now }
    ensures { IsSomeAnd (slice_get values.now place) (λ v. result.now ≡ v.folded) }
{
    &values[place].folded
}

/// The traits that are given at a shape or member, none where nothing is.
pub(crate) fn traits_at<'a>(rows: &'a [PlaceRow], place: &str) -> &'a [NamedValue]
    requires { Rise (places_in rows.now) }
    ensures { result.now ≡ unwrap_or (fin.find text_cmp place.now (places_view rows.now)) [] }
{
    match rows.binary_search_by(|row| row.place.as_str().cmp(place)) {
        Ok(number) => traits_in(rows, number),
        Err(_) => &[],
    }
}

fn traits_in(rows: &[PlaceRow], number: usize) -> &[NamedValue]
    requires { number < length rows.now }
    ensures { IsSomeAnd (slice_get rows.now number) (λ r. result.now ≡ r.traits.items) }
{
    rows[number].traits.as_slice()
}

/// The number of the shape with this id.
pub(crate) fn position(rows: &[BareShape], id: &str) -> Option<usize>
    requires { Rise (ids_of rows.now) }
    ensures { MatchOption result (fin.find text_cmp id.now (shapes_view rows.now) ≡ None) (IsAt rows.now id.now) }
{
    match rows.binary_search_by(|row| row.id.as_str().cmp(id)) {
        Ok(place) => Some(place),
        Err(_) => None,
    }
}
