// The fields of a body, as members take them in model order.
ghost use Rattle.std.specs.Prelude.{◌≡◌, ◌<◌, ◌-◌, ◌++◌, ◌∷◌, [], ℕ, List, MatchOption, Option, Ok, drop, length, slice_get, true};
ghost use Rattle.std.specs.Option.{option_map};
ghost use Rattle.sm_shapes.specs.TableData.{member_count};
ghost use Rattle.sm_shapes.specs.TableView.{table_data};
ghost use Rattle.sm_shapes.specs.Values.{Val};
ghost use Rattle.sm_shapes.specs.ValueView.{each_field_view, val_of};
ghost use Rattle.sm_codec.specs.Readings.{member_fields};
ghost use Rattle.sm_bind.specs.BoundView.{bound_of};
ghost use Rattle.sm_bind_read.specs.steps.Coming.{Came, ComesWith, IsNotLast, PendingComes, is_body, is_number};

use crate::single::absent_value;
use sm_bind::BoundPlace;
use sm_codec::Refusal;
use sm_shapes::values::Value;
use std::alloc::Global;

/// The fields that are left of a body.
#[derive(Drop)]
pub(crate) struct Pending<'a> {
    /// Whether a body is there.
    pub there: bool,
    /// The numbers that members have in the body, in model order,
    pub copies: &'a [u32],
    /// and the place of the next one.
    pub next: usize,
    /// The fields, the last one first.
    pub fields: Vec<(u32, Value)>,
}

/// What the next member comes to for which the body stands.
pub(crate) fn next_body(
    alloc: Global,
    place: &BoundPlace<'_>,
    member: u32,
    pending: &mut Pending<'_>,
) -> Result<Option<Value>, Refusal>
    requires member { member < member_count (table_data place.now.table.now) }
    requires body { is_body (bound_of place.now) member ≡ true }
    ensures { (came : ℕ → Came) (ks : List ℕ) → PendingComes (bound_of place.now) came (member ∷ ks) pending.old
        → ComesWith (came member) (PendingComes (bound_of place.now) came ks pending.new) result }
{
    if pending.there {
        Ok(next_field(pending))
    } else {
        absent_value(alloc, place.table, member)
    }
}

// The value of the next number, if it has a field.
fn next_field(pending: &mut Pending<'_>) -> Option<Value>
    ensures there { pending.new.there ≡ pending.old.there }
    ensures copies { pending.new.copies ≡ pending.old.copies }
    ensures next { (j : ℕ) (rest : List ℕ) (o : Option Val) (left : List (ℕ × Val)) → drop pending.old.next pending.old.copies.now ≡ j ∷ rest
        → each_field_view pending.old.fields.items ≡ left ++ member_fields j (Ok o) → IsNotLast j left
        → (option_map val_of result ≡ o) × (drop pending.new.next pending.new.copies.now ≡ rest)
        × (each_field_view pending.new.fields.items ≡ left) }
{
    let at = pending.next;
    match pending.copies.get(at) {
        Some(number) => {
            pending.next = at + 1;
            take_last(&mut pending.fields, *number)
        }
        None => None,
    }
}

// Takes the last field, if it is of this number.
fn take_last(fields: &mut Vec<(u32, Value)>, number: u32) -> Option<Value>
    ensures { (o : Option Val) (left : List (ℕ × Val)) → each_field_view fields.old.items ≡ left ++ member_fields number (Ok o)
        → IsNotLast number left → (option_map val_of result ≡ o) × (each_field_view fields.new.items ≡ left) }
{
    if !is_last(fields.as_slice(), number) {
        return None;
    }
    match popped(fields) {
        Some(field) => Some(field.1),
        None => None,
    }
}

// Whether the last field is of this number.
fn is_last(fields: &[(u32, Value)], number: u32) -> bool
    ensures { result ≡ is_number number (slice_get fields.now (length fields.now - 1)) }
{
    match fields.last() {
        Some(field) => field.0 == number,
        None => false,
    }
}

// Takes the last field.
fn popped(fields: &mut Vec<(u32, Value)>) -> Option<(u32, Value)>
    ensures { MatchOption result (fields.old.items ≡ []) (λ field. fields.old.items ≡ fields.new.items ++ field ∷ []) }
{
    fields.pop()
}
