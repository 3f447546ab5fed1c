// Which fields of an object are written, and how many these are.
ghost use Rattle.std.specs.Prelude.{◌≡◌, ◌≤◌, length, cond, IfSome, option_copied};
ghost use Rattle.std.specs.List.Sorted.{IsNonDecreasing};
ghost use Rattle.sm_shapes.specs.Values.{fields_of};
ghost use Rattle.sm_shapes.specs.ValueView.{each_field_view};
ghost use Rattle.sm_codec.specs.WrittenObjects as chosen;
ghost use Rattle.sm_codec.specs.steps.EventsHanded.{field_count};
ghost use Rattle.sm_codec.specs.steps.MemberSteps.{is_seen};

use sm_shapes::values::Value;

/// Whether a member is one of those that are written; where none are named, all are. A binary search. No memory.
pub(crate) fn is_written(members: Option<&[u32]>, member: u32) -> bool
    requires rise { IfSome (option_copied members) IsNonDecreasing }
    ensures { result ≡ chosen.is_written (option_copied members.entry) member }
{
    match members {
        Some(members) => is_among(members, member),
        None => true,
    }
}

fn is_among(members: &[u32], member: u32) -> bool
    requires rise { IsNonDecreasing members.now }
    ensures { result ≡ is_seen member members.now }
{
    match members.binary_search(&member) {
        Ok(_) => true,
        Err(_) => false,
    }
}

/// How many of these fields are written. A binary search for each. No memory.
pub(crate) fn written_count(fields: &[(u32, Value)], members: Option<&[u32]>) -> u64
    requires rise { IfSome (option_copied members) IsNonDecreasing }
    ensures count { result ≡ field_count (chosen.fields_among (option_copied members.entry) (fields_of (each_field_view fields.now))) }
    ensures few { result ≤ length fields.now }
{
    let mut count: u64 = 0;
    for part in fields {
        count += one_if(is_written(members, part.0));
    }
    count
}

fn one_if(holds: bool) -> u64
    ensures { result ≡ cond holds 1 0 }
{
    if holds { 1 } else { 0 }
}
