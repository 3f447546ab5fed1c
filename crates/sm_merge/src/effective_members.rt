// The traits of a shape's members: what is given directly, else what the last mixin has that has it.
ghost use Rattle.std.specs.Prelude.{◌≡◌, [], ◌∷◌, length, IfOk, OnOk, if◌then◌else◌};
ghost use Rattle.std.specs.Str.{bytes_eq};
ghost use Rattle.sm_model.specs.steps.Rising.{Rise};
ghost use Rattle.sm_merge.specs.steps.Filling.{AreFirstRows, folded_rows, given_rows as given_to, kept_by, kept_of, last_first};
ghost use Rattle.sm_merge.specs.steps.Filling.{member_rows};
ghost use Rattle.sm_merge.specs.steps.Firsts.{targets_view};
ghost use Rattle.sm_groups.specs.Groups.{groups_view};
ghost use Rattle.sm_merge.specs.steps.MemberLists.{AreMemberTraits, ComeToFirsts, joined_rows, PutsRows};
ghost use Rattle.sm_merge.specs.steps.MixedIn.{AreBelow};
ghost use Rattle.sm_merge.specs.steps.Tables.{places_in};

use crate::effective::{MemberTraits, NamedFolded, ShapeTraits};
use crate::effective_rows::{first_rows, given_rows, kept_rows};
use crate::effective_traits::mixin_entry;
use crate::firsts::NamedTarget;
use crate::look::traits_at;
use crate::mixins::Contributing;
use crate::parts::member_text;
use crate::table::PlaceRow;
use sm_groups::{Group, by_key};
use sm_tree::{NoMemory, Text};
use std::alloc::Global;

/// The traits of the members of a shape with this id.
pub(crate) fn member_traits<'a>(
    alloc: Global,
    rows: &'a [PlaceRow],
    shape: &str,
    members: &[NamedTarget<'_>],
    mixed: &[Contributing<'_>],
    all: &[ShapeTraits<'a>],
) -> Result<Vec<MemberTraits<'a>>, NoMemory>
    requires places { Rise (places_in rows.now) }
    requires below { AreBelow (length all.now) mixed.now }
    ensures { IfOk result (λ lists. AreMemberTraits (member_rows rows.now shape.now (targets_view members.now) all.now mixed.now)
        lists.items) }
{
    let mut lists = Vec::new(alloc);
    put_given(alloc, rows, shape, members, &mut lists)?;
    put_mixed(alloc, mixed, all, &mut lists)?;
    let groups = by_key(alloc, lists)?;
    first_lists(alloc, groups)
}

// Puts what is given at each member.
fn put_given<'a>(
    alloc: Global,
    rows: &'a [PlaceRow],
    shape: &str,
    members: &[NamedTarget<'_>],
    lists: &mut Vec<(Text, Vec<NamedFolded<'a>>)>,
) -> Result<(), NoMemory>
    requires { Rise (places_in rows.now) }
    ensures { OnOk result (PutsRows lists.old.items lists.new.items (given_to rows.now shape.now (targets_view members.now))) }
{
    for member in members {
        let place = member_text(alloc, shape, member.name)?;
        let given = given_rows(alloc, traits_at(rows, place.as_str()))?;
        put_list(alloc, lists, member.name, given)?;
    }
    Ok(())
}

// Puts the copies of what mixins have, the last mixin first.
fn put_mixed<'a>(
    alloc: Global,
    mixed: &[Contributing<'_>],
    all: &[ShapeTraits<'a>],
    lists: &mut Vec<(Text, Vec<NamedFolded<'a>>)>,
) -> Result<(), NoMemory>
    requires { AreBelow (length all.now) mixed.now }
    ensures { OnOk result (PutsRows lists.old.items lists.new.items (λ name. last_first (λ c. kept_by name all.now c) mixed.now)) }
{
    let mut left = mixed.len();
    while left > 0 {
        left -= 1;
        let entry = mixin_entry(mixed, all, left);
        put_copies(alloc, entry.members.as_slice(), lists)?;
    }
    Ok(())
}

// Puts the copies of what one mixin has.
fn put_copies<'a>(
    alloc: Global,
    members: &[MemberTraits<'a>],
    lists: &mut Vec<(Text, Vec<NamedFolded<'a>>)>,
) -> Result<(), NoMemory>
    ensures { OnOk result (PutsRows lists.old.items lists.new.items (kept_of members.now)) }
{
    for member in members {
        let kept = kept_rows(alloc, member.traits.as_slice())?;
        put_list(alloc, lists, member.member.as_str(), kept)?;
    }
    Ok(())
}

// Puts rows under a member's name, if there are any.
fn put_list<'a>(
    alloc: Global,
    lists: &mut Vec<(Text, Vec<NamedFolded<'a>>)>,
    member: &str,
    rows: Vec<NamedFolded<'a>>,
) -> Result<(), NoMemory>
    ensures { OnOk result (PutsRows lists.old.items lists.new.items
        (λ name. if bytes_eq member.now name then folded_rows rows.entry.items else [])) }
{
    if rows.is_empty() {
        return Ok(());
    }
    let name = Text::copy(alloc, member)?;
    lists.push((name, rows))?;
    Ok(())
}

// The first row of each name, member by member.
fn first_lists<'a>(
    alloc: Global,
    groups: Vec<Group<Vec<NamedFolded<'a>>>>,
) -> Result<Vec<MemberTraits<'a>>, NoMemory>
    ensures { IfOk result (λ lists. ComeToFirsts (groups_view groups.entry.items) lists.items) }
{
    let mut lists = Vec::with_capacity(alloc, groups.len())?;
    for group in groups {
        let list = first_list(group)?;
        lists.push(list)?;
    }
    Ok(lists)
}

fn first_list<'a>(group: Group<Vec<NamedFolded<'a>>>) -> Result<MemberTraits<'a>, NoMemory>
    ensures member { IfOk result (λ list. list.member ≡ group.entry.key) }
    ensures traits { IfOk result (λ list. AreFirstRows (joined_rows (group.entry.first ∷ group.entry.more.items)) list.traits.items) }
{
    let Group { key, first, more } = group;
    let rows = joined(first, more)?;
    let traits = first_rows(rows)?;
    Ok(MemberTraits {
        member: key,
        traits,
    })
}

// Rows of several lists, one after the other.
fn joined<'a>(
    first: Vec<NamedFolded<'a>>,
    more: Vec<Vec<NamedFolded<'a>>>,
) -> Result<Vec<NamedFolded<'a>>, NoMemory>
    ensures { IfOk result (λ rows. folded_rows rows.items ≡ joined_rows (first.entry ∷ more.entry.items)) }
{
    let mut rows = first;
    for list in more {
        let mut behind = list;
        rows.append(&mut behind)?;
    }
    Ok(rows)
}
