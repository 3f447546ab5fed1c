// Whether tables are past a limit. The prelude doesn't count.
ghost use Rattle.std.specs.Prelude.{◌≡◌, ◌<◌, ◌↔◌, IsTrue, length};
ghost use Rattle.sm_bytes.specs.Lengths.{length_word};
ghost use Rattle.sm_merge.specs.Limits.{most_members_in_all, most_shapes};
ghost use Rattle.sm_merge.specs.steps.EffectiveTables.{AreRunning, AreSoundTraits, trait_pairs};
ghost use Rattle.sm_merge.specs.steps.Firsts.{target_view, targets_view};
ghost use Rattle.sm_merge.specs.steps.Made.{made_member, made_members, made_shape};
ghost use Rattle.sm_merge.specs.steps.Made.{members_count, members_size as all_members_size, pairs_size, shape_size as size_of_shape};
ghost use Rattle.sm_merge.specs.steps.Placed.{bare_view};

use crate::effective::{MemberTraits, NamedFolded, ShapeTraits};
use crate::firsts::NamedTarget;
use crate::limit::{ALL_MEMBER_LIMIT, SHAPE_LIMIT};
use crate::parts::BareShape;
use crate::shape_parts::{lacks_value, traits_of};
use sm_model::Kind;

/// More shapes than a model may have.
pub(crate) fn are_many_shapes(rows: &[BareShape]) -> bool
    ensures { IsTrue result ↔ (most_shapes < length rows.now) }
{
    rows.len() as u64 > SHAPE_LIMIT
}

/// More members in all than a model may have.
pub(crate) fn are_many_members(members: &[Vec<NamedTarget>]) -> bool
    ensures { IsTrue result ↔ (most_members_in_all < members_count members.now) }
{
    member_count(members) > ALL_MEMBER_LIMIT
}

fn member_count(members: &[Vec<NamedTarget>]) -> u64
    ensures { result ≡ length_word (members_count members.now) }
{
    let mut count: u64 = 0;
    for one in members {
        count = count.saturating_add(one.len() as u64);
    }
    count
}

/// How much the traits of a shape and of its members count.
pub(crate) fn shape_size(row: &BareShape, members: &[NamedTarget], traits: &ShapeTraits) -> u64
    requires { AreSoundTraits traits.now }
    ensures { result ≡ length_word (size_of_shape (made_shape (bare_view row.now) members.now traits.now)) }
{
    let own = traits_size(traits.own.as_slice());
    own.saturating_add(members_size(row.kind, members, traits))
}

fn members_size(kind: Kind, members: &[NamedTarget], traits: &ShapeTraits) -> u64
    requires { AreSoundTraits traits.now }
    ensures { result ≡ length_word (all_members_size (made_members kind traits.now.members.items (targets_view members.now))) }
{
    let mut size: u64 = 0;
    for member in members {
        size = size.saturating_add(member_size(kind, member, traits));
    }
    size
}

fn member_size(kind: Kind, member: &NamedTarget, traits: &ShapeTraits) -> u64
    requires { AreSoundTraits traits.now }
    ensures { result ≡ length_word (pairs_size (made_member kind traits.now.members.items (target_view member.now)).traits) }
{
    let given = traits_of(traits.members.as_slice(), member.name);
    let size = traits_size(given);
    if !lacks_value(kind, given) {
        return size;
    }
    size.saturating_add(member.name.len() as u64)
        .saturating_add(1)
}

fn traits_size(traits: &[NamedFolded]) -> u64
    requires { AreRunning traits.now }
    ensures { result ≡ length_word (pairs_size (trait_pairs traits.now)) }
{
    let mut size: u64 = 0;
    for one in traits {
        size = size.saturating_add(one.folded.size);
    }
    size
}
