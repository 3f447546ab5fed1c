// The members and traits that shapes have in a graph, copied once from where they stand.
ghost use Rattle.std.specs.Prelude.{◌≡◌, ◌<◌, is_some, length, slice_get, IfOk, IsSomeAnd};
ghost use Rattle.std.specs.FinMap as fin;
ghost use Rattle.sm_tree.specs.View.{members_view};
ghost use Rattle.sm_model.specs.GivenView.{member_given_view, members_given_of};
ghost use Rattle.sm_model.specs.Graphs.{text_cmp};
ghost use Rattle.sm_model.specs.steps.Rising.{Rise};
ghost use Rattle.sm_merge.specs.steps.EffectiveTables.{AreSoundTraits, trait_names, trait_pairs, traits_of_member};
ghost use Rattle.sm_merge.specs.steps.Firsts.{target_view, targets_view};
ghost use Rattle.sm_merge.specs.steps.Made.{AreAllSound, lacks_value as is_lacking, made_member, made_members, made_shape, made_shapes};
ghost use Rattle.sm_merge.specs.steps.Made.{member_names};
ghost use Rattle.sm_merge.specs.steps.Made.{parted_shape, parted_shapes, valued};
ghost use Rattle.sm_merge.specs.steps.Placed.{bare_view};

use crate::body::put_pair;
use crate::effective::{MemberTraits, NamedFolded, ShapeTraits};
use crate::firsts::NamedTarget;
use crate::parts::BareShape;
use crate::stated::copied_id;
use sm_model::{GraphMember, GraphMembers, Kind};
use sm_tree::{NoMemory, Pairs, Text, Tree, copy_tree};
use std::alloc::Global;

/// The trait that has the value of an enum's member.
const ENUM_VALUE: &str = "smithy.api#enumValue";

/// What a shape of a graph has beside its own row.
#[derive(Drop)]
pub(crate) struct ShapePart {
    /// Its members, those of mixins too.
    pub members: GraphMembers,
    /// Its traits.
    pub traits: Pairs,
}

/// The members and traits of all shapes.
pub(crate) fn shape_parts(
    alloc: Global,
    rows: &[BareShape],
    members: &[Vec<NamedTarget>],
    traits: &[ShapeTraits],
) -> Result<Vec<ShapePart>, NoMemory>
    requires { AreAllSound traits.now }
    ensures { IfOk result (λ parts. parted_shapes rows.now parts.items ≡ made_shapes rows.now members.now traits.now) }
{
    let mut parts = Vec::with_capacity(alloc, rows.len())?;
    let mut lists = members.iter();
    let mut tables = traits.iter();
    for row in rows {
        match lists.next() {
            None => return Ok(parts),
            Some(list) => match tables.next() {
                None => return Ok(parts),
                Some(table) => parts.push(shape_part(alloc, row, list.as_slice(), table)?)?,
            },
        }
    }
    Ok(parts)
}

fn shape_part(
    alloc: Global,
    row: &BareShape,
    members: &[NamedTarget],
    traits: &ShapeTraits,
) -> Result<ShapePart, NoMemory>
    requires { AreSoundTraits traits.now }
    ensures { IfOk result (λ part. parted_shape (bare_view row.now) part ≡ made_shape (bare_view row.now) members.now traits.now) }
{
    let members = copied_members(alloc, row.kind, members, traits)?;
    let traits = copied_traits(alloc, traits.own.as_slice())?;
    Ok(ShapePart {
        members,
        traits: Pairs::new(traits),
    })
}

fn copied_members(
    alloc: Global,
    kind: Kind,
    members: &[NamedTarget],
    traits: &ShapeTraits,
) -> Result<GraphMembers, NoMemory>
    requires { AreSoundTraits traits.now }
    ensures { IfOk result (λ all. members_given_of all ≡ made_members kind traits.now.members.items (targets_view members.now)) }
{
    let mut all = Vec::with_capacity(alloc, members.len())?;
    for member in members {
        all.push(copied_member(alloc, kind, member, traits)?)?;
    }
    Ok(GraphMembers::new(all))
}

fn copied_member(
    alloc: Global,
    kind: Kind,
    member: &NamedTarget,
    traits: &ShapeTraits,
) -> Result<GraphMember, NoMemory>
    requires { AreSoundTraits traits.now }
    ensures { IfOk result (λ copy. member_given_view copy ≡ made_member kind traits.now.members.items (target_view member.now)) }
{
    let given = traits_of(traits.members.as_slice(), member.name);
    let traits = valued_traits(alloc, kind, member.name, given)?;
    let name = Text::copy(alloc, member.name)?;
    let target = copied_id(alloc, member.target)?;
    Ok(GraphMember {
        name,
        target,
        traits: Pairs::new(traits),
    })
}

// The traits of a member, with its value if it is an enum's and has none.
fn valued_traits(
    alloc: Global,
    kind: Kind,
    name: &str,
    given: &[NamedFolded],
) -> Result<Vec<(Text, Tree)>, NoMemory>
    requires { Rise (trait_names given.now) }
    ensures { IfOk result (λ all. members_view all.items ≡ valued kind name.now (trait_pairs given.now)) }
{
    let mut all = copied_traits(alloc, given)?;
    if !lacks_value(kind, given) {
        return Ok(all);
    }
    let value = Tree::Text(Text::copy(alloc, name)?);
    put_pair(alloc, ENUM_VALUE, value, &mut all)?;
    Ok(all)
}

fn copied_traits(alloc: Global, traits: &[NamedFolded]) -> Result<Vec<(Text, Tree)>, NoMemory>
    ensures { IfOk result (λ all. members_view all.items ≡ trait_pairs traits.now) }
{
    let mut all = Vec::with_capacity(alloc, traits.len())?;
    for one in traits {
        let value = copy_tree(alloc, &one.folded.value)?;
        all.push((Text::copy(alloc, one.name)?, value))?;
    }
    Ok(all)
}

/// Whether a member of a shape of this type, which has these traits, gets its name for a value.
pub(crate) fn lacks_value(kind: Kind, traits: &[NamedFolded]) -> bool
    requires { Rise (trait_names traits.now) }
    ensures { result ≡ is_lacking kind (trait_pairs traits.now) }
{
    if kind.name() != "enum" {
        return false;
    }
    !has_trait(traits, ENUM_VALUE)
}

fn has_trait(traits: &[NamedFolded], name: &str) -> bool
    requires { Rise (trait_names traits.now) }
    ensures { result ≡ is_some (fin.find text_cmp name.now (trait_pairs traits.now)) }
{
    match traits.binary_search_by(|one| one.name.cmp(name)) {
        Ok(_) => true,
        Err(_) => false,
    }
}

/// The traits of the member of a name.
pub(crate) fn traits_of<'a, 'b>(
    members: &'a [MemberTraits<'b>],
    name: &str,
) -> &'a [NamedFolded<'b>]
    requires { Rise (member_names members.now) }
    ensures { result.now ≡ traits_of_member name.now members.now }
{
    match members.binary_search_by(|one| one.member.as_str().cmp(name)) {
        Ok(number) => traits_in(members, number),
        Err(_) => &[],
    }
}

fn traits_in<'a, 'b>(members: &'a [MemberTraits<'b>], number: usize) -> &'a [NamedFolded<'b>]
    requires { number < length members.now }
    ensures { IsSomeAnd (slice_get members.now number) (λ m. result.now ≡ m.traits.items) }
{
    members[number].traits.as_slice()
}
