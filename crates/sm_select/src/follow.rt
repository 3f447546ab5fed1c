// Where one step along links leads.
ghost use Rattle.std.specs.Prelude.{◌≡◌, ◌⊎◌, ◌↔◌, ℕ, IfOk, MatchBool, length};
ghost use Rattle.std.specs.List.{Contains};
ghost use Rattle.sm_model.specs.Reaching.{IsMarked};
ghost use Rattle.sm_select.specs.Followed.{AreFollowed, Follows, end_of, start_of};
ghost use Rattle.sm_select.specs.Neighbors.{AreBelow, IsBelow};

use sm_model::{Link, Relation, no_marks};
use sm_tree::NoMemory;
use std::alloc::Global;

/// The numbers to which links of these relations lead from marked ones, as marks; with `back` those from which they lead to marked
/// ones. Each link is looked at once. `NoMemory` where the marks find no room.
pub fn followed(
    alloc: Global,
    links: &[Link],
    relations: &[Relation],
    back: bool,
    starts: &[bool],
) -> Result<Vec<bool>, NoMemory>
    requires { AreBelow (length starts.now) links.now }
    ensures count { IfOk result (λ marks. length marks.items ≡ length starts.now) }
    ensures marked { IfOk result (λ marks. AreFollowed links.now relations.now back starts.now marks.items) }
{
    let mut marks = no_marks(alloc, starts.len())?;
    for link in links {
        mark_end(*link, relations, back, starts, &mut marks);
    }
    Ok(marks)
}

// Marks what a link leads to.
fn mark_end(link: Link, relations: &[Relation], back: bool, starts: &[bool], marks: &mut Vec<bool>)
    requires below { IsBelow (length starts.now) link }
    requires count { length marks.old.items ≡ length starts.now }
    ensures count { length marks.new.items ≡ length marks.old.items }
    ensures ends { (b : ℕ) → IsMarked marks.new.items b ↔ (IsMarked marks.old.items b ⊎ Follows relations.now back starts.now link b) }
{
    if leads(link, relations, back, starts) {
        marks[end_of(link, back) as usize] = true;
    }
}

// Whether a link of one of these relations leads from a marked number.
fn leads(link: Link, relations: &[Relation], back: bool, starts: &[bool]) -> bool
    requires below { IsBelow (length starts.now) link }
    ensures { MatchBool result
        (Contains relations.now link.relation × IsMarked starts.now (start_of back link))
        (Contains relations.now link.relation × IsMarked starts.now (start_of back link) → ⊥) }
{
    if starts[start_of(link, back) as usize] {
        is_among(relations, link.relation)
    } else {
        false
    }
}

// Where a link begins.
pub(crate) fn start_of(link: Link, back: bool) -> u32
    ensures { result ≡ start_of back link }
{
    if back { link.to } else { link.from }
}

// Where a link ends.
pub(crate) fn end_of(link: Link, back: bool) -> u32
    ensures { result ≡ end_of back link }
{
    if back { link.from } else { link.to }
}

// Whether a relation is one of these.
fn is_among(relations: &[Relation], relation: Relation) -> bool
    ensures { MatchBool result (Contains relations.now relation) (Contains relations.now relation → ⊥) }
{
    relations.contains(&relation)
}
