// Members of several shapes, one after the other: each name once, where it stands first.
ghost use Rattle.std.specs.Prelude.{◌≡◌, ◌++◌, ◌∷◌, [], ◌||◌, ℕ, List, OnOk};
ghost use Rattle.std.specs.Str.{bytes_eq};
ghost use Rattle.sm_merge.specs.steps.Firsts.{firsts, is_name_of, targets_view, unseen};
ghost use Rattle.sm_merge.specs.steps.Known.{has_text};

use sm_ids::ShapeId;
use sm_tree::NoMemory;
use std::collections::BTreeSet;

/// The name of a member, and the id that it targets.
#[derive(Clone, Copy, Drop)]
pub(crate) struct NamedTarget<'a> {
    /// The name.
    pub name: &'a str,
    /// The target.
    pub target: &'a ShapeId,
}

/// Puts members behind those that are there, but none of a name that was seen.
pub(crate) fn put_firsts<'a>(
    seen: &mut BTreeSet<&'a str>,
    all: &mut Vec<NamedTarget<'a>>,
    more: &[NamedTarget<'a>],
) -> Result<(), NoMemory>
    ensures seen { OnOk result ((id : List ℕ) → has_text seen.new id ≡ (has_text seen.old id || is_name_of id (targets_view more.now))) }
    ensures all { OnOk result (targets_view all.new.items
        ≡ targets_view all.old.items ++ unseen (has_text seen.old) (firsts (targets_view more.now))) }
{
    for one in more {
        put_first(seen, all, one.name, one.target)?;
    }
    Ok(())
}

/// Puts a member, unless its name was seen.
pub(crate) fn put_first<'a>(
    seen: &mut BTreeSet<&'a str>,
    all: &mut Vec<NamedTarget<'a>>,
    name: &'a str,
    target: &'a ShapeId,
) -> Result<(), NoMemory>
    ensures seen { OnOk result ((id : List ℕ) → has_text seen.new id ≡ (has_text seen.old id || bytes_eq name.now id)) }
    ensures all { OnOk result (targets_view all.new.items ≡ targets_view all.old.items ++ unseen (has_text seen.old)
        ((name.now, target.now) ∷ [])) }
{
    if seen.contains(name) {
        return Ok(());
    }
    match seen.insert(name) {
        Ok(_) => {
            all.push(NamedTarget { name, target })?;
            Ok(())
        }
        Err(_) => Err(NoMemory),
    }
}
