// The mixins of a shape each once. One that is named again has nothing more to give: the first member of a name stays, so for members each
// mixin counts where it stands first; the last value of a trait stays, so for traits it counts where it stands last.
ghost use Rattle.std.specs.Prelude.{◌≡◌, ◌==◌, ◌||◌, ◌∷◌, ◌++◌, [], ℕ, reverse, IfOk, OnOk};
ghost use Rattle.sm_merge.specs.steps.MixinsOnce.{has_number, mixins_once, unseen_mixins};

use crate::mixins::Contributing;
use sm_tree::NoMemory;
use std::alloc::Global;
use std::collections::BTreeSet;

/// These mixins, each where it stands first.
pub(crate) fn first_mixins<'a>(
    alloc: Global,
    mixed: &[Contributing<'a>],
) -> Result<Vec<Contributing<'a>>, NoMemory>
    ensures { IfOk result (λ once. once.items ≡ mixins_once mixed.now) }
{
    let mut seen: BTreeSet<usize> = BTreeSet::new(alloc);
    let mut once = Vec::with_capacity(alloc, mixed.len())?;
    for mixin in mixed {
        put_unseen(&mut seen, &mut once, mixin)?;
    }
    Ok(once)
}

/// These mixins, each where it stands last.
pub(crate) fn last_mixins<'a>(
    alloc: Global,
    mixed: &[Contributing<'a>],
) -> Result<Vec<Contributing<'a>>, NoMemory>
    ensures { IfOk result (λ once. once.items ≡ reverse (mixins_once (reverse mixed.now))) }
{
    let mut turned = Vec::with_capacity(alloc, mixed.len())?;
    turned.extend_from_slice(mixed)?;
    turned.reverse();
    let mut once = first_mixins(alloc, turned.as_slice())?;
    once.reverse();
    Ok(once)
}

// Puts a mixin, unless its number was seen.
fn put_unseen<'a>(
    seen: &mut BTreeSet<usize>,
    once: &mut Vec<Contributing<'a>>,
    mixin: &Contributing<'a>,
) -> Result<(), NoMemory>
    ensures seen { OnOk result ((n : ℕ) → has_number seen.new n ≡ (has_number seen.old n || (mixin.now.number == n))) }
    ensures once { OnOk result (once.new.items ≡ once.old.items ++ unseen_mixins (has_number seen.old) (mixin.now ∷ [])) }
{
    if seen.contains(&mixin.number) {
        return Ok(());
    }
    match seen.insert(mixin.number) {
        Ok(_) => {
            once.push(*mixin)?;
            Ok(())
        }
        Err(_) => Err(NoMemory),
    }
}
