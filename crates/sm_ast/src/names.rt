// The names of an object's pairs so far: one that comes again is refused.
ghost use Rattle.std.specs.Prelude.{◌≡◌, ◌++◌, ℕ, List, [], ◌∷◌, IfOk};
ghost use Rattle.sm_ast.specs.Faults.{stands_in};
ghost use Rattle.sm_ast.specs.steps.Checks.{Remembers};

use sm_tree::NoMemory;
use std::collections::BTreeSet;

/// Remembers a name. Whether it stood before.
pub(crate) fn stands_again<'a>(
    seen: &mut BTreeSet<&'a str>,
    name: &'a str,
) -> Result<bool, NoMemory>
    ensures { (before : List (List ℕ)) → Remembers seen.old before →
        IfOk result (λ again. (again ≡ stands_in name.now before) × Remembers seen.new (before ++ name.now ∷ [])) }
{
    match seen.insert(name) {
        Ok(is_new) => Ok(!is_new),
        Err(_) => Err(NoMemory),
    }
}
