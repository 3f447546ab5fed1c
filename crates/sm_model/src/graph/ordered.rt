// Trees under names that are in order.
ghost use Rattle.std.specs.Prelude.{◌≡◌, ◌<◌, IsSomeAnd, IsTrue, MatchOption, None, Some, length, slice_get};
ghost use Rattle.std.specs.FinMap as fin;
ghost use Rattle.sm_tree.specs.View.{node_of, members_view};
ghost use Rattle.sm_model.specs.Graphs.{text_cmp};

use sm_tree::{Text, Tree};

/// The tree under a name. No memory.
pub(crate) fn value_under<'a>(pairs: &'a [(Text, Tree)], name: &str) -> Option<&'a Tree>
    requires { IsTrue (fin.is_sorted text_cmp (members_view pairs.now)) }
    ensures { MatchOption result
        (fin.find text_cmp name.now (members_view pairs.now) ≡ None)
        (λ t. fin.find text_cmp name.now (members_view pairs.now) ≡ Some (node_of t.now)) }
{
    match pairs.binary_search_by(|pair| pair.0.as_str().cmp(name)) {
        Ok(place) => Some(tree_at(pairs, place)),
        Err(_) => None,
    }
}

// The tree at a place.
fn tree_at(pairs: &[(Text, Tree)], place: usize) -> &Tree
    requires { place < length pairs.now }
    ensures { IsSomeAnd (slice_get pairs.now place) (λ pair. result.now ≡ pair.1) }
{
    &pairs[place].1
}
