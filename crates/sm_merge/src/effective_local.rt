// The traits that a mixin keeps for itself.
ghost use Rattle.std.specs.Prelude.{◌≡◌, ◌||◌, ℕ, List, None, Some, IfOk, OnOk};
ghost use Rattle.std.specs.List.{list_any};
ghost use Rattle.std.specs.Option.{unwrap_or};
ghost use Rattle.std.specs.Str.{bytes_eq};
ghost use Rattle.sm_tree.specs.Node.{no_nodes, node, nodes_of};
ghost use Rattle.sm_tree.specs.Parts.{entries_in};
ghost use Rattle.sm_tree.specs.View.{node_of, nodes_view};
ghost use Rattle.sm_merge.specs.Mixins.{local_traits, texts_among};
ghost use Rattle.sm_merge.specs.steps.Known.{has_text};

use sm_tree::{NoMemory, Text, Tree, entries_of, pairs_of, text_of, tree_under};
use std::alloc::Global;
use std::collections::BTreeSet;

/// Their ids, by the value of the trait `mixin`.
pub(crate) fn local_names<'a>(alloc: Global, value: &'a Tree) -> Result<BTreeSet<&'a str>, NoMemory>
    ensures { IfOk result (λ names. (id : List ℕ) → has_text names id ≡ list_any (bytes_eq id) (local_traits (node_of value.now))) }
{
    let mut names: BTreeSet<&'a str> = BTreeSet::new(alloc);
    let entries = local_entries(value);
    for entry in entries {
        put_local(&mut names, entry)?;
    }
    Ok(names)
}

// Puts the text that an entry is.
fn put_local<'a>(names: &mut BTreeSet<&'a str>, entry: &'a Tree) -> Result<(), NoMemory>
    ensures { OnOk result ((id : List ℕ) → has_text names.new id
        ≡ (has_text names.old id || list_any (bytes_eq id) (texts_among (node (node_of entry.now) no_nodes)))) }
{
    let Some(text) = text_of(entry) else {
        return Ok(());
    };
    match names.insert(text) {
        Ok(_) => Ok(()),
        Err(_) => Err(NoMemory),
    }
}

// The entries of `localTraits`.
fn local_entries(value: &Tree) -> &[Tree]
    ensures { texts_among (nodes_of (nodes_view result.now)) ≡ local_traits (node_of value.now) }
{
    let Some(pairs) = pairs_of(value) else {
        return &[];
    };
    match tree_under(pairs, "localTraits") {
        None => &[],
        Some(tree) => listed(tree),
    }
}

// The entries of a list; none of any other tree.
fn listed(tree: &Tree) -> &[Tree]
    ensures { nodes_of (nodes_view result.now) ≡ unwrap_or (entries_in (node_of tree.now)) no_nodes }
{
    match entries_of(tree) {
        None => &[],
        Some(entries) => entries,
    }
}
