// Bodies of operations, services and resources, and traits, where ids become others or are gone.
ghost use Rattle.std.specs.Prelude.{◌≡◌, ◌++◌, ◌∷◌, [], IfOk, None, OnOk, Some, if◌then◌else◌};
ghost use Rattle.std.specs.List.{cons_option, filter_map};
ghost use Rattle.std.specs.Option.{option_map};
ghost use Rattle.sm_tree.specs.Node.{members_of, nodes_of, text};
ghost use Rattle.sm_tree.specs.Parts.{entries_in, pairs_in};
ghost use Rattle.sm_tree.specs.View.{members_view, node_of, nodes_view};
ghost use Rattle.sm_model.specs.Properties.{form_named, property_forms};
ghost use Rattle.sm_transform.specs.IdChanges.{body_after, field_after, is_needed as is_needed_field, list_left, listed_after};
ghost use Rattle.sm_transform.specs.IdChanges.{named_after, object_left, reference_after, renames_after, trait_after, value_after};
ghost use Rattle.sm_transform.specs.steps.Changing.{named_field, named_reference};

use crate::ids::ChangesIds;
use sm_model::{Kind, PropertyForm, entries_of, pairs_of, text_of};
use sm_tree::{Items, NoMemory, Pairs, Text, Tree, copy_tree};
use std::alloc::Global;

// What becomes of a reference; what is no text is none.
fn changed_reference<C: ChangesIds>(
    alloc: Global,
    change: &C,
    tree: &Tree,
) -> Result<Option<Tree>, NoMemory>
    ensures { IfOk result (λ found. option_map node_of found ≡ reference_after (C.after change.now) (node_of tree.now)) }
{
    match text_of(tree) {
        Some(id) => changed_text(alloc, change, id),
        None => {
            let copy = copy_tree(alloc, tree)?;
            Ok(Some(copy))
        }
    }
}

// What becomes of an id, as a text.
fn changed_text<C: ChangesIds>(
    alloc: Global,
    change: &C,
    id: &str,
) -> Result<Option<Tree>, NoMemory>
    ensures { IfOk result (λ found. option_map node_of found ≡ option_map text (C.after change.now id.now)) }
{
    let found = change.text(alloc, id)?;
    match found {
        Some(text) => Ok(Some(Tree::Text(text))),
        None => Ok(None),
    }
}

// What is left of references in a list.
fn changed_entries<C: ChangesIds>(
    alloc: Global,
    change: &C,
    items: &[Tree],
) -> Result<Vec<Tree>, NoMemory>
    ensures { IfOk result
        (λ left. nodes_view left.items ≡ filter_map (reference_after (C.after change.now)) (nodes_view items.now)) }
{
    let mut entries = Vec::new(alloc);
    for item in items {
        put_entry(alloc, change, item, &mut entries)?;
    }
    Ok(entries)
}

fn put_entry<C: ChangesIds>(
    alloc: Global,
    change: &C,
    item: &Tree,
    entries: &mut Vec<Tree>,
) -> Result<(), NoMemory>
    ensures { OnOk result (nodes_view entries.new.items
        ≡ nodes_view entries.old.items ++ filter_map (reference_after (C.after change.now)) (node_of item.now ∷ [])) }
{
    let found = changed_reference(alloc, change, item)?;
    match found {
        Some(tree) => {
            entries.push(tree)?;
            Ok(())
        }
        None => Ok(()),
    }
}

// What is left of references under names.
fn changed_values<C: ChangesIds>(
    alloc: Global,
    change: &C,
    pairs: &[(Text, Tree)],
) -> Result<Vec<(Text, Tree)>, NoMemory>
    ensures { IfOk result
        (λ left. members_view left.items ≡ filter_map (named_reference (C.after change.now)) (members_view pairs.now)) }
{
    let mut left = Vec::new(alloc);
    for pair in pairs {
        put_value(alloc, change, &pair.0, &pair.1, &mut left)?;
    }
    Ok(left)
}

fn put_value<C: ChangesIds>(
    alloc: Global,
    change: &C,
    name: &Text,
    tree: &Tree,
    left: &mut Vec<(Text, Tree)>,
) -> Result<(), NoMemory>
    ensures { OnOk result (members_view left.new.items
        ≡ members_view left.old.items ++ filter_map (named_reference (C.after change.now)) ((name.now, node_of tree.now) ∷ [])) }
{
    let found = changed_reference(alloc, change, tree)?;
    put_named(alloc, name, found, left)
}

// Appends a tree under a name, if there is one.
fn put_named(
    alloc: Global,
    name: &Text,
    found: Option<Tree>,
    left: &mut Vec<(Text, Tree)>,
) -> Result<(), NoMemory>
    ensures { OnOk result (members_view left.new.items
        ≡ members_view left.old.items ++ cons_option (option_map (λ n. (name.now, n)) (option_map node_of found)) []) }
{
    match found {
        Some(tree) => {
            left.push((Text::copy(alloc, name.as_str())?, tree))?;
            Ok(())
        }
        None => Ok(()),
    }
}

/// What is left of pairs under ids, each with a copy of its value.
pub(crate) fn changed_keyed<C: ChangesIds>(
    alloc: Global,
    change: &C,
    pairs: &[(Text, Tree)],
) -> Result<Vec<(Text, Tree)>, NoMemory>
    ensures { IfOk result
        (λ left. members_view left.items ≡ filter_map (trait_after (C.after change.now)) (members_view pairs.now)) }
{
    let mut left = Vec::new(alloc);
    for pair in pairs {
        put_keyed(alloc, change, pair.0.as_str(), &pair.1, &mut left)?;
    }
    Ok(left)
}

fn put_keyed<C: ChangesIds>(
    alloc: Global,
    change: &C,
    id: &str,
    tree: &Tree,
    left: &mut Vec<(Text, Tree)>,
) -> Result<(), NoMemory>
    ensures { OnOk result (members_view left.new.items
        ≡ members_view left.old.items ++ filter_map (trait_after (C.after change.now)) ((id.now, node_of tree.now) ∷ [])) }
{
    let found = change.text(alloc, id)?;
    match found {
        Some(key) => {
            left.push((key, copy_tree(alloc, tree)?))?;
            Ok(())
        }
        None => Ok(()),
    }
}

// A list of which this is left; one of which nothing is left is gone.
fn left_list(items: &[Tree], left: Vec<Tree>) -> Option<Tree>
    ensures { option_map node_of result ≡ list_left (nodes_of (nodes_view items.now)) (nodes_of (nodes_view left.items)) }
{
    if items.is_empty() {
        return Some(Tree::List(Items::new(left)));
    }
    if left.as_slice().is_empty() {
        return None;
    }
    Some(Tree::List(Items::new(left)))
}

// The same of an object.
fn left_object(pairs: &[(Text, Tree)], left: Vec<(Text, Tree)>) -> Option<Tree>
    ensures { option_map node_of result ≡ object_left (members_of (members_view pairs.now)) (members_of (members_view left.items)) }
{
    if pairs.is_empty() {
        return Some(Tree::Object(Pairs::new(left)));
    }
    if left.as_slice().is_empty() {
        return None;
    }
    Some(Tree::Object(Pairs::new(left)))
}

// What becomes of what stands in a field of this form.
fn changed_value<C: ChangesIds>(
    alloc: Global,
    change: &C,
    form: PropertyForm,
    tree: &Tree,
) -> Result<Option<Tree>, NoMemory>
    ensures { IfOk result (λ found. option_map node_of found ≡ value_after (C.after change.now) form (node_of tree.now)) }
{
    match form {
        PropertyForm::Reference => changed_reference(alloc, change, tree),
        PropertyForm::References => changed_list(alloc, change, tree),
        PropertyForm::NamedReferences => changed_named(alloc, change, tree),
        PropertyForm::Text => copied(alloc, tree),
        PropertyForm::Rename => changed_renames(alloc, change, tree),
    }
}

fn copied(alloc: Global, tree: &Tree) -> Result<Option<Tree>, NoMemory>
    ensures { IfOk result (λ found. option_map node_of found ≡ Some (node_of tree.now)) }
{
    let copy = copy_tree(alloc, tree)?;
    Ok(Some(copy))
}

fn changed_list<C: ChangesIds>(
    alloc: Global,
    change: &C,
    tree: &Tree,
) -> Result<Option<Tree>, NoMemory>
    ensures { IfOk result (λ found. option_map node_of found
        ≡ listed_after (C.after change.now) (node_of tree.now) (entries_in (node_of tree.now))) }
{
    match entries_of(tree) {
        Some(items) => {
            let left = changed_entries(alloc, change, items)?;
            Ok(left_list(items, left))
        }
        None => copied(alloc, tree),
    }
}

fn changed_named<C: ChangesIds>(
    alloc: Global,
    change: &C,
    tree: &Tree,
) -> Result<Option<Tree>, NoMemory>
    ensures { IfOk result (λ found. option_map node_of found
        ≡ named_after (C.after change.now) (node_of tree.now) (pairs_in (node_of tree.now))) }
{
    match pairs_of(tree) {
        Some(pairs) => {
            let left = changed_values(alloc, change, pairs)?;
            Ok(left_object(pairs, left))
        }
        None => copied(alloc, tree),
    }
}

fn changed_renames<C: ChangesIds>(
    alloc: Global,
    change: &C,
    tree: &Tree,
) -> Result<Option<Tree>, NoMemory>
    ensures { IfOk result (λ found. option_map node_of found
        ≡ renames_after (C.after change.now) (node_of tree.now) (pairs_in (node_of tree.now))) }
{
    match pairs_of(tree) {
        Some(pairs) => {
            let left = changed_keyed(alloc, change, pairs)?;
            Ok(left_object(pairs, left))
        }
        None => copied(alloc, tree),
    }
}

// What becomes of a field.
fn changed_field<C: ChangesIds>(
    alloc: Global,
    change: &C,
    kind: Kind,
    name: &str,
    tree: &Tree,
) -> Result<Option<Tree>, NoMemory>
    ensures { IfOk result (λ found. option_map node_of found
        ≡ field_after (C.after change.now) (is_needed_field kind name.now) (form_named name.now (property_forms kind)) (node_of tree.now)) }
{
    match PropertyForm::of(kind, name) {
        None => copied(alloc, tree),
        Some(form) => changed_known(alloc, change, form, is_needed(kind, name), tree),
    }
}

// Of a field of this form, which the type needs or not.
fn changed_known<C: ChangesIds>(
    alloc: Global,
    change: &C,
    form: PropertyForm,
    needed: bool,
    tree: &Tree,
) -> Result<Option<Tree>, NoMemory>
    ensures { IfOk result (λ found. option_map node_of found
        ≡ field_after (C.after change.now) needed (Some form) (node_of tree.now)) }
{
    let found = changed_value(alloc, change, form, tree)?;
    match found {
        Some(value) => Ok(Some(value)),
        None => gone(alloc, needed, tree),
    }
}

// Of one whose value is gone.
fn gone(alloc: Global, needed: bool, tree: &Tree) -> Result<Option<Tree>, NoMemory>
    ensures { IfOk result (λ found. option_map node_of found ≡ (if needed then Some (node_of tree.now) else None)) }
{
    if needed {
        copied(alloc, tree)
    } else {
        Ok(None)
    }
}

fn is_needed(kind: Kind, name: &str) -> bool
    ensures { result ≡ is_needed_field kind name.now }
{
    match kind {
        Kind::Operation => name == "input" || name == "output",
        _ => false,
    }
}

// What is left of fields.
fn changed_fields<C: ChangesIds>(
    alloc: Global,
    change: &C,
    kind: Kind,
    pairs: &[(Text, Tree)],
) -> Result<Vec<(Text, Tree)>, NoMemory>
    ensures { IfOk result
        (λ left. members_view left.items ≡ filter_map (named_field (C.after change.now) kind) (members_view pairs.now)) }
{
    let mut left = Vec::new(alloc);
    for pair in pairs {
        put_field(alloc, change, kind, &pair.0, &pair.1, &mut left)?;
    }
    Ok(left)
}

fn put_field<C: ChangesIds>(
    alloc: Global,
    change: &C,
    kind: Kind,
    name: &Text,
    tree: &Tree,
    left: &mut Vec<(Text, Tree)>,
) -> Result<(), NoMemory>
    ensures { OnOk result (members_view left.new.items
        ≡ members_view left.old.items ++ filter_map (named_field (C.after change.now) kind) ((name.now, node_of tree.now) ∷ [])) }
{
    let found = changed_field(alloc, change, kind, name.as_str(), tree)?;
    put_named(alloc, name, found, left)
}

/// What becomes of a body of a shape of this type.
pub(crate) fn changed_body<C: ChangesIds>(
    alloc: Global,
    change: &C,
    kind: Kind,
    tree: &Tree,
) -> Result<Tree, NoMemory>
    ensures { IfOk result (λ body. node_of body ≡ body_after (C.after change.now) kind (node_of tree.now)) }
{
    match pairs_of(tree) {
        Some(pairs) => {
            let left = changed_fields(alloc, change, kind, pairs)?;
            Ok(Tree::Object(Pairs::new(left)))
        }
        None => copy_tree(alloc, tree),
    }
}
