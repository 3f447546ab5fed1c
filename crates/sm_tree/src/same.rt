// Whether two trees are the same: objects as sets of pairs, and all else part by part. Each tree is written as its
// canonical form, in which the order of an object's pairs and how often a pair stands there are gone.
ghost use Rattle.std.specs.Prelude.{◌≡◌, ◌++◌, ◌↔◌, IsTrue, IfOk, IsOk, OnOk, [], ◌∷◌};
ghost use Rattle.sm_tree.specs.Node.{nodes_of, members_of};
ghost use Rattle.sm_tree.specs.View.{node_of, nodes_view, members_view};
ghost use Rattle.sm_tree.specs.Same.{Same};
ghost use Rattle.sm_tree.specs.steps.Canonical.{form, entries_form, pair_forms, joined, end_word};

mod form;

use crate::NoMemory;
use crate::text::Text;
use crate::tree::Tree;
use form::{BOOL, BYTES, END, INT, LIST, NAME, NULL, NUMBER, OBJECT, OPAQUE, SameForm, TAG, TEXT};
use std::alloc::Global;
use std::collections::BTreeSet;

/// Whether two trees are the same: objects as sets of pairs, whatever the order of the pairs and however often one is
/// repeated, and all else part by part. Trees that are equal as `==` says take no memory. Others take time as n * log n for
/// an object of n pairs, whatever their order and their names, and memory as n; each object around it costs as much again.
/// `NoMemory` where the allocator refuses memory.
pub fn is_same(alloc: Global, a: &Tree, b: &Tree) -> Result<bool, NoMemory>
    ensures same { IfOk result (λ same. IsTrue same ↔ Same (node_of a.now) (node_of b.now)) }
    ensures equal { node_of a.now ≡ node_of b.now → IsOk result }
{
    if *a == *b {
        return Ok(true);
    }
    let mut first = SameForm::new(alloc);
    put(alloc, a, &mut first)?;
    let mut second = SameForm::new(alloc);
    put(alloc, b, &mut second)?;
    Ok(first == second)
}

// Appends the canonical form of a tree.
#[tactic(auto, using(crate::proofs::SameViews::words_assoc))]
#[cycle(put)]
fn put<'a>(alloc: Global, tree: &'a Tree, out: &mut SameForm<'a>) -> Result<(), NoMemory>
    ensures { OnOk result (out.new ≡ out.old ++ form (node_of tree.now)) }
{
    match tree {
        Tree::Null => out.push(NULL, &[]),
        Tree::Bool(true) => out.push_number(BOOL, 1),
        Tree::Bool(false) => out.push_number(BOOL, 0),
        Tree::Int(number) => out.push_number(INT, i128::from(*number)),
        Tree::Number(text) => out.push(NUMBER, text.as_str().as_bytes()),
        Tree::Text(text) => out.push(TEXT, text.as_str().as_bytes()),
        Tree::Bytes(bytes) => out.push(BYTES, bytes.as_slice()),
        Tree::Tag(number, content) => {
            out.push_number(TAG, i128::from(*number))?;
            put(alloc, content, out)
        }
        Tree::Opaque(byte) => out.push_number(OPAQUE, i128::from(*byte)),
        Tree::List(items) => {
            out.push(LIST, &[])?;
            put_entries(alloc, items.as_slice(), out)
        }
        Tree::Object(pairs) => {
            out.push(OBJECT, &[])?;
            let forms = forms_of(alloc, pairs.as_slice())?;
            put_forms(&forms, out)
        }
    }
}

// Appends those of an array's trees, and where they end.
#[tactic(auto, using(crate::proofs::SameViews::words_assoc))]
#[cycle(put)]
fn put_entries<'a>(alloc: Global, items: &'a [Tree], out: &mut SameForm<'a>) -> Result<(), NoMemory>
    ensures { OnOk result (out.new ≡ out.old ++ entries_form (nodes_of (nodes_view items.now))) }
{
    for item in items {
        put(alloc, item, out)?;
    }
    out.push(END, &[])
}

// The forms of an object's pairs, in order, each once.
#[cycle(put)]
fn forms_of<'a>(
    alloc: Global,
    pairs: &'a [(Text, Tree)],
) -> Result<BTreeSet<SameForm<'a>>, NoMemory>
    ensures { IfOk result (λ forms. forms.keys ≡ pair_forms [] (members_of (members_view pairs.now))) }
{
    let mut forms = BTreeSet::new(alloc);
    for pair in pairs {
        let mut one = SameForm::new(alloc);
        one.push(NAME, pair.0.as_str().as_bytes())?;
        put(alloc, &pair.1, &mut one)?;
        forms.insert(one)?;
    }
    Ok(forms)
}

// Appends the forms of pairs, and where they end.
#[tactic(auto, using(crate::proofs::SameViews::words_assoc))]
fn put_forms<'a>(forms: &BTreeSet<SameForm<'a>>, out: &mut SameForm<'a>) -> Result<(), NoMemory>
    ensures { OnOk result (out.new ≡ out.old ++ (joined forms.now.keys ++ end_word ∷ [])) }
{
    for one in forms {
        out.append(one)?;
    }
    out.push(END, &[])
}
