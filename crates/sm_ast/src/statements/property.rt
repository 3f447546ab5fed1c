// The fields of operations, services and resources, as nodes whose ids are references.
ghost use Rattle.std.specs.Prelude.{◌≡◌, IfOk};
ghost use Rattle.sm_tree.specs.Node.{members_of, nodes_of};
ghost use Rattle.sm_tree.specs.View.{node_of, members_view, nodes_view};
ghost use Rattle.sm_model.specs.Properties.{property_forms};
ghost use Rattle.sm_model.specs.RawView.{raw_view, raws_view, raw_members_view};
ghost use Rattle.sm_ast.specs.steps.Saying.{property_pairs, property_said, reference_entries, reference_pairs};
ghost use Rattle.sm_ast.specs.steps.Saying.{text_pairs as texts_said};
ghost use Rattle.sm_model.specs.declared.property.PropertyForm.TheVariants.{Text as text_form};

use super::reference::reference;
use crate::part::{entries_or_none, pairs_or_none, text_or_empty};
use sm_model::{Kind, PropertyForm, RawItems, RawNode, RawPairs};
use sm_tree::{NoMemory, Text, Tree};
use std::alloc::Global;

/// The fields of a shape of this type, in the order of the pairs.
pub(crate) fn properties(
    alloc: Global,
    kind: Kind,
    pairs: &[(Text, Tree)],
) -> Result<Vec<(Text, RawNode)>, NoMemory>
    ensures { IfOk result (λ said. raw_members_view said.items ≡ property_pairs (property_forms kind)
        (members_of (members_view pairs.now))) }
{
    let mut properties = Vec::new(alloc);
    for pair in pairs {
        match PropertyForm::of(kind, pair.0.as_str()) {
            Some(form) => {
                let value = property(alloc, form, &pair.1)?;
                properties.push((Text::copy(alloc, pair.0.as_str())?, value))?;
            }
            None => {}
        }
    }
    Ok(properties)
}

fn property(alloc: Global, form: PropertyForm, tree: &Tree) -> Result<RawNode, NoMemory>
    ensures { IfOk result (λ said. raw_view said ≡ property_said form (node_of tree.now)) }
{
    match form {
        PropertyForm::Reference => Ok(RawNode::Id(reference(alloc, tree)?)),
        PropertyForm::References => {
            let entries = id_entries(alloc, entries_or_none(tree))?;
            Ok(RawNode::List(RawItems::new(entries)))
        }
        PropertyForm::NamedReferences => {
            let pairs = id_pairs(alloc, pairs_or_none(tree))?;
            Ok(RawNode::Object(RawPairs::new(pairs)))
        }
        PropertyForm::Text => raw_text(alloc, tree),
        PropertyForm::Rename => {
            let pairs = text_pairs(alloc, pairs_or_none(tree))?;
            Ok(RawNode::Object(RawPairs::new(pairs)))
        }
    }
}

fn raw_text(alloc: Global, tree: &Tree) -> Result<RawNode, NoMemory>
    ensures { IfOk result (λ said. raw_view said ≡ property_said text_form (node_of tree.now)) }
{
    let text = Text::copy(alloc, text_or_empty(tree))?;
    Ok(RawNode::Leaf(Tree::Text(text)))
}

fn id_entries(alloc: Global, entries: &[Tree]) -> Result<Vec<RawNode>, NoMemory>
    ensures { IfOk result (λ said. raws_view said.items ≡ reference_entries (nodes_of (nodes_view entries.now))) }
{
    let mut ids = Vec::new(alloc);
    for entry in entries {
        ids.push(RawNode::Id(reference(alloc, entry)?))?;
    }
    Ok(ids)
}

fn id_pairs(alloc: Global, pairs: &[(Text, Tree)]) -> Result<Vec<(Text, RawNode)>, NoMemory>
    ensures { IfOk result (λ said. raw_members_view said.items ≡ reference_pairs (members_of (members_view pairs.now))) }
{
    let mut ids = Vec::new(alloc);
    for pair in pairs {
        let value = RawNode::Id(reference(alloc, &pair.1)?);
        ids.push((Text::copy(alloc, pair.0.as_str())?, value))?;
    }
    Ok(ids)
}

fn text_pairs(alloc: Global, pairs: &[(Text, Tree)]) -> Result<Vec<(Text, RawNode)>, NoMemory>
    ensures { IfOk result (λ said. raw_members_view said.items ≡ texts_said (members_of (members_view pairs.now))) }
{
    let mut texts = Vec::new(alloc);
    for pair in pairs {
        let value = raw_text(alloc, &pair.1)?;
        texts.push((Text::copy(alloc, pair.0.as_str())?, value))?;
    }
    Ok(texts)
}
