// How the text that a value shows stands to other texts ("Attribute comparators").
ghost use Rattle.std.specs.Prelude.{◌≡◌, ◌↔◌, IfOk, IsTrue, MatchOption, None, Some, false, map, true};
ghost use Rattle.sm_tree.specs.Node.{bool};
ghost use Rattle.sm_tree.specs.View.{node_of};
ghost use Rattle.sm_select.specs.Picks.{BeginsWith, EndsWith, HasWithin, StandsTo, StandsToOne, compared_text, folded, is_whole_number};
ghost use Rattle.sm_select.specs.steps.Filtering.{Shows, found_node};

use crate::selector::SelectorOp;
use crate::values::Found;
use itoa::Buffer;
use memchr::memmem;
use sm_tree::{NoMemory, Text, Tree};
use std::alloc::Global;

/// Whether what was found shows a text that stands so to one of these values.
pub(crate) fn shows(
    alloc: Global,
    found: Found<'_>,
    op: SelectorOp,
    fold: bool,
    values: &[Text],
) -> Result<bool, NoMemory>
    ensures { IfOk result (λ said. IsTrue said ↔ Shows op fold values.now (found_node found.entry)) }
{
    match found {
        Found::Part(part) => stands(alloc, op, fold, part, values),
        Found::Value(tree) => tree_shows(alloc, tree, op, fold, values),
    }
}

fn tree_shows(
    alloc: Global,
    tree: &Tree,
    op: SelectorOp,
    fold: bool,
    values: &[Text],
) -> Result<bool, NoMemory>
    ensures { IfOk result (λ said. IsTrue said ↔ Shows op fold values.now (node_of tree.now)) }
{
    let mut digits = Buffer::new();
    match text_shown(tree, &mut digits) {
        Some(text) => stands(alloc, op, fold, text, values),
        None => Ok(false),
    }
}

// The text of a value that is compared; that of a number is written into `digits`.
fn text_shown<'a>(tree: &'a Tree, digits: &'a mut Buffer) -> Option<&'a str>
    ensures { MatchOption result
        (compared_text (node_of tree.now) ≡ None)
        (λ t. compared_text (node_of tree.now) ≡ Some t.now) }
{
    match tree {
        Tree::Text(text) => Some(text.as_str()),
        Tree::Int(value) => Some(digits.format(*value)),
        Tree::Bool(value) => Some(truth(*value)),
        Tree::Number(text) => whole(text.as_str()),
        Tree::Null
        | Tree::Bytes(_)
        | Tree::Tag(_, _)
        | Tree::Opaque(_)
        | Tree::List(_)
        | Tree::Object(_) => None,
    }
}

// The text where it is that of a whole number.
fn whole(text: &str) -> Option<&str>
    ensures { MatchOption result
        (is_whole_number text.now ≡ false)
        (λ t. (is_whole_number text.now ≡ true) × (t.now ≡ text.now)) }
{
    if is_whole(text.as_bytes()) {
        Some(text)
    } else {
        None
    }
}

fn truth(value: bool) -> &'static str
    ensures { compared_text (bool value) ≡ Some result.now }
{
    if value { "true" } else { "false" }
}

fn is_whole(text: &[u8]) -> bool
    ensures { result ≡ is_whole_number text.now }
{
    for byte in text {
        if !(byte.is_ascii_digit() || *byte == b'-') {
            return false;
        }
    }
    true
}

// The text, in lower case where it is folded.
fn folded_text(alloc: Global, fold: bool, text: &str) -> Result<Text, NoMemory>
    ensures { IfOk result (λ copy. copy ≡ folded fold text.now) }
{
    if fold {
        Ok(Text::new(text.to_ascii_lowercase(alloc)?))
    } else {
        Text::copy(alloc, text)
    }
}

/// The texts, each in lower case where they are folded.
pub(crate) fn folded_values(
    alloc: Global,
    fold: bool,
    values: &[Text],
) -> Result<Vec<Text>, NoMemory>
    ensures { IfOk result (λ copies. copies.items ≡ map (folded fold) values.now) }
{
    let mut copies = Vec::with_capacity(alloc, values.len())?;
    for value in values {
        copies.push(folded_text(alloc, fold, value.as_str())?)?;
    }
    Ok(copies)
}

// Whether a text, folded or not, stands so to one of these values.
fn stands(
    alloc: Global,
    op: SelectorOp,
    fold: bool,
    text: &str,
    values: &[Text],
) -> Result<bool, NoMemory>
    ensures { IfOk result (λ said. IsTrue said ↔ StandsToOne op (folded fold text.now) values.now) }
{
    if fold {
        let lower = folded_text(alloc, fold, text)?;
        Ok(stands_to_one(op, lower.as_str(), values))
    } else {
        Ok(stands_to_one(op, text, values))
    }
}

fn stands_to_one(op: SelectorOp, text: &str, values: &[Text]) -> bool
    ensures { IsTrue result ↔ StandsToOne op text.now values.now }
{
    for value in values {
        if stands_to(op, text, value.as_str()) {
            return true;
        }
    }
    false
}

/// Whether a text stands so to a value. No memory; linear in both.
pub(crate) fn stands_to(op: SelectorOp, text: &str, value: &str) -> bool
    ensures { IsTrue result ↔ StandsTo op text.now value.now }
{
    match op {
        SelectorOp::Equal => text == value,
        SelectorOp::Unequal => text != value,
        SelectorOp::Starts => starts_with(text.as_bytes(), value.as_bytes()),
        SelectorOp::Ends => ends_with(text.as_bytes(), value.as_bytes()),
        SelectorOp::Contains => contains(text.as_bytes(), value.as_bytes()),
    }
}

fn starts_with(text: &[u8], value: &[u8]) -> bool
    ensures { IsTrue result ↔ BeginsWith text.now value.now }
{
    text.starts_with(value)
}

fn ends_with(text: &[u8], value: &[u8]) -> bool
    ensures { IsTrue result ↔ EndsWith text.now value.now }
{
    text.ends_with(value)
}

fn contains(text: &[u8], value: &[u8]) -> bool
    ensures { IsTrue result ↔ HasWithin text.now value.now }
{
    match memmem::find(text, value) {
        Some(_) => true,
        None => false,
    }
}
