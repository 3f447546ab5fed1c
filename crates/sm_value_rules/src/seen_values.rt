// The values of the members of enums, and those that were seen.
ghost use Rattle.std.specs.Prelude.{◌≡◌, ◌||◌, ℕ, ℤ, List, IfOk, OnOk, false, not};
ghost use Rattle.std.specs.Option.{option_copied, option_map};
ghost use Rattle.std.specs.Ordering.{int_eq};
ghost use Rattle.std.specs.Str.{bytes_eq};
ghost use Rattle.sm_tree.specs.Node.{Node};
ghost use Rattle.sm_model.specs.GraphView.{IsShapeNumber};
ghost use Rattle.sm_model.specs.Joins.{Joins};
ghost use Rattle.sm_value_rules.specs.steps.Enums.{right_number, right_text, value_at};
ghost use Rattle.sm_value_rules.specs.steps.SeenValues.{Holds, has_number, has_text, holds, value_node};

use sm_compile::trait_ids::ENUM_VALUE;
use sm_compile::{fits_word, number_of, text_in_trait, trait_node};
use sm_model::{Graph, Kind};
use sm_tree::NoMemory;
use std::alloc::Global;
use std::collections::BTreeSet;

/// The value of a member of an enum.
#[derive(Debug, Clone, Copy, Drop)]
pub enum EnumValue<'a> {
    /// That of a member of an enum.
    Text(&'a str),
    /// That of a member of an intEnum.
    Number(i64),
}

/// The value of a member of an enum of this type; `None` where it isn't one of that type. No memory.
pub fn value_of(graph: &Graph, kind: Kind, member: u32) -> Option<EnumValue<'_>>
    requires { IsShapeNumber graph.now member }
    ensures { option_map value_node result ≡ value_at graph.now kind member }
{
    let tree = trait_node(graph, member, ENUM_VALUE);
    match kind {
        Kind::Enum => text_value(text_in_trait(tree)),
        Kind::IntEnum => number_value(number_of(tree)),
        _ => None,
    }
}

// A text that isn't empty.
fn text_value(text: Option<&str>) -> Option<EnumValue<'_>>
    ensures { option_map value_node result ≡ right_text (option_copied text.entry) }
{
    match text {
        Some(text) => {
            if text.is_empty() {
                None
            } else {
                Some(EnumValue::Text(text))
            }
        }
        None => None,
    }
}

// A number of 32 bits.
fn number_value<'a>(number: Option<i64>) -> Option<EnumValue<'a>>
    ensures { option_map value_node result ≡ right_number number }
{
    match number {
        Some(number) => {
            if fits_word(number) {
                Some(EnumValue::Number(number))
            } else {
                None
            }
        }
        None => None,
    }
}

/// Values that were seen.
#[derive(Drop)]
pub struct SeenValues<'a> {
    /// The texts.
    pub texts: BTreeSet<&'a str>,
    /// The numbers.
    pub numbers: BTreeSet<i64>,
}

impl<'a> SeenValues<'a> {
    /// None yet. No memory.
    pub fn new(alloc: Global) -> Self
        ensures { (n : Node) → holds result n ≡ false }
    {
        let texts: BTreeSet<&'a str> = BTreeSet::new(alloc);
        let numbers: BTreeSet<i64> = BTreeSet::new(alloc);
        SeenValues { texts, numbers }
    }

    /// Takes a value, and tells whether it is new. `NoMemory` where there is no room for it.
    pub fn take(&mut self, value: EnumValue<'a>) -> Result<bool, NoMemory>
        ensures new { IfOk result (λ new. new ≡ not (holds self.old (value_node value.entry))) }
        ensures held { OnOk result (Joins (Holds self.old) (λ n. value_node value.entry ≡ n) (Holds self.new)) }
    {
        match value {
            EnumValue::Text(text) => {
                let new = take_text(&mut self.texts, text)?;
                Ok(new)
            }
            EnumValue::Number(number) => {
                let new = take_number(&mut self.numbers, number)?;
                Ok(new)
            }
        }
    }
}

fn take_text<'a>(texts: &mut BTreeSet<&'a str>, text: &'a str) -> Result<bool, NoMemory>
    ensures new { IfOk result (λ new. new ≡ not (has_text texts.old text.now)) }
    ensures held { OnOk result ((t : List ℕ) → has_text texts.new t ≡ (has_text texts.old t || bytes_eq text.now t)) }
{
    if texts.contains(text) {
        return Ok(false);
    }
    match texts.insert(text) {
        Ok(_) => Ok(true),
        Err(_) => Err(NoMemory),
    }
}

fn take_number(numbers: &mut BTreeSet<i64>, number: i64) -> Result<bool, NoMemory>
    ensures new { IfOk result (λ new. new ≡ not (has_number numbers.old number)) }
    ensures held { OnOk result ((z : ℤ) → has_number numbers.new z ≡ (has_number numbers.old z || int_eq number z)) }
{
    if numbers.contains(&number) {
        return Ok(false);
    }
    match numbers.insert(number) {
        Ok(_) => Ok(true),
        Err(_) => Err(NoMemory),
    }
}
