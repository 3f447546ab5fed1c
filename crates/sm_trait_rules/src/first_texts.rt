// Traits whose selectors have one text: for each trait one with its text, the same for all of them.
ghost use Rattle.std.specs.Prelude.{◌≡◌, IfOk, None, OnOk, codes, cond};
ghost use Rattle.std.specs.Option.{option_copied, option_map};
ghost use Rattle.sm_tree.specs.View.{node_of};
ghost use Rattle.sm_model.specs.GraphView.{IsShapeNumber, maps_of};
ghost use Rattle.sm_model.specs.Reaching.{id_of_number};
ghost use Rattle.sm_compile.specs.TraitNodes.{field_of, text_of};
ghost use Rattle.sm_passes.specs.Firsts.{number_in};
ghost use Rattle.sm_passes.specs.Forms.{is_trait_value};
ghost use Rattle.sm_trait_rules.specs.steps.Placing.{AreFirsts, AreSeen, IsTextAt, SharesText, selector_in, selector_under};

use sm_compile::trait_ids::TRAIT;
use sm_compile::{field_of, text_in_trait, trait_node};
use sm_model::Graph;
use sm_passes::firsts::first_of;
use sm_passes::owned::is_own_shape;
use sm_passes::rows::form::{RowForm, is_of_form};
use sm_tree::{NoMemory, Tree};
use std::alloc::Global;
use std::collections::BTreeMap;

/// For each number that of the first trait whose selector has the same text, where there is a trait with a selector. n log n in the
/// graph and in these texts.
pub(crate) fn first_texts(alloc: Global, graph: &Graph) -> Result<Vec<Option<u32>>, NoMemory>
    ensures { IfOk result (λ firsts. AreFirsts graph.now firsts.items) }
{
    let mut seen: BTreeMap<&str, u32> = BTreeMap::new(alloc);
    let mut firsts = Vec::with_capacity(alloc, graph.count() as usize)?;
    for number in 0..graph.count() {
        let first = first_at(graph, number, &mut seen)?;
        firsts.push(first)?;
    }
    Ok(firsts)
}

// The one of the trait at a number, which is seen then.
fn first_at<'a>(
    graph: &'a Graph,
    number: u32,
    seen: &mut BTreeMap<&'a str, u32>,
) -> Result<Option<u32>, NoMemory>
    requires number { IsShapeNumber graph.now number }
    requires seen { AreSeen graph.now (number_in seen.old) }
    ensures shares { IfOk result (λ first. SharesText graph.now number first) }
    ensures seen { OnOk result (AreSeen graph.now (number_in seen.new)) }
{
    match selector_at(graph, number) {
        Some(text) => {
            let first = first_with(graph, number, text, seen)?;
            Ok(Some(first))
        }
        None => Ok(None),
    }
}

// The one with a text, which the trait at a number has too.
fn first_with<'a>(
    graph: &'a Graph,
    number: u32,
    text: &'a str,
    seen: &mut BTreeMap<&'a str, u32>,
) -> Result<u32, NoMemory>
    requires number { IsTextAt graph.now text.now number }
    requires seen { AreSeen graph.now (number_in seen.old) }
    ensures first { IfOk result (λ first. IsTextAt graph.now text.now first) }
    ensures seen { OnOk result (AreSeen graph.now (number_in seen.new)) }
{
    match first_of(seen, text) {
        Some(first) => Ok(first),
        None => {
            seen.insert(text, number)?;
            Ok(number)
        }
    }
}

/// The text of the selector of a trait shape outside of the prelude. No memory.
pub(crate) fn selector_at(graph: &Graph, number: u32) -> Option<&str>
    requires { IsShapeNumber graph.now number }
    ensures { option_copied result ≡ selector_under (maps_of graph.now) (id_of_number graph.now number) }
{
    if is_own_shape(graph, number) {
        selector_in(trait_node(graph, number, TRAIT))
    } else {
        None
    }
}

// The one in the value of `trait`.
fn selector_in(tree: Option<&Tree>) -> Option<&str>
    ensures { option_copied result ≡ selector_in (option_map (λ t. node_of t.now) tree.entry) }
{
    match tree {
        Some(tree) => selector_of(tree),
        None => None,
    }
}

fn selector_of(tree: &Tree) -> Option<&str>
    ensures { option_copied result
        ≡ cond (is_trait_value (node_of tree.now)) (text_of (field_of (codes "selector") (node_of tree.now))) None }
{
    if is_of_form(RowForm::Trait, tree) {
        text_in_trait(field_of(tree, "selector"))
    } else {
        None
    }
}
