// Trait.Value and Trait.Place by the table: values are as the rows of their traits say, and traits stand where these allow it.
ghost use Rattle.std.specs.Prelude.{◌≡◌, ◌&&◌, OnOk, cond, not};
ghost use Rattle.sm_tree.specs.View.{node_of};
ghost use Rattle.sm_model.specs.GraphView.{maps_of};
ghost use Rattle.sm_rules.specs.Traits.{HasOtherValue, StandsElsewhere};
ghost use Rattle.sm_rules.specs.RuleEvents.{IsEventOf, Puts};
ghost use Rattle.sm_rules.specs.declared.rule.Rule.TheVariants.{TraitPlace, TraitValue};
ghost use Rattle.sm_passes.specs.RowTests.{any_row, is_wrong_place, is_wrong_value, reads_by, reads_there, some_said, stands_by};

use crate::judged::{Judge, Judged};
use sm_model::Graph;
use sm_passes::each::put_outside;
use sm_passes::putting::{Events, Put};
use sm_passes::rows::form::{RowForm, is_of_form};
use sm_passes::rows::names::{AnyRow, FoundRows, RowTest, rows_of};
use sm_passes::rows::place::{RowPlace, Stand, allows};
use sm_rules::Rule;
use sm_tree::Tree;
use std::alloc::Global;

#[derive(Drop)]
struct StandsBy {
    at: Stand,
}

impl RowTest for StandsBy {
    ghost passes = { λ test. stands_by test.at };

    fn passes(&self, _form: RowForm, place: RowPlace) -> bool {
        allows(place, self.at)
    }
}

#[derive(Drop)]
struct ReadsBy<'a> {
    tree: &'a Tree,
}

impl RowTest for ReadsBy<'_> {
    ghost passes = { λ test. reads_by (node_of test.tree.now) };

    fn passes(&self, form: RowForm, _place: RowPlace) -> bool {
        is_of_form(form, self.tree)
    }
}

#[derive(Drop)]
struct ReadsThere<'a> {
    at: Stand,
    tree: &'a Tree,
}

impl RowTest for ReadsThere<'_> {
    ghost passes = { λ test. reads_there test.at (node_of test.tree.now) };

    fn passes(&self, form: RowForm, place: RowPlace) -> bool {
        let here = allows(place, self.at);
        let reads = is_of_form(form, self.tree);
        both(here, reads)
    }
}

fn both(one: bool, other: bool) -> bool
    ensures { result ≡ (one && other) }
{
    one && other
}

#[derive(Drop)]
struct Values;

impl Judge for Values {
    ghost rule = { λ judge. TraitValue };

    ghost wrong = { λ judge. is_wrong_value };

    fn rule(&self) -> Rule {
        Rule::TraitValue
    }

    fn is_wrong(&self, name: &str, at: Stand, tree: &Tree) -> bool {
        has_other_value(rows_of(name), at, tree)
    }
}

// Whether some row names the trait, and its value isn't as they say.
fn has_other_value(rows: FoundRows, at: Stand, tree: &Tree) -> bool
    ensures { result ≡ (some_said any_row rows && not (cond (some_said (stands_by at) rows)
        (some_said (reads_there at (node_of tree.now)) rows) (some_said (reads_by (node_of tree.now)) rows))) }
{
    rows.some(&AnyRow) && !reads(rows, at, tree)
}

// Whether a value is as a row says that allows the place, or as any row says where none does.
fn reads(rows: FoundRows, at: Stand, tree: &Tree) -> bool
    ensures { result ≡ cond (some_said (stands_by at) rows) (some_said (reads_there at (node_of tree.now)) rows)
        (some_said (reads_by (node_of tree.now)) rows) }
{
    if rows.some(&StandsBy { at }) {
        rows.some(&ReadsThere { at, tree })
    } else {
        rows.some(&ReadsBy { tree })
    }
}

#[derive(Drop)]
struct Stands;

impl Judge for Stands {
    ghost rule = { λ judge. TraitPlace };

    ghost wrong = { λ judge. is_wrong_place };

    fn rule(&self) -> Rule {
        Rule::TraitPlace
    }

    fn is_wrong(&self, name: &str, at: Stand, _tree: &Tree) -> bool {
        stands_elsewhere(rows_of(name), at)
    }
}

// Whether some row names the trait, and none allows the place.
fn stands_elsewhere(rows: FoundRows, at: Stand) -> bool
    ensures { result ≡ (some_said any_row rows && not (some_said (stands_by at) rows)) }
{
    rows.some(&AnyRow) && !rows.some(&StandsBy { at })
}

/// Puts the events of Trait.Value that the table tells. Linear in the graph and the values of its traits.
pub fn put_other_values(alloc: Global, graph: &Graph, events: &mut Events) -> Put
    ensures { OnOk result
        (Puts (IsEventOf TraitValue (HasOtherValue (maps_of graph.now))) events.old.items events.new.items) }
{
    put_outside(alloc, graph, &Judged { judge: &Values }, events)?;
    Ok(())
}

/// Puts the events of Trait.Place that the table tells. Linear in the graph.
pub fn put_other_places(alloc: Global, graph: &Graph, events: &mut Events) -> Put
    ensures { OnOk result
        (Puts (IsEventOf TraitPlace (StandsElsewhere (maps_of graph.now))) events.old.items events.new.items) }
{
    put_outside(alloc, graph, &Judged { judge: &Stands }, events)?;
    Ok(())
}
