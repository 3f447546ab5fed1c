// The mixins of shapes, by numbers: a shape's number is its place in the order of all ids.
ghost use Rattle.std.specs.Prelude.{◌≡◌, ◌<◌, ◌↔◌, List, length, IfOk, IfSome, OnOk, IsTrue};
ghost use Rattle.sm_model.specs.steps.Rising.{Rise};
ghost use Rattle.sm_merge.specs.Stated.{ShapeStated, Stated};
ghost use Rattle.sm_merge.specs.steps.Contributing.{AreWalkedTables, MayContribute, NamesRise, TellsMixin};
ghost use Rattle.sm_merge.specs.steps.Links.{At, links_view};
ghost use Rattle.sm_merge.specs.steps.MixinLinks.{AreLinksOf, LinksTo, PutsNumber, WalksMixins, mixins_in};
ghost use Rattle.sm_merge.specs.steps.ShapeTables.{ids_of};
ghost use Rattle.sm_merge.specs.steps.Tables.{places_in};

use crate::look::{position, traits_at, value_named};
use crate::parts::BareShape;
use crate::table::PlaceRow;
use crate::walk::{Walk, walk_through};
use sm_model::Kind;
use sm_tree::{NoMemory, Text, Tree};
use std::alloc::Global;

/// The trait that marks a mixin.
pub(crate) const MIXIN: &str = "smithy.api#mixin";

/// A mixin that contributes to a shape.
#[derive(Clone, Copy, Drop)]
pub(crate) struct Contributing<'a> {
    /// Its number.
    pub number: usize,
    /// The value of its trait `mixin`.
    pub value: &'a Tree,
}

// The numbers of the shapes that each shape mixes in, but for those that aren't there.
fn mixin_links(alloc: Global, rows: &[BareShape]) -> Result<Vec<Vec<usize>>, NoMemory>
    requires { Rise (ids_of rows.now) }
    ensures { IfOk result (λ links. AreLinksOf (ids_of rows.now) (mixins_in rows.now) (links_view links.items)) }
{
    let mut links = Vec::with_capacity(alloc, rows.len())?;
    for row in rows {
        links.push(mixin_numbers(alloc, rows, row.mixins.as_slice())?)?;
    }
    Ok(links)
}

/// The walk over all shapes, from each to those that it mixes in.
pub(crate) fn mixin_walk(alloc: Global, rows: &[BareShape]) -> Result<Walk, NoMemory>
    requires { Rise (ids_of rows.now) }
    ensures { IfOk result (WalksMixins rows.now) }
{
    let links = mixin_links(alloc, rows)?;
    walk_through(alloc, links.as_slice())
}

fn mixin_numbers(alloc: Global, rows: &[BareShape], mixins: &[Text]) -> Result<Vec<usize>, NoMemory>
    requires { Rise (ids_of rows.now) }
    ensures { IfOk result (λ numbers. LinksTo (ids_of rows.now) mixins.now numbers.items) }
{
    let mut numbers = Vec::with_capacity(alloc, mixins.len())?;
    for mixin in mixins {
        put_number(rows, mixin.as_str(), &mut numbers)?;
    }
    Ok(numbers)
}

fn put_number(rows: &[BareShape], mixin: &str, numbers: &mut Vec<usize>) -> Result<(), NoMemory>
    requires { Rise (ids_of rows.now) }
    ensures { OnOk result (PutsNumber (ids_of rows.now) mixin.now numbers.old.items numbers.new.items) }
{
    match position(rows, mixin) {
        None => Ok(()),
        Some(number) => Ok(numbers.push(number)?),
    }
}

/// The mixin of this id, if it contributes to shapes of this type: it is there, of the same type, marked, and on no cycle.
pub(crate) fn contribution_of<'a>(
    rows: &[BareShape],
    traits: &'a [PlaceRow],
    walk: &Walk,
    kind: Kind,
    mixin: &str,
) -> Option<Contributing<'a>>
    requires ids { Rise (ids_of rows.now) }
    requires places { Rise (places_in traits.now) }
    requires names { NamesRise traits.now }
    requires walked { length walk.now.status.items ≡ length rows.now }
    ensures inside { IfSome result (λ c. c.number < length rows.now) }
    ensures told { (ss : List Stated) (s : ShapeStated) → AreWalkedTables ss rows.now traits.now walk.now
        → s.shape.kind ≡ kind → TellsMixin ss rows.now s mixin.now result }
{
    match position(rows, mixin) {
        None => None,
        Some(number) => contribution_by(rows, traits, walk, kind, mixin, number),
    }
}

fn contribution_by<'a>(
    rows: &[BareShape],
    traits: &'a [PlaceRow],
    walk: &Walk,
    kind: Kind,
    mixin: &str,
    number: usize,
) -> Option<Contributing<'a>>
    requires places { Rise (places_in traits.now) }
    requires names { NamesRise traits.now }
    requires number { At (ids_of rows.now) number mixin.now }
    requires inside { number < length rows.now }
    requires walked { length walk.now.status.items ≡ length rows.now }
    ensures inside { IfSome result (λ c. c.number < length rows.now) }
    ensures told { (ss : List Stated) (s : ShapeStated) → AreWalkedTables ss rows.now traits.now walk.now
        → s.shape.kind ≡ kind → TellsMixin ss rows.now s mixin.now result }
{
    if !may_contribute(rows, walk, kind, number) {
        return None;
    }
    match value_named(traits_at(traits, mixin), MIXIN) {
        None => None,
        Some(folded) => Some(Contributing {
            number,
            value: &folded.value,
        }),
    }
}

// Whether the shape of a number is of this type, and on no cycle.
fn may_contribute(rows: &[BareShape], walk: &Walk, kind: Kind, number: usize) -> bool
    requires number { number < length rows.now }
    requires walked { length walk.now.status.items ≡ length rows.now }
    ensures { IsTrue result ↔ MayContribute rows.now walk.now kind number }
{
    if walk.is_on_ring(number) {
        return false;
    }
    is_of(&rows[number], kind)
}

fn is_of(row: &BareShape, kind: Kind) -> bool
    ensures { IsTrue result ↔ (row.now.kind ≡ kind) }
{
    row.kind == kind
}
