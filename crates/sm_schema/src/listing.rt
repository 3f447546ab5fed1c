// The places that have a definition, in their order, and the number of each. Time as the table's members.
ghost use Rattle.std.specs.Prelude.{◌≡◌, ◌<◌, ◌&&◌, ◌∷◌, [], None, true, false, IfOk, OnOk, replicate};
ghost use Rattle.std.specs.Cmp.Lexicographic.{pointwise};
ghost use Rattle.std.specs.Ordering.{int_eq};
ghost use Rattle.std.specs.Str.{bytes_eq};
ghost use Rattle.sm_shapes.specs.ConstraintView.{constraint_data};
ghost use Rattle.sm_shapes.specs.InOrder.{Shaped};
ghost use Rattle.sm_shapes.specs.Places.{root_place};
ghost use Rattle.sm_shapes.specs.TableData.{shape_count, member_count, kind_at, target_at};
ghost use Rattle.sm_shapes.specs.TableView.{table_data};
ghost use Rattle.sm_codec.specs.Codec.{InTable};
ghost use Rattle.sm_codec.specs.PlaceView.{place_of};
ghost use Rattle.sm_schema.specs.Definitions as the;
ghost use Rattle.sm_schema.specs.steps.Numbered.{AllMembers, AreListed, AreNumbered, numbered, places_in};

use sm_codec::ValuePlace;
use sm_shapes::constraints::Constraints;
use sm_shapes::kinds::ShapeKind;
use sm_shapes::tables::Table;
use sm_tree::{NoMemory, Text};
use std::alloc::Global;

/// The places that have a definition. The numbers of places of shapes and of members stand at these numbers.
#[derive(Debug, Drop)]
pub(crate) struct DefinedPlaces {
    /// The places, in order.
    pub(crate) places: Vec<ValuePlace>,
    /// How many stand before the place of each shape that has a definition.
    pub(crate) shapes: Vec<Option<usize>>,
    /// How many stand before the place of each member that has a definition of its own.
    pub(crate) members: Vec<Option<usize>>,
    /// Whether it is known that members have the values of their targets' enums: then none are compared.
    pub(crate) values_known: bool,
}

// No numbers yet, of so many.
fn no_numbers(alloc: Global, count: usize) -> Result<Vec<Option<usize>>, NoMemory>
    ensures { IfOk result (λ numbers. numbers.items ≡ replicate count None) }
{
    let mut numbers = Vec::with_capacity(alloc, count)?;
    for _ in 0..count {
        numbers.push(None)?;
    }
    Ok(numbers)
}

impl DefinedPlaces {
    // No places yet.
    fn new(alloc: Global, table: &Table, values_known: bool) -> Result<Self, NoMemory>
        requires { values_known ≡ true → the.HaveTargetsValues (table_data table.now) }
        ensures numbered { IfOk result (λ all. AreNumbered (table_data table.now) all) }
        ensures places { IfOk result (λ all. places_in all ≡ []) }
    {
        let shapes = no_numbers(alloc, table.shapes.as_slice().len())?;
        let members = no_numbers(alloc, table.members.as_slice().len())?;
        Ok(DefinedPlaces {
            places: Vec::new(alloc),
            shapes,
            members,
            values_known,
        })
    }

    /// The number of a place, where it is one of these. No memory.
    pub(crate) fn number(&self, table: &Table, place: ValuePlace) -> Option<usize>
        requires inside { InTable (table_data table.now) (place_of place) }
        requires numbered { AreNumbered (table_data table.now) self.now }
        ensures { result ≡ numbered (places_in self.now) (place_of place) }
    {
        match place {
            ValuePlace::Root(shape) => self.shapes[shape as usize],
            ValuePlace::Member(member) => self.members[member as usize],
        }
    }

    // Puts a place behind those that are there.
    fn add(&mut self, table: &Table, place: ValuePlace) -> Result<(), NoMemory>
        requires inside { InTable (table_data table.now) (place_of place) }
        requires numbered { AreNumbered (table_data table.now) self.old }
        requires new { the.has_place (place_of place) (places_in self.old) ≡ false }
        ensures numbered { OnOk result (AreNumbered (table_data table.now) self.new) }
        ensures places { OnOk result (places_in self.new ≡ the.with_place (places_in self.old) (place_of place)) }
    {
        let number = self.places.len();
        self.places.push(place)?;
        match place {
            ValuePlace::Root(shape) => {
                self.shapes[shape as usize] = Some(number);
                Ok(())
            }
            ValuePlace::Member(member) => {
                self.members[member as usize] = Some(number);
                Ok(())
            }
        }
    }

    // Puts a place behind those that are there, if it isn't one of them.
    fn put(&mut self, table: &Table, place: ValuePlace) -> Result<(), NoMemory>
        requires inside { InTable (table_data table.now) (place_of place) }
        requires numbered { AreNumbered (table_data table.now) self.old }
        ensures numbered { OnOk result (AreNumbered (table_data table.now) self.new) }
        ensures places { OnOk result (places_in self.new ≡ the.with_place (places_in self.old) (place_of place)) }
    {
        match self.number(table, place) {
            Some(_) => Ok(()),
            None => self.add(table, place),
        }
    }

    // Puts the places of members behind those that are there.
    fn put_members(&mut self, table: &Table, members: &[u32]) -> Result<(), NoMemory>
        requires shaped { Shaped (table_data table.now) }
        requires members { AllMembers (table_data table.now) members.now }
        requires numbered { AreNumbered (table_data table.now) self.old }
        ensures numbered { OnOk result (AreNumbered (table_data table.now) self.new) }
        ensures places { OnOk result (places_in self.new ≡ the.with_members (table_data table.now) (places_in self.old) members.now) }
    {
        for member in members {
            self.put(table, member_defined(table, *member, self.values_known))?;
        }
        Ok(())
    }
}

fn same_bound(one: Option<i64>, other: Option<i64>) -> bool
    ensures { result ≡ the.same_bound one other }
{
    match one {
        None => other.is_none(),
        Some(one) => match other {
            None => false,
            Some(other) => one == other,
        },
    }
}

fn same_pattern(one: Option<u32>, other: Option<u32>) -> bool
    ensures { result ≡ the.same_pattern one other }
{
    match one {
        None => other.is_none(),
        Some(one) => match other {
            None => false,
            Some(other) => one == other,
        },
    }
}

fn same_texts(one: &[Text], other: &[Text]) -> bool
    ensures { result ≡ pointwise bytes_eq one.now other.now }
{
    one == other
}

fn same_numbers(one: &[i64], other: &[i64]) -> bool
    ensures { result ≡ pointwise int_eq one.now other.now }
{
    one == other
}

// Whether the values of an enum are the same. Where it is known that they are, none is compared.
fn same_values(one: &Constraints, other: &Constraints, known: bool) -> bool
    requires { known ≡ true → (one.now.texts ≡ other.now.texts) × (one.now.numbers ≡ other.now.numbers) }
    ensures { result ≡ (pointwise bytes_eq one.now.texts other.now.texts && pointwise int_eq one.now.numbers other.now.numbers) }
{
    if known {
        return true;
    }
    same_texts(one.texts.as_slice(), other.texts.as_slice())
        && same_numbers(one.numbers.as_slice(), other.numbers.as_slice())
}

fn same_constraints(one: &Constraints, other: &Constraints, known: bool) -> bool
    requires { known ≡ true → (one.now.texts ≡ other.now.texts) × (one.now.numbers ≡ other.now.numbers) }
    ensures { result ≡ the.same_constraints (constraint_data one.now) (constraint_data other.now) }
{
    same_bound(one.min, other.min)
        && same_bound(one.max, other.max)
        && same_pattern(one.pattern, other.pattern)
        && same_values(one, other, known)
}

// Whether a member has its target's constraints.
fn has_targets(table: &Table, member: u32, known: bool) -> bool
    requires shaped { Shaped (table_data table.now) }
    requires member { member < member_count (table_data table.now) }
    requires known { known ≡ true → the.HaveTargetsValues (table_data table.now) }
    ensures { result ≡ the.has_targets (table_data table.now) member }
{
    let row = table.member(member);
    same_constraints(
        &row.constraints,
        &table.shape(row.target).constraints,
        known,
    )
}

// Whether a member whose target is of this kind has the definition of that shape.
fn has_shapes(table: &Table, member: u32, kind: ShapeKind, known: bool) -> bool
    requires shaped { Shaped (table_data table.now) }
    requires member { member < member_count (table_data table.now) }
    requires known { known ≡ true → the.HaveTargetsValues (table_data table.now) }
    ensures { result ≡ the.has_shapes (table_data table.now) member kind }
{
    match kind {
        ShapeKind::Structure => true,
        ShapeKind::Union => true,
        ShapeKind::Enum => has_targets(table, member, known),
        ShapeKind::IntEnum => has_targets(table, member, known),
        ShapeKind::Blob => false,
        ShapeKind::Boolean => false,
        ShapeKind::Text => false,
        ShapeKind::Byte => false,
        ShapeKind::Short => false,
        ShapeKind::Integer => false,
        ShapeKind::Long => false,
        ShapeKind::Timestamp => false,
        ShapeKind::List => false,
        ShapeKind::Map => false,
        ShapeKind::LeftOut => false,
    }
}

// The place whose definition a member has.
fn member_defined(table: &Table, member: u32, known: bool) -> ValuePlace
    requires shaped { Shaped (table_data table.now) }
    requires member { member < member_count (table_data table.now) }
    requires known { known ≡ true → the.HaveTargetsValues (table_data table.now) }
    ensures place { place_of result ≡ the.member_defined (table_data table.now) member }
    ensures inside { InTable (table_data table.now) (place_of result) }
{
    let target = table.target(member);
    if has_shapes(table, member, table.kind(target), known) {
        ValuePlace::Root(target)
    } else {
        ValuePlace::Member(member)
    }
}

/// The place whose definition a place has. No memory.
pub(crate) fn defined_place(table: &Table, place: ValuePlace, known: bool) -> ValuePlace
    requires shaped { Shaped (table_data table.now) }
    requires inside { InTable (table_data table.now) (place_of place) }
    requires known { known ≡ true → the.HaveTargetsValues (table_data table.now) }
    ensures place { place_of result ≡ the.defined_place (table_data table.now) (place_of place) }
    ensures inside { InTable (table_data table.now) (place_of result) }
{
    match place {
        ValuePlace::Root(shape) => ValuePlace::Root(shape),
        ValuePlace::Member(member) => member_defined(table, member, known),
    }
}

/// All places that have a definition in the schema of a shape, in their order.
pub(crate) fn defined_places(
    alloc: Global,
    table: &Table,
    shape: u32,
    values_known: bool,
) -> Result<DefinedPlaces, NoMemory>
    requires shaped { Shaped (table_data table.now) }
    requires shape { shape < shape_count (table_data table.now) }
    requires known { values_known ≡ true → the.HaveTargetsValues (table_data table.now) }
    ensures numbered { IfOk result (λ all. AreNumbered (table_data table.now) all) }
    ensures listed { IfOk result (λ all. AreListed (table_data table.now) shape (places_in all)) }
{
    let mut all = DefinedPlaces::new(alloc, table, values_known)?;
    all.put(table, ValuePlace::Root(shape))?;
    for turn in 0..usize::MAX {
        if all.places.len() <= turn {
            return Ok(all);
        }
        let place = all.places[turn];
        all.put_members(table, table.members(place.shape(table)))?;
    }
    unreachable!()
}
