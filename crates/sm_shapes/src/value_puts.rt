// Values as they come: entries of a list in their order, and fields of a structure in any order of the members, each to its place in
// model order.
ghost use Rattle.std.specs.Prelude.{◌≡◌, ◌≤◌, ◌++◌, ◌∷◌, [], length, OnOk};
ghost use Rattle.sm_shapes.specs.ValueView.{val_of, fields_view, each_field_view, items_view};
ghost use Rattle.sm_shapes.specs.FieldPuts.{put_field, has_field, FieldsRise, IsPlaceOf};

use crate::values::{Fields, Items, Value};
use sm_tree::NoMemory;

impl Fields {
    /// Puts a member's value at its place in model order: before the first field whose number isn't lower. A binary search; what
    /// stands behind the place moves. `NoMemory` where the field finds no room.
    pub fn put(&mut self, member: u32, value: Value) -> Result<(), NoMemory>
        requires rises { FieldsRise (fields_view self.old) }
        ensures { OnOk result (fields_view self.new ≡ put_field member (val_of value) (fields_view self.old)) }
    {
        let place = place_of(&self.fields, member);
        self.fields.insert(place, (member, value))?;
        Ok(())
    }

    /// Whether a member has a field. A binary search. No memory.
    pub fn has(&self, member: u32) -> bool
        requires rises { FieldsRise (fields_view self.now) }
        ensures { result ≡ has_field member (fields_view self.now) }
    {
        let place = place_of(&self.fields, member);
        match self.fields.get(place) {
            Some(field) => field.0 == member,
            None => false,
        }
    }

    /// Gives back the room that no field takes. No memory.
    pub fn shrink(&mut self)
        ensures { fields_view self.new ≡ fields_view self.old }
    {
        self.fields.shrink_to_fit();
    }
}

impl Items {
    /// Gives back the room that no entry takes. No memory.
    pub fn shrink(&mut self)
        ensures { items_view self.new ≡ items_view self.old }
    {
        self.items.shrink_to_fit();
    }

    /// Puts an entry behind the others. `NoMemory` where it finds no room.
    pub fn push(&mut self, value: Value) -> Result<(), NoMemory>
        ensures { OnOk result (items_view self.new ≡ items_view self.old ++ val_of value ∷ []) }
    {
        match self.items.push(value) {
            Ok(()) => Ok(()),
            Err(_) => Err(NoMemory),
        }
    }
}

// The place before the first field whose number isn't lower.
fn place_of(fields: &[(u32, Value)], member: u32) -> usize
    requires { FieldsRise (each_field_view fields.now) }
    ensures bound { result ≤ length fields.now }
    ensures place { IsPlaceOf member fields.now result }
{
    fields.partition_point(|field| field.0 < member)
}
