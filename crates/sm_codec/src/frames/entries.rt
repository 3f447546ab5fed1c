// What a frame of a list does where an entry's tree is closed, and where the list ends.
ghost use Rattle.std.specs.Prelude.{◌≡◌, ◌&&◌, [], None, IfOk, OnOk};
ghost use Rattle.sm_shapes.specs.Broken.{length_broken, has_twice};
ghost use Rattle.sm_shapes.specs.ConstraintView.{constraint_data};
ghost use Rattle.sm_shapes.specs.ValueView.{items_view};
ghost use Rattle.sm_codec.specs.FrameView.{entry_frame, arrival_of, outcome_of, fault_at};
ghost use Rattle.sm_codec.specs.steps.EntrySteps.{TakesEntry, entry_comes, KeepsEntryFault, list_ended, list_end};

use super::faults::{fault_here, under_step};
use super::{Arrival, EntryFrame, Outcome};
use sm_shapes::constraints::Constraints;
use sm_shapes::values::{Items, Value};
use sm_shapes::{Fault, FaultKind};
use sm_tree::{NoMemory, Step};
use std::alloc::Global;

// What an entry of a list, or a value of a map, comes to: null is a value in sparse ones alone. No memory.
pub(super) fn as_entry(alloc: Global, sparse: bool, arrival: Arrival) -> Arrival
    ensures { arrival_of result ≡ entry_comes sparse (arrival_of arrival) }
{
    match arrival {
        Arrival::Null => {
            if sparse {
                Arrival::Value(Value::Null)
            } else {
                Arrival::Fault(fault_here(alloc, FaultKind::Null))
            }
        }
        arrival => arrival,
    }
}

impl EntryFrame {
    // The frame of a list that opens.
    pub(crate) fn new(alloc: Global, shape: u32) -> Self
        ensures { entry_frame result ≡ record { shape = shape; items = []; count = 0; fault = None } }
    {
        EntryFrame {
            shape,
            items: Items::new(Vec::new(alloc)),
            count: 0,
            fault: None,
        }
    }

    // The tree of the next entry is closed. `NoMemory` too where the count is at its type's end.
    pub(crate) fn take(
        &mut self,
        alloc: Global,
        sparse: bool,
        arrival: Arrival,
    ) -> Result<(), NoMemory>
        ensures { OnOk result (TakesEntry sparse (arrival_of arrival) (entry_frame self.old) (entry_frame self.new)) }
    {
        let place = self.count;
        let Some(count) = place.checked_add(1) else {
            return Err(NoMemory);
        };
        self.count = count;
        match as_entry(alloc, sparse, arrival) {
            Arrival::Null => Ok(()),
            Arrival::Value(value) => self.items.push(value),
            Arrival::Fault(fault) => self.keep_first(place, fault),
        }
    }

    // Keeps the fault of an entry's tree, where none is kept yet.
    fn keep_first(&mut self, place: u64, fault: Fault) -> Result<(), NoMemory>
        ensures { OnOk result (KeepsEntryFault place (fault_at fault) (entry_frame self.old) (entry_frame self.new)) }
    {
        if self.fault.is_some() {
            return Ok(());
        }
        self.fault = Some(under_step(Step::Index(place), fault)?);
        Ok(())
    }

    // The list ends: its first fault, or its value.
    pub(crate) fn finish(
        self,
        alloc: Global,
        constraints: &Constraints,
        unique: bool,
    ) -> Result<Outcome, NoMemory>
        ensures { IfOk result (λ outcome. outcome_of outcome ≡ list_end (constraint_data constraints.now) unique (entry_frame self)) }
    {
        let EntryFrame {
            items,
            count,
            fault,
            ..
        } = self;
        match fault {
            Some(fault) => Ok(Outcome::Bad(fault)),
            None => without_fault(alloc, constraints, unique, count, items),
        }
    }
}

// What a list comes to whose entries have no fault.
fn without_fault(
    alloc: Global,
    constraints: &Constraints,
    unique: bool,
    count: u64,
    items: Items,
) -> Result<Outcome, NoMemory>
    ensures { IfOk result (λ outcome. outcome_of outcome ≡ list_ended None (length_broken (constraint_data constraints.now) count)
        (unique && has_twice (items_view items)) (items_view items)) }
{
    match constraints.judge_length(count as usize) {
        Some(kind) => Ok(Outcome::Bad(fault_here(alloc, kind))),
        None => match has_equal(alloc, unique, &items) {
            Ok(true) => Ok(Outcome::Bad(fault_here(alloc, FaultKind::Unique))),
            Ok(false) => {
                let mut items = items;
                items.shrink();
                Ok(Outcome::Good(Value::List(items)))
            }
            Err(refusal) => Err(refusal),
        },
    }
}

// Whether entries must differ and two are equal.
fn has_equal(alloc: Global, unique: bool, items: &Items) -> Result<bool, NoMemory>
    ensures { IfOk result (λ twice. twice ≡ (unique && has_twice (items_view items.now))) }
{
    if unique {
        items.has_twice(alloc)
    } else {
        Ok(false)
    }
}
