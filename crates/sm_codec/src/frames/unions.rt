// What a frame of a union does where a member's tree is closed, and where the union ends.
ghost use Rattle.std.specs.Prelude.{◌≡◌, ◌<◌, [], None, Some, IfOk, OnOk};
ghost use Rattle.sm_shapes.specs.InOrder.{Shaped};
ghost use Rattle.sm_shapes.specs.TableData.{shape_count, member_count};
ghost use Rattle.sm_shapes.specs.TableView.{table_data};
ghost use Rattle.sm_shapes.specs.ValueView.{val_of, fields_view};
ghost use Rattle.sm_codec.specs.FrameView.{member_frame, arrival_of, outcome_of, fault_at};
ghost use Rattle.sm_codec.specs.steps.UnionSteps.{is_repeat, is_free, union_end, TellsMore, ChoosesMember, KeepsRepeat, KeepsChoice};
ghost use Rattle.sm_codec.specs.steps.UnionSteps.{KeepsChoiceFault};

use super::faults::{fault_here, under_member};
use super::{Arrival, MemberFrame, Outcome};
use sm_shapes::tables::Table;
use sm_shapes::values::{Fields, Value};
use sm_shapes::{Fault, FaultKind};
use sm_tree::NoMemory;
use std::alloc::Global;

// Whether the fault of a union is that a member is repeated.
fn is_repeat(fault: &Fault) -> bool
    ensures { result ≡ is_repeat (fault_at fault.now) }
{
    match fault.kind {
        FaultKind::Repeated => fault.path.as_slice().len() == 1,
        _ => false,
    }
}

impl MemberFrame {
    // The tree of a union's member is closed.
    pub(crate) fn choose(
        &mut self,
        alloc: Global,
        table: &Table,
        member: u32,
        arrival: Arrival,
    ) -> Result<(), NoMemory>
        requires shape { self.old.shape < shape_count (table_data table.now) }
        requires member { member < member_count (table_data table.now) }
        requires shaped { Shaped (table_data table.now) }
        ensures { OnOk result (ChoosesMember (table_data table.now) member (arrival_of arrival) (member_frame self.old)
            (member_frame self.new)) }
    {
        self.current = None;
        if !self.seen.add(member)? {
            return self.keep_repeat(alloc, table, member);
        }
        match arrival {
            Arrival::Null => Ok(()),
            Arrival::Value(value) => self.choose_value(alloc, member, value),
            Arrival::Fault(fault) => self.choose_fault(alloc, table, member, fault),
        }
    }

    // A member stands once more: the first that does so is told.
    fn keep_repeat(&mut self, alloc: Global, table: &Table, member: u32) -> Result<(), NoMemory>
        requires shape { self.old.shape < shape_count (table_data table.now) }
        requires member { member < member_count (table_data table.now) }
        requires shaped { Shaped (table_data table.now) }
        ensures { OnOk result (KeepsRepeat (table_data table.now) member (member_frame self.old) (member_frame self.new)) }
    {
        let here = fault_here(alloc, FaultKind::Repeated);
        match &self.fault {
            Some(old) if is_repeat(old) => self.keep_first(alloc, table, member, here),
            _ => {
                self.fault = Some(under_member(alloc, table, member, here)?);
                Ok(())
            }
        }
    }

    // Whether no member stands yet, and none is repeated.
    fn is_free(&self) -> bool
        ensures { result ≡ is_free (member_frame self.now).fields (member_frame self.now).fault }
    {
        self.fault.is_none() && self.fields.as_slice().is_empty()
    }

    // One more member stands: that goes before the faults of one, and not before a repeat. No memory.
    fn tell_more(&mut self, alloc: Global)
        ensures { TellsMore (member_frame self.old) (member_frame self.new) }
    {
        match &self.fault {
            Some(old) if is_repeat(old) => {}
            _ => self.fault = Some(fault_here(alloc, FaultKind::UnionCount)),
        }
    }

    // A member's value: the union's where no other stands.
    fn choose_value(&mut self, alloc: Global, member: u32, value: Value) -> Result<(), NoMemory>
        ensures { OnOk result (KeepsChoice member (val_of value) (member_frame self.old) (member_frame self.new)) }
    {
        if self.is_free() {
            return self.fields.put(member, value);
        }
        self.tell_more(alloc);
        Ok(())
    }

    // A member's fault: the union's where no other stands.
    fn choose_fault(
        &mut self,
        alloc: Global,
        table: &Table,
        member: u32,
        fault: Fault,
    ) -> Result<(), NoMemory>
        requires member { member < member_count (table_data table.now) }
        ensures { OnOk result (KeepsChoiceFault (table_data table.now) member (fault_at fault) (member_frame self.old)
            (member_frame self.new)) }
    {
        if self.is_free() {
            self.fault = Some(under_member(alloc, table, member, fault)?);
            return Ok(());
        }
        self.tell_more(alloc);
        Ok(())
    }

    // The union ends: its fault, or its value.
    pub(crate) fn finish_union(self, alloc: Global) -> Result<Outcome, NoMemory>
        ensures { IfOk result (λ outcome. outcome_of outcome ≡ union_end (member_frame self).fields (member_frame self).fault) }
    {
        let MemberFrame { fields, fault, .. } = self;
        match fault {
            Some(fault) => Ok(Outcome::Bad(fault)),
            None => only_value(alloc, fields),
        }
    }
}

// The value of a union without a fault: that of the one member that stands, if one does.
fn only_value(alloc: Global, fields: Fields) -> Result<Outcome, NoMemory>
    ensures { IfOk result (λ outcome. outcome_of outcome ≡ union_end (fields_view fields) None) }
{
    let mut fields = fields.into_inner();
    if fields.is_empty() {
        return Ok(Outcome::Bad(fault_here(alloc, FaultKind::UnionCount)));
    }
    let (member, value) = fields.remove(0);
    match Box::new(alloc, value) {
        Ok(value) => Ok(Outcome::Good(Value::Union(member, value))),
        Err(_) => Err(NoMemory),
    }
}
