// What a frame of a structure does where a name comes, and where a member's tree is closed.
ghost use Rattle.std.specs.Prelude.{◌≡◌, ◌<◌, [], None, OnOk};
ghost use Rattle.sm_shapes.specs.InOrder.{Shaped};
ghost use Rattle.sm_shapes.specs.TableData.{shape_count, member_count, members_at, member_with};
ghost use Rattle.sm_shapes.specs.TableView.{table_data};
ghost use Rattle.sm_shapes.specs.FieldPuts.{FieldsRise};
ghost use Rattle.sm_codec.specs.FrameView.{member_frame, arrival_of, fault_at};
ghost use Rattle.sm_codec.specs.steps.MemberSteps.{TakesMember, KeepsFault, IsNamed};

use super::faults::{fault_here, under_member, yields_to};
use super::{Arrival, MemberFrame, Members};
use crate::Leaves;
use sm_shapes::tables::Table;
use sm_shapes::values::Fields;
use sm_shapes::{Fault, FaultKind};
use sm_tree::NoMemory;
use std::alloc::Global;

impl MemberFrame {
    // The frame of a structure or a union that opens.
    pub(crate) fn new(alloc: Global, shape: u32) -> Self
        ensures { member_frame result ≡ record { shape = shape; fields = []; seen = []; current = None; fault = None } }
    {
        MemberFrame {
            shape,
            fields: Fields::new(Vec::new(alloc)),
            seen: Members::new(alloc),
            current: None,
            fault: None,
        }
    }

    // The name of the next pair comes, in a structure or a union. No memory.
    pub(crate) fn name<L: Leaves>(&mut self, table: &Table, leaves: &L, name: &str)
        requires shape { self.old.shape < shape_count (table_data table.now) }
        requires shaped { Shaped (table_data table.now) }
        ensures { IsNamed (member_with ((L.convention leaves.now).name (table_data table.now) self.old.shape) name.now
            (members_at (table_data table.now) self.old.shape)) (member_frame self.old) (member_frame self.new) }
    {
        self.current = leaves.member_named(table, self.shape, name);
    }

    // The tree of a structure's member is closed.
    pub(crate) fn take(
        &mut self,
        alloc: Global,
        table: &Table,
        member: u32,
        arrival: Arrival,
    ) -> Result<(), NoMemory>
        requires shape { self.old.shape < shape_count (table_data table.now) }
        requires member { member < member_count (table_data table.now) }
        requires shaped { Shaped (table_data table.now) }
        requires rises { FieldsRise (member_frame self.old).fields }
        ensures { OnOk result (TakesMember (table_data table.now) member (arrival_of arrival) (member_frame self.old)
            (member_frame self.new)) }
    {
        self.current = None;
        if !self.seen.add(member)? {
            return self.keep_first(alloc, table, member, fault_here(alloc, FaultKind::Repeated));
        }
        match arrival {
            Arrival::Null => Ok(()),
            Arrival::Value(value) => self.fields.put(member, value),
            Arrival::Fault(fault) => self.keep_first(alloc, table, member, fault),
        }
    }

    // Keeps the fault of a member's tree, where none is kept that stands before it.
    pub(super) fn keep_first(
        &mut self,
        alloc: Global,
        table: &Table,
        member: u32,
        fault: Fault,
    ) -> Result<(), NoMemory>
        requires shape { self.old.shape < shape_count (table_data table.now) }
        requires member { member < member_count (table_data table.now) }
        requires shaped { Shaped (table_data table.now) }
        ensures { OnOk result (KeepsFault (table_data table.now) member (fault_at fault) (member_frame self.old) (member_frame self.new)) }
    {
        if let Some(kept) = &self.fault {
            if !yields_to(table, self.shape, member, kept) {
                return Ok(());
            }
        }
        self.fault = Some(under_member(alloc, table, member, fault)?);
        Ok(())
    }
}
