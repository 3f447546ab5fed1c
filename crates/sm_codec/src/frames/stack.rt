// The frames of a decoder: where they say that the next tree is due, and what the innermost does with one that is closed.
ghost use Rattle.std.specs.Prelude.{◌≡◌, ◌∷◌, [], slice_index_or, OnOk};
ghost use Rattle.std.specs.Option.{option_map};
ghost use Rattle.sm_shapes.specs.InOrder.{Shaped, AreStored};
ghost use Rattle.sm_shapes.specs.Places.{member_place};
ghost use Rattle.sm_shapes.specs.TableData.{members_at, sparse_at};
ghost use Rattle.sm_shapes.specs.TableView.{table_data};
ghost use Rattle.sm_codec.specs.FrameView.{arrival_of, outcome_of};
ghost use Rattle.sm_codec.specs.PlaceView.{place_of};
ghost use Rattle.sm_codec.specs.StackView.{frame_of, stack_of, frames_of, told_of, IsPopped};
ghost use Rattle.sm_codec.specs.steps.DecoderSteps.{place_among, due_told, CanTake, FrameTakes, root_outcome};
ghost use Rattle.sm_codec.specs.steps.OpeningSteps.{below};
ghost use Rattle.sm_codec.specs.steps.Standing.{place_in};

use super::faults::fault_here;
use super::{Arrival, Frame, Frames, Outcome};
use crate::places::ValuePlace;
use sm_shapes::tables::Table;
use sm_shapes::{FaultKind, Patterns};
use sm_tree::NoMemory;
use std::alloc::Global;

/// Where the next tree is due, as frames tell it.
#[derive(Debug, Clone, Copy, Drop)]
pub(crate) enum Due {
    /// At a place.
    At(ValuePlace),
    /// Under a tag of this number, at a place of a simple type.
    Tagged(ValuePlace, u64),
    /// In what is passed over: how many lists and objects are open from its beginning on, and the fault to give at its end, if any.
    Passed(u32, Option<FaultKind>),
}

// The member at a place among those of a shape; where none is there, the first of all members.
fn member_at(table: &Table, shape: u32, at: usize) -> u32
    ensures { result ≡ slice_index_or (members_at (table_data table.now) shape) at 0 }
{
    match table.shapes.as_slice().get(shape as usize) {
        Some(row) => match row.members.as_slice().get(at) {
            Some(member) => *member,
            None => 0,
        },
        None => 0,
    }
}

// The place of a member, if there is one.
fn place_of_member(member: Option<u32>) -> Option<ValuePlace>
    ensures { option_map place_of result ≡ option_map (λ k. member_place k) member }
{
    match member {
        Some(member) => Some(ValuePlace::Member(member)),
        None => None,
    }
}

// Whether null may stand in a list or a map.
fn is_sparse(table: &Table, shape: u32) -> bool
    ensures { result ≡ sparse_at (table_data table.now) shape }
{
    match table.shapes.as_slice().get(shape as usize) {
        Some(row) => row.sparse,
        None => false,
    }
}

impl Frame {
    // The place of the next tree in it, if it knows one.
    fn place(&self, table: &Table) -> Option<ValuePlace>
        ensures { option_map place_of result ≡ place_in (table_data table.now) (frame_of self.now) }
    {
        match self {
            Frame::Structure(frame) => place_of_member(frame.current),
            Frame::Union(frame) => place_of_member(frame.current),
            Frame::List(frame) => Some(ValuePlace::Member(member_at(table, frame.shape, 0))),
            Frame::Map(frame) => Some(ValuePlace::Member(member_at(table, frame.shape, 1))),
            Frame::Tagged(_, _) => None,
            Frame::Skip(_, _) => None,
        }
    }

    // A tree is closed at its next place. The store isn't changed.
    pub(crate) fn take<P: Patterns>(
        &mut self,
        alloc: Global,
        table: &Table,
        arrival: Arrival,
        patterns: &mut P,
    ) -> Result<(), NoMemory>
        requires shaped { Shaped (table_data table.now) }
        requires stored { AreStored (table_data table.now).patterns (P.added patterns.old) }
        requires can { CanTake (table_data table.now) (frame_of self.old) }
        ensures takes { OnOk result (FrameTakes (table_data table.now) P.test (arrival_of arrival) (frame_of self.old)
            (frame_of self.new)) }
        ensures added { P.added patterns.new ≡ P.added patterns.old }
        ensures refused { P.refused patterns.new ≡ P.refused patterns.old }
        ensures refusals { P.refusals patterns.new ≡ P.refusals patterns.old }
    {
        match self {
            Frame::Structure(frame) => match frame.current {
                Some(member) => frame.take(alloc, table, member, arrival),
                None => unreachable!(),
            },
            Frame::Union(frame) => match frame.current {
                Some(member) => frame.choose(alloc, table, member, arrival),
                None => unreachable!(),
            },
            Frame::List(frame) => frame.take(alloc, is_sparse(table, frame.shape), arrival),
            Frame::Map(frame) => match frame.judge_key(table, patterns) {
                Ok(first) => frame.take(alloc, is_sparse(table, frame.shape), first, arrival),
                Err(refusal) => Err(refusal),
            },
            Frame::Tagged(_, _) => unreachable!(),
            Frame::Skip(_, _) => unreachable!(),
        }
    }
}

impl Arrival {
    // What the root comes to: by itself null is a tree of a wrong type.
    pub(crate) fn at_root(self, alloc: Global) -> Outcome
        ensures { outcome_of result ≡ root_outcome (arrival_of self) }
    {
        match self {
            Arrival::Null => Outcome::Bad(fault_here(alloc, FaultKind::WrongType)),
            Arrival::Value(value) => Outcome::Good(value),
            Arrival::Fault(fault) => Outcome::Bad(fault),
        }
    }
}

// The place of the next tree by these frames, where the root has this shape.
fn place_among(frames: &[Frame], table: &Table, root: u32) -> ValuePlace
    ensures { place_of result ≡ place_among (table_data table.now) root (stack_of frames.now) }
{
    match frames.last() {
        None => ValuePlace::Root(root),
        Some(frame) => frame.place(table).unwrap_or(ValuePlace::Root(root)),
    }
}

impl Frames {
    // No frame yet. No memory.
    pub(crate) fn new(alloc: Global) -> Self
        ensures { frames_of result ≡ [] }
    {
        Frames {
            frames: Vec::new(alloc),
        }
    }

    // One more, the innermost.
    pub(crate) fn push(&mut self, frame: Frame) -> Result<(), NoMemory>
        ensures { OnOk result (frames_of self.new ≡ frame_of frame ∷ frames_of self.old) }
    {
        match self.frames.push(frame) {
            Ok(()) => Ok(()),
            Err(_) => Err(NoMemory),
        }
    }

    // The innermost, which goes. No memory.
    pub(crate) fn pop(&mut self) -> Option<Frame>
        ensures popped { IsPopped (frames_of self.old) result (frames_of self.new) }
        ensures rest { frames_of self.new ≡ below (frames_of self.old) }
    {
        self.frames.pop()
    }

    // The place of the next tree, where the root has this shape. No memory.
    pub(crate) fn place(&self, table: &Table, root: u32) -> ValuePlace
        ensures { place_of result ≡ place_among (table_data table.now) root (frames_of self.now) }
    {
        place_among(self.frames.as_slice(), table, root)
    }

    // Where the next tree is due, where the root has this shape. No memory.
    pub(crate) fn due(&self, table: &Table, root: u32) -> Due
        ensures { told_of result ≡ due_told (table_data table.now) root (frames_of self.now) }
    {
        match self.frames.split_last() {
            None => Due::At(ValuePlace::Root(root)),
            Some((frame, below)) => match frame {
                Frame::Tagged(_, tag) => Due::Tagged(place_among(below, table, root), *tag),
                Frame::Skip(depth, report) => Due::Passed(*depth, *report),
                Frame::Structure(_) => Due::At(self.place(table, root)),
                Frame::Union(_) => Due::At(self.place(table, root)),
                Frame::List(_) => Due::At(self.place(table, root)),
                Frame::Map(_) => Due::At(self.place(table, root)),
            },
        }
    }
}
