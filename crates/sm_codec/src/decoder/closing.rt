// A tree that is closed, as the innermost frame or the root takes it; and the end of a list or an object, with which a tree is closed.
ghost use Rattle.std.specs.Prelude.{◌≡◌, None, OnOk};
ghost use Rattle.sm_shapes.specs.InOrder.{Shaped, AreStored};
ghost use Rattle.sm_shapes.specs.TableData.{unique_at};
ghost use Rattle.sm_shapes.specs.TableView.{table_data};
ghost use Rattle.sm_codec.specs.DecodingView.{decoding_of};
ghost use Rattle.sm_codec.specs.FrameView.{arrival_of};
ghost use Rattle.sm_codec.specs.StackView.{ClosedBy};
ghost use Rattle.sm_codec.specs.steps.DecoderSteps.{FirstCanTake, TakenBy, CanPass, PassedBy, FirstCanEnd, EndedBy};

use super::Decoder;
use crate::frames::{Arrival, Frame, Outcome, fault_here};
use sm_shapes::tables::Table;
use sm_shapes::{FaultKind, Patterns};
use sm_tree::NoMemory;
use std::alloc::Global;

// Whether the entries of a list differ from each other.
fn is_unique(table: &Table, shape: u32) -> bool
    ensures { result ≡ unique_at (table_data table.now) shape }
{
    match table.shapes.as_slice().get(shape as usize) {
        Some(row) => row.unique,
        None => false,
    }
}

impl Decoder {
    // A tree is closed at the place that is due. The store isn't changed.
    pub(super) fn take<P: Patterns>(
        &mut self,
        alloc: Global,
        table: &Table,
        arrival: Arrival,
        patterns: &mut P,
    ) -> Result<(), NoMemory>
        requires shaped { Shaped (table_data table.now) }
        requires stored { AreStored (table_data table.now).patterns (P.added patterns.old) }
        requires can { FirstCanTake (table_data table.now) (decoding_of self.old).frames }
        requires none { (decoding_of self.old).result ≡ None }
        ensures taken { OnOk result (TakenBy (table_data table.now) P.test (arrival_of arrival) (decoding_of self.old).frames
            (decoding_of self.new)) }
        ensures shape { (decoding_of self.new).shape ≡ (decoding_of self.old).shape }
        ensures added { P.added patterns.new ≡ P.added patterns.old }
        ensures refused { P.refused patterns.new ≡ P.refused patterns.old }
        ensures refusals { P.refusals patterns.new ≡ P.refusals patterns.old }
    {
        match self.frames.frames.last_mut() {
            Some(frame) => frame.take(alloc, table, arrival, patterns),
            None => {
                self.result = Some(arrival.at_root(alloc));
                Ok(())
            }
        }
    }

    // One is closed in what is passed over, so many levels deep, whose frame is gone. The store isn't changed.
    pub(super) fn pass<P: Patterns>(
        &mut self,
        alloc: Global,
        table: &Table,
        depth: u32,
        report: Option<FaultKind>,
        patterns: &mut P,
    ) -> Result<(), NoMemory>
        requires shaped { Shaped (table_data table.now) }
        requires stored { AreStored (table_data table.now).patterns (P.added patterns.old) }
        requires can { CanPass (table_data table.now) depth report (decoding_of self.old).frames }
        requires none { (decoding_of self.old).result ≡ None }
        ensures passed { OnOk result (PassedBy (table_data table.now) P.test depth report (decoding_of self.old).frames
            (decoding_of self.new)) }
        ensures shape { (decoding_of self.new).shape ≡ (decoding_of self.old).shape }
        ensures added { P.added patterns.new ≡ P.added patterns.old }
        ensures refused { P.refused patterns.new ≡ P.refused patterns.old }
        ensures refusals { P.refusals patterns.new ≡ P.refusals patterns.old }
    {
        if depth > 0 {
            return self.frames.push(Frame::Skip(depth, report));
        }
        match report {
            None => Ok(()),
            Some(kind) => self.take(
                alloc,
                table,
                Arrival::Fault(fault_here(alloc, kind)),
                patterns,
            ),
        }
    }

    // What a list or an object comes to that has ended, whose frame is gone, is taken where it stands. The store isn't changed.
    fn close<P: Patterns>(
        &mut self,
        alloc: Global,
        table: &Table,
        outcome: Result<Outcome, NoMemory>,
        patterns: &mut P,
    ) -> Result<(), NoMemory>
        requires shaped { Shaped (table_data table.now) }
        requires stored { AreStored (table_data table.now).patterns (P.added patterns.old) }
        requires can { FirstCanTake (table_data table.now) (decoding_of self.old).frames }
        requires none { (decoding_of self.old).result ≡ None }
        ensures closed { OnOk result (ClosedBy (table_data table.now) P.test outcome (decoding_of self.old).frames (decoding_of self.new)) }
        ensures shape { (decoding_of self.new).shape ≡ (decoding_of self.old).shape }
        ensures added { P.added patterns.new ≡ P.added patterns.old }
        ensures refused { P.refused patterns.new ≡ P.refused patterns.old }
        ensures refusals { P.refusals patterns.new ≡ P.refusals patterns.old }
    {
        match outcome {
            Ok(outcome) => self.take(alloc, table, outcome.arrives(), patterns),
            Err(refusal) => Err(refusal),
        }
    }

    // The innermost list or object ends. The store isn't changed.
    pub(super) fn end<P: Patterns>(
        &mut self,
        alloc: Global,
        table: &Table,
        patterns: &mut P,
    ) -> Result<(), NoMemory>
        requires shaped { Shaped (table_data table.now) }
        requires stored { AreStored (table_data table.now).patterns (P.added patterns.old) }
        requires can { FirstCanEnd (table_data table.now) (decoding_of self.old).shape (decoding_of self.old).frames }
        requires none { (decoding_of self.old).result ≡ None }
        ensures ended { OnOk result (EndedBy (table_data table.now) P.test (decoding_of self.old).shape (decoding_of self.old).frames
            (decoding_of self.new)) }
        ensures shape { (decoding_of self.new).shape ≡ (decoding_of self.old).shape }
        ensures added { P.added patterns.new ≡ P.added patterns.old }
        ensures refused { P.refused patterns.new ≡ P.refused patterns.old }
        ensures refusals { P.refusals patterns.new ≡ P.refusals patterns.old }
    {
        match self.frames.pop() {
            None => unreachable!(),
            Some(frame) => match frame {
                Frame::Structure(frame) => self.close(
                    alloc,
                    table,
                    frame.finish(alloc, table),
                    patterns,
                ),
                Frame::Union(frame) => self.close(
                    alloc,
                    table,
                    frame.finish_union(alloc),
                    patterns,
                ),
                Frame::List(frame) => {
                    let constraints = self.frames.place(table, self.shape).constraints(table);
                    let unique = is_unique(table, frame.shape);
                    self.close(
                        alloc,
                        table,
                        frame.finish(alloc, constraints, unique),
                        patterns,
                    )
                }
                Frame::Map(frame) => {
                    let constraints = self.frames.place(table, self.shape).constraints(table);
                    self.close(alloc, table, frame.finish(alloc, constraints), patterns)
                }
                Frame::Tagged(_, _) => unreachable!(),
                Frame::Skip(depth, report) => self.pass(alloc, table, depth - 1, report, patterns),
            },
        }
    }
}
