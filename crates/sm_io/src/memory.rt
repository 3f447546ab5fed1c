// Objects over memory that fail in the calls they were told.
ghost use Rattle.std.specs.Prelude.{◌≡◌, ◌<◌, ◌≤◌, ◌↔◌, [], All, length, min, IfOk, OnErr, is_err, IsErr, IsErrOf, IsTrue, Some};
ghost use Rattle.std.specs.Io.{ReadsAtMost};
ghost use Rattle.sm_io.specs.Causes.{HasCause, count_after};
ghost use Rattle.sm_io.specs.Reading.{TakesBytes};
ghost use Rattle.sm_io.specs.Writing.{Puts, put_failed};
ghost use Rattle.sm_io.specs.Script.{script_after, is_failing, most_given};

use crate::script::{CutBytes, FailingCalls};
use crate::sink::append;
use crate::{Failed, PutRefusal, Sink, Source};
use std::alloc::Global;

/// A source over bytes in memory that fails in the calls it was told.
#[derive(Drop)]
pub struct MemSource {
    bytes: CutBytes,
    failing: FailingCalls,
    faults: u64,
}

impl MemSource {
    ghost use Rattle.sm_io.specs.Memory.{source_script};

    /// A source of these bytes, whose k-th take gives at most as many as the k-th cut, and past the last cut all that fit.
    /// Each cut is at least 1. The takes that `failing` lists, counted from 1, fail.
    pub fn new(bytes: Vec<u8>, cuts: Vec<u64>, failing: Vec<u64>) -> Self
        requires positive { All (λ cut. 0 < cut) cuts.items }
        ensures left { ⟦<MemSource as Source>⟧.left result ≡ Some bytes.items }
        ensures faults { ⟦<MemSource as Source>⟧.faults result ≡ 0 }
        ensures script { source_script result ≡ record { cuts = cuts.items; failing = failing.items; calls = 0 } }
    {
        MemSource {
            bytes: CutBytes { bytes, at: 0, cuts },
            failing: FailingCalls { failing, calls: 0 },
            faults: 0,
        }
    }
}

impl Source for MemSource {
    ghost use Rattle.sm_io.specs.Memory.{source_left, source_script};

    ghost left = { λ s. Some (source_left s) };

    ghost faults = { λ s. s.faults };

    fn take(&mut self, buf: &mut [u8]) -> Result<usize, Failed>
        requires room { 0 < length buf.old }
        ensures bound { ReadsAtMost result buf.new }
        ensures bytes { TakesBytes (Some (source_left self.old)) (Some (source_left self.new)) buf.new result }
        ensures later { ⟦<MemSource as Source>⟧.faults self.old ≤ ⟦<MemSource as Source>⟧.faults self.new }
        ensures cause { HasCause (IsErr result) (⟦<MemSource as Source>⟧.faults self.old) (⟦<MemSource as Source>⟧.faults self.new) }
        ensures faults { ⟦<MemSource as Source>⟧.faults self.new ≡ count_after (is_err result) (⟦<MemSource as Source>⟧.faults self.old) }
        ensures script { source_script self.new ≡ script_after (source_script self.old) }
        ensures failing { is_err result ≡ is_failing (source_script self.new) }
        ensures count { IfOk result (λ count. count
            ≡ min (most_given (source_script self.new) (length buf.old)) (length (source_left self.old))) }
    {
        if self.failing.next_fails() {
            self.faults = self.faults.saturating_add(1);
            return Err(Failed);
        }
        Ok(self.bytes.take(self.failing.calls, buf))
    }
}

/// A sink over memory that fails in the calls it was told, and then writes nothing.
#[derive(Drop)]
pub struct MemSink {
    bytes: Vec<u8>,
    failing: FailingCalls,
    faults: u64,
}

impl MemSink {
    ghost use Rattle.sm_io.specs.Memory.{sink_script};

    /// A sink to which nothing was written. The puts that `failing` lists, counted from 1, fail.
    pub fn new(alloc: Global, failing: Vec<u64>) -> Self
        ensures written { ⟦<MemSink as Sink>⟧.written result ≡ Some [] }
        ensures faults { ⟦<MemSink as Sink>⟧.faults result ≡ 0 }
        ensures script { sink_script result ≡ record { cuts = []; failing = failing.items; calls = 0 } }
    {
        MemSink {
            bytes: Vec::new(alloc),
            failing: FailingCalls { failing, calls: 0 },
            faults: 0,
        }
    }

    /// The bytes written so far.
    pub fn bytes(&self) -> &[u8]
        ensures { ⟦<MemSink as Sink>⟧.written self.now ≡ Some result.now }
    {
        &self.bytes
    }
}

impl Sink for MemSink {
    ghost use Rattle.sm_io.specs.Memory.{sink_written, sink_script};

    ghost written = { λ s. Some (sink_written s) };

    ghost faults = { λ s. s.faults };

    fn put(&mut self, piece: &[u8]) -> Result<(), PutRefusal>
        ensures bytes { Puts (Some (sink_written self.old)) (Some (sink_written self.new)) piece.now result }
        ensures later { ⟦<MemSink as Sink>⟧.faults self.old ≤ ⟦<MemSink as Sink>⟧.faults self.new }
        ensures cause { HasCause (IsErrOf result PutRefusal.Failed) (⟦<MemSink as Sink>⟧.faults self.old)
            (⟦<MemSink as Sink>⟧.faults self.new) }
        ensures faults { ⟦<MemSink as Sink>⟧.faults self.new ≡ count_after (put_failed result) (⟦<MemSink as Sink>⟧.faults self.old) }
        ensures script { sink_script self.new ≡ script_after (sink_script self.old) }
        ensures failing { IsErrOf result PutRefusal.Failed ↔ IsTrue (is_failing (sink_script self.new)) }
        ensures nothing { OnErr result (sink_written self.new ≡ sink_written self.old) }
    {
        if self.failing.next_fails() {
            self.faults = self.faults.saturating_add(1);
            return Err(PutRefusal::Failed);
        }
        append(&mut self.bytes, piece)
    }
}
