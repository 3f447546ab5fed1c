// Objects over memory that never fail: their counts of faults are the constant 0.
ghost use Rattle.std.specs.Prelude.{◌≡◌, ◌<◌, [], All, length, min, Ok, Some};
ghost use Rattle.std.specs.Io.{ReadsAtMost};
ghost use Rattle.sm_io.specs.Reading.{TakesBytes};
ghost use Rattle.sm_io.specs.Script.{script_after, most_given};

use crate::script::CutBytes;
use crate::sink::append;
use crate::{Failed, PutRefusal, Sink, Source};
use std::alloc::Global;

/// A source over bytes in memory that never fails.
#[derive(Drop)]
pub struct CalmSource {
    bytes: CutBytes,
    calls: u64,
}

impl CalmSource {
    ghost use Rattle.sm_io.specs.Memory.{calm_script};

    /// A source of these bytes, whose k-th take gives at most as many as the k-th cut, and past the last cut all that fit.
    /// Each cut is at least 1.
    pub fn new(bytes: Vec<u8>, cuts: Vec<u64>) -> Self
        requires positive { All (λ cut. 0 < cut) cuts.items }
        ensures left { ⟦<CalmSource as Source>⟧.left result ≡ Some bytes.items }
        ensures script { calm_script result ≡ record { cuts = cuts.items; failing = []; calls = 0 } }
    {
        let bytes = CutBytes { bytes, at: 0, cuts };
        CalmSource { bytes, calls: 0 }
    }
}

impl Source for CalmSource {
    ghost use Rattle.sm_io.specs.Memory.{calm_left, calm_script};

    ghost left = { λ s. Some (calm_left s) };

    ghost faults = { λ s. 0 };

    fn take(&mut self, buf: &mut [u8]) -> Result<usize, Failed>
        requires room { 0 < length buf.old }
        ensures bound { ReadsAtMost result buf.new }
        ensures bytes { TakesBytes (Some (calm_left self.old)) (Some (calm_left self.new)) buf.new result }
        ensures script { calm_script self.new ≡ script_after (calm_script self.old) }
        ensures count { result ≡ Ok (min (most_given (calm_script self.new) (length buf.old)) (length (calm_left self.old))) }
    {
        self.calls = self.calls.saturating_add(1);
        Ok(self.bytes.take(self.calls, buf))
    }
}

/// A sink over memory that never fails.
#[derive(Drop)]
pub struct CalmSink {
    bytes: Vec<u8>,
}

impl CalmSink {
    /// A sink to which nothing was written.
    pub fn new(alloc: Global) -> Self
        ensures { ⟦<CalmSink as Sink>⟧.written result ≡ Some [] }
    {
        CalmSink {
            bytes: Vec::new(alloc),
        }
    }

    /// The bytes written so far.
    pub fn bytes(&self) -> &[u8]
        ensures { ⟦<CalmSink as Sink>⟧.written self.now ≡ Some result.now }
    {
        &self.bytes
    }
}

impl Sink for CalmSink {
    ghost use Rattle.sm_io.specs.Memory.{calm_written};

    ghost written = { λ s. Some (calm_written s) };

    ghost faults = { λ s. 0 };

    fn put(&mut self, piece: &[u8]) -> Result<(), PutRefusal> {
        append(&mut self.bytes, piece)
    }
}
