// The readers and writers of std as a source and a sink.
ghost use Rattle.std.specs.Prelude.{◌≡◌, ◌<◌, ◌≤◌, length, OnOk, OnErr, is_err, IsErr, IsErrOf};
ghost use Rattle.std.specs.Io.{ReadsAtMost};
ghost use Rattle.std.specs.Io.KnownBytes.{Appends};
ghost use Rattle.sm_io.specs.Causes.{HasCause, count_after};
ghost use Rattle.sm_io.specs.Reading.{TakesBytes};
ghost use Rattle.sm_io.specs.Writing.{AppendsPrefix, Puts, put_failed};

use crate::{Failed, PutRefusal, Sink, Source};
use std::io::{Read, Write};

/// A reader of std. It tells its bytes where the reader does.
#[derive(Drop)]
pub struct StdSource<R> {
    reader: R,
    faults: u64,
}

impl<R: Read> StdSource<R> {
    /// A source over this reader, without a fault so far.
    pub fn new(reader: R) -> Self
        ensures left { ⟦<StdSource<R> as Source>⟧.left result ≡ R.remaining reader }
        ensures faults { ⟦<StdSource<R> as Source>⟧.faults result ≡ 0 }
    {
        StdSource { reader, faults: 0 }
    }
}

impl<R: Read> Source for StdSource<R> {
    ghost left = { λ s. R.remaining s.reader };

    ghost faults = { λ s. s.faults };

    fn take(&mut self, buf: &mut [u8]) -> Result<usize, Failed>
        requires room { 0 < length buf.old }
        ensures bound { ReadsAtMost result buf.new }
        ensures bytes { TakesBytes (⟦<StdSource<R> as Source>⟧.left self.old) (⟦<StdSource<R> as Source>⟧.left self.new) buf.new result }
        ensures later { ⟦<StdSource<R> as Source>⟧.faults self.old ≤ ⟦<StdSource<R> as Source>⟧.faults self.new }
        ensures cause { HasCause (IsErr result) (⟦<StdSource<R> as Source>⟧.faults self.old) (⟦<StdSource<R> as Source>⟧.faults self.new) }
        ensures faults { ⟦<StdSource<R> as Source>⟧.faults self.new ≡ count_after (is_err result)
            (⟦<StdSource<R> as Source>⟧.faults self.old) }
    {
        match self.reader.read(buf) {
            Ok(count) => Ok(count),
            Err(_) => {
                self.faults = self.faults.saturating_add(1);
                Err(Failed)
            }
        }
    }
}

/// A writer of std. It tells its bytes where the writer does.
#[derive(Drop)]
pub struct StdSink<W> {
    writer: W,
    faults: u64,
}

impl<W: Write> StdSink<W> {
    /// A sink over this writer, without a fault so far.
    pub fn new(writer: W) -> Self
        ensures written { ⟦<StdSink<W> as Sink>⟧.written result ≡ W.contents writer }
        ensures faults { ⟦<StdSink<W> as Sink>⟧.faults result ≡ 0 }
    {
        StdSink { writer, faults: 0 }
    }
}

impl<W: Write> Sink for StdSink<W> {
    ghost written = { λ s. W.contents s.writer };

    ghost faults = { λ s. s.faults };

    fn put(&mut self, piece: &[u8]) -> Result<(), PutRefusal>
        ensures bytes { Puts (⟦<StdSink<W> as Sink>⟧.written self.old) (⟦<StdSink<W> as Sink>⟧.written self.new) piece.now result }
        ensures later { ⟦<StdSink<W> as Sink>⟧.faults self.old ≤ ⟦<StdSink<W> as Sink>⟧.faults self.new }
        ensures cause { HasCause (IsErrOf result PutRefusal.Failed) (⟦<StdSink<W> as Sink>⟧.faults self.old)
            (⟦<StdSink<W> as Sink>⟧.faults self.new) }
        ensures faults { ⟦<StdSink<W> as Sink>⟧.faults self.new ≡ count_after (put_failed result) (⟦<StdSink<W> as Sink>⟧.faults self.old) }
        ensures takes_no_memory { IsErrOf result PutRefusal.NoMemory → ⊥ }
    {
        match write_whole(&mut self.writer, piece) {
            Ok(()) => Ok(()),
            Err(Failed) => {
                self.faults = self.faults.saturating_add(1);
                Err(PutRefusal::Failed)
            }
        }
    }
}

// Writes the whole piece, in as many writes as the writer needs, and has it handed on at once, so that no fault comes later.
// A writer that takes nothing of what is left has failed.
fn write_whole<W: Write>(writer: &mut W, piece: &[u8]) -> Result<(), Failed>
    ensures whole { OnOk result (Appends (W.contents writer.old) (W.contents writer.new) piece.now) }
    ensures prefix { OnErr result (AppendsPrefix (W.contents writer.old) (W.contents writer.new) piece.now) }
{
    let mut at = 0;
    while at < piece.len() {
        match writer.write(&piece[at..]) {
            Ok(0) => return Err(Failed),
            Ok(count) => at += count,
            Err(_) => return Err(Failed),
        }
    }
    match writer.flush() {
        Ok(()) => Ok(()),
        Err(_) => Err(Failed),
    }
}
