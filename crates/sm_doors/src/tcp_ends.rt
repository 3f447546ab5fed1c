// The two ends of a socket, as a source and a sink. They tell no bytes.
ghost use Rattle.std.specs.Prelude.{◌<◌, ◌≤◌, IfOk, None, IsErr, IsErrOf, length};
ghost use Rattle.std.specs.Io.{ReadsAtMost};
ghost use Rattle.sm_io.specs.Causes.{HasCause};
ghost use Rattle.sm_io.specs.Reading.{TakesBytes};
ghost use Rattle.sm_io.specs.Writing.{Puts};

use sm_io::{Failed, PutRefusal, Sink, Source};
use std::io::{ErrorKind, Read, Write};

/// How often a call that a signal has cut short is made again.
const SIGNALS: u32 = 16;

/// What a socket receives. Without a socket each take fails.
#[derive(Drop)]
pub struct TcpSource<S> {
    pub(crate) stream: Option<S>,
    faults: u64,
    // Why it failed last.
    pub(crate) why: Option<ErrorKind>,
}

impl<S> TcpSource<S> {
    pub(crate) fn new(stream: Option<S>) -> Self {
        TcpSource {
            stream,
            faults: 0,
            why: None,
        }
    }
}

// Reads once, and again where a signal came first.
fn read_some<S: Read>(stream: &mut S, buf: &mut [u8]) -> Result<usize, ErrorKind>
    ensures bound { ReadsAtMost result buf.new }
{
    for _ in 0..SIGNALS {
        match stream.read(buf) {
            Ok(count) => return Ok(count),
            Err(error) => match error.kind() {
                ErrorKind::Interrupted => {}
                kind => return Err(kind),
            },
        }
    }
    Err(ErrorKind::Interrupted)
}

impl<S: Read> Source for TcpSource<S> {
    ghost left = { λ source. None };

    ghost faults = { λ source. source.faults };

    fn take(&mut self, buf: &mut [u8]) -> Result<usize, Failed>
        requires room { 0 < length buf.old }
        ensures bound { ReadsAtMost result buf.new }
        ensures bytes { TakesBytes None None buf.new result }
        ensures later { self.old.faults ≤ self.new.faults }
        ensures cause { HasCause (IsErr result) self.old.faults self.new.faults }
    {
        let taken = match &mut self.stream {
            Some(stream) => read_some(stream, buf),
            None => Err(ErrorKind::NotConnected),
        };
        match taken {
            Ok(count) => Ok(count),
            Err(kind) => {
                self.faults = self.faults.saturating_add(1);
                self.why = Some(kind);
                Err(Failed)
            }
        }
    }
}

/// What a socket sends. Without a socket each put fails.
#[derive(Drop)]
pub struct TcpSink<S> {
    pub(crate) stream: Option<S>,
    faults: u64,
    // Why it failed last.
    pub(crate) why: Option<ErrorKind>,
}

impl<S> TcpSink<S> {
    pub(crate) fn new(stream: Option<S>) -> Self {
        TcpSink {
            stream,
            faults: 0,
            why: None,
        }
    }
}

// Writes once, and again where a signal came first. A socket that takes nothing of what is there has failed.
fn write_some<S: Write>(stream: &mut S, piece: &[u8]) -> Result<usize, ErrorKind>
    ensures bound { IfOk result (λ count. count ≤ length piece.now) }
    ensures some { IfOk result (λ count. 0 < count) }
{
    for _ in 0..SIGNALS {
        match stream.write(piece) {
            Ok(0) => return Err(ErrorKind::WriteZero),
            Ok(count) => return Ok(count),
            Err(error) => match error.kind() {
                ErrorKind::Interrupted => {}
                kind => return Err(kind),
            },
        }
    }
    Err(ErrorKind::Interrupted)
}

// Writes the whole piece, in as many writes as the socket needs.
fn write_whole<S: Write>(stream: &mut S, piece: &[u8]) -> Result<(), ErrorKind> {
    let mut at = 0;
    while at < piece.len() {
        match write_some(stream, &piece[at..]) {
            Ok(count) => at += count,
            Err(kind) => return Err(kind),
        }
    }
    Ok(())
}

impl<S: Write> Sink for TcpSink<S> {
    ghost written = { λ sink. None };

    ghost faults = { λ sink. sink.faults };

    fn put(&mut self, piece: &[u8]) -> Result<(), PutRefusal>
        ensures bytes { Puts None None piece.now result }
        ensures later { self.old.faults ≤ self.new.faults }
        ensures cause { HasCause (IsErrOf result PutRefusal.Failed) self.old.faults self.new.faults }
    {
        let put = match &mut self.stream {
            Some(stream) => write_whole(stream, piece),
            None => Err(ErrorKind::NotConnected),
        };
        match put {
            Ok(()) => Ok(()),
            Err(kind) => {
                self.faults = self.faults.saturating_add(1);
                self.why = Some(kind);
                Err(PutRefusal::Failed)
            }
        }
    }
}
