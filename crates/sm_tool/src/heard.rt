// The real files and output, which remember what a person is told afterwards.

use sm_io::{FileRefusal, Files, PutRefusal, Sink};
use std::alloc::Global;

/// Files that remember the names of the one that couldn't be read and of the one that couldn't be written.
#[derive(Drop)]
pub struct Noted<F> {
    alloc: Global,
    files: F,
    failed: Option<String>,
    unwritten: Option<String>,
}

impl<F: Files> Noted<F> {
    /// These files, none of which has failed so far.
    pub fn new(alloc: Global, files: F) -> Self {
        Noted {
            alloc,
            files,
            failed: None,
            unwritten: None,
        }
    }

    /// The name of the file whose read failed last.
    pub fn failed(&self) -> Option<&str> {
        name_in(&self.failed)
    }

    /// The name of the file whose write failed last.
    pub fn unwritten(&self) -> Option<&str> {
        name_in(&self.unwritten)
    }
}

fn name_in(name: &Option<String>) -> Option<&str> {
    match name {
        Some(name) => Some(name.as_str()),
        None => None,
    }
}

// A copy of a name, where there is memory for it.
fn copy_of(alloc: Global, name: &str) -> Option<String> {
    match String::from_str(alloc, name) {
        Ok(copy) => Some(copy),
        Err(_) => None,
    }
}

impl<F: Files> Files for Noted<F> {
    ghost held = { λ s. F.held s.files };

    ghost read_faults = { λ s. F.read_faults s.files };

    ghost write_faults = { λ s. F.write_faults s.files };

    ghost lets_read = { λ s name. F.lets_read s.files name };

    ghost lets_write = { λ s name. F.lets_write s.files name };

    fn read(&mut self, name: &str, limit: u64) -> Result<Vec<u8>, FileRefusal> {
        match self.files.read(name, limit) {
            Ok(bytes) => Ok(bytes),
            Err(refusal) => {
                self.failed = copy_of(self.alloc, name);
                Err(refusal)
            }
        }
    }

    fn write(&mut self, name: &str, bytes: &[u8]) -> Result<(), FileRefusal> {
        match self.files.write(name, bytes) {
            Ok(()) => Ok(()),
            Err(refusal) => {
                self.unwritten = copy_of(self.alloc, name);
                Err(refusal)
            }
        }
    }
}

/// The greatest length that is remembered of what was put, in bytes.
const HEARD: usize = 4096;

/// An output that remembers how what was put begins.
#[derive(Drop)]
pub struct Heard<K> {
    alloc: Global,
    sink: K,
    heard: Vec<u8>,
}

impl<K: Sink> Heard<K> {
    /// This output, to which nothing was put so far.
    pub fn new(alloc: Global, sink: K) -> Self {
        Heard {
            alloc,
            sink,
            heard: Vec::new(alloc),
        }
    }

    /// The begin of the piece that was put last.
    pub fn heard(&self) -> &[u8] {
        self.heard.as_slice()
    }
}

// The begin of a piece, where there is memory for it.
fn begin_of(alloc: Global, piece: &[u8]) -> Vec<u8> {
    let begin = match piece.get(..HEARD) {
        Some(begin) => begin,
        None => piece,
    };
    match Vec::from_slice(alloc, begin) {
        Ok(copy) => copy,
        Err(_) => Vec::new(alloc),
    }
}

impl<K: Sink> Sink for Heard<K> {
    ghost written = { λ s. K.written s.sink };

    ghost faults = { λ s. K.faults s.sink };

    fn put(&mut self, piece: &[u8]) -> Result<(), PutRefusal> {
        self.heard = begin_of(self.alloc, piece);
        self.sink.put(piece)
    }
}
