// What rows give to the next run: in which pieces its input comes, and which calls fail.
use sm_io::{MemSink, MemSource};
use sm_tree::NoMemory;
use std::alloc::Global;

/// What a row asks of the next run.
#[derive(Debug, Clone, Copy)]
pub enum AskedOfRun {
    /// Its input comes in pieces of at most so many bytes.
    Cut(u64),
    /// This read of its files fails, counted from 1.
    FailRead(u64),
    /// This write of its files fails, counted from 1.
    FailWrite(u64),
    /// This read of its input fails, counted from 1.
    FailTake(u64),
    /// This write of its output fails, counted from 1.
    FailPut(u64),
}

/// All that rows ask of the next run. 0 asks for nothing.
#[derive(Clone, Copy, Drop)]
pub struct Given {
    piece: u64,
    read: u64,
    write: u64,
    take: u64,
    put: u64,
}

impl Given {
    /// Nothing is asked.
    pub fn nothing() -> Self {
        Given {
            piece: 0,
            read: 0,
            write: 0,
            take: 0,
            put: 0,
        }
    }

    /// This is asked too.
    pub fn and(&mut self, asked: AskedOfRun) {
        match asked {
            AskedOfRun::Cut(length) => self.piece = length,
            AskedOfRun::FailRead(call) => self.read = call,
            AskedOfRun::FailWrite(call) => self.write = call,
            AskedOfRun::FailTake(call) => self.take = call,
            AskedOfRun::FailPut(call) => self.put = call,
        }
    }

    /// The read of its files that fails; 0 where none does.
    pub fn failing_read(self) -> u64 {
        self.read
    }

    /// The write of its files that fails; 0 where none does.
    pub fn failing_write(self) -> u64 {
        self.write
    }

    /// An input of these bytes.
    pub fn input(self, alloc: Global, bytes: Vec<u8>) -> Result<MemSource, NoMemory> {
        let cuts = match self.piece {
            0 => Vec::new(alloc),
            piece => vec![in alloc; piece; bytes.len()]?,
        };
        Ok(MemSource::new(bytes, cuts, vec![in alloc; self.take]?))
    }

    /// An output.
    pub fn output(self, alloc: Global) -> Result<MemSink, NoMemory> {
        Ok(MemSink::new(alloc, vec![in alloc; self.put]?))
    }
}

/// What words and a number behind them ask.
pub fn asked_by(words: &str, number: &str) -> Option<AskedOfRun> {
    let number = number.parse::<u64>().ok()?;
    match words {
        "cut" => Some(AskedOfRun::Cut(number)),
        "fail read" => Some(AskedOfRun::FailRead(number)),
        "fail write" => Some(AskedOfRun::FailWrite(number)),
        "fail take" => Some(AskedOfRun::FailTake(number)),
        "fail put" => Some(AskedOfRun::FailPut(number)),
        _ => None,
    }
}
