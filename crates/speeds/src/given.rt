// The input of a command: that of the program, or a file that a line of commands names.
use sm_io::{StdSource, read_all};
use std::fs;

/// The most bytes that are read of the program's input.
const INPUT_LIMIT: u64 = 1 << 30;

/// Where the input of a command stands.
#[derive(Debug, Clone, Copy)]
pub enum Given<'a> {
    /// It is that of the program.
    Input,
    /// In the file of this name.
    File(&'a str),
    /// Nowhere: it is empty.
    Nothing,
}

impl<'a> Given<'a> {
    /// All its bytes.
    ///
    /// # Errors
    ///
    /// Where it can't be read, is longer than 1 GiB or isn't there; where memory runs out.
    pub fn bytes(self, rt: &HostRuntime) -> anyhow::Result<Vec<u8>> {
        match self {
            Given::Input => Ok(read_all(rt.alloc(), &mut StdSource::new(rt.stdin()), INPUT_LIMIT)?),
            Given::File(name) => Ok(fs::read(rt, name)?),
            Given::Nothing => Ok(Vec::new(rt.alloc())),
        }
    }
}

/// The first line of an input, and what stands behind it.
pub fn first_line(input: &[u8]) -> (&[u8], &[u8]) {
    match input.iter().position(|byte| *byte == b'\n') {
        Some(at) => (&input[..at], &input[at + 1..]),
        None => (input, &[]),
    }
}
