// The files of the rows so far, over which commands run.
ghost use Rattle.std.specs.Prelude.{◌≡◌, ◌≤◌, IfOk, length, take};

use crate::given::{AskedOfRun, Given};
use crate::kept::{Change, KeptFiles};
use crate::row::{CommandRow, Input};
use rows::{Player, bytes_shown, show_bytes};
use sm_commands::run;
use sm_io::Files;
use sm_shapes::RegexPatterns;
use sm_tree::{NoMemory, Text};
use std::alloc::Global;

/// Files in memory, the length up to which the next text is padded, and what is asked of the next run.
#[derive(Drop)]
pub struct Shelf {
    files: KeptFiles,
    padded: usize,
    given: Given,
}

impl Shelf {
    /// No files. Reading a name without a file fails.
    pub fn new(alloc: Global) -> Self {
        Shelf {
            files: KeptFiles::new(alloc),
            padded: 0,
            given: Given::nothing(),
        }
    }

    /// The next text is padded up to so many bytes.
    pub fn pad(&mut self, length: usize) {
        self.padded = length;
    }

    /// This is asked of the next run.
    pub fn ask(&mut self, asked: AskedOfRun) {
        self.given.and(asked);
    }

    // The bytes of a text, and blanks behind it where the row before asks for them.
    fn bytes_of(&mut self, alloc: Global, text: &str) -> Result<Vec<u8>, NoMemory>
        ensures text { IfOk result (λ bytes. take (length text.now) bytes.items ≡ text.now) }
        ensures padded { IfOk result (λ bytes. self.old.padded ≤ length bytes.items) }
    {
        let mut bytes = Vec::new(alloc);
        bytes.extend_from_slice(text.as_bytes())?;
        let blanks = vec![in alloc; b' '; self.padded.saturating_sub(text.len())]?;
        bytes.extend_from_slice(blanks.as_slice())?;
        self.padded = 0;
        Ok(bytes)
    }

    // The bytes of an input, or `None` where they are written down in no way.
    fn input_of(&mut self, alloc: Global, input: Input<'_>) -> Result<Option<Vec<u8>>, NoMemory> {
        match input {
            Input::Plain(text) => Ok(Some(self.bytes_of(alloc, text)?)),
            Input::Heads(text) => Ok(Some(self.bytes_of(alloc, heads_of(alloc, text)?.as_str())?)),
            Input::Pairs(pairs) => bytes_shown(alloc, pairs),
        }
    }

    /// From now on the name stands for a file of this text.
    pub fn keep(&mut self, alloc: Global, name: &str, text: &str) -> Result<(), NoMemory> {
        let bytes = self.bytes_of(alloc, text)?;
        self.write(name, bytes.as_slice())
    }

    /// From now on this text and a line feed stand behind what the name stood for.
    pub fn append(&mut self, alloc: Global, name: &str, text: &str) -> Result<(), NoMemory> {
        let mut bytes = Vec::new(alloc);
        if let Some(held) = self.files.file(name) {
            bytes.extend_from_slice(held)?;
        }
        bytes.extend_from_slice(text.as_bytes())?;
        bytes.push(b'\n')?;
        self.write(name, bytes.as_slice())
    }

    /// From now on the name stands for a file of these bytes; or why there is none comes out.
    pub fn keep_pairs(
        &mut self,
        alloc: Global,
        name: &str,
        pairs: &str,
        out: &mut String,
    ) -> Result<(), NoMemory> {
        match bytes_shown(alloc, pairs)? {
            Some(bytes) => self.write(name, bytes.as_slice()),
            None => Ok(out.push_str(" => no row")?),
        }
    }

    /// Appends what the name stands for.
    pub fn show_file(&self, alloc: Global, name: &str, out: &mut String) -> Result<(), NoMemory> {
        out.push_str(" =>")?;
        match self.files.file(name) {
            Some(bytes) => {
                if bytes.is_empty() {
                    return Ok(out.push_str(" empty")?);
                }
                show(alloc, bytes, out)
            }
            None => Ok(out.push_str(" nothing")?),
        }
    }

    // From now on the name stands for these bytes.
    fn write(&mut self, name: &str, bytes: &[u8]) -> Result<(), NoMemory> {
        match self.files.write(name, bytes) {
            Ok(()) => Ok(()),
            Err(_) => Err(NoMemory),
        }
    }

    /// Runs these words on an input, and appends its answer: the status and what was put, where `|` is CR LF and `\n` a line feed. What was
    /// put for a body in CBOR, and what is no text, is shown as pairs of hexadecimal digits.
    pub fn run(
        &mut self,
        alloc: Global,
        words: Option<&str>,
        input: Input<'_>,
        out: &mut String,
    ) -> Result<(), NoMemory> {
        let Some(bytes) = self.input_of(alloc, input)? else {
            return Ok(out.push_str(" => no row")?);
        };
        let is_item = words.is_some_and(|words| words.ends_with(" cbor"));
        let words = words_of(alloc, words)?;
        let given = std::mem::replace(&mut self.given, Given::nothing());
        let mut input = given.input(alloc, bytes)?;
        let mut put = given.output(alloc)?;
        let mut patterns = RegexPatterns::new(alloc);
        self.files
            .begin(given.failing_read(), given.failing_write());
        let status = run(
            alloc,
            words.as_slice(),
            &mut self.files,
            &mut input,
            &mut put,
            &mut patterns,
        );
        self.files.end();
        out.push_str(format!(in alloc; " => {status}")?.as_str())?;
        if is_item && status == 0 {
            return show_pairs(put.bytes(), out);
        }
        show(alloc, put.bytes(), out)
    }
}

// A text of a row where `|` is CR LF.
fn heads_of(alloc: Global, text: &str) -> Result<String, NoMemory> {
    Ok(text.replace(alloc, "|", "\r\n")?)
}

// The words that stand in a row, with a blank between two.
fn words_of(alloc: Global, row: Option<&str>) -> Result<Vec<Text>, NoMemory> {
    let mut words = Vec::new(alloc);
    if let Some(row) = row {
        for word in row.split(' ') {
            words.push(Text::copy(alloc, word)?)?;
        }
    }
    Ok(words)
}

/// The greatest length of what was put that comes out as it is, in bytes.
const SHOWN: usize = 2_000;

// Appends a blank and what was put, if anything; of a long text its length.
fn show(alloc: Global, put: &[u8], out: &mut String) -> Result<(), NoMemory> {
    if put.is_empty() {
        return Ok(());
    }
    if put.len() > SHOWN {
        let length = put.len();
        out.push_str(format!(in alloc; " {length} bytes")?.as_str())?;
        return Ok(());
    }
    match std::str::from_utf8(put) {
        Ok(text) => {
            out.push(' ')?;
            let text = text.replace(alloc, "\r\n", "|")?;
            out.push_str(text.as_str().replace(alloc, "\n", "\\n")?.as_str())?;
            Ok(())
        }
        Err(_) => show_pairs(put, out),
    }
}

// Appends a blank and pairs of hexadecimal digits.
fn show_pairs(put: &[u8], out: &mut String) -> Result<(), NoMemory> {
    out.push(' ')?;
    show_bytes(put, out)
}

impl Player for Shelf {
    fn play(&mut self, alloc: Global, case: &str, out: &mut String) -> Result<(), NoMemory> {
        match CommandRow::of(case) {
            CommandRow::Pad(length) => self.pad(length),
            CommandRow::Next(asked) => self.ask(asked),
            CommandRow::File(name, text) => self.keep(alloc, name, text)?,
            CommandRow::Heads(name, text) => {
                let text = heads_of(alloc, text)?;
                self.keep(alloc, name, text.as_str())?;
            }
            CommandRow::Pairs(name, pairs) => self.keep_pairs(alloc, name, pairs, out)?,
            CommandRow::Shows(name) => self.show_file(alloc, name, out)?,
            CommandRow::Line(name, text) => self.append(alloc, name, text)?,
            CommandRow::Model(name, size) => self.keep(alloc, name, size.model(alloc)?.as_str())?,
            CommandRow::Change(read, name, text) => self
                .files
                .change(Change::new(alloc, read, name, text)?),
            CommandRow::Run(words, input) => self.run(alloc, words, input, out)?,
            CommandRow::Unknown => out.push_str(" => no row")?,
        }
        Ok(())
    }
}
