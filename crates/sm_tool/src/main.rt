// The program: its words, the real files, input and output, and the status that it ends with.
#![tactic(auto)]

mod heard;
mod help;
mod place;
mod rules;
mod sentence;
mod served;
mod told;

use heard::{Heard, Noted};
use help::{HELP, VERSION, help_of};
use sentence::{file_told, line_told, read_fault, sentence, usage, write_fault};
use served::{NO_GATEWAY, doors_fault, is_serve};
use sm_commands::{Status, run};
use sm_doors::{DoorsFault, TcpDoors};
use sm_io::{DiskFiles, Files, StdSink, StdSource};
use sm_serve::serve;
use sm_shapes::RegexPatterns;
use sm_tree::{NoMemory, Text};
use std::alloc::Global;
use std::io::{ErrorKind, Read};
use std::process::ExitCode;
use std::{env, fs};

// The program's words, without its own name; or the status of a program that can't have them.
fn given_words(rt: &HostRuntime, alloc: Global) -> Result<Vec<Text>, Status> {
    let args = match env::args(rt) {
        Ok(args) => args,
        Err(error) => return Err(without_words(error.kind())),
    };
    let mut words = Vec::new(alloc);
    for word in args.skip(1) {
        match words.push(Text::new(word)) {
            Ok(()) => {}
            Err(_) => return Err(Status::NoMemory),
        }
    }
    Ok(words)
}

// Why there are no words: memory ran out, or an argument isn't a text, which makes a faulty command line.
fn without_words(kind: ErrorKind) -> Status {
    match kind {
        ErrorKind::OutOfMemory => Status::NoMemory,
        _ => Status::Usage,
    }
}

// The text that the words ask for, where they ask for one: `--help`, `--version`, or a command and `--help`.
fn asked_text(words: &[Text]) -> Option<&'static str> {
    let first = words.first()?.as_str();
    if words.len() == 1 {
        return match first {
            "--help" => Some(HELP),
            "--version" => Some(VERSION),
            _ => None,
        };
    }
    if words.len() == 2 && words[1].as_str() == "--help" {
        return help_of(first);
    }
    None
}

// Prints a text on standard output.
fn show(rt: &HostRuntime, text: &str) -> u8 {
    match print!(rt; "{text}") {
        Ok(()) => Status::Done.code(),
        Err(_) => {
            complain(
                rt,
                said(
                    rt,
                    rt.alloc(),
                    &[],
                    Status::WriteFault.code(),
                    None,
                    None,
                    &[],
                ),
            );
            Status::WriteFault.code()
        }
    }
}

// Why a file can't be read, asked again; `None` where it can be now.
fn why_unread(rt: &HostRuntime, name: &str) -> Option<ErrorKind> {
    match fs::open(rt, name) {
        Ok(mut file) => match file.read(&mut [0; 1]) {
            Ok(_) => None,
            Err(error) => Some(error.kind()),
        },
        Err(error) => Some(error.kind()),
    }
}

/// The greatest length of a text that is read again for a place in it, in bytes.
const AGAIN: u64 = 4_194_304;

// The bytes of a model file, read again for a place in it: of a plain file alone, since others may give nothing the second time.
fn text_again(rt: &HostRuntime, alloc: Global, name: &str) -> Option<Vec<u8>> {
    match fs::metadata(rt, name) {
        Ok(about) => {
            if about.is_file() {
                DiskFiles::new(alloc, *rt).read(name, AGAIN).ok()
            } else {
                None
            }
        }
        Err(_) => None,
    }
}

// What the line says that was printed.
fn line_said(
    rt: &HostRuntime,
    alloc: Global,
    words: &[Text],
    heard: &[u8],
) -> Result<Option<String>, NoMemory> {
    let Some(line) = first_line(heard) else {
        return Ok(None);
    };
    if let Some((name, said)) = file_told(words, line) {
        let text = text_again(rt, alloc, name);
        let text = match &text {
            Some(bytes) => Some(bytes.as_slice()),
            None => None,
        };
        return Ok(Some(sentence(alloc, name, said, text)?));
    }
    match line_told(line) {
        Some((name, said)) => Ok(Some(sentence(alloc, name, said, None)?)),
        None => Ok(None),
    }
}

// The first line of what was put.
fn first_line(heard: &[u8]) -> Option<&str> {
    let line = heard.get(..line_len(heard))?;
    std::str::from_utf8(line).ok()
}

// How many bytes stand before the first line feed.
fn line_len(heard: &[u8]) -> usize {
    let mut length: usize = 0;
    for byte in heard {
        if *byte == b'\n' {
            return length;
        }
        length = length.saturating_add(1);
    }
    length
}

// What is said on standard error for a status.
fn said(
    rt: &HostRuntime,
    alloc: Global,
    words: &[Text],
    status: u8,
    failed: Option<&str>,
    unwritten: Option<&str>,
    heard: &[u8],
) -> Result<Option<String>, NoMemory> {
    match status {
        1 | 6 | 7 => line_said(rt, alloc, words, heard),
        2 => Ok(Some(usage(alloc, words)?)),
        3 => {
            let why = match failed {
                Some(name) => why_unread(rt, name),
                None => None,
            };
            Ok(Some(read_fault(alloc, failed, why)?))
        }
        4 => Ok(Some(write_fault(alloc, unwritten)?)),
        5 => Ok(Some(String::from_str(alloc, "no memory")?)),
        _ => Ok(None),
    }
}

// Says it.
fn complain(rt: &HostRuntime, said: Result<Option<String>, NoMemory>) {
    match said {
        Ok(Some(text)) => {
            let _ = eprintln!(rt; "{text}");
        }
        Ok(None) => {}
        Err(NoMemory) => {
            let _ = eprintln!(rt; "no memory");
        }
    }
}

// Does what the words ask for.
fn answer(rt: &HostRuntime, words: &[Text]) -> u8 {
    let alloc = rt.alloc();
    let mut files = Noted::new(alloc, DiskFiles::new(alloc, *rt));
    let mut input = StdSource::new(rt.stdin());
    let mut out = Heard::new(alloc, StdSink::new(rt.stdout()));
    let mut patterns = RegexPatterns::new(alloc);
    let status = run(
        alloc,
        words,
        &mut files,
        &mut input,
        &mut out,
        &mut patterns,
    );
    complain(
        rt,
        said(
            rt,
            alloc,
            words,
            status,
            files.failed(),
            files.unwritten(),
            out.heard(),
        ),
    );
    status
}

// What is said on standard error for a status of `serve`.
fn said_of_serving(
    rt: &HostRuntime,
    alloc: Global,
    words: &[Text],
    status: u8,
    failed: Option<&str>,
    fault: Option<DoorsFault>,
) -> Result<Option<String>, NoMemory> {
    match (status, failed, fault) {
        (1 | 6 | 7, _, _) => Ok(Some(String::from_str(alloc, NO_GATEWAY)?)),
        (3, None, Some(fault)) => Ok(Some(doors_fault(alloc, words, fault)?)),
        _ => said(rt, alloc, words, status, failed, None, &[]),
    }
}

// Serves links over TCP.
fn serve_tcp(rt: &HostRuntime, words: &[Text]) -> u8 {
    let alloc = rt.alloc();
    let mut files = Noted::new(alloc, DiskFiles::new(alloc, *rt));
    let mut doors = TcpDoors::new(*rt);
    let mut patterns = RegexPatterns::new(alloc);
    let status = serve(alloc, words, &mut files, &mut doors, &mut patterns);
    complain(
        rt,
        said_of_serving(rt, alloc, words, status, files.failed(), doors.fault()),
    );
    status
}

fn main(rt: HostRuntime) -> ExitCode {
    let status = match given_words(&rt, rt.alloc()) {
        Ok(words) => match asked_text(words.as_slice()) {
            Some(text) => show(&rt, text),
            None => {
                if is_serve(words.as_slice()) {
                    serve_tcp(&rt, words.as_slice())
                } else {
                    answer(&rt, words.as_slice())
                }
            }
        },
        Err(status) => {
            complain(
                &rt,
                said(&rt, rt.alloc(), &[], status.code(), None, None, &[]),
            );
            status.code()
        }
    };
    ExitCode::from(status)
}
