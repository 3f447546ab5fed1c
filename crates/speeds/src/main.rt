// Does one thing many times over, so that others can measure it: a reader, a writer, a compiler, a whole message. It tells no time itself.
// docs/PERFORMANCE.md says how it is used.
#![tactic(auto)]

mod codecs;
mod formats;
mod given;
mod http_messages;
mod loaded;
mod models;
mod routes;
mod services;

use given::Given;
use std::process::ExitCode;
use std::{env, io};

// The arguments behind the program's name, with a blank between two.
fn words_of(rt: &HostRuntime) -> anyhow::Result<String> {
    let mut words = String::new(rt.alloc());
    for word in env::args(rt)?.skip(1) {
        if !words.is_empty() {
            words.push(' ')?;
        }
        words.push_str(&word)?;
    }
    Ok(words)
}

// Does what the words ask for: the first one is the verb, which says what is measured. Whether they ask for anything.
fn measure(rt: &HostRuntime, words: &str, given: Given<'_>) -> anyhow::Result<bool> {
    let Some((verb, words)) = words.split_once(' ') else {
        return Ok(false);
    };
    match verb {
        "format" => formats::measure(rt, words, given),
        "model" => models::measure(rt, words, given),
        "service" => services::measure(rt, words, given),
        "codec" => codecs::measure(rt, words, given),
        "http" => http_messages::measure(rt, words, given),
        "route" => routes::measure(rt, words, given),
        _ => Ok(false),
    }
}

// Does what each line of the input asks for: words, and perhaps a file that is their input, as `format json copy < body.json`.
fn measure_lines(rt: &HostRuntime) -> anyhow::Result<bool> {
    let lines = io::read_to_string(rt.alloc(), rt.stdin())?;
    for line in lines.lines() {
        let (words, given) = match line.split_once(" < ") {
            Some((words, name)) => (words, Given::File(name)),
            None => (line, Given::Nothing),
        };
        if !measure(rt, words, given)? {
            return Ok(false);
        }
    }
    Ok(true)
}

fn main(rt: HostRuntime) -> anyhow::Result<ExitCode> {
    let words = words_of(&rt)?;
    let is_asked = if words.is_empty() {
        measure_lines(&rt)?
    } else {
        measure(&rt, &words, Given::Input)?
    };
    if !is_asked {
        eprintln!(rt; "usage")?;
        return Ok(ExitCode::from(2));
    }
    Ok(ExitCode::SUCCESS)
}
