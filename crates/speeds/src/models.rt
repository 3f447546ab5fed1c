// The verb `model`: prints a model in the JSON AST, for measuring what reads one: of ten shapes six are structures, as in the models of
// services, and the others an operation, a list, a string and an enum. Or reads one in the IDL many times over.
mod reading;
mod shape;

use crate::given::Given;
use reading::{refused_count, statement_count};
use shape::put_shape;
use sm_tree::NoMemory;
use std::alloc::Global;

/// What is done.
#[derive(Debug, Clone, Copy)]
pub enum Command {
    /// Prints a model.
    Print(Wanted),
    /// Reads a text so many times.
    Read(u32),
    /// Reads so many texts with a fault.
    Refuse(u32),
}

/// What is printed.
#[derive(Debug, Clone, Copy)]
pub struct Wanted {
    /// How many shapes.
    pub shapes: u32,
    /// Whether shapes and members have documentation.
    pub is_documented: bool,
}

// What the words ask for.
fn asked(words: &str) -> Option<Command> {
    let (style, count) = words.split_once(' ')?;
    command_of(style, count.parse::<u32>().ok()?)
}

// What the first word asks for.
fn command_of(style: &str, count: u32) -> Option<Command> {
    match style {
        "documented" => Some(Command::Print(Wanted {
            shapes: count,
            is_documented: true,
        })),
        "bare" => Some(Command::Print(Wanted {
            shapes: count,
            is_documented: false,
        })),
        "idl" => Some(Command::Read(count)),
        "refused" => Some(Command::Refuse(count)),
        _ => None,
    }
}

fn model(alloc: Global, wanted: Wanted) -> Result<String, NoMemory> {
    let mut out = String::from_str(alloc, "{\"smithy\":\"2.0\",\"shapes\":{")?;
    for shape in 0..wanted.shapes {
        put_shape(alloc, wanted, shape, &mut out)?;
    }
    out.push_str("}}\n")?;
    Ok(out)
}

// Reads the input many times over, and prints how many statements it has.
fn read(rt: &HostRuntime, given: Given<'_>, turns: u32) -> anyhow::Result<()> {
    let alloc = rt.alloc();
    let text = given.bytes(rt)?;
    let Ok(text) = std::str::from_utf8(&text) else {
        anyhow::bail!("the input is no text in UTF-8");
    };
    let Ok(count) = statement_count(alloc, text, turns) else {
        anyhow::bail!("the input is no model's text");
    };
    println!(rt; "{count}")?;
    Ok(())
}

// Reads the input with a fault in it, and prints how many such texts are refused.
fn refuse(rt: &HostRuntime, given: Given<'_>, turns: u32) -> anyhow::Result<()> {
    let alloc = rt.alloc();
    let mut text = given.bytes(rt)?;
    let count = refused_count(alloc, &mut text, turns);
    println!(rt; "{count}")?;
    Ok(())
}

/// Does what the words ask for, and says whether they ask for anything.
///
/// # Errors
///
/// Where the input can't be read, or is no model's text; where the output takes nothing; where memory runs out.
pub fn measure(rt: &HostRuntime, words: &str, given: Given<'_>) -> anyhow::Result<bool> {
    let Some(command) = asked(words) else {
        return Ok(false);
    };
    match command {
        Command::Print(wanted) => {
            let Ok(text) = model(rt.alloc(), wanted) else {
                anyhow::bail!("out of memory");
            };
            print!(rt; "{text}")?;
        }
        Command::Read(turns) => read(rt, given, turns)?,
        Command::Refuse(turns) => refuse(rt, given, turns)?,
    }
    Ok(true)
}
