// Plays rows of text on the readers and the writer of HTTP messages: a row is a case, and comes out with its answer. Rows are
// written by hand (README.md has their notation).
#![tactic(auto)]

mod asked;
mod cuts;
mod given;
mod many;
mod pieces;
mod play;
mod prefixes;
mod question;
mod show;
mod stream;
mod written;

use play::answer_to;
use rows::{Player, played};
use sm_tree::NoMemory;
use std::alloc::Global;
use std::io;

// The answers of messages.
#[derive(Drop)]
struct Messages;

impl Player for Messages {
    fn play(&mut self, alloc: Global, case: &str, out: &mut String) -> Result<(), NoMemory> {
        out.push_str(" => ")?;
        answer_to(alloc, case, out)
    }
}

fn main(rt: HostRuntime) -> anyhow::Result<()> {
    let rows = io::read_to_string(rt.alloc(), rt.stdin())?;
    match played(rt.alloc(), &mut Messages, &rows) {
        Ok(out) => print!(rt; "{out}")?,
        Err(NoMemory) => anyhow::bail!("out of memory"),
    }
    Ok(())
}
