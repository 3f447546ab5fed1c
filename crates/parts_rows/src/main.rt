// Plays rows of text on the parts of messages in which members stand: a row is a case, and comes out with its answer. Rows are written
// by hand (README.md has their notation).
#![tactic(auto)]

mod play;
mod routes;
mod show;
mod values;

use play::answer_to;
use rows::{Player, played};
use sm_tree::NoMemory;
use std::alloc::Global;
use std::io;

// The answers of parts.
#[derive(Drop)]
struct Parts;

impl Player for Parts {
    fn play(&mut self, alloc: Global, case: &str, out: &mut String) -> Result<(), NoMemory> {
        out.push_str(" => ")?;
        answer_to(alloc, case, out)
    }
}

fn main(rt: HostRuntime) -> anyhow::Result<()> {
    let rows = io::read_to_string(rt.alloc(), rt.stdin())?;
    match played(rt.alloc(), &mut Parts, &rows) {
        Ok(out) => print!(rt; "{out}")?,
        Err(NoMemory) => anyhow::bail!("out of memory"),
    }
    Ok(())
}
