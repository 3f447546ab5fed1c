// Plays rows of text on the readers and writers of formats: a row is a case, and comes out with its answer. Rows are written by
// hand (README.md has their notation), so a table of a thousand cases is proved by nobody and read by everybody.
#![tactic(auto)]

mod both_readers;
mod cbor_events;
mod formats;
mod given;
mod idl;
mod ids;
mod json_events;
mod play;
mod question;
mod show;
mod shown;
mod stamps;
mod trees;

use play::answer_to;
use rows::{Player, played};
use sm_tree::NoMemory;
use std::alloc::Global;
use std::io;

// The answers of formats.
#[derive(Drop)]
struct FormatPlayer;

impl Player for FormatPlayer {
    fn play(&mut self, alloc: Global, case: &str, out: &mut String) -> Result<(), NoMemory> {
        out.push_str(" => ")?;
        answer_to(alloc, case, out)
    }
}

fn main(rt: HostRuntime) -> anyhow::Result<()> {
    let rows = io::read_to_string(rt.alloc(), rt.stdin())?;
    match played(rt.alloc(), &mut FormatPlayer, &rows) {
        Ok(out) => print!(rt; "{out}")?,
        Err(NoMemory) => anyhow::bail!("out of memory"),
    }
    Ok(())
}
