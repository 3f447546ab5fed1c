// Plays rows of text on the codec: rows write down a table, and bodies of its shapes, and a case comes out with its answer (README.md has
// the notation). So a table of cases is proved by nobody and read by everybody.
#![tactic(auto)]

mod answer;
mod defaults;
mod event_words;
mod far;
mod parts;
mod play;
mod row;
mod shown;

use play::Shapes;
use rows::played;
use sm_tree::NoMemory;
use std::io;

fn main(rt: HostRuntime) -> anyhow::Result<()> {
    let rows = io::read_to_string(rt.alloc(), rt.stdin())?;
    match played(rt.alloc(), &mut Shapes::new(rt.alloc()), &rows) {
        Ok(out) => print!(rt; "{out}")?,
        Err(NoMemory) => anyhow::bail!("out of memory"),
    }
    Ok(())
}
