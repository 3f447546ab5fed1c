// Plays rows of text on transforms of models: a row is a case, and comes out with its answer. Rows are written by hand (README.md has their
// notation), so a table of cases is proved by nobody and read by everybody.
#![tactic(auto)]

mod asked;
mod changing;
mod models;
mod refusal;
mod row;
mod tree;

use models::Models;
use rows::played;
use sm_tree::NoMemory;
use std::io;

fn main(rt: HostRuntime) -> anyhow::Result<()> {
    let rows = io::read_to_string(rt.alloc(), rt.stdin())?;
    match played(rt.alloc(), &mut Models::new(rt.alloc()), &rows) {
        Ok(out) => print!(rt; "{out}")?,
        Err(NoMemory) => anyhow::bail!("out of memory"),
    }
    Ok(())
}
