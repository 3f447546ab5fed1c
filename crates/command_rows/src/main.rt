// Plays rows of text on the commands, over files, input and output in memory: a row is a case, and comes out with its answer. The rows of
// each command stand in a file of their own. README.md has the notation, which a person writes by hand.
#![tactic(auto)]

mod given;
mod kept;
mod large;
mod row;
mod shelf;

use rows::played;
use shelf::Shelf;
use sm_tree::NoMemory;
use std::fs;

// The files of rows: that of words of no form, and one for each command.
const FILES: [&str; 8] = [
    "words.rows",
    "body.rows",
    "check.rows",
    "convert.rows",
    "cross.rows",
    "schema.rows",
    "select.rows",
    "transform.rows",
];

fn main(rt: HostRuntime) -> anyhow::Result<()> {
    for name in FILES {
        let rows = fs::read_to_string(&rt, name)?;
        match played(rt.alloc(), &mut Shelf::new(rt.alloc()), &rows) {
            Ok(out) => print!(rt; "{name}: {out}")?,
            Err(NoMemory) => anyhow::bail!("out of memory"),
        }
    }
    Ok(())
}
