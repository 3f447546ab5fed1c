// Plays rows of `serve` over doors in memory: a row is the links that come, and comes out with the status and what each link was told.
// README.md has the notation.
#![tactic(auto)]

mod links;

use links::{MemLinks, links_of, show_links};
use rows::{Player, played};
use sm_doors::MemDoors;
use sm_io::DiskFiles;
use sm_serve::serve;
use sm_shapes::RegexPatterns;
use sm_tree::{NoMemory, Text};
use std::alloc::Global;
use std::{io, rt};

// Model files, the words of the next rows, and which call for a link fails in the next one, counted from 1; none where it is 0.
#[derive(Drop)]
struct Served<R> {
    files: DiskFiles<R>,
    words: Vec<Text>,
    failing: u64,
}

// The words of a row, with a blank between two.
fn words_of(alloc: Global, row: &str) -> Result<Vec<Text>, NoMemory> {
    let mut words = Vec::new(alloc);
    for word in row.split(' ') {
        words.push(Text::copy(alloc, word)?)?;
    }
    Ok(words)
}

// The number that a row behind `fail ` says.
fn call_of(row: &str) -> Option<u64> {
    row.strip_prefix("fail ")?.parse::<u64>().ok()
}

impl<R: rt::Files> Served<R> {
    // Appends what the words come to over doors that give these links: the status, and what each link was told.
    fn show(&mut self, alloc: Global, links: MemLinks, out: &mut String) -> Result<(), NoMemory> {
        let most = links.len() as u64;
        let failing = vec![in alloc; self.failing]?;
        self.failing = 0;
        let mut doors = MemDoors::new(alloc, links, failing)?;
        let mut patterns = RegexPatterns::new(alloc);
        let status = serve(
            alloc,
            &self.words,
            &mut self.files,
            &mut doors,
            &mut patterns,
        );
        write!(out, "{status}")?;
        show_links(alloc, &doors, most, out)
    }
}

impl<R: rt::Files> Player for Served<R> {
    fn play(&mut self, alloc: Global, case: &str, out: &mut String) -> Result<(), NoMemory> {
        if case.starts_with("serve ") {
            self.words = words_of(alloc, case)?;
            return Ok(());
        }
        if let Some(call) = call_of(case) {
            self.failing = call;
            return Ok(());
        }
        out.push_str(" => ")?;
        match links_of(alloc, case)? {
            Some(links) => self.show(alloc, links, out),
            None => Ok(out.push_str("no row")?),
        }
    }
}

fn main(rt: HostRuntime) -> anyhow::Result<()> {
    let rows = io::read_to_string(rt.alloc(), rt.stdin())?;
    let mut served = Served {
        files: DiskFiles::new(rt.alloc(), rt),
        words: Vec::new(rt.alloc()),
        failing: 0,
    };
    match played(rt.alloc(), &mut served, &rows) {
        Ok(out) => print!(rt; "{out}")?,
        Err(NoMemory) => anyhow::bail!("out of memory"),
    }
    Ok(())
}
