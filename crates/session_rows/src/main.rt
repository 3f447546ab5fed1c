// Plays rows of text on sessions: a row is the bytes of a front and of a back, and comes out with what is put to each and the end. Rows
// are written by hand (README.md has their notation).
#![tactic(auto)]

mod echo;
mod faults;
mod play;
mod show;

use faults::faults_cut_short;
use play::{Failing, play, single_bytes};
use rows::{Player, played};
use show::{show_bytes, show_end};
use sm_tree::NoMemory;
use std::alloc::Global;
use std::io;

// No object fails.
const CALM: Failing = Failing {
    front_in: 0,
    front_out: 0,
    back_in: 0,
    back_out: 0,
};

// The bytes of a side of a row: `|` stands for CR LF.
fn given(alloc: Global, text: &str) -> Result<Vec<u8>, NoMemory> {
    let mut bytes = Vec::new(alloc);
    let mut is_first = true;
    for part in text.split('|') {
        if !is_first {
            bytes.extend_from_slice(b"\r\n")?;
        }
        is_first = false;
        bytes.extend_from_slice(part.as_bytes())?;
    }
    Ok(bytes)
}

// Appends what a session of these bytes puts, whole, byte by byte, and with each call failing in turn.
fn show_session(
    alloc: Global,
    front: &[u8],
    back: &[u8],
    out: &mut String,
) -> Result<(), NoMemory> {
    let whole = play(alloc, front, back, &[], CALM)?;
    let singles = single_bytes(alloc, front.len().max(back.len()))?;
    let cut = play(alloc, front, back, &singles, CALM)?;
    if cut.end != whole.end || cut.answers != whole.answers || cut.requests != whole.requests {
        return Ok(out.push_str("ways differ")?);
    }
    if !faults_cut_short(alloc, front, back, &whole)? {
        return Ok(out.push_str("a fault isn't cut short")?);
    }
    show_bytes(&whole.answers, out)?;
    out.push_str(" <> ")?;
    show_bytes(&whole.requests, out)?;
    out.push_str(" <> ")?;
    show_end(whole.end, out)
}

// Appends how many bytes of bodies were handed on where the front comes byte by byte, and its last byte can't be read, and the end.
fn show_handed(alloc: Global, front: &[u8], out: &mut String) -> Result<(), NoMemory> {
    let singles = single_bytes(alloc, front.len())?;
    let fault = Failing {
        front_in: front.len() as u64,
        ..CALM
    };
    let said = play(alloc, front, &[], &singles, fault)?;
    write!(out, "{}", said.handed)?;
    out.push_str(" <> ")?;
    show_end(said.end, out)
}

// The sessions of rows.
#[derive(Drop)]
struct Sessions;

impl Player for Sessions {
    fn play(&mut self, alloc: Global, case: &str, out: &mut String) -> Result<(), NoMemory> {
        out.push_str(" => ")?;
        if let Some(front) = case.strip_prefix("handed ") {
            return show_handed(alloc, &given(alloc, front)?, out);
        }
        let Some((front, back)) = case.split_once(" <> ") else {
            return Ok(out.push_str("no row")?);
        };
        let front = given(alloc, front)?;
        let back = given(alloc, back)?;
        show_session(alloc, &front, &back, out)
    }
}

fn main(rt: HostRuntime) -> anyhow::Result<()> {
    let rows = io::read_to_string(rt.alloc(), rt.stdin())?;
    match played(rt.alloc(), &mut Sessions, &rows) {
        Ok(out) => print!(rt; "{out}")?,
        Err(NoMemory) => anyhow::bail!("out of memory"),
    }
    Ok(())
}
