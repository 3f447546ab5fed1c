// Plays rows of sessions of gateways: a row is the bytes of a front and of a back, and comes out with what is put to each and the end.
// README.md has the notation.
#![tactic(auto)]

ghost use Rattle.sm_shapes.specs.InOrder.{AreStored};
ghost use Rattle.sm_gateway.specs.GatewayData.{ServesBoth};
ghost use Rattle.sm_gateway.specs.GatewayView.{KeepsBoth, gateway_data};

mod cuts;
mod given;
mod pieces;
mod play;
mod show;
mod ways;

use given::given;
use play::{CALM, Sides};
use rows::{Player, played, push_utf8};
use show::show_played;
use sm_asked::CommandStop;
use sm_asked_gateway::{gateway_words, make_gateway};
use sm_gateway::Gateway;
use sm_io::DiskFiles;
use sm_shapes::{Patterns, RegexPatterns};
use sm_tree::{NoMemory, Text};
use std::alloc::Global;
use std::{io, rt};
use ways::{other_way, play_whole};

// Gateways over model files, and the words that ask for the one of the next rows.
#[derive(Drop)]
struct Sessions<R> {
    files: DiskFiles<R>,
    words: Vec<Text>,
}

// The words of a row, with a blank between two.
fn words_of(alloc: Global, row: &str) -> Result<Vec<Text>, NoMemory> {
    let mut words = Vec::new(alloc);
    for word in row.split(' ') {
        words.push(Text::copy(alloc, word)?)?;
    }
    Ok(words)
}

// Appends why there is no gateway.
fn show_stop(stop: &CommandStop, out: &mut String) -> Result<(), NoMemory> {
    match stop {
        CommandStop::Refused(line) => push_utf8(line, out),
        CommandStop::Pattern(line) => push_utf8(line, out),
        CommandStop::Limit(line) => push_utf8(line, out),
        CommandStop::ReadFault => Ok(out.push_str("read fault")?),
        CommandStop::NoMemory => Err(NoMemory),
    }
}

// Appends what a session comes to; or in which way it comes to something else.
fn show_session<P: Patterns>(
    alloc: Global,
    gateway: &Gateway,
    patterns: &mut P,
    sides: Sides<'_>,
    out: &mut String,
) -> Result<(), NoMemory>
    requires serves { ServesBoth (gateway_data gateway.now) P.test }
    requires kept { KeepsBoth gateway.now }
    requires stored { AreStored (gateway_data gateway.now).service.table.patterns (P.added patterns.old) }
{
    let whole = play_whole(alloc, gateway, patterns, sides, CALM)?;
    match other_way(alloc, gateway, patterns, sides, &whole)? {
        Some(way) => Ok(out.push_str(way)?),
        None => show_played(&whole, out),
    }
}

impl<R: rt::Files> Sessions<R> {
    // Appends what a session over the gateway of the words comes to, or why there is none.
    fn show(&mut self, alloc: Global, sides: Sides<'_>, out: &mut String) -> Result<(), NoMemory> {
        let Some((words, _)) = gateway_words(&self.words, "gateway", 0) else {
            return Ok(out.push_str("no gateway")?);
        };
        let mut patterns = RegexPatterns::new(alloc);
        match make_gateway(alloc, words, &mut self.files, &mut patterns) {
            Ok(gateway) => show_session(alloc, &gateway, &mut patterns, sides, out),
            Err(stop) => show_stop(&stop, out),
        }
    }
}

impl<R: rt::Files> Player for Sessions<R> {
    fn play(&mut self, alloc: Global, case: &str, out: &mut String) -> Result<(), NoMemory> {
        if case.starts_with("gateway ") {
            self.words = words_of(alloc, case)?;
            return Ok(());
        }
        out.push_str(" => ")?;
        let Some((front, back)) = case.split_once(" <> ") else {
            return Ok(out.push_str("no row")?);
        };
        let (Some(front), Some(back)) = (given(alloc, front)?, given(alloc, back)?) else {
            return Ok(out.push_str("no bytes")?);
        };
        let sides = Sides {
            front: &front,
            back: &back,
        };
        self.show(alloc, sides, out)
    }
}

fn main(rt: HostRuntime) -> anyhow::Result<()> {
    let rows = io::read_to_string(rt.alloc(), rt.stdin())?;
    let mut sessions = Sessions {
        files: DiskFiles::new(rt.alloc(), rt),
        words: Vec::new(rt.alloc()),
    };
    match played(rt.alloc(), &mut sessions, &rows) {
        Ok(out) => print!(rt; "{out}")?,
        Err(NoMemory) => anyhow::bail!("out of memory"),
    }
    Ok(())
}
