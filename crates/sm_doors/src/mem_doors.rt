// Doors over memory, for tests: the bytes of their links are given beforehand, and what each link was told is kept.
ghost use Rattle.std.specs.Prelude.{◌≡◌, ◌≤◌, ◌+◌, [], IfOk, Some, drop, length, map, option_copied};
ghost use Rattle.std.specs.Vec.{vec_capacity};
ghost use Rattle.std.specs.Vec.Iter.{into_iter_items};
ghost use Rattle.sm_io.specs.Causes.{HasCause, next_count};
ghost use Rattle.sm_io.specs.Seen.{link_seen, stream};
ghost use Rattle.sm_doors.specs.Bytes.{link_bytes, out_of};

use crate::doors::{Doors, Phase};
use crate::link::Link;
use sm_bytes::NoMemory;
use sm_io::{Failed, MemSink, MemSource, Sink, Source};
use std::alloc::Global;
use std::vec::IntoIter;

type MemLink = Link<MemSource, MemSink, MemSource, MemSink>;

/// Doors whose links are over memory and never fail.
#[derive(Drop)]
pub struct MemDoors {
    alloc: Global,
    // What the front asks and the back answers on each link.
    given: Vec<(Vec<u8>, Vec<u8>)>,
    // The same of the links that haven't been accepted.
    waiting: IntoIter<(Vec<u8>, Vec<u8>)>,
    closed: Vec<MemLink>,
    failing: Vec<u64>,
    calls: u64,
    faults: u64,
    accepted: u64,
    phase: Phase,
    ghost waits: { map link_bytes (into_iter_items waiting) ≡ drop accepted (map link_bytes given.items) },
    ghost few: { accepted ≤ length given.items },
    ghost room: { length given.items ≤ vec_capacity closed },
    ghost within: { length closed.items + out_of phase ≤ accepted },
}

// Copies of what links are given.
fn copies(alloc: Global, links: &[(Vec<u8>, Vec<u8>)]) -> Result<Vec<(Vec<u8>, Vec<u8>)>, NoMemory>
    ensures { IfOk result (λ copies. map link_bytes copies.items ≡ map link_bytes links.now) }
{
    let mut copies = match Vec::with_capacity(alloc, links.len()) {
        Ok(copies) => copies,
        Err(_) => return Err(NoMemory),
    };
    for link in links {
        let copy = (copy_of(&link.0)?, copy_of(&link.1)?);
        match copies.push(copy) {
            Ok(()) => {}
            Err(_) => return Err(NoMemory),
        }
    }
    Ok(copies)
}

fn copy_of(bytes: &Vec<u8>) -> Result<Vec<u8>, NoMemory>
    ensures { IfOk result (λ copy. copy.items ≡ bytes.now.items) }
{
    let copy: Result<Vec<u8>, _> = bytes.clone();
    match copy {
        Ok(copy) => Ok(copy),
        Err(_) => Err(NoMemory),
    }
}

impl MemDoors {
    ghost use Rattle.sm_doors.specs.MemSeen.{FindsClosed, IsNumbered, closed_links, given_links, mem_doors_seen};
    ghost use Rattle.sm_doors.specs.declared.doors.Phase.TheVariants.{Shut};

    /// Doors that give a link for each pair: what its front asks, and what its back answers. The calls of `accept` that `failing` lists,
    /// counted from 1, fail, and so do those behind the last link.
    pub fn new(
        alloc: Global,
        links: Vec<(Vec<u8>, Vec<u8>)>,
        failing: Vec<u64>,
    ) -> Result<MemDoors, NoMemory>
        ensures shut { IfOk result (λ doors. (⟦<MemDoors as Doors>⟧.seen doors).phase ≡ Shut) }
        ensures given { IfOk result (λ doors. given_links doors ≡ map link_bytes links.items) }
        ensures accepted { IfOk result (λ doors. (⟦<MemDoors as Doors>⟧.seen doors).accepted ≡ 0) }
        ensures closed { IfOk result (λ doors. closed_links doors ≡ []) }
    {
        let waiting = copies(alloc, &links)?.into_iter();
        let closed = match Vec::with_capacity(alloc, links.len()) {
            Ok(closed) => closed,
            Err(_) => return Err(NoMemory),
        };
        Ok(MemDoors {
            alloc,
            given: links,
            waiting,
            closed,
            failing,
            calls: 0,
            faults: 0,
            accepted: 0,
            phase: Phase::Shut,
        })
    }

    /// What the front of a closed link was answered; links are counted from 1 in the order in which they were closed.
    pub fn front_bytes(&self, link: u64) -> Option<&[u8]>
        ensures { FindsClosed (λ closed. closed.answers) (closed_links self.now) link (option_copied result) }
    {
        match self.closed_at(link) {
            Some(link) => Some(link.front_out.bytes()),
            None => None,
        }
    }

    /// What the back of a closed link was asked.
    pub fn back_bytes(&self, link: u64) -> Option<&[u8]>
        ensures { FindsClosed (λ closed. closed.requests) (closed_links self.now) link (option_copied result) }
    {
        match self.closed_at(link) {
            Some(link) => Some(link.back_out.bytes()),
            None => None,
        }
    }

    // The closed link of this number, counted from 1.
    fn closed_at(&self, link: u64) -> Option<&MemLink>
        ensures { IsNumbered self.now.closed.items link (option_copied result) }
    {
        if link == 0 {
            return None;
        }
        self.closed.get((link - 1) as usize)
    }

    // A call that fails.
    fn fail(&mut self) -> Failed
        ensures seen { mem_doors_seen self.new ≡ mem_doors_seen self.old }
        ensures counted { self.new.faults ≡ next_count self.old.faults }
    {
        self.faults = self.faults.saturating_add(1);
        Failed
    }
}

impl Doors for MemDoors {
    ghost use Rattle.std.specs.Prelude.{⊤, IsErr, Ok};
    ghost use Rattle.sm_doors.specs.DoorsSeen.{AcceptsLink, IsPhase, Listens, behind_close};
    ghost use Rattle.sm_doors.specs.MemSeen.{mem_doors_seen};
    ghost use Rattle.sm_doors.specs.declared.doors.Phase.TheVariants.{Lent, Open, Shut};

    type FrontIn = MemSource;

    type FrontOut = MemSink;

    type BackIn = MemSource;

    type BackOut = MemSink;

    ghost seen = { mem_doors_seen };

    ghost faults = { λ doors. doors.faults };

    ghost lets = { λ doors listen connect. ⊤ };

    fn listen(&mut self, _listen: &str, _connect: &str) -> Result<(), Failed>
        requires shut { IsPhase (mem_doors_seen self.old) Shut }
        ensures listens { Listens (mem_doors_seen self.old) (mem_doors_seen self.new) result }
        ensures later { self.old.faults ≤ self.new.faults }
        ensures cause { HasCause (IsErr result) self.old.faults self.new.faults }
        ensures calm { result ≡ Ok tt }
    {
        self.phase = Phase::Open;
        Ok(())
    }

    fn accept(&mut self) -> Result<MemLink, Failed>
        requires open { IsPhase (mem_doors_seen self.old) Open }
        ensures accepts { AcceptsLink (λ link. link_seen
            (stream (⟦<MemSource as Source>⟧.left link.front_in) (⟦<MemSource as Source>⟧.faults link.front_in))
            (stream (⟦<MemSink as Sink>⟧.written link.front_out) (⟦<MemSink as Sink>⟧.faults link.front_out))
            (stream (⟦<MemSource as Source>⟧.left link.back_in) (⟦<MemSource as Source>⟧.faults link.back_in))
            (stream (⟦<MemSink as Sink>⟧.written link.back_out) (⟦<MemSink as Sink>⟧.faults link.back_out)))
            (mem_doors_seen self.old) (mem_doors_seen self.new) result }
        ensures later { self.old.faults ≤ self.new.faults }
        ensures cause { HasCause (IsErr result) self.old.faults self.new.faults }
    {
        self.calls = self.calls.saturating_add(1);
        if self.failing.contains(&self.calls) {
            return Err(self.fail());
        }
        match self.waiting.next() {
            Some((front, back)) => {
                self.accepted += 1;
                self.phase = Phase::Lent;
                Ok(mem_link(self.alloc, front, back))
            }
            None => Err(self.fail()),
        }
    }

    fn close(&mut self, link: MemLink)
        requires lent { IsPhase (mem_doors_seen self.old) Lent }
        ensures closes { mem_doors_seen self.new ≡ behind_close (mem_doors_seen self.old) (link_seen
            (stream (⟦<MemSource as Source>⟧.left link.front_in) (⟦<MemSource as Source>⟧.faults link.front_in))
            (stream (⟦<MemSink as Sink>⟧.written link.front_out) (⟦<MemSink as Sink>⟧.faults link.front_out))
            (stream (⟦<MemSource as Source>⟧.left link.back_in) (⟦<MemSource as Source>⟧.faults link.back_in))
            (stream (⟦<MemSink as Sink>⟧.written link.back_out) (⟦<MemSink as Sink>⟧.faults link.back_out))) }
        ensures later { self.old.faults ≤ self.new.faults }
    {
        match self.closed.push(link) {
            Ok(()) => self.phase = Phase::Open,
            Err(_) => unreachable!(),
        }
    }
}

// A link over these bytes, to which nothing was written.
fn mem_link(alloc: Global, front: Vec<u8>, back: Vec<u8>) -> MemLink
    ensures front_in { ⟦<MemSource as Source>⟧.left result.front_in ≡ Some front.items }
    ensures front_in_calm { ⟦<MemSource as Source>⟧.faults result.front_in ≡ 0 }
    ensures front_out { ⟦<MemSink as Sink>⟧.written result.front_out ≡ Some [] }
    ensures front_out_calm { ⟦<MemSink as Sink>⟧.faults result.front_out ≡ 0 }
    ensures back_in { ⟦<MemSource as Source>⟧.left result.back_in ≡ Some back.items }
    ensures back_in_calm { ⟦<MemSource as Source>⟧.faults result.back_in ≡ 0 }
    ensures back_out { ⟦<MemSink as Sink>⟧.written result.back_out ≡ Some [] }
    ensures back_out_calm { ⟦<MemSink as Sink>⟧.faults result.back_out ≡ 0 }
{
    Link {
        front_in: MemSource::new(front, Vec::new(alloc), Vec::new(alloc)),
        front_out: MemSink::new(alloc, Vec::new(alloc)),
        back_in: MemSource::new(back, Vec::new(alloc), Vec::new(alloc)),
        back_out: MemSink::new(alloc, Vec::new(alloc)),
    }
}
