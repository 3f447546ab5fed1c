// Doors over TCP. They tell nothing of what a link reads and writes, and a link that is lost doesn't end them.
ghost use Rattle.std.specs.Prelude.{◌≡◌, ◌≤◌, IsErr, None, ⊤};
ghost use Rattle.sm_io.specs.Causes.{HasCause, next_count};
ghost use Rattle.sm_io.specs.Seen.{link_seen, stream};

use crate::doors::{Doors, Phase};
use crate::link::Link;
use crate::sockets::{BackAddresses, back_addresses, back_ends, front_ends, linger};
use crate::tcp_ends::{TcpSink, TcpSource};
use sm_io::{Failed, Sink, Source};
use std::io::{Eprint, ErrorKind, Read, Write};
use std::net::{Net, OpenListener, SocketAddr, TcpListener};
use std::time::Clock;

/// How many fronts that are lost as they come one `accept` passes over.
pub const ACCEPT_TRIES: u32 = 100;

/// What doors over TCP couldn't do.
#[derive(Clone, Copy, Debug, PartialEq, Eq)]
pub enum DoorsFault {
    /// No address of the back is known.
    Connect(ErrorKind),
    /// The address can't be listened on.
    Listen(ErrorKind),
    /// No front can be accepted.
    Accept(ErrorKind),
}

/// Doors over TCP: a listener in front, and a connection to the back for each link.
#[derive(Drop)]
pub struct TcpDoors<R: Net + Drop> {
    rt: R,
    listener: Option<R::Listener>,
    back: BackAddresses,
    phase: Phase,
    accepted: u64,
    closed: u64,
    faults: u64,
    fault: Option<DoorsFault>,
}

type TcpLink<S> = Link<TcpSource<S>, TcpSink<S>, TcpSource<S>, TcpSink<S>>;

impl<R: Net + Clock + Eprint + Drop> TcpDoors<R> {
    ghost use Rattle.sm_doors.specs.DoorsSeen.{untold};
    ghost use Rattle.sm_doors.specs.declared.doors.Phase.TheVariants.{Open, Shut};

    /// Doors that haven't listened.
    pub fn new(rt: R) -> Self
        ensures { ⟦<TcpDoors<R> as Doors>⟧.seen result ≡ untold Shut 0 0 }
    {
        TcpDoors {
            rt,
            listener: None,
            back: BackAddresses::none(),
            phase: Phase::Shut,
            accepted: 0,
            closed: 0,
            faults: 0,
            fault: None,
        }
    }

    /// Doors that listen by this listener, for links whose back is at this address.
    pub fn listening(rt: R, listener: R::Listener, back: SocketAddr) -> Self
        ensures { ⟦<TcpDoors<R> as Doors>⟧.seen result ≡ untold Open 0 0 }
    {
        TcpDoors {
            rt,
            listener: Some(listener),
            back: BackAddresses::one(back),
            phase: Phase::Open,
            accepted: 0,
            closed: 0,
            faults: 0,
            fault: None,
        }
    }

    /// What failed last, where something did.
    pub fn fault(&self) -> Option<DoorsFault> {
        self.fault
    }

    // Counts a fault.
    fn fail(&mut self, fault: DoorsFault) -> Failed
        ensures counted { self.new.faults ≡ next_count self.old.faults }
        ensures later { self.old.faults ≤ self.new.faults }
        ensures phase { self.new.phase ≡ self.old.phase }
        ensures accepted { self.new.accepted ≡ self.old.accepted }
        ensures closed { self.new.closed ≡ self.old.closed }
    {
        self.faults = self.faults.saturating_add(1);
        self.fault = Some(fault);
        Failed
    }

    // The two ends of the next front, or why it was lost.
    fn next_front(&self) -> Result<(R::Stream, R::Stream), ErrorKind> {
        match &self.listener {
            Some(listener) => match listener.accept() {
                Ok((stream, _)) => front_ends(stream),
                Err(error) => Err(error.kind()),
            },
            None => Err(ErrorKind::NotConnected),
        }
    }

    // The two ends of a connection to the back for the link that was accepted last; a back that can't be reached is told of.
    fn next_back(&self) -> Option<(R::Stream, R::Stream)> {
        match back_ends(&self.rt, &self.back) {
            Ok(ends) => Some(ends),
            Err(kind) => {
                let _ = eprintln!(self.rt; "link {}: back connect: {kind}", self.accepted);
                None
            }
        }
    }

    // Tells of a back that failed within a link.
    fn tell_lost(&self, what: &str, why: Option<ErrorKind>) {
        if let Some(kind) = why {
            let told = told_kind(kind);
            let _ = eprintln!(self.rt; "link {}: back {what}: {told}", self.accepted);
        }
    }
}

// What is told of a failure: where a socket has waited as long as it may, the system says that it would block.
fn told_kind(kind: ErrorKind) -> ErrorKind {
    match kind {
        ErrorKind::WouldBlock => ErrorKind::TimedOut,
        kind => kind,
    }
}

// The ends of a link, of which those of the back may be missing.
fn link_of<S: Read + Write>(front: (S, S), back: Option<(S, S)>) -> TcpLink<S> {
    let (front_in, front_out) = front;
    let (back_in, back_out) = match back {
        Some((back_in, back_out)) => (Some(back_in), Some(back_out)),
        None => (None, None),
    };
    Link {
        front_in: TcpSource::new(Some(front_in)),
        front_out: TcpSink::new(Some(front_out)),
        back_in: TcpSource::new(back_in),
        back_out: TcpSink::new(back_out),
    }
}

impl<R: Net + Clock + Eprint + Drop> Doors for TcpDoors<R> {
    ghost use Rattle.sm_doors.specs.DoorsSeen.{AcceptsLink, IsPhase, Listens, behind_close, untold};
    ghost use Rattle.sm_doors.specs.declared.doors.Phase.TheVariants.{Lent, Open, Shut};

    type FrontIn = TcpSource<R::Stream>;

    type FrontOut = TcpSink<R::Stream>;

    type BackIn = TcpSource<R::Stream>;

    type BackOut = TcpSink<R::Stream>;

    ghost seen = { λ doors. untold doors.phase doors.accepted doors.closed };

    ghost faults = { λ doors. doors.faults };

    ghost lets = { λ doors listen connect. ⊤ };

    fn listen(&mut self, listen: &str, connect: &str) -> Result<(), Failed>
        requires shut { IsPhase (untold self.old.phase self.old.accepted self.old.closed) Shut }
        ensures listens { Listens (untold self.old.phase self.old.accepted self.old.closed)
            (untold self.new.phase self.new.accepted self.new.closed) result }
        ensures later { self.old.faults ≤ self.new.faults }
        ensures cause { HasCause (IsErr result) self.old.faults self.new.faults }
    {
        match back_addresses(&self.rt, connect) {
            Ok(back) => self.back = back,
            Err(kind) => return Err(self.fail(DoorsFault::Connect(kind))),
        }
        match TcpListener::bind(&self.rt, listen) {
            Ok(listener) => {
                if listen.ends_with(":0")
                    && let Ok(address) = listener.local_addr()
                {
                    let _ = eprintln!(self.rt; "listening on {address}");
                }
                self.listener = Some(listener);
                self.phase = Phase::Open;
                Ok(())
            }
            Err(error) => Err(self.fail(DoorsFault::Listen(error.kind()))),
        }
    }

    fn accept(&mut self) -> Result<TcpLink<R::Stream>, Failed>
        requires open { IsPhase (untold self.old.phase self.old.accepted self.old.closed) Open }
        ensures accepts { AcceptsLink (λ link. link_seen (stream None link.front_in.faults) (stream None link.front_out.faults)
            (stream None link.back_in.faults) (stream None link.back_out.faults))
            (untold self.old.phase self.old.accepted self.old.closed) (untold self.new.phase self.new.accepted self.new.closed) result }
        ensures later { self.old.faults ≤ self.new.faults }
        ensures cause { HasCause (IsErr result) self.old.faults self.new.faults }
    {
        for _ in 0..ACCEPT_TRIES {
            match self.next_front() {
                Ok(front) => {
                    self.accepted = self.accepted.saturating_add(1);
                    self.phase = Phase::Lent;
                    return Ok(link_of(front, self.next_back()));
                }
                Err(kind) => {
                    let _ = self.fail(DoorsFault::Accept(kind));
                }
            }
        }
        self.faults = self.faults.saturating_add(1);
        Err(Failed)
    }

    fn close(&mut self, link: TcpLink<R::Stream>)
        requires lent { IsPhase (untold self.old.phase self.old.accepted self.old.closed) Lent }
        ensures closes { untold self.new.phase self.new.accepted self.new.closed
            ≡ behind_close (untold self.old.phase self.old.accepted self.old.closed) (link_seen (stream None link.front_in.faults)
            (stream None link.front_out.faults) (stream None link.back_in.faults) (stream None link.back_out.faults)) }
        ensures later { self.old.faults ≤ self.new.faults }
    {
        self.closed = self.closed.saturating_add(1);
        self.phase = Phase::Open;
        let Link {
            front_in,
            front_out: _,
            back_in,
            back_out,
        } = link;
        // A back that wasn't reached was told of when the link came.
        if back_in.stream.is_some() {
            self.tell_lost("read", back_in.why);
            self.tell_lost("write", back_out.why);
        }
        linger(&self.rt, front_in);
    }
}
