// Where links come from.
ghost use Rattle.std.specs.Prelude.{◌≡◌, ◌≤◌, List, ℕ, IsErr};
ghost use Rattle.sm_io.specs.Causes.{HasCause};
ghost use Rattle.sm_io.specs.Seen.{stream, link_seen};

use crate::link::Link;
use sm_io::{Failed, Sink, Source};

/// What doors do at a moment.
#[derive(Clone, Copy, Debug, PartialEq, Eq)]
pub enum Phase {
    /// They haven't listened.
    Shut,
    /// They listen, and no link is out.
    Open,
    /// A link is out.
    Lent,
}

/// Doors, through which links between a front and a back come one after the other.
pub trait Doors {
    ghost use Rattle.sm_doors.specs.DoorsSeen.{AcceptsLink, DoorsSeen, IsPhase, Listens, behind_close};
    ghost use Rattle.sm_doors.specs.declared.doors.Phase.TheVariants.{Lent, Open, Shut};

    type FrontIn: Source;

    type FrontOut: Sink;

    type BackIn: Source;

    type BackOut: Sink;

    /// What they do, how many links were accepted and closed, and what these held, where it is told.
    ghost seen: { Self → DoorsSeen };

    /// A count of faults. It never falls, and a call answers `Failed` only where it rose or stands at 2^64 - 1.
    ghost faults: { Self → ℕ };

    /// The pairs of texts that may be listened on and connected to.
    ghost lets: { Self → List ℕ → List ℕ → Type 0 };

    /// Listens at an address, for links whose back is at another. `Failed`: all is as before.
    fn listen(&mut self, listen: &str, connect: &str) -> Result<(), Failed>
        requires lets { lets self.old listen.now connect.now }
        requires shut { IsPhase (seen self.old) Shut }
        ensures listens { Listens (seen self.old) (seen self.new) result }
        ensures later { faults self.old ≤ faults self.new }
        ensures cause { HasCause (IsErr result) (faults self.old) (faults self.new) };

    /// Waits for the next link, whose sinks hold nothing. `Failed`: all is as before.
    fn accept(
        &mut self,
    ) -> Result<Link<Self::FrontIn, Self::FrontOut, Self::BackIn, Self::BackOut>, Failed>
        requires open { IsPhase (seen self.old) Open }
        ensures accepts { AcceptsLink (λ link. link_seen
            (stream (Self.FrontIn.left link.front_in) (Self.FrontIn.faults link.front_in))
            (stream (Self.FrontOut.written link.front_out) (Self.FrontOut.faults link.front_out))
            (stream (Self.BackIn.left link.back_in) (Self.BackIn.faults link.back_in))
            (stream (Self.BackOut.written link.back_out) (Self.BackOut.faults link.back_out)))
            (seen self.old) (seen self.new) result }
        ensures later { faults self.old ≤ faults self.new }
        ensures cause { HasCause (IsErr result) (faults self.old) (faults self.new) };

    /// Closes the link that is out.
    fn close(&mut self, link: Link<Self::FrontIn, Self::FrontOut, Self::BackIn, Self::BackOut>)
        requires lent { IsPhase (seen self.old) Lent }
        ensures closes { seen self.new ≡ behind_close (seen self.old) (link_seen
            (stream (Self.FrontIn.left link.front_in) (Self.FrontIn.faults link.front_in))
            (stream (Self.FrontOut.written link.front_out) (Self.FrontOut.faults link.front_out))
            (stream (Self.BackIn.left link.back_in) (Self.BackIn.faults link.back_in))
            (stream (Self.BackOut.written link.back_out) (Self.BackOut.faults link.back_out))) }
        ensures later { faults self.old ≤ faults self.new };
}
