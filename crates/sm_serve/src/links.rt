// Links are served one after the other.
ghost use Rattle.std.specs.Prelude.{◌≡◌, ◌≤◌};
ghost use Rattle.sm_io.specs.Seen.{link_seen, stream};
ghost use Rattle.sm_shapes.specs.InOrder.{AreStored};
ghost use Rattle.sm_doors.specs.DoorsSeen.{IsPhase};
ghost use Rattle.sm_doors.specs.declared.doors.Phase.TheVariants.{Lent, Open};
ghost use Rattle.sm_asked_gateway.specs.gateway.GatewayData.{ServesBoth};
ghost use Rattle.sm_asked_gateway.specs.gateway.GatewayView.{KeepsBoth, gateway_data};
ghost use Rattle.sm_serve.specs.Links.{ServesLinks};
ghost use Rattle.sm_serve.specs.steps.LinkSteps.{ServesLink, all_status as the_all_status, short_after as is_short_after};

use sm_asked_gateway::sm_asked::Status;
use sm_asked_gateway::sm_gateway::{Gateway, serve_session};
use sm_doors::{Doors, Link};
use sm_io::Failed;
use sm_session::SessionEnd;
use sm_shapes::Patterns;
use std::alloc::Global;

// Serves the link that is out by a session, and closes it.
fn serve_link<D: Doors, P: Patterns>(
    alloc: Global,
    gateway: &Gateway,
    patterns: &mut P,
    doors: &mut D,
    link: Link<D::FrontIn, D::FrontOut, D::BackIn, D::BackOut>,
) -> SessionEnd
    requires serves { ServesBoth (gateway_data gateway.now) P.test }
    requires kept { KeepsBoth gateway.now }
    requires stored { AreStored (gateway_data gateway.now).service.table.patterns (P.added patterns.old) }
    requires lent { IsPhase (D.seen doors.old) Lent }
    ensures link { ServesLink (gateway_data gateway.now) P.test (link_seen
        (stream (D.FrontIn.left link.front_in) (D.FrontIn.faults link.front_in))
        (stream (D.FrontOut.written link.front_out) (D.FrontOut.faults link.front_out))
        (stream (D.BackIn.left link.back_in) (D.BackIn.faults link.back_in))
        (stream (D.BackOut.written link.back_out) (D.BackOut.faults link.back_out)))
        (D.seen doors.old) (D.seen doors.new) result }
    ensures later { D.faults doors.old ≤ D.faults doors.new }
    ensures added { P.added patterns.new ≡ P.added patterns.old }
    ensures refused { P.refused patterns.new ≡ P.refused patterns.old }
    ensures refusals { P.refusals patterns.new ≡ P.refusals patterns.old }
{
    let Link {
        mut front_in,
        mut front_out,
        mut back_in,
        mut back_out,
    } = link;
    let end = serve_session(
        alloc,
        gateway,
        patterns,
        &mut front_in,
        &mut front_out,
        &mut back_in,
        &mut back_out,
    );
    doors.close(Link {
        front_in,
        front_out,
        back_in,
        back_out,
    });
    end
}

// Whether memory ran out in a session, behind one more that ended so.
fn short_after(short: bool, end: SessionEnd) -> bool
    ensures { result ≡ is_short_after short end }
{
    match end {
        SessionEnd::NoMemory => true,
        SessionEnd::Closed => short,
        SessionEnd::Quota => short,
        SessionEnd::FrontEnded => short,
        SessionEnd::BackEnded => short,
        SessionEnd::FrontFraming(_) => short,
        SessionEnd::BackFraming(_) => short,
        SessionEnd::FrontRead => short,
        SessionEnd::FrontWrite => short,
        SessionEnd::BackRead => short,
        SessionEnd::BackWrite => short,
    }
}

// The status behind the last link.
fn all_status(short: bool) -> Status
    ensures { result ≡ the_all_status short }
{
    if short {
        Status::NoMemory
    } else {
        Status::Done
    }
}

/// Serves so many links of doors that listen, each by a session of the gateway, and closes each. A link that fails ends its session alone.
/// The status is 0, or 5 where memory ran out in a session, and then all links are closed; or 3 where no link came, whose cause is a
/// fault of the doors.
///
/// Where the doors tell what their links held: what was put to a link is a prefix of what the session of its bytes says, and all of it where
/// none of the link's streams failed and the status is 0. The store must have the patterns of the service's table, and isn't changed.
pub fn serve_links<D: Doors, P: Patterns>(
    alloc: Global,
    gateway: &Gateway,
    patterns: &mut P,
    doors: &mut D,
    count: u64,
) -> u8
    requires serves { ServesBoth (gateway_data gateway.now) P.test }
    requires kept { KeepsBoth gateway.now }
    requires stored { AreStored (gateway_data gateway.now).service.table.patterns (P.added patterns.old) }
    requires open { IsPhase (D.seen doors.old) Open }
    ensures links { ServesLinks (gateway_data gateway.now) P.test (D.seen doors.old) (D.seen doors.new)
        (D.faults doors.old) (D.faults doors.new) count result }
    ensures later { D.faults doors.old ≤ D.faults doors.new }
    ensures added { P.added patterns.new ≡ P.added patterns.old }
    ensures refused { P.refused patterns.new ≡ P.refused patterns.old }
    ensures refusals { P.refusals patterns.new ≡ P.refusals patterns.old }
{
    let mut short = false;
    for served in 0..count {
        match doors.accept() {
            Ok(link) => {
                let end = serve_link(alloc, gateway, patterns, doors, link);
                short = short_after(short, end);
            }
            Err(Failed) => return Status::ReadFault.code(),
        }
    }
    all_status(short).code()
}
