// A session of a gateway.
ghost use Rattle.std.specs.Prelude.{◌≡◌};
ghost use Rattle.sm_io.specs.Seen.{stream, link_seen};
ghost use Rattle.sm_shapes.specs.InOrder.{AreStored};
ghost use Rattle.sm_session.specs.Ends.{SessionRun};
ghost use Rattle.sm_session.specs.Sessions.{turn_limit};
ghost use Rattle.sm_gateway.specs.GatewayData.{ServesBoth};
ghost use Rattle.sm_gateway.specs.GatewayTurns.{gateway_turn};
ghost use Rattle.sm_gateway.specs.GatewayView.{KeepsBoth, gateway_data};

use crate::gateway::Gateway;
use crate::laws::each_is_form;
use crate::responder::Crossings;
use sm_io::{Sink, Source};
use sm_session::{SessionEnd, run_session};
use sm_shapes::Patterns;
use std::alloc::Global;
use std::marker::PhantomData;

/// Serves a session: requests of the front are answered one after the other, each through one request to the back, or by why it is refused.
///
/// What is put on both sinks, and the end, are those of the `Session` of the bytes of both sources; after a fault, prefixes of them. The
/// store must have the patterns of the service's table, and isn't changed.
pub fn serve_session<A: Source, B: Sink, C: Source, D: Sink, P: Patterns>(
    alloc: Global,
    gateway: &Gateway,
    patterns: &mut P,
    front_in: &mut A,
    front_out: &mut B,
    back_in: &mut C,
    back_out: &mut D,
) -> SessionEnd
    requires serves { ServesBoth (gateway_data gateway.now) P.test }
    requires kept { KeepsBoth gateway.now }
    requires stored { AreStored (gateway_data gateway.now).service.table.patterns (P.added patterns.old) }
    ensures session { SessionRun (gateway_turn (gateway_data gateway.now) P.test) turn_limit
        (link_seen (stream (A.left front_in.old) (A.faults front_in.old)) (stream (B.written front_out.old) (B.faults front_out.old))
        (stream (C.left back_in.old) (C.faults back_in.old)) (stream (D.written back_out.old) (D.faults back_out.old)))
        (link_seen (stream (A.left front_in.new) (A.faults front_in.new)) (stream (B.written front_out.new) (B.faults front_out.new))
        (stream (C.left back_in.new) (C.faults back_in.new)) (stream (D.written back_out.new) (D.faults back_out.new))) result }
    ensures added { P.added patterns.new ≡ P.added patterns.old }
    ensures refused { P.refused patterns.new ≡ P.refused patterns.old }
    ensures refusals { P.refusals patterns.new ≡ P.refusals patterns.old }
{
    each_is_form();
    let responder = Crossings {
        gateway,
        stores: PhantomData,
    };
    run_session(
        alloc, &responder, patterns, front_in, front_out, back_in, back_out,
    )
}
