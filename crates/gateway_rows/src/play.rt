// A session of a row, over objects in memory.
ghost use Rattle.std.specs.Prelude.{◌<◌, All, IfOk};
ghost use Rattle.sm_shapes.specs.InOrder.{AreStored};
ghost use Rattle.sm_gateway.specs.GatewayData.{ServesBoth};
ghost use Rattle.sm_gateway.specs.GatewayView.{KeepsBoth, gateway_data};
ghost use Rattle.gateway_rows.specs.Plays.{IsPlayed};

use crate::pieces::PieceSink;
use sm_gateway::{Gateway, serve_session};
use sm_io::{MemSource, Sink};
use sm_session::SessionEnd;
use sm_shapes::Patterns;
use sm_tree::NoMemory;
use std::alloc::Global;

/// The bytes of both sides.
#[derive(Clone, Copy, Drop)]
pub struct Sides<'a> {
    pub front: &'a [u8],
    pub back: &'a [u8],
}

/// The sizes of the pieces in which they come.
#[derive(Drop)]
pub struct Cuts {
    pub front: Vec<u64>,
    pub back: Vec<u64>,
}

/// Which call of an object fails, counted from 1; none where it is 0.
#[derive(Clone, Copy, Drop)]
pub struct Failing {
    pub front_in: u64,
    pub front_out: u64,
    pub back_in: u64,
    pub back_out: u64,
}

/// No call fails.
pub const CALM: Failing = Failing {
    front_in: 0,
    front_out: 0,
    back_in: 0,
    back_out: 0,
};

/// What a session put, and how it ended.
#[derive(Drop)]
pub struct Played {
    pub answers: PieceSink,
    pub requests: PieceSink,
    pub end: SessionEnd,
}

/// Runs a session of these bytes, which come in these pieces.
///
/// # Errors
///
/// `NoMemory`.
pub fn play<P: Patterns>(
    alloc: Global,
    gateway: &Gateway,
    patterns: &mut P,
    sides: Sides<'_>,
    cuts: Cuts,
    failing: Failing,
) -> Result<Played, NoMemory>
    requires serves { ServesBoth (gateway_data gateway.now) P.test }
    requires kept { KeepsBoth gateway.now }
    requires stored { AreStored (gateway_data gateway.now).service.table.patterns (P.added patterns.old) }
    requires front { All (λ cut. 0 < cut) cuts.front.items }
    requires back { All (λ cut. 0 < cut) cuts.back.items }
    ensures stored { AreStored (gateway_data gateway.now).service.table.patterns (P.added patterns.new) }
    ensures played { IfOk result (λ said. IsPlayed (gateway_data gateway.now) P.test sides.entry.front.now sides.entry.back.now
        (⟦<PieceSink as Sink>⟧.written said.answers) (⟦<PieceSink as Sink>⟧.written said.requests) said.end) }
{
    let Cuts { front, back } = cuts;
    let front_bytes = sides.front.to_vec(alloc)?;
    let back_bytes = sides.back.to_vec(alloc)?;
    let front_failing = vec![in alloc; failing.front_in]?;
    let back_failing = vec![in alloc; failing.back_in]?;
    let mut answers = PieceSink::new(alloc, failing.front_out)?;
    let mut requests = PieceSink::new(alloc, failing.back_out)?;
    let mut front_in = MemSource::new(front_bytes, front, front_failing);
    let mut back_in = MemSource::new(back_bytes, back, back_failing);
    let end = serve_session(
        alloc,
        gateway,
        patterns,
        &mut front_in,
        &mut answers,
        &mut back_in,
        &mut requests,
    );
    Ok(Played {
        answers,
        requests,
        end,
    })
}
