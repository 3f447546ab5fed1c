// A session of a row in each way: whole, byte by byte, in pieces of pseudo-random sizes, and with each call failing in turn.
ghost use Rattle.std.specs.Prelude.{◌<◌, All, IfOk};
ghost use Rattle.sm_shapes.specs.InOrder.{AreStored};
ghost use Rattle.sm_gateway.specs.GatewayData.{ServesBoth};
ghost use Rattle.sm_gateway.specs.GatewayView.{KeepsBoth, gateway_data};
ghost use Rattle.gateway_rows.specs.Plays.{IsPlayed};

use crate::cuts::{random_pieces, single_bytes};
use crate::pieces::PieceSink;
use crate::play::{CALM, Cuts, Failing, Played, Sides, play};
use sm_gateway::Gateway;
use sm_io::Sink;
use sm_session::SessionEnd;
use sm_shapes::Patterns;
use sm_tree::NoMemory;
use std::alloc::Global;

/// How many seeds pieces of pseudo-random sizes are made by.
const SEEDS: u64 = 3;

/// The most calls of one object that are failed in turn.
const MOST_CALLS: u64 = 8;

/// Runs a session of bytes that come at once.
///
/// # Errors
///
/// `NoMemory`.
pub fn play_whole<P: Patterns>(
    alloc: Global,
    gateway: &Gateway,
    patterns: &mut P,
    sides: Sides<'_>,
    failing: Failing,
) -> Result<Played, NoMemory>
    requires serves { ServesBoth (gateway_data gateway.now) P.test }
    requires kept { KeepsBoth gateway.now }
    requires stored { AreStored (gateway_data gateway.now).service.table.patterns (P.added patterns.old) }
    ensures stored { AreStored (gateway_data gateway.now).service.table.patterns (P.added patterns.new) }
    ensures played { IfOk result (λ said. IsPlayed (gateway_data gateway.now) P.test sides.entry.front.now sides.entry.back.now
        (⟦<PieceSink as Sink>⟧.written said.answers) (⟦<PieceSink as Sink>⟧.written said.requests) said.end) }
{
    let cuts = Cuts {
        front: Vec::new(alloc),
        back: Vec::new(alloc),
    };
    play(alloc, gateway, patterns, sides, cuts, failing)
}

// Whether a session in these pieces comes to the same as the whole one.
fn is_same_over<P: Patterns>(
    alloc: Global,
    gateway: &Gateway,
    patterns: &mut P,
    sides: Sides<'_>,
    cuts: Cuts,
    whole: &Played,
) -> Result<bool, NoMemory>
    requires serves { ServesBoth (gateway_data gateway.now) P.test }
    requires kept { KeepsBoth gateway.now }
    requires stored { AreStored (gateway_data gateway.now).service.table.patterns (P.added patterns.old) }
    requires front { All (λ cut. 0 < cut) cuts.front.items }
    requires back { All (λ cut. 0 < cut) cuts.back.items }
    ensures stored { AreStored (gateway_data gateway.now).service.table.patterns (P.added patterns.new) }
{
    let said = play(alloc, gateway, patterns, sides, cuts, CALM)?;
    let ends = said.end == whole.end;
    Ok(ends && said.answers.is_same(&whole.answers) && said.requests.is_same(&whole.requests))
}

// Whether it comes to the same in single bytes, where both sides come so.
fn is_same_in_single_bytes<P: Patterns>(
    alloc: Global,
    gateway: &Gateway,
    patterns: &mut P,
    sides: Sides<'_>,
    whole: &Played,
) -> Result<bool, NoMemory>
    requires serves { ServesBoth (gateway_data gateway.now) P.test }
    requires kept { KeepsBoth gateway.now }
    requires stored { AreStored (gateway_data gateway.now).service.table.patterns (P.added patterns.old) }
    ensures stored { AreStored (gateway_data gateway.now).service.table.patterns (P.added patterns.new) }
{
    let front = single_bytes(alloc, sides.front.len())?;
    let back = single_bytes(alloc, sides.back.len())?;
    let cuts = Cuts { front, back };
    is_same_over(alloc, gateway, patterns, sides, cuts, whole)
}

// Whether it comes to the same in pieces of pseudo-random sizes, by each seed.
fn is_same_in_random_pieces<P: Patterns>(
    alloc: Global,
    gateway: &Gateway,
    patterns: &mut P,
    sides: Sides<'_>,
    whole: &Played,
) -> Result<bool, NoMemory>
    requires serves { ServesBoth (gateway_data gateway.now) P.test }
    requires kept { KeepsBoth gateway.now }
    requires stored { AreStored (gateway_data gateway.now).service.table.patterns (P.added patterns.old) }
    ensures stored { AreStored (gateway_data gateway.now).service.table.patterns (P.added patterns.new) }
{
    for seed in 1..=SEEDS {
        let front = random_pieces(alloc, seed, sides.front.len())?;
        let back = random_pieces(alloc, seed + SEEDS, sides.back.len())?;
        let cuts = Cuts { front, back };
        if !is_same_over(alloc, gateway, patterns, sides, cuts, whole)? {
            return Ok(false);
        }
    }
    Ok(true)
}

// Whether a session with a fault ended by it or as the whole one, and put prefixes of what that put.
fn is_cut_short(said: &Played, whole: &Played, fault: SessionEnd) -> bool {
    let ends = said.end == fault || said.end == whole.end;
    let answers = whole.answers.bytes().starts_with(said.answers.bytes());
    ends && answers && whole.requests.bytes().starts_with(said.requests.bytes())
}

// Whether it is so with this call of each of the four objects.
fn is_cut_short_at<P: Patterns>(
    alloc: Global,
    gateway: &Gateway,
    patterns: &mut P,
    sides: Sides<'_>,
    whole: &Played,
    call: u64,
) -> Result<bool, NoMemory>
    requires serves { ServesBoth (gateway_data gateway.now) P.test }
    requires kept { KeepsBoth gateway.now }
    requires stored { AreStored (gateway_data gateway.now).service.table.patterns (P.added patterns.old) }
    ensures stored { AreStored (gateway_data gateway.now).service.table.patterns (P.added patterns.new) }
{
    let mut failing = CALM;
    failing.front_in = call;
    let front_in = play_whole(alloc, gateway, patterns, sides, failing)?;
    failing = CALM;
    failing.front_out = call;
    let front_out = play_whole(alloc, gateway, patterns, sides, failing)?;
    failing = CALM;
    failing.back_in = call;
    let back_in = play_whole(alloc, gateway, patterns, sides, failing)?;
    failing = CALM;
    failing.back_out = call;
    let back_out = play_whole(alloc, gateway, patterns, sides, failing)?;
    Ok(
        is_cut_short(&front_in, whole, SessionEnd::FrontRead)
            && is_cut_short(&front_out, whole, SessionEnd::FrontWrite)
            && is_cut_short(&back_in, whole, SessionEnd::BackRead)
            && is_cut_short(&back_out, whole, SessionEnd::BackWrite),
    )
}

// Whether it is so with each call.
fn is_cut_short_at_each<P: Patterns>(
    alloc: Global,
    gateway: &Gateway,
    patterns: &mut P,
    sides: Sides<'_>,
    whole: &Played,
) -> Result<bool, NoMemory>
    requires serves { ServesBoth (gateway_data gateway.now) P.test }
    requires kept { KeepsBoth gateway.now }
    requires stored { AreStored (gateway_data gateway.now).service.table.patterns (P.added patterns.old) }
    ensures stored { AreStored (gateway_data gateway.now).service.table.patterns (P.added patterns.new) }
{
    for call in 1..=MOST_CALLS {
        if !is_cut_short_at(alloc, gateway, patterns, sides, whole, call)? {
            return Ok(false);
        }
    }
    Ok(true)
}

/// In which way a session comes to something else than the whole one, or `None` where each comes to the same.
///
/// # Errors
///
/// `NoMemory`.
pub fn other_way<P: Patterns>(
    alloc: Global,
    gateway: &Gateway,
    patterns: &mut P,
    sides: Sides<'_>,
    whole: &Played,
) -> Result<Option<&'static str>, NoMemory>
    requires serves { ServesBoth (gateway_data gateway.now) P.test }
    requires kept { KeepsBoth gateway.now }
    requires stored { AreStored (gateway_data gateway.now).service.table.patterns (P.added patterns.old) }
{
    if !is_same_in_single_bytes(alloc, gateway, patterns, sides, whole)? {
        return Ok(Some("another session byte by byte"));
    }
    if !is_same_in_random_pieces(alloc, gateway, patterns, sides, whole)? {
        return Ok(Some("another session in pieces"));
    }
    if !is_cut_short_at_each(alloc, gateway, patterns, sides, whole)? {
        return Ok(Some("a fault isn't cut short"));
    }
    Ok(None)
}
