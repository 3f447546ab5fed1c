// The answer to a body: what is asked of its value, or why it has none; and whether it says the same where each byte comes by itself.
ghost use Rattle.std.specs.Prelude.{◌<◌};
ghost use Rattle.sm_shapes.specs.InOrder.{Shaped, DefaultsPass};
ghost use Rattle.sm_shapes.specs.Literals.{is_part};
ghost use Rattle.sm_shapes.specs.TableData.{shape_count};
ghost use Rattle.sm_shapes.specs.TableView.{table_data};

use crate::far::show_far;
use crate::row::Far;
use codec_bodies::{BodyWay, store};
use sm_bodies::BodyRefusal;
use sm_shapes::tables::Table;
use sm_shapes::{Fault, LiteralPatterns};
use sm_tree::{NoMemory, SyntaxRefusal};
use std::alloc::Global;

/// A body: how its leaves are spelled, what is asked of its value, and its bytes.
#[derive(Debug, Clone, Copy)]
pub struct GivenBody<'b> {
    /// The convention by which it is read.
    pub near: BodyWay,
    /// What is shown of it.
    pub far: Far<'b>,
    /// Its text or its item.
    pub bytes: &'b [u8],
}

// Appends a fault, with its way as a JSON Pointer (RFC 6901).
fn show_fault(alloc: Global, fault: &Fault, out: &mut String) -> Result<(), NoMemory> {
    let pointer = fault.path.print(alloc)?;
    Ok(write!(out, "Fault {pointer} {}", fault.kind.word())?)
}

fn show_syntax(refusal: SyntaxRefusal, out: &mut String) -> Result<(), NoMemory> {
    match refusal {
        SyntaxRefusal::Bad(at) => Ok(write!(out, "Syntax Bad {at}")?),
        SyntaxRefusal::Ended => Ok(out.push_str("Syntax Ended")?),
        SyntaxRefusal::TooDeep(at) => Ok(write!(out, "Syntax TooDeep {at}")?),
        SyntaxRefusal::KeyKind(at) => Ok(write!(out, "Syntax KeyKind {at}")?),
        SyntaxRefusal::NoMemory => Err(NoMemory),
    }
}

fn show_refusal(alloc: Global, refusal: &BodyRefusal, out: &mut String) -> Result<(), NoMemory> {
    match refusal {
        BodyRefusal::Syntax(refusal) => show_syntax(*refusal, out),
        BodyRefusal::Fault(fault) => show_fault(alloc, fault, out),
        BodyRefusal::NoMemory => Err(NoMemory),
    }
}

// The answer where the bytes come in pieces of so many.
fn answer_in(
    alloc: Global,
    table: &Table,
    shape: u32,
    body: GivenBody<'_>,
    piece: usize,
) -> Result<String, NoMemory>
    requires piece { 0 < piece }
    requires number { shape < shape_count (table_data table.now) }
    requires shaped { Shaped (table_data table.now) }
    requires pass { DefaultsPass (table_data table.now) is_part }
{
    let mut out = String::new(alloc);
    let mut patterns = LiteralPatterns::new(alloc, Vec::new(alloc));
    if !store(table, &mut patterns)? {
        out.push_str("no store")?;
        return Ok(out);
    }
    match body
        .near
        .value(alloc, table, shape, &mut patterns, body.bytes, piece)
    {
        Ok(value) => show_far(alloc, table, shape, body.far, &value, &mut out)?,
        Err(refusal) => show_refusal(alloc, &refusal, &mut out)?,
    }
    Ok(out)
}

/// Appends the answer to a body.
pub fn show_answer(
    alloc: Global,
    table: &Table,
    shape: u32,
    body: GivenBody<'_>,
    out: &mut String,
) -> Result<(), NoMemory>
    requires number { shape < shape_count (table_data table.now) }
    requires shaped { Shaped (table_data table.now) }
    requires pass { DefaultsPass (table_data table.now) is_part }
{
    let whole = answer_in(alloc, table, shape, body, usize::MAX)?;
    out.push_str(whole.as_str())?;
    let apart = answer_in(alloc, table, shape, body, 1)?;
    if apart != whole {
        out.push_str(" otherwise byte by byte: ")?;
        out.push_str(apart.as_str())?;
    }
    Ok(())
}
