// One body, carried from a convention to another many times over: its bytes through a reader and a decoder to its value, and the value's
// events through a writer to bytes. Each turn does the whole work anew, in memory of its own.
ghost use Rattle.std.specs.Prelude.{◌<◌};
ghost use Rattle.sm_shapes.specs.InOrder.{Shaped, DefaultsPass};
ghost use Rattle.sm_shapes.specs.Literals.{is_part};
ghost use Rattle.sm_shapes.specs.TableData.{shape_count};
ghost use Rattle.sm_shapes.specs.TableView.{table_data};

use codec_bodies::{BodyWay, Said, is_in_order, is_shape, number_named, store, table_of};
use sm_bodies::{BodyRefusal, WrittenBody};
use sm_codec::fill_defaults;
use sm_shapes::LiteralPatterns;
use sm_shapes::tables::Table;
use sm_tree::NoMemory;
use std::alloc::Global;

/// How a body is carried.
#[derive(Debug, Clone, Copy, Drop)]
pub struct Carriage {
    /// The convention by which it is read.
    near: BodyWay,
    /// That by which its value is written, if it is.
    far: Option<BodyWay>,
    /// How many times.
    turns: u32,
}

/// Why a body isn't carried.
#[derive(Debug, Drop)]
pub enum CarryRefusal {
    /// The table isn't in order, or hasn't the shape.
    Table,
    /// It has no value.
    Body(BodyRefusal),
    /// A leaf of its value can't be spelled by the other convention.
    NotCarried,
    /// Out of memory.
    NoMemory,
}

impl From<NoMemory> for CarryRefusal {
    fn from(_refusal: NoMemory) -> Self {
        CarryRefusal::NoMemory
    }
}

impl Carriage {
    /// The carriage that three words ask for: the near convention, the far one or `value` where nothing is written, and a number of turns.
    pub fn of(near: &str, far: &str, turns: &str) -> Option<Carriage> {
        let near = BodyWay::named(near)?;
        let turns = turns.parse::<u32>().ok()?;
        match far {
            "value" => Some(Carriage {
                near,
                far: None,
                turns,
            }),
            _ => match BodyWay::named(far) {
                Some(way) => Some(Carriage {
                    near,
                    far: Some(way),
                    turns,
                }),
                None => None,
            },
        }
    }
}

// One turn: how many bytes are written.
fn carry_once(
    alloc: Global,
    table: &Table,
    shape: u32,
    carriage: Carriage,
    body: &[u8],
) -> Result<usize, CarryRefusal>
    requires number { shape < shape_count (table_data table.now) }
    requires shaped { Shaped (table_data table.now) }
    requires pass { DefaultsPass (table_data table.now) is_part }
{
    let mut patterns = LiteralPatterns::new(alloc, Vec::new(alloc));
    if !store(table, &mut patterns)? {
        return Err(CarryRefusal::Table);
    }
    match carriage
        .near
        .value(alloc, table, shape, &mut patterns, body, usize::MAX)
    {
        Ok(value) => match carriage.far {
            Some(far) => match far.body(alloc, table, shape, &value) {
                Ok(WrittenBody::Bytes(bytes)) => Ok(bytes.len()),
                Ok(WrittenBody::NotCarried(_)) => Err(CarryRefusal::NotCarried),
                Err(NoMemory) => Err(CarryRefusal::NoMemory),
            },
            None => Ok(0),
        },
        Err(refusal) => Err(CarryRefusal::Body(refusal)),
    }
}

/// How many bytes a body has on the other side, by the table of these shapes, in which it is one of the shape with this name. It is
/// carried as often as is asked, and at least once.
///
/// # Errors
///
/// Why it isn't carried.
pub fn carried(
    alloc: Global,
    said: &[Said],
    name: &str,
    carriage: Carriage,
    body: &[u8],
) -> Result<usize, CarryRefusal> {
    let mut table = table_of(alloc, said)?;
    if !is_in_order(alloc, &table)? {
        return Err(CarryRefusal::Table);
    }
    let mut patterns = LiteralPatterns::new(alloc, Vec::new(alloc));
    if !store(&table, &mut patterns)? {
        return Err(CarryRefusal::Table);
    }
    fill_defaults(alloc, &mut table, &mut patterns)?;
    let shape = number_named(said, name);
    if !is_shape(&table, shape) {
        return Err(CarryRefusal::Table);
    }
    for _ in 1..carriage.turns {
        carry_once(alloc, &table, shape, carriage, body)?;
    }
    carry_once(alloc, &table, shape, carriage, body)
}
