// What stands behind a case: its answer, but for rows that write down a table.
ghost use Rattle.sm_shapes.specs.InOrder.{Shaped, DefaultsPass};
ghost use Rattle.sm_shapes.specs.Literals.{is_part};
ghost use Rattle.sm_shapes.specs.TableView.{table_data};

use crate::answer::{GivenBody, show_answer};
use crate::defaults::show_defaults;
use crate::row::CodecRow;
use codec_bodies::{BodyWay, Said, is_in_order, is_shape, number_named, store, table_of};
use rows::Player;
use sm_codec::fill_defaults;
use sm_json::read_tree;
use sm_shapes::LiteralPatterns;
use sm_shapes::tables::Table;
use sm_tree::{NoMemory, Text, Tree};
use std::alloc::Global;

/// The shapes that stand in each table.
const SIMPLE: &str =
    r#"{"blob":{"kind":"blob"},"boolean":{"kind":"boolean"},"string":{"kind":"string"},"byte":{"kind":"byte"},
"short":{"kind":"short"},"integer":{"kind":"integer"},"long":{"kind":"long"},"timestamp":{"kind":"timestamp"}}"#;

/// The shapes of rows.
#[derive(Drop)]
pub struct Shapes {
    // Those of the table that was begun last.
    said: Vec<Said>,
}

// The shapes of an object.
fn shapes_in(alloc: Global, text: &str) -> Vec<Said> {
    match read_tree(alloc, text.as_bytes()) {
        Ok(Tree::Object(pairs)) => pairs.into_inner(),
        _ => Vec::new(alloc),
    }
}

// The bytes of a body: those of its text, or those that pairs of digits show.
fn bytes_of(alloc: Global, near: BodyWay, text: &str) -> Result<Vec<u8>, NoMemory> {
    match near {
        BodyWay::Cbor => shown_bytes(alloc, text),
        _ => Ok(text.as_bytes().to_vec(alloc)?),
    }
}

fn shown_bytes(alloc: Global, text: &str) -> Result<Vec<u8>, NoMemory> {
    let mut bytes = Vec::new(alloc);
    for word in text.split(' ') {
        if let Ok(byte) = u8::from_str_radix(word, 16) {
            bytes.push(byte)?;
        }
    }
    Ok(bytes)
}

impl Shapes {
    /// No shape so far. No memory.
    pub fn new(alloc: Global) -> Self {
        Shapes {
            said: Vec::new(alloc),
        }
    }

    // Puts a shape behind those before, or nothing where the text is no JSON.
    fn add(&mut self, alloc: Global, name: &str, text: &str) -> Result<(), NoMemory> {
        let Ok(tree) = read_tree(alloc, text.as_bytes()) else {
            return Ok(());
        };
        let name = Text::copy(alloc, name)?;
        self.said.push((name, tree))?;
        Ok(())
    }

    // A body of the shape with this name, by a table that is in order, with its defaults.
    fn show_body(
        &self,
        alloc: Global,
        table: &Table,
        name: &str,
        body: GivenBody<'_>,
        out: &mut String,
    ) -> Result<(), NoMemory>
        requires shaped { Shaped (table_data table.now) }
        requires pass { DefaultsPass (table_data table.now) is_part }
    {
        let shape = number_named(&self.said, name);
        if !is_shape(table, shape) {
            return Ok(out.push_str("no shape")?);
        }
        show_answer(alloc, table, shape, body, out)
    }

    // A case by such a table.
    fn show_case(
        &self,
        alloc: Global,
        table: &Table,
        row: CodecRow<'_>,
        out: &mut String,
    ) -> Result<(), NoMemory>
        requires shaped { Shaped (table_data table.now) }
        requires pass { DefaultsPass (table_data table.now) is_part }
    {
        match row {
            CodecRow::Defaults => show_defaults(table, out),
            CodecRow::Body(near, far, name, text) => {
                let bytes = bytes_of(alloc, near, text)?;
                let body = GivenBody {
                    near,
                    far,
                    bytes: &bytes,
                };
                self.show_body(alloc, table, name, body, out)
            }
            _ => Ok(out.push_str("no row")?),
        }
    }

    // Appends the answer of a case.
    fn show(&self, alloc: Global, row: CodecRow<'_>, out: &mut String) -> Result<(), NoMemory> {
        out.push_str(" => ")?;
        let mut table = table_of(alloc, &self.said)?;
        if !is_in_order(alloc, &table)? {
            return Ok(out.push_str("no table in order")?);
        }
        let mut patterns = LiteralPatterns::new(alloc, Vec::new(alloc));
        if !store(&table, &mut patterns)? {
            return Ok(out.push_str("no store")?);
        }
        fill_defaults(alloc, &mut table, &mut patterns)?;
        self.show_case(alloc, &table, row, out)
    }
}

impl Player for Shapes {
    fn play(&mut self, alloc: Global, case: &str, out: &mut String) -> Result<(), NoMemory> {
        match CodecRow::of(case) {
            CodecRow::Table => {
                self.said = shapes_in(alloc, SIMPLE);
                Ok(())
            }
            CodecRow::Shape(name, text) => self.add(alloc, name, text),
            row => self.show(alloc, row, out),
        }
    }
}
