// What stands behind a case: its answer, but for a part of a text.
use crate::idl::{show_cuts, show_idl, show_quoted};
use crate::judged::show_asked;
use crate::refusal::show_refusal;
use crate::row::ModelRow;
use crate::selector::show_selector;
use crate::statement::show_statements;
use crate::uri::show_uri;
use rows::Player;
use sm_ast::read_ast;
use sm_json::read_tree;
use sm_tree::NoMemory;
use std::alloc::Global;

// Appends what a text says as a model, or why it says nothing.
fn show_model(alloc: Global, text: &str, out: &mut String) -> Result<(), NoMemory> {
    out.push_str(" => ")?;
    let Ok(tree) = read_tree(alloc, text.as_bytes()) else {
        return Ok(out.push_str("no JSON")?);
    };
    match read_ast(alloc, &tree) {
        Ok(statements) => show_statements(alloc, &statements, out),
        Err(refusal) => show_refusal(alloc, &refusal, out),
    }
}

/// The models of rows.
#[derive(Drop)]
pub struct Models {
    // The text of the rows `part` and `line` so far.
    parts: String,
}

impl Models {
    /// No part so far. No memory.
    pub fn new(alloc: Global) -> Self {
        Models {
            parts: String::new(alloc),
        }
    }
}

impl Player for Models {
    fn play(&mut self, alloc: Global, case: &str, out: &mut String) -> Result<(), NoMemory> {
        match ModelRow::of(case) {
            ModelRow::Ast(text) => show_model(alloc, text, out)?,
            ModelRow::Part(text) => self.parts.push_str(text)?,
            ModelRow::Parts => {
                show_model(alloc, &self.parts, out)?;
                self.parts.clear();
            }
            ModelRow::Selector(text) => show_selector(alloc, text, out)?,
            ModelRow::Idl(text) => show_idl(alloc, text, out)?,
            ModelRow::Quoted(text) => show_quoted(alloc, text, out)?,
            ModelRow::Line(text) => {
                self.parts.push_str(text)?;
                self.parts.push('\n')?;
            }
            ModelRow::Lines => {
                show_idl(alloc, &self.parts, out)?;
                self.parts.clear();
            }
            ModelRow::Cuts(text) => show_cuts(alloc, text, out)?,
            ModelRow::Uri(text) => show_uri(alloc, text, out)?,
            ModelRow::Shape(asked, id, text) => show_asked(alloc, asked, id, text, out)?,
            ModelRow::Unknown => out.push_str(" => no row")?,
        }
        Ok(())
    }
}
