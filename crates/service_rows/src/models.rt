// The model of the rows so far, and what stands behind a case: its answer.
use crate::asked::show_asked;
use crate::row::ServiceRow;
use rows::Player;
use sm_load::ModelFile;
use sm_tree::{NoMemory, Text};
use std::alloc::Global;

/// The files of a model, and the call of `add` that the store of patterns of the next question refuses, if any.
#[derive(Drop)]
pub struct Models {
    files: Vec<ModelFile>,
    refused: Option<u64>,
}

impl Models {
    /// No files.
    pub fn new(alloc: Global) -> Self {
        Models {
            files: Vec::new(alloc),
            refused: None,
        }
    }

    // One file more.
    fn put(&mut self, alloc: Global, name: &str, text: String) -> Result<(), NoMemory> {
        let name = Text::copy(alloc, name)?;
        let bytes = text.into_bytes();
        self.files.push(ModelFile { name, bytes })?;
        Ok(())
    }

    // One file more in the IDL.
    fn put_idl(&mut self, alloc: Global, namespace: &str, text: &str) -> Result<(), NoMemory> {
        let text = format!(in alloc; "$version: \"2.0\" namespace {namespace} {text}")?;
        self.put(alloc, "model.smithy", text)
    }
}

// Files once more.
fn copied(alloc: Global, files: &[ModelFile]) -> Result<Vec<ModelFile>, NoMemory> {
    let mut all = Vec::new(alloc);
    for file in files {
        let name = Text::copy(alloc, file.name.as_str())?;
        let bytes = Vec::from_slice(alloc, file.bytes.as_slice())?;
        all.push(ModelFile { name, bytes })?;
    }
    Ok(all)
}

impl Player for Models {
    fn play(&mut self, alloc: Global, case: &str, out: &mut String) -> Result<(), NoMemory> {
        match ServiceRow::of(case) {
            ServiceRow::Model(namespace, text) => {
                self.files.clear();
                self.put_idl(alloc, namespace, text)?;
            }
            ServiceRow::And(namespace, text) => self.put_idl(alloc, namespace, text)?,
            ServiceRow::Ast(text) => {
                self.files.clear();
                self.put(alloc, "model.json", String::from_str(alloc, text)?)?;
            }
            ServiceRow::Refuse(call) => self.refused = Some(call),
            ServiceRow::Ask(asked, id) => {
                let files = copied(alloc, self.files.as_slice())?;
                let refused = self.refused.take();
                show_asked(alloc, asked, files, refused, id, out)?;
            }
            ServiceRow::Unknown => out.push_str(" => no row")?,
        }
        Ok(())
    }
}
