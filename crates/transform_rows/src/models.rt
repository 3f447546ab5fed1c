// The model of the rows so far, and what stands behind a case: its answer.
use crate::asked::show_asked;
use crate::row::TransformRow;
use rows::Player;
use sm_load::ModelFile;
use sm_tree::{NoMemory, Text};
use std::alloc::Global;

/// The files of a model.
#[derive(Drop)]
pub struct Models {
    files: Vec<ModelFile>,
}

impl Models {
    /// No files.
    pub fn new(alloc: Global) -> Self {
        Models {
            files: Vec::new(alloc),
        }
    }

    // One file more in the IDL.
    fn put(&mut self, alloc: Global, namespace: &str, text: &str) -> Result<(), NoMemory> {
        let text = format!(in alloc; "$version: \"2.0\" namespace {namespace} {text}")?;
        let name = Text::copy(alloc, "model.smithy")?;
        let bytes = text.into_bytes();
        self.files.push(ModelFile { name, bytes })?;
        Ok(())
    }
}

// Files once more.
fn copied(alloc: Global, files: &[ModelFile]) -> Result<Vec<ModelFile>, NoMemory> {
    let mut all = Vec::new(alloc);
    for file in files {
        let name = Text::copy(alloc, file.name.as_str())?;
        let bytes = Vec::from_slice(alloc, file.bytes.as_slice())?;
        all.push(ModelFile { name, bytes })?;
    }
    Ok(all)
}

impl Player for Models {
    fn play(&mut self, alloc: Global, case: &str, out: &mut String) -> Result<(), NoMemory> {
        match TransformRow::of(case) {
            TransformRow::Model(namespace, text) => {
                self.files.clear();
                self.put(alloc, namespace, text)?;
            }
            TransformRow::And(namespace, text) => self.put(alloc, namespace, text)?,
            TransformRow::Ask(verb, text) => {
                let files = copied(alloc, self.files.as_slice())?;
                show_asked(alloc, verb, files, text, out)?;
            }
            TransformRow::Unknown => out.push_str(" => no row")?,
        }
        Ok(())
    }
}
