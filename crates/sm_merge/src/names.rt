// The ids of all shapes that the files define.
ghost use Rattle.std.specs.Prelude.{◌≡◌, ◌||◌, ℕ, List, IfOk, OnOk};
ghost use Rattle.sm_model.specs.SaidView.{statement_view, statements_view};
ghost use Rattle.sm_merge.specs.Files.{files_view};
ghost use Rattle.sm_merge.specs.Stated.{all_said, defined_among, defines};
ghost use Rattle.sm_merge.specs.steps.Known.{has_text, known};

use sm_model::Statement;
use sm_tree::NoMemory;
use std::alloc::Global;
use std::collections::BTreeSet;

/// The ids of the shapes that statements define.
#[derive(Drop)]
pub(crate) struct Names<'a> {
    ids: BTreeSet<&'a str>,
}

impl<'a> Names<'a> {
    /// Those of all files.
    pub(crate) fn new(alloc: Global, files: &'a [Vec<Statement>]) -> Result<Self, NoMemory>
        ensures { IfOk result (λ names. (id : List ℕ) → known names id ≡ defined_among (all_said (files_view files.now)) id) }
    {
        let mut ids: BTreeSet<&'a str> = BTreeSet::new(alloc);
        for file in files {
            put_names(&mut ids, file.as_slice())?;
        }
        Ok(Names { ids })
    }

    /// Whether a statement defines a shape of this id. No memory.
    pub(crate) fn has(&self, id: &str) -> bool
        ensures { result ≡ known self.now id.now }
    {
        self.ids.contains(id)
    }
}

// Puts the ids of the shapes that a file defines.
fn put_names<'a>(ids: &mut BTreeSet<&'a str>, file: &'a [Statement]) -> Result<(), NoMemory>
    ensures { OnOk result ((id : List ℕ) → has_text ids.new id ≡ (has_text ids.old id || defined_among (statements_view file.now) id)) }
{
    for statement in file {
        put_name(ids, statement)?;
    }
    Ok(())
}

// Puts the id of the shape that a statement defines.
fn put_name<'a>(ids: &mut BTreeSet<&'a str>, statement: &'a Statement) -> Result<(), NoMemory>
    ensures { OnOk result ((id : List ℕ) → has_text ids.new id ≡ (has_text ids.old id || defines id (statement_view statement.now))) }
{
    let Statement::Shape(shape) = statement else {
        return Ok(());
    };
    match ids.insert(shape.id.as_str()) {
        Ok(_) => Ok(()),
        Err(_) => Err(NoMemory),
    }
}
