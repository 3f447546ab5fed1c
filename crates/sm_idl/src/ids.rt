// Ids in rows: those that a shape mixes in, and those that a file uses (Smithy 2.0, "Smithy IDL", "Mixins", "use statement").
ghost use Rattle.sm_idl.specs.Members.{mixins, with_mixins};
ghost use Rattle.sm_idl.specs.steps.HomeView.{home_of_file};
ghost use Rattle.sm_idl.specs.steps.Classes.{With};
ghost use Rattle.sm_idl.specs.steps.IdSteps.{listed_ids, ReadsIds};
ghost use Rattle.sm_idl.specs.steps.ReaderView.{left, ReadsAs, ReadsOn};

use crate::home::FileHome;
use crate::reader::{ReadStop, Reader};
use sm_model::Ref;
use std::alloc::Global;

impl<'t, 'a> Reader<'t, 'a> {
    /// Reads ids, as many as words stand here.
    pub(crate) fn ids(&mut self, alloc: Global, home: &FileHome<'_>) -> Result<Vec<Ref>, ReadStop>
        ensures { ReadsIds (home_of_file home.now) (left self.old) (left self.new) result }
    {
        let mut ids: Vec<Ref> = Vec::new(alloc);
        while self.is_at_any_word() {
            match self.id() {
                Ok(word) => match home.reference(alloc, word, false) {
                    Ok(id) => match ids.push(id) {
                        Ok(()) => {}
                        Err(_) => return Err(ReadStop::NoMemory),
                    },
                    Err(_) => return Err(ReadStop::NoMemory),
                },
                Err(stop) => return Err(stop),
            }
        }
        Ok(ids)
    }

    /// Reads ids between brackets.
    pub(crate) fn listed_ids(
        &mut self,
        alloc: Global,
        home: &FileHome<'_>,
    ) -> Result<Vec<Ref>, ReadStop>
        ensures { ReadsAs (λ refs. refs.items) (listed_ids (home_of_file home.now)) (left self.old) (left self.new) result }
    {
        match self.mark("[") {
            Ok(()) => {}
            Err(stop) => return Err(stop),
        }
        let ids = match self.ids(alloc, home) {
            Ok(ids) => ids,
            Err(stop) => return Err(stop),
        };
        match self.mark("]") {
            Ok(()) => Ok(ids),
            Err(stop) => Err(stop),
        }
    }

    /// Reads the mixins of a shape.
    fn with_mixins(&mut self, alloc: Global, home: &FileHome<'_>) -> Result<Vec<Ref>, ReadStop>
        ensures { ReadsAs (λ refs. refs.items) (with_mixins (home_of_file home.now)) (left self.old) (left self.new) result }
    {
        match self.the_word("with") {
            Ok(()) => {}
            Err(stop) => return Err(stop),
        }
        self.listed_ids(alloc, home)
    }

    /// Reads the mixins of a shape, where it has some.
    pub(crate) fn mixins(
        &mut self,
        alloc: Global,
        home: &FileHome<'_>,
    ) -> Result<Vec<Ref>, ReadStop>
        ensures { ReadsOn With (λ refs. refs.items) (mixins (home_of_file home.now)) (left self.old) (left self.new) result }
    {
        if self.is_at_word("with") {
            return self.with_mixins(alloc, home);
        }
        Ok(Vec::new(alloc))
    }
}
