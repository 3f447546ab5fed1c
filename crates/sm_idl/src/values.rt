// Values behind `=`: the defaults of fields, and the values of enum members (Smithy 2.0, "Smithy IDL", "Default values").
ghost use Rattle.sm_model.specs.RawView.{raw_view};
ghost use Rattle.sm_idl.specs.Members.{equals_node, given_value};
ghost use Rattle.sm_idl.specs.steps.Classes.{Equals};
ghost use Rattle.sm_idl.specs.steps.HomeView.{home_of_file};
ghost use Rattle.sm_idl.specs.steps.ReaderView.{left, maybe_raw, ReadsAs, ReadsOn};

use crate::home::FileHome;
use crate::reader::{ReadStop, Reader};
use sm_model::RawNode;
use sm_tree::MOST_LEVELS;
use std::alloc::Global;

impl<'t, 'a> Reader<'t, 'a> {
    /// Reads `=` and a node.
    fn equals_node(&mut self, alloc: Global, home: &FileHome<'_>) -> Result<RawNode, ReadStop>
        ensures { ReadsAs raw_view (equals_node (home_of_file home.now)) (left self.old) (left self.new) result }
    {
        match self.mark("=") {
            Ok(()) => {}
            Err(stop) => return Err(stop),
        }
        match self.node(alloc, home, MOST_LEVELS) {
            Ok(node) => Ok(node),
            Err(stop) => Err(stop),
        }
    }

    /// Reads `=` and a node, where they stand.
    pub(crate) fn given_value(
        &mut self,
        alloc: Global,
        home: &FileHome<'_>,
    ) -> Result<Option<RawNode>, ReadStop>
        ensures { ReadsOn Equals maybe_raw (given_value (home_of_file home.now)) (left self.old) (left self.new) result }
    {
        if self.is_at_mark("=") {
            return match self.equals_node(alloc, home) {
                Ok(node) => Ok(Some(node)),
                Err(stop) => Err(stop),
            };
        }
        Ok(None)
    }
}
