// Whether an operation is served. Operations that share a shape may share the way from it to one that isn't.
ghost use Rattle.std.specs.Prelude.{◌≡◌, IfOk};
ghost use Rattle.sm_service.specs.PathView.{member_path_text};
ghost use Rattle.sm_service.specs.ServiceView.{served_said};

use sm_tree::{NoMemory, Text};
use std::alloc::Global;
use std::marker::Model;
use std::rc::Rc;

/// A member path that begins at the input, the output or an error of an operation: `input/a/b`, `output/a`, `error/NAME/a`. Contracts see
/// its text.
#[derive(Debug, Drop)]
pub struct MemberPath {
    // Where it begins: `input`, `output` or `error/NAME`.
    start: Text,
    // The names of the members from there on, joined by `/`, for all paths that begin at this shape: empty, where it ends there.
    way: Rc<Text>,
}

impl Model for MemberPath {
    ghost use Rattle.std.specs.Prelude.{List, ℕ};
    ghost use Rattle.sm_service.specs.PathView.{member_path_text};

    ghost Value = { List ℕ };

    ghost view = { λ a. member_path_text a.start a.way.value };
}

impl MemberPath {
    /// The path of a start, and of the way from there. No memory.
    pub(crate) fn new(start: Text, way: Rc<Text>) -> Self
        ensures { result ≡ member_path_text start way.value }
    {
        MemberPath { start, way }
    }

    /// Its text.
    pub fn print(&self, alloc: Global) -> Result<Text, NoMemory>
        ensures { IfOk result (λ text. text ≡ self.now) }
    {
        let way = self.way.as_ref().as_str();
        let mut text = String::from_str(alloc, self.start.as_str())?;
        if !way.is_empty() {
            text.push_str("/")?;
            text.push_str(way)?;
        }
        Ok(Text::new(text))
    }

    // The same path, which shares the way.
    fn share(&self, alloc: Global) -> Result<Self, NoMemory>
        ensures { IfOk result (λ path. path ≡ self.now) }
    {
        let start = Text::copy(alloc, self.start.as_str())?;
        match self.way.clone() {
            Ok(way) => Ok(MemberPath { start, way }),
            Err(_) => Err(NoMemory),
        }
    }
}

/// Whether values of an operation's input, output and errors can be carried.
#[derive(Debug, Drop)]
pub enum OperationServed {
    /// They can.
    Yes,
    /// The first member path that leads to a shape whose values can't: by the input, then the output, then the errors in order.
    Unserved(MemberPath),
}

impl OperationServed {
    /// The same answer; a path shares its way.
    pub(crate) fn share(&self, alloc: Global) -> Result<Self, NoMemory>
        ensures { IfOk result (λ same. served_said same ≡ served_said self.now) }
    {
        match self {
            OperationServed::Yes => Ok(OperationServed::Yes),
            OperationServed::Unserved(path) => match path.share(alloc) {
                Ok(path) => Ok(OperationServed::Unserved(path)),
                Err(refusal) => Err(refusal),
            },
        }
    }
}
