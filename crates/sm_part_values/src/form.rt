// Where a text stands, which decides how it is read.
ghost use Rattle.std.specs.Prelude.{◌≡◌};
ghost use Rattle.sm_codec.specs.LeafAnswers.{ReadsLeaf};
ghost use Rattle.sm_part_values.specs.FormView.{form_of};

use sm_codec::{LeafRefusal, Simple};
use sm_parts::{read_in_field, read_in_target};
use sm_shapes::values::Value;
use sm_time::Format;
use std::alloc::Global;

/// Where a text stands.
#[derive(Debug, Clone, Copy, Drop)]
pub enum PartForm {
    /// In a target: a label, or a value of a query.
    Target,
    /// In a field of a head.
    Field,
}

impl PartForm {
    /// The format of timestamps that have none of their own. No memory.
    pub fn usual(self) -> Format
        ensures { result ≡ (form_of self).usual }
    {
        match self {
            PartForm::Target => Format::DateTime,
            PartForm::Field => Format::HttpDate,
        }
    }

    // The value of a text, or its fault.
    pub(crate) fn read(
        self,
        alloc: Global,
        simple: Simple,
        text: &[u8],
    ) -> Result<Value, LeafRefusal>
        ensures { ReadsLeaf ((form_of self).read simple text.now) result }
    {
        match self {
            PartForm::Target => read_in_target(alloc, simple, text),
            PartForm::Field => read_in_field(alloc, simple, text),
        }
    }
}
