// Which shapes are written for a namespace.
ghost use Rattle.std.specs.Prelude.{◌≡◌};
ghost use Rattle.sm_idl.specs.Written.{is_written};

use sm_ids::namespace_and_name;
use sm_model::is_in_prelude;

/// Whether the shape with this id is written for a namespace. No memory.
pub(crate) fn is_its_own(namespace: &str, id: &str) -> bool
    ensures { result ≡ is_written namespace.now id.now }
{
    namespace_and_name(id).0 == namespace && !is_in_prelude(id)
}
