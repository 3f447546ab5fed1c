// The traits of the table, by their ids. Nothing here takes memory.
ghost use Rattle.std.specs.Prelude.{◌≡◌};
ghost use Rattle.sm_rules.specs.TraitRows.{has_row};

use sm_passes::rows::names::{AnyRow, some_row};

/// Whether a trait has a row.
pub fn has_row(name: &str) -> bool
    ensures { result ≡ has_row name.now }
{
    some_row(name, &AnyRow)
}
