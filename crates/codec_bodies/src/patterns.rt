// The patterns of a table, put into a store.
ghost use Rattle.std.specs.Prelude.{◌≡◌, [], IfOk, IsTrue};
ghost use Rattle.sm_shapes.specs.InOrder.{AreStored};
ghost use Rattle.sm_shapes.specs.TableView.{table_data};
ghost use Rattle.sm_shapes.specs.LiteralStore.{texts};

use sm_shapes::tables::Table;
use sm_shapes::{LiteralPatterns, PatternRefusal, Patterns};
use sm_tree::NoMemory;

/// Whether the store, in which nothing is yet, has the table's patterns then.
pub fn store(table: &Table, patterns: &mut LiteralPatterns) -> Result<bool, NoMemory>
    requires { texts patterns.old ≡ [] }
    ensures { IfOk result (λ good. IsTrue good → AreStored (table_data table.now).patterns (texts patterns.new)) }
{
    for pattern in table.patterns.as_slice() {
        match patterns.add(pattern.1.as_str()) {
            Ok(number) => {
                if number != pattern.0 {
                    return Ok(false);
                }
            }
            Err(PatternRefusal::Refused) => return Ok(false),
            Err(PatternRefusal::NoMemory) => return Err(NoMemory),
        }
    }
    Ok(true)
}
