// The texts of a table's patterns, by their numbers in a store.
ghost use Rattle.std.specs.Prelude.{◌≡◌, ◌∷◌, ℕ, List, [], Some, IfSome};
ghost use Rattle.sm_shapes.specs.InOrder.{NamesPattern};
ghost use Rattle.sm_shapes.specs.TableData.{first_text, pattern_at, texts_numbered};
ghost use Rattle.sm_shapes.specs.TableView.{table_data};

use crate::tables::Table;
use sm_tree::Text;

impl Table {
    /// The text of a pattern that the constraints name. Where the numbers follow each other, as those of a compiled table do, it is
    /// looked up at its place, and else row by row. No memory.
    pub fn pattern_text(&self, pattern: u32) -> &str
        requires { NamesPattern (table_data self.now) (Some pattern) }
        ensures { result.now ≡ pattern_at (table_data self.now) pattern }
    {
        let rows = self.patterns.as_slice();
        match text_at_place(rows, pattern) {
            Some(text) => text,
            None => text_numbered(rows, pattern),
        }
    }
}

// The text of the row that stands where the number would, if numbers followed each other, where it has the number.
fn text_at_place(rows: &[(u32, Text)], number: u32) -> Option<&str>
    ensures { IfSome result (λ text. (u : List ℕ) → texts_numbered number rows.now ≡ u ∷ [] → text.now ≡ u) }
{
    let Some(first) = rows.first() else {
        return None;
    };
    if number < first.0 {
        return None;
    }
    match rows.get((number - first.0) as usize) {
        Some(row) if row.0 == number => Some(row.1.as_str()),
        _ => None,
    }
}

// The text of the first row that has the number.
fn text_numbered(rows: &[(u32, Text)], number: u32) -> &str
    ensures { result.now ≡ first_text (texts_numbered number rows.now) }
{
    for row in rows {
        if row.0 == number {
            return row.1.as_str();
        }
    }
    ""
}
