// Values judged by constraints: the first that a value breaks.
ghost use Rattle.std.specs.Prelude.{◌≡◌, ◌++◌, ◌||◌, is_some, length, pos, IfOk};
ghost use Rattle.std.specs.Str.{chars};
ghost use Rattle.sm_shapes.specs.Broken.{is_at_least, is_at_most, first_broken, broken, length_broken, range_broken, pattern_broken};
ghost use Rattle.sm_shapes.specs.Broken.{text_broken, number_broken};
ghost use Rattle.sm_shapes.specs.ConstraintView.{constraint_data};
ghost use Rattle.sm_shapes.specs.Fitting.{finder};
ghost use Rattle.sm_shapes.specs.InOrder.{AreStored, NamesPattern};
ghost use Rattle.sm_shapes.specs.TableView.{table_data};
ghost use Rattle.sm_shapes.specs.ValueView.{val_of};

use crate::constraints::Constraints;
use crate::kinds::ShapeKind;
use crate::tables::Table;
use crate::values::Value;
use crate::{FaultKind, Patterns};
use sm_tree::NoMemory;

impl Constraints {
    /// `Length` where a length lies outside the bounds. No memory.
    pub fn judge_length(&self, length: usize) -> Option<FaultKind>
        ensures { result ≡ first_broken (length_broken (constraint_data self.now) length) }
    {
        if is_least(self.min, length) && is_most(self.max, length) {
            None
        } else {
            Some(FaultKind::Length)
        }
    }

    /// `Range` where a number lies outside the bounds, else `Enum` where it is none of an intEnum's. No memory.
    pub fn judge_number(&self, kind: ShapeKind, number: i64) -> Option<FaultKind>
        ensures { result ≡ first_broken (range_broken (constraint_data self.now) number ++ number_broken kind
            (constraint_data self.now).numbers number) }
    {
        if !self.is_between(number) {
            return Some(FaultKind::Range);
        }
        match kind {
            ShapeKind::IntEnum => {
                if self.numbers.has(number) {
                    None
                } else {
                    Some(FaultKind::Enum)
                }
            }
            _ => None,
        }
    }

    /// `Enum` where a text is none of an enum's. No memory.
    pub fn judge_enum(&self, kind: ShapeKind, text: &str) -> Option<FaultKind>
        ensures { result ≡ first_broken (text_broken kind (constraint_data self.now).texts text.now) }
    {
        match kind {
            ShapeKind::Enum => {
                if self.texts.has(text) {
                    None
                } else {
                    Some(FaultKind::Enum)
                }
            }
            _ => None,
        }
    }

    // `Pattern` where the pattern doesn't find a text.
    fn judge_pattern<P: Patterns>(
        &self,
        table: &Table,
        text: &str,
        patterns: &mut P,
    ) -> Result<Option<FaultKind>, NoMemory>
        requires stored { AreStored (table_data table.now).patterns (P.added patterns.old) }
        requires named { NamesPattern (table_data table.now) (constraint_data self.now).pattern }
        ensures first { IfOk result (λ first. first ≡ first_broken
            (pattern_broken (finder (table_data table.now) P.test) (constraint_data self.now).pattern text.now)) }
        ensures added { P.added patterns.new ≡ P.added patterns.old }
        ensures refused { P.refused patterns.new ≡ P.refused patterns.old }
        ensures refusals { P.refusals patterns.new ≡ P.refusals patterns.old }
    {
        match self.pattern {
            None => Ok(None),
            Some(pattern) => match patterns.finds(pattern, text) {
                Ok(true) => Ok(None),
                Ok(false) => Ok(Some(FaultKind::Pattern)),
                Err(refusal) => Err(refusal),
            },
        }
    }

    // Whether a bound is there.
    fn is_bounded(&self) -> bool
        ensures { result ≡ is_some self.now.min || is_some self.now.max }
    {
        self.min.is_some() || self.max.is_some()
    }

    /// `Length` of a text: its Unicode scalar values count, and are counted where a bound is there. No memory.
    pub fn judge_chars(&self, text: &str) -> Option<FaultKind>
        ensures { result ≡ first_broken (length_broken (constraint_data self.now) (length (chars text.now))) }
    {
        if self.is_bounded() {
            self.judge_length(text.chars().count())
        } else {
            None
        }
    }

    /// The first constraint that a text of this kind breaks: `Length`, `Pattern` or `Enum`. The store must have the table's patterns.
    pub fn judge_text<P: Patterns>(
        &self,
        table: &Table,
        kind: ShapeKind,
        text: &str,
        patterns: &mut P,
    ) -> Result<Option<FaultKind>, NoMemory>
        requires stored { AreStored (table_data table.now).patterns (P.added patterns.old) }
        requires named { NamesPattern (table_data table.now) (constraint_data self.now).pattern }
        ensures first { IfOk result (λ first. first ≡ first_broken
            (length_broken (constraint_data self.now) (length (chars text.now)) ++ pattern_broken (finder (table_data table.now) P.test)
            (constraint_data self.now).pattern text.now ++ text_broken kind (constraint_data self.now).texts text.now)) }
        ensures added { P.added patterns.new ≡ P.added patterns.old }
        ensures refused { P.refused patterns.new ≡ P.refused patterns.old }
        ensures refusals { P.refusals patterns.new ≡ P.refusals patterns.old }
    {
        if let Some(fault) = self.judge_chars(text) {
            return Ok(Some(fault));
        }
        match self.judge_pattern(table, text, patterns) {
            Ok(None) => Ok(self.judge_enum(kind, text)),
            Ok(Some(fault)) => Ok(Some(fault)),
            Err(refusal) => Err(refusal),
        }
    }

    /// The first constraint that a value of this kind breaks, of those of a shape or a member of the table. The store must have the table's
    /// patterns.
    pub fn judge<P: Patterns>(
        &self,
        table: &Table,
        kind: ShapeKind,
        value: &Value,
        patterns: &mut P,
    ) -> Result<Option<FaultKind>, NoMemory>
        requires stored { AreStored (table_data table.now).patterns (P.added patterns.old) }
        requires named { NamesPattern (table_data table.now) (constraint_data self.now).pattern }
        ensures first { IfOk result (λ first. first ≡ first_broken
            (broken (finder (table_data table.now) P.test) kind (constraint_data self.now) (val_of value.now))) }
        ensures added { P.added patterns.new ≡ P.added patterns.old }
        ensures refused { P.refused patterns.new ≡ P.refused patterns.old }
        ensures refusals { P.refusals patterns.new ≡ P.refusals patterns.old }
    {
        match value {
            Value::Int(number) => Ok(self.judge_number(kind, *number)),
            Value::Text(text) => self.judge_text(table, kind, text.as_str(), patterns),
            Value::Blob(bytes) => Ok(self.judge_length(bytes.as_slice().len())),
            Value::List(items) => Ok(self.judge_length(items.as_slice().len())),
            Value::Map(entries) => Ok(self.judge_length(entries.as_slice().len())),
            _ => Ok(None),
        }
    }
}

// Whether a length reaches the least one.
fn is_least(least: Option<i64>, length: usize) -> bool
    ensures { result ≡ is_at_least least (pos length) }
{
    match least {
        None => true,
        Some(least) => i128::from(least) <= length as i128,
    }
}

// Whether it doesn't pass the greatest one.
fn is_most(most: Option<i64>, length: usize) -> bool
    ensures { result ≡ is_at_most most (pos length) }
{
    match most {
        None => true,
        Some(most) => length as i128 <= i128::from(most),
    }
}
