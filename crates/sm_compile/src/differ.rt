// Whether no text or number of a list stands twice, told by sorting: n log n. No memory.
ghost use Rattle.std.specs.Prelude.{◌≡◌};
ghost use Rattle.std.specs.Cmp.Lexicographic.{slice_cmp};
ghost use Rattle.std.specs.Ordering.{nat_cmp};
ghost use Rattle.sm_compile.specs.steps.Naming.{all_differ, all_numbers_differ, texts_of_all};

use std::cmp::Ordering;

/// Whether no text stands twice.
pub(crate) fn texts_differ(texts: Vec<&str>) -> bool
    ensures { result ≡ all_differ (texts_of_all texts.entry.items) }
{
    let mut texts = texts;
    texts.sort_unstable_by(|a, b| order_of(*a, *b));
    texts.is_sorted_by(|a, b| order_of(*a, *b).is_lt())
}

/// Whether no number stands twice.
pub(crate) fn numbers_differ(numbers: Vec<i64>) -> bool
    ensures { result ≡ all_numbers_differ numbers.items }
{
    let mut numbers = numbers;
    numbers.sort_unstable_by(|a, b| a.cmp(b));
    numbers.is_sorted_by(|a, b| a.cmp(b).is_lt())
}

// The order of two texts.
pub(crate) fn order_of(a: &str, b: &str) -> Ordering
    ensures { result ≡ slice_cmp nat_cmp a.now b.now }
{
    a.cmp(b)
}
