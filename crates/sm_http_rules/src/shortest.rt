// Prefixes of which none begins with another, in order, so that a search finds the one that begins a text.
ghost use Rattle.std.specs.Prelude.{◌≡◌, ◌↔◌, ℕ, List, IsTrue, eqb};
ghost use Rattle.std.specs.List.{starts_with};
ghost use Rattle.sm_http_rules.specs.steps.Shortest.{AreApart, place_of};
ghost use Rattle.sm_http_rules.specs.steps.WireNames.{BeginsWithOne};

use sm_tree::Text;
use std::cmp::Ordering;

/// Prefixes in order, without those that begin with another one. n log n, and no memory.
pub(crate) fn shortest(mut prefixes: Vec<Text>) -> Vec<Text>
    ensures apart { AreApart result.items }
    ensures same { (text : List ℕ) → BeginsWithOne text result.items ↔ BeginsWithOne text prefixes.items }
{
    prefixes.sort_unstable_by(|a, b| a.as_str().cmp(b.as_str()));
    prefixes.dedup_by(|later, kept| begins_with(later.as_str(), kept.as_str()));
    prefixes
}

/// Whether a text begins with one of such prefixes. Some log n of them are looked at.
pub(crate) fn begins_with_one(text: &str, prefixes: &[Text]) -> bool
    requires { AreApart prefixes.now }
    ensures { IsTrue result ↔ BeginsWithOne text.now prefixes.now }
{
    match prefixes.binary_search_by(|prefix| place_of(prefix.as_str(), text)) {
        Ok(_) => true,
        Err(_) => false,
    }
}

// Where a prefix stands against the texts that begin with it.
fn place_of(prefix: &str, text: &str) -> Ordering
    ensures { result ≡ place_of prefix.now text.now }
{
    if begins_with(text, prefix) {
        Ordering::Equal
    } else {
        prefix.cmp(text)
    }
}

fn begins_with(text: &str, prefix: &str) -> bool
    ensures { result ≡ starts_with eqb text.now prefix.now }
{
    text.starts_with(prefix)
}
