// Texts of labels and queries, put together by their names once, so that each member finds its own by halves.
ghost use Rattle.std.specs.Prelude.{◌≡◌, ◌<◌, ◌++◌, ◌∷◌, [], ℕ, List, IfOk, IsSomeAnd, OnOk, length, slice_get};
ghost use Rattle.sm_codec.specs.Named.{named};
ghost use Rattle.sm_groups.specs.Groups.{AreGroupsOf, groups_view};
ghost use Rattle.sm_bind.specs.BindingsView.{parts_data};
ghost use Rattle.sm_bind_read.specs.steps.Sources.{AreGroupsIn, text_rows, texts_in};

use sm_bind::Parts;
use sm_groups::{Group, by_key};
use sm_tree::{Bytes, NoMemory, Text};
use std::alloc::Global;

/// The texts of labels and of queries, in groups.
#[derive(Drop)]
pub(crate) struct PartGroups {
    /// Those of labels.
    pub labels: Vec<Group<Bytes>>,
    /// Those of queries whose keys are texts.
    pub query: Vec<Group<Bytes>>,
}

/// The groups in the parts of a message. n log n in its labels and pairs.
pub(crate) fn groups_in(alloc: Global, parts: &Parts) -> Result<PartGroups, NoMemory>
    ensures { IfOk result (AreGroupsIn (parts_data parts.now)) }
{
    let labels = by_key(alloc, label_rows(alloc, &parts.labels)?)?;
    let query = by_key(alloc, query_rows(alloc, &parts.query)?)?;
    Ok(PartGroups { labels, query })
}

// Copies of labels.
fn label_rows(alloc: Global, labels: &[(Text, Bytes)]) -> Result<Vec<(Text, Bytes)>, NoMemory>
    ensures { IfOk result (λ rows. rows.items ≡ labels.now) }
{
    let mut rows = Vec::with_capacity(alloc, labels.len())?;
    for label in labels {
        put_row(alloc, &mut rows, label.0.as_str(), label.1.as_slice())?;
    }
    Ok(rows)
}

// Copies of the pairs whose keys are texts.
fn query_rows(alloc: Global, pairs: &[(Bytes, Bytes)]) -> Result<Vec<(Text, Bytes)>, NoMemory>
    ensures { IfOk result (λ rows. rows.items ≡ text_rows pairs.now) }
{
    let mut rows = Vec::with_capacity(alloc, pairs.len())?;
    for pair in pairs {
        put_pair(alloc, &mut rows, pair)?;
    }
    Ok(rows)
}

fn put_pair(
    alloc: Global,
    rows: &mut Vec<(Text, Bytes)>,
    pair: &(Bytes, Bytes),
) -> Result<(), NoMemory>
    ensures { OnOk result (rows.new.items ≡ rows.old.items ++ text_rows (pair.now ∷ [])) }
{
    match str::from_utf8(pair.0.as_slice()) {
        Ok(key) => put_row(alloc, rows, key, pair.1.as_slice()),
        Err(_) => Ok(()),
    }
}

/// Puts a copy of a text behind others, under a copy of its key.
pub(crate) fn put_row(
    alloc: Global,
    rows: &mut Vec<(Text, Bytes)>,
    key: &str,
    text: &[u8],
) -> Result<(), NoMemory>
    ensures { OnOk result (rows.new.items ≡ rows.old.items ++ (key.now, text.now) ∷ []) }
{
    let key = Text::copy(alloc, key)?;
    let text = Bytes::new(text.to_vec(alloc)?);
    match rows.push((key, text)) {
        Ok(()) => Ok(()),
        Err(_) => Err(NoMemory),
    }
}

/// The group of a key. A binary search; no memory.
pub(crate) fn group_under<'a>(groups: &'a [Group<Bytes>], key: &str) -> Option<&'a Group<Bytes>>
    ensures { (rows : List (List ℕ × List ℕ)) → AreGroupsOf rows (groups_view groups.now) → texts_in result ≡ named key.now rows }
{
    match groups.binary_search_by(|group| group.key.as_str().cmp(key)) {
        Ok(place) => Some(group_at(groups, place)),
        Err(_) => None,
    }
}

fn group_at(groups: &[Group<Bytes>], place: usize) -> &Group<Bytes>
    requires { place < length groups.now }
    ensures { IsSomeAnd (slice_get groups.now place) (λ group. result.now ≡ group) }
{
    &groups[place]
}
