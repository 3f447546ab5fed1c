// The entries of lists in fields.
ghost use Rattle.std.specs.Prelude.{◌≡◌, ◌++◌, [], ◌∷◌, IfOk, OnOk};
ghost use Rattle.sm_parts.specs.HeaderLists.{entries_of, pieces_of, plain_entries};
ghost use Rattle.sm_bytes.specs.Ascii.{comma};
ghost use Rattle.sm_parts.specs.Cuts.{IsCutAt};
ghost use Rattle.sm_parts.specs.steps.Cutting.{IsPieceOf};
ghost use Rattle.sm_parts.specs.declared.list_entry.HeaderCut.TheVariants.{EverySecondComma};

use crate::cut::{Cut, cut_at};
use crate::list_entry::{HeaderCut, ListEntry};
use crate::quotes::quoted_entries;
use sm_http::trim;
use sm_tree::{Bytes, NoMemory};
use std::alloc::Global;

/// The entries of a list that the value of a field is, cut so. What is no entry ends the list. Linear.
///
/// # Errors
///
/// `NoMemory`.
pub fn entries(alloc: Global, cut: HeaderCut, value: &[u8]) -> Result<Vec<ListEntry>, NoMemory>
    ensures { IfOk result (λ entries. entries.items ≡ entries_of cut value.now) }
{
    match cut {
        HeaderCut::Quoted => quoted_entries(alloc, value),
        HeaderCut::EachComma => entries_at_commas(alloc, HeaderCut::EachComma, value),
        HeaderCut::EverySecondComma => entries_at_commas(alloc, HeaderCut::EverySecondComma, value),
    }
}

// The entries between commas.
fn entries_at_commas(
    alloc: Global,
    cut: HeaderCut,
    value: &[u8],
) -> Result<Vec<ListEntry>, NoMemory>
    ensures { IfOk result (λ entries. entries.items ≡ plain_entries (pieces_of cut value.now)) }
{
    let mut entries = Vec::new(alloc);
    let mut rest = value;
    loop {
        let piece = next_piece(cut, rest);
        put_plain(alloc, &mut entries, piece.taken)?;
        rest = match piece.behind {
            Some(behind) => behind,
            None => return Ok(entries),
        };
    }
}

// What stands before the comma that ends the first entry.
fn next_piece(cut: HeaderCut, rest: &[u8]) -> Cut<'_>
    ensures { IsPieceOf cut rest.now result }
{
    let first = cut_at(rest, b',');
    match cut {
        HeaderCut::EverySecondComma => second_piece(rest, first),
        HeaderCut::EachComma => first,
        HeaderCut::Quoted => first,
    }
}

// The same with what stands before the next comma.
fn second_piece<'a>(rest: &'a [u8], first: Cut<'a>) -> Cut<'a>
    requires { IsCutAt comma rest.now first }
    ensures { IsPieceOf EverySecondComma rest.now result }
{
    match first.behind {
        Some(behind) => {
            let second = cut_at(behind, b',');
            let len = first.taken.len() + 1 + second.taken.len();
            Cut {
                taken: &rest[..len],
                behind: second.behind,
            }
        }
        None => first,
    }
}

/// Puts the text of a piece that is no quoted entry, if any is left of it.
pub(crate) fn put_plain(
    alloc: Global,
    entries: &mut Vec<ListEntry>,
    piece: &[u8],
) -> Result<(), NoMemory>
    ensures { OnOk result (entries.new.items ≡ entries.old.items ++ plain_entries (piece.now ∷ [])) }
{
    let text = trim(piece);
    if text.is_empty() {
        return Ok(());
    }
    entries.push(ListEntry::Text(Bytes::new(text.to_vec(alloc)?)))?;
    Ok(())
}
