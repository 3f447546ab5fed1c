// How lists in fields are cut, and what stands in them.
use sm_tree::Bytes;

/// How a list in a field is cut into its entries (Smithy 2.0, "httpHeader trait").
#[derive(Debug, Clone, Copy, PartialEq, Eq, Drop)]
pub enum HeaderCut {
    /// Entries are texts, which may stand between quotation marks.
    Quoted,
    /// Each comma ends an entry.
    EachComma,
    /// Every second comma does: entries are http-dates, each of which has a comma.
    EverySecondComma,
}

/// What stands in a list.
#[derive(Debug, Drop)]
pub enum ListEntry {
    /// The text of an entry.
    Text(Bytes),
    /// No entry: a quotation mark isn't closed, or more than blanks stands behind the closing one.
    NoEntry,
}
