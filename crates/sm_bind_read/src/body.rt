// What of a body counts where parts are joined.
use sm_codec::Outcome;
use sm_tree::Bytes;

/// What of a body counts.
#[derive(Debug, Drop)]
pub enum PartBody {
    /// Nothing.
    Empty,
    /// The bytes of a payload.
    Raw(Bytes),
    /// What a document, or a payload that isn't null, came to by its shape in the table of documents.
    Tree(Outcome),
}
