// A model: its graph, and what its rules say of it. And the files that a model is loaded from.
use sm_ast::AstRefusal;
use sm_idl::IdlRefusal;
use sm_merge::LimitKind;
use sm_model::{Graph, ModelEvents};
use sm_tree::{SyntaxRefusal, Text};

/// A model file: one whose name ends in `.json` is in the JSON AST, any other an IDL text.
#[derive(Drop)]
pub struct ModelFile {
    /// Its name.
    pub name: Text,
    /// Its bytes.
    pub bytes: Vec<u8>,
}

/// A model that no rule rejects.
#[derive(Drop)]
pub struct Model {
    /// Its graph.
    pub graph: Graph,
    /// Its events, in order: none of them is an error.
    pub events: ModelEvents,
}

/// Why a file says no statements. Places count bytes from 0, and no refusal in it is `NoMemory`.
#[derive(Debug, Drop)]
pub enum TextPlace {
    /// An IDL text that isn't UTF-8, and the length of its longest prefix that is.
    Utf8(u64),
    /// No JSON text of at most 100 levels.
    Json(SyntaxRefusal),
    /// A JSON text that is no model.
    Ast(AstRefusal),
    /// A text that is no model in the IDL.
    Idl(IdlRefusal),
}

/// Why files load to no model. Each goes before the next.
#[derive(Debug, Drop)]
pub enum LoadRefusal {
    /// The first file that says no statements, by its number from 0, and why.
    Text(u64, TextPlace),
    /// The first limit that the graph is past.
    Limit(LimitKind),
    /// Why the model is rejected, in order: what is wrong in merging; or else all that rules tell, some of it an error.
    Rejected(ModelEvents),
    /// The allocator refused the memory that loading needs.
    NoMemory,
}
