// What is written for a merged graph, as the tree of the JSON AST or as files of the IDL, merges to the graph again. These calls do
// nothing: their contracts are the laws.
#![tactic(auto)]

pub mod laws;

ghost use Rattle.sm_again.specs.AstMerges.{AstMerges};
ghost use Rattle.sm_again.specs.WrittenMerges.{WrittenAgain, WrittenMerges};
ghost use Rattle.sm_again.specs.WrittenTexts.{ReadMerges, WrittenTexts};

pub use sm_load;

/// The statements that the tree of a graph says merge to the graph, where files merge to it.
pub fn ast_merges()
    ensures { AstMerges }
{}

/// The files that are written for namespaces of a merged graph merge to the graph's shapes of these namespaces, with all metadata.
pub fn written_again()
    ensures { WrittenAgain }
{}

/// The files that are written for all namespaces of a graph merge to the graph, where files merge to it.
pub fn written_merges()
    ensures { WrittenMerges }
{}

/// What is written for a namespace of a graph is the text of the namespace's file, where files merge to the graph.
pub fn written_texts()
    ensures { WrittenTexts }
{}

/// The texts that are written for all namespaces of a graph, read again, merge to the graph, where files merge to it.
pub fn read_merges()
    ensures { ReadMerges }
{}
