// Laws of the definitions that the contracts cite. Each is the contract of a function that does nothing.
ghost use Rattle.sm_ast.specs.Laws.{OneReading, SaysOrFails, WrittenIsJson, WrittenSays};

/// A tree of JSON says statements exactly where it has no fault. So `read_ast` refuses, but for out of memory, exactly the
/// trees that say none.
#[tactic(auto, using(crate::proofs::Agreeing::says_or_fails))]
pub fn says_or_fails()
    ensures { SaysOrFails }
{}

/// A tree says one list of statements. So `read_ast` gives that one.
pub fn one_reading()
    ensures { OneReading }
{}

/// The tree that is written for a graph is one of JSON, where traits stand under ids and the keys of metadata are UTF-8. So a
/// writer of JSON takes what `write_ast` gives for each graph that comes from statements that were read.
pub fn written_is_json()
    ensures { WrittenIsJson }
{}

/// The tree that is written for a graph says the statements of the graph: its metadata, and its shapes outside the prelude with
/// their members and traits. So `read_ast` gives these statements, for it gives the one list that a tree says.
pub fn written_says()
    ensures { WrittenSays }
{}
