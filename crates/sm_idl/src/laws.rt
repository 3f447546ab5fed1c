// Laws of the definitions, each the contract of a function whose body is empty.
ghost use Rattle.sm_idl.specs.Laws.{OneReading, PrefixesAreBegun, BegunIsClosed, OnePlace, FormedStatements};
ghost use Rattle.sm_idl.specs.Laws.{OneRefusal, SaidOrRefused, SomeAnswer};
ghost use Rattle.sm_idl.specs.WrittenLaws.{WrittenIsFile};

/// A text is that of one file at most. So `read_idl` gives *the* statements.
pub fn one_reading()
    ensures { OneReading }
{}

/// What the tokens of a file begin with is begun: no file has a place where its tokens stop.
pub fn prefixes_are_begun()
    ensures { PrefixesAreBegun }
{}

/// What is begun is begun cut behind any of its tokens. So a place where tokens stop is the first one.
pub fn begun_is_closed()
    ensures { BegunIsClosed }
{}

/// Tokens stop at one place at most. So a refusal names *the* place.
pub fn one_place()
    ensures { OnePlace }
{}

/// What a text says is formed as merging asks for it.
pub fn formed_statements()
    ensures { FormedStatements }
{}

/// A text is refused for one reason at most. So `read_idl` gives *the* refusal.
pub fn one_refusal()
    ensures { OneRefusal }
{}

/// A text that is a file's, of a version that is read, isn't refused.
pub fn said_or_refused()
    ensures { SaidOrRefused }
{}

/// It can't be that a text that is UTF-8 says nothing and isn't refused.
pub fn some_answer()
    ensures { SomeAnswer }
{}

/// What is written for a namespace of a graph is the text of one file: that of the namespace's metadata and shapes. The graph's values
/// nest no more levels than are read.
pub fn written_text()
    ensures { WrittenIsFile }
{}
