// Laws of compiling: public functions with empty bodies, whose contracts are the laws.
ghost use Rattle.sm_compile.specs.Laws.{OneTable, SomeTable};

/// A shape of a graph has one table over a store, one number in it, and is served or not: so a body has one answer.
pub fn one_table()
    ensures { OneTable }
{}

/// A shape of which a table can be made has a table: it can't be that it has none. What is asked of the graph holds of every graph that
/// statements of files come to.
pub fn some_table()
    ensures { SomeTable }
{}
