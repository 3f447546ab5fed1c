// Laws over the definitions: public functions with empty bodies, whose contracts are the laws.
ghost use Rattle.sm_transform.specs.Laws.{OneChanged, RenamedBack, SomeChanged};

/// A change makes one graph of a graph.
pub fn one_changed()
    ensures { OneChanged }
{}

/// It can't be that a change makes none, where a new name isn't refused.
pub fn some_changed()
    ensures { SomeChanged }
{}

/// A namespace that gets another name, and then its own again, leaves the graph as it was, where the first isn't refused.
pub fn renamed_back()
    ensures { RenamedBack }
{}
