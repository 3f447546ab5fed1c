// Laws of the definitions, each the contract of a function whose body is empty.
ghost use Rattle.sm_select.specs.Laws.{OneAnswer, OnePicked, OneSelector, PrefixesAreBegun, SomeAnswer, SomePicked};

/// A text is that of one selector at most. So `parse_selector` gives *the* selector.
pub fn one_selector()
    ensures { OneSelector }
{}

/// What the tokens of a selector begin with is begun: no selector has a place where its tokens stop.
pub fn prefixes_are_begun()
    ensures { PrefixesAreBegun }
{}

/// A text is a selector's, breaks at one place, or leaves the profile at one place, and never two of them.
pub fn one_answer()
    ensures { OneAnswer }
{}

/// It can't be that a text is no selector's, breaks nowhere and leaves the profile nowhere: the decisions leave no gap.
#[tactic(auto, using(crate::proofs::SomeAnswer::some_answer))]
pub fn some_answer()
    ensures { SomeAnswer }
{}

/// A selector picks one list of ids of a graph.
pub fn one_picked()
    ensures { OnePicked }
{}

/// It can't be that a selector picks no list of ids, which may be empty.
#[tactic(auto, using(crate::proofs::SomePicked::some_picked))]
pub fn some_picked()
    ensures { SomePicked }
{}
