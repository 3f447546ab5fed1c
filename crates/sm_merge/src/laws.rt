// Laws over the definitions of merging: public functions with empty bodies, whose contracts are the laws.
ghost use Rattle.sm_merge.specs.Laws.{FormedGraphs};
ghost use Rattle.sm_merge.specs.Laws.{NoFiles, OneEffectiveShape, OneFileOrSeveral, OneGraph, OneListOfEvents, OneValue, OtherOrder};
ghost use Rattle.sm_merge.specs.Laws.{SomeEvents, SomeGraph};
ghost use Rattle.sm_merge.specs.Restated.{StatedAgain};

/// The values of one trait of one place come to one value.
#[tactic(auto, using(crate::proofs::OneValue::one_value))]
pub fn one_value()
    ensures { OneValue }
{}

/// What a shape comes to with its mixins is one thing.
#[tactic(auto, using(crate::proofs::OneEffective::one_effective))]
pub fn one_effective_shape()
    ensures { OneEffectiveShape }
{}

/// Statements have one graph.
#[tactic(auto, using(crate::proofs::OneMerged::one_graph))]
pub fn one_graph()
    ensures { OneGraph }
{}

/// Statements have one list of events: what is wrong with them, in order, each once.
pub fn one_list_of_events()
    ensures { OneListOfEvents }
{}

/// The statements of files have a graph: it can't be that they have none.
#[tactic(auto, using(crate::proofs::SomeGraph::some_graph))]
pub fn some_graph()
    ensures { SomeGraph }
{}

/// A graph of the statements of files that is within the limits has the form of one: it is made of shapes as `Graph::build` takes them.
#[tactic(auto, using(crate::proofs::FormedGraphs::merged_formed))]
pub fn formed_graphs()
    ensures { FormedGraphs }
{}

/// Statements have a list of events, which may be empty: it can't be that they have none.
#[tactic(auto, using(crate::proofs::SomeEvents::some_events))]
pub fn some_events()
    ensures { SomeEvents }
{}

/// Statements merge to the same in one file and in several, if they stand in the same order.
#[tactic(auto, using(crate::proofs::OneMerged::one_file_or_several))]
pub fn one_file_or_several()
    ensures { OneFileOrSeveral }
{}

/// Statements in another order, but not those for one id, the values of one trait of one place, and those of one key, merge to
/// the same. So the order of files counts there alone.
pub fn other_order()
    ensures { OtherOrder }
{}

/// No files merge to the prelude.
#[tactic(auto, using(crate::proofs::OneMerged::no_files))]
pub fn no_files()
    ensures { NoFiles }
{}

/// Statements that state a part of a merged graph, each shape of it whole and once, and all metadata, merge to this part, and nothing
/// is wrong with them. So files that are written for a graph merge to it again.
pub fn stated_again()
    ensures { StatedAgain }
{}
