// Laws over the definitions: public functions with empty bodies, whose contracts are the laws.
ghost use Rattle.sm_load.specs.Accepted.{AcceptedAsOne, AcceptedNotRefused};
ghost use Rattle.sm_load.specs.Laws.{FormedFiles, OneListOfRuleEvents, OneLoad, ReadyModels, ReadyWithoutErrors, SomeLoad};
ghost use Rattle.sm_load.specs.Laws.{SomeModelEvents, SomeRuleEvents, SoundModels, SoundWithoutErrors};

/// A graph has one list of events: what fails and isn't suppressed, in order, each once.
pub fn one_list_of_rule_events()
    ensures { OneListOfRuleEvents }
{}

/// It can't be that a graph has no list of events.
pub fn some_rule_events()
    ensures { SomeRuleEvents }
{}

/// Model files load to one answer: each of `load` comes exactly where its reason is, but where memory runs out.
pub fn one_load()
    ensures { OneLoad }
{}

/// The statements of model files are formed as merging asks.
pub fn formed_files()
    ensures { FormedFiles }
{}

/// In a graph in which no rule fails that rejects a model a table can be made of each shape.
pub fn sound_without_errors()
    ensures { SoundWithoutErrors }
{}

/// In a graph in which no rule fails that rejects a model a table can be made of each service.
pub fn ready_without_errors()
    ensures { ReadyWithoutErrors }
{}

/// It can't be that model files are neither accepted nor refused, nor that a graph has no events: `load` leaves no case to `NoMemory`.
pub fn some_load()
    ensures files { SomeLoad }
    ensures events { SomeModelEvents }
{}

/// Of each shape and of each service of a model that is accepted a table can be made.
pub fn sound_models()
    ensures shapes { SoundModels }
    ensures services { ReadyModels }
{}

/// Model files are accepted as one graph, or refused, and never both.
pub fn accepted_or_refused()
    ensures graph { AcceptedAsOne }
    ensures apart { AcceptedNotRefused }
{}
