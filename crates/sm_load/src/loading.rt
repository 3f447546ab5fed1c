// The model of model files: each says statements, these are merged, and the rules are asked of the graph.
ghost use Rattle.std.specs.Prelude.{◌≡◌, List, Err};
ghost use Rattle.sm_model.specs.GraphView.{maps_of};
ghost use Rattle.sm_model.specs.Said.{Said};
ghost use Rattle.sm_merge.specs.Answers.{MergesTo};
ghost use Rattle.sm_merge.specs.Files.{files_view};
ghost use Rattle.sm_merge.specs.Stated.{AreFormedFiles};
ghost use Rattle.sm_load.specs.Events.{AreModelEvents};
ghost use Rattle.sm_load.specs.Loading.{LoadsTo};
ghost use Rattle.sm_load.specs.ModelFiles.{given_files};
ghost use Rattle.sm_rules.specs.RuleList.{is_error};
ghost use Rattle.sm_load.specs.steps.Stages.{Judges, MakesGraph, Merges, ReadsFiles, StopsMerge, some_grave};

use crate::model::{LoadRefusal, Model, ModelFile};
use crate::texts::statements_in;
use crate::told::told_events;
use sm_merge::{MergeRefusal, merge};
use sm_model::{Graph, ModelEvent, ModelEvents, Severity, Statement};
use sm_tree::NoMemory;
use std::alloc::Global;

// The statements of all files, or the first that says none. Each file's bytes are dropped with its statements made.
fn all_statements(alloc: Global, files: Vec<ModelFile>) -> Result<Vec<Vec<Statement>>, LoadRefusal>
    ensures { ReadsFiles (given_files files.items) result }
{
    let mut said = Vec::new(alloc);
    for file in files {
        match statements_in(alloc, said.len() as u64, file) {
            Ok(statements) => match said.push(statements) {
                Ok(()) => {}
                Err(_) => return Err(LoadRefusal::NoMemory),
            },
            Err(refusal) => return Err(refusal),
        }
    }
    Ok(said)
}

// Why statements come to no graph.
fn not_merged(refusal: MergeRefusal) -> LoadRefusal
    ensures { (said : List (List Said)) → MergesTo said (Err refusal) → StopsMerge said result }
{
    match refusal {
        MergeRefusal::Limit(kind) => LoadRefusal::Limit(kind),
        MergeRefusal::Rejected(events) => LoadRefusal::Rejected(events),
        MergeRefusal::NoMemory => LoadRefusal::NoMemory,
    }
}

// The graph of statements, which are dropped behind it.
fn merged(alloc: Global, said: Vec<Vec<Statement>>) -> Result<Graph, LoadRefusal>
    requires { AreFormedFiles (files_view said.items) }
    ensures { Merges (files_view said.items) result }
{
    match merge(alloc, said.as_slice()) {
        Ok(graph) => Ok(graph),
        Err(refusal) => Err(not_merged(refusal)),
    }
}

// The graph of files.
fn graph_of(alloc: Global, files: Vec<ModelFile>) -> Result<Graph, LoadRefusal>
    ensures { MakesGraph (given_files files.items) result }
{
    match all_statements(alloc, files) {
        Ok(said) => merged(alloc, said),
        Err(refusal) => Err(refusal),
    }
}

// Whether an event rejects a model, and whether one of several does.
fn is_grave(event: &ModelEvent) -> bool
    ensures { result ≡ is_error event.now.severity }
{
    match event.severity {
        Severity::Error => true,
        Severity::Danger | Severity::Warning | Severity::Note => false,
    }
}

fn has_grave(events: &[ModelEvent]) -> bool
    ensures { result ≡ some_grave events.now }
{
    for event in events {
        if is_grave(event) {
            return true;
        }
    }
    false
}

// The model of a graph with its events, unless one of them rejects it.
fn judged(graph: Graph, events: ModelEvents) -> Result<Model, LoadRefusal>
    requires { AreModelEvents (maps_of graph) events }
    ensures { Judges (maps_of graph) result }
{
    if has_grave(events.as_slice()) {
        return Err(LoadRefusal::Rejected(events));
    }
    Ok(Model { graph, events })
}

// The model of a graph.
fn checked(alloc: Global, graph: Graph) -> Result<Model, LoadRefusal>
    ensures { Judges (maps_of graph) result }
{
    match told_events(alloc, &graph) {
        Ok(events) => judged(graph, events),
        Err(NoMemory) => Err(LoadRefusal::NoMemory),
    }
}

/// The model of these files. The first that holds is answered: `Text` where a file says no statements, for the first such; `Limit`
/// where their graph is past a limit; `Rejected` where merging rejects them, or a rule does; else the model. `NoMemory` where the
/// allocator refuses memory. It takes what reading, merging and `events` take.
pub fn load(alloc: Global, files: Vec<ModelFile>) -> Result<Model, LoadRefusal>
    ensures { LoadsTo (given_files files.items) result }
{
    match graph_of(alloc, files) {
        Ok(graph) => checked(alloc, graph),
        Err(refusal) => Err(refusal),
    }
}
