// The service of an id in the model of model files.
ghost use Rattle.std.specs.Prelude.{◌≡◌, ◌≤◌, List, ℕ, Contains, IfOk};
ghost use Rattle.sm_io.specs.Files.{LetsSame};
ghost use Rattle.sm_io.specs.Seen.{files_seen};
ghost use Rattle.sm_model.specs.GraphView.{maps_of};
ghost use Rattle.sm_compile.specs.Answers.{seen_store};
ghost use Rattle.sm_rules.specs.Ready.{Ready};
ghost use Rattle.sm_service.specs.ServiceView.{service_data};
ghost use Rattle.sm_asked_shape.specs.asked.CommandAsked.{OnlyAdds};
ghost use Rattle.sm_asked_service.specs.LoadsService.{CanBeServed, LoadsService};
ghost use Rattle.sm_asked_service.specs.steps.ServiceSteps.{IsFilledOf, IsUnfilled, MakesService};

use sm_asked_shape::sm_asked::{CommandStop, Shown, load_models, refused, refused_pattern};
use sm_asked_shape::sm_load::Model;
use sm_codec::fill_defaults;
use sm_ids::ShapeId;
use sm_io::Files;
use sm_lines::line;
use sm_model::Graph;
use sm_service::{Service, ServiceRefusal, compile};
use sm_shapes::Patterns;
use sm_tree::{NoMemory, Text};
use std::alloc::Global;

// The service with this id, which can be compiled; or why there is none.
fn compiled<P: Patterns>(
    alloc: Global,
    graph: &Graph,
    id: &ShapeId,
    patterns: &mut P,
) -> Result<Service, CommandStop>
    requires { Ready (maps_of graph.now) id.now }
    ensures makes { let before = seen_store (P.added patterns.old) (P.refused patterns.old) (P.refusals patterns.old) in
        let after = seen_store (P.added patterns.new) (P.refused patterns.new) (P.refusals patterns.new) in
        MakesService (maps_of graph.now) id.now P.test before after result }
    ensures added { OnlyAdds (P.added patterns.old) (P.added patterns.new) }
{
    let service = id.as_ref();
    match compile(alloc, graph, &service, patterns) {
        Ok(service) => Ok(service),
        Err(ServiceRefusal::NoService) => Err(refused(line(alloc, "NoService", id.as_str()))),
        Err(ServiceRefusal::Pattern(carrier)) => {
            Err(refused_pattern(line(alloc, "Pattern", carrier.as_str())))
        }
        Err(ServiceRefusal::NoMemory) => Err(CommandStop::NoMemory),
    }
}

// The service with this id in the graph, or why there is none. Each service of a model that is loaded can be compiled.
fn service_named<P: Patterns>(
    alloc: Global,
    graph: &Graph,
    service: &str,
    patterns: &mut P,
) -> Result<Service, CommandStop>
    requires { Ready (maps_of graph.now) service.now }
    ensures makes { let before = seen_store (P.added patterns.old) (P.refused patterns.old) (P.refusals patterns.old) in
        let after = seen_store (P.added patterns.new) (P.refused patterns.new) (P.refusals patterns.new) in
        MakesService (maps_of graph.now) service.now P.test before after result }
    ensures added { OnlyAdds (P.added patterns.old) (P.added patterns.new) }
{
    match graph.number(service) {
        Some(number) => compiled(alloc, graph, graph.id(number), patterns),
        None => Err(refused(line(alloc, "NoService", service))),
    }
}

// The service with the defaults that count.
fn with_defaults<P: Patterns>(
    alloc: Global,
    mut service: Service,
    patterns: &mut P,
) -> Result<Service, NoMemory>
    requires { IsUnfilled (service_data service) (P.added patterns.old) }
    ensures filled { IfOk result (λ made. IsFilledOf (service_data service) P.test (service_data made)) }
    ensures served { IfOk result (λ made. CanBeServed (service_data made) P.test (P.added patterns.new)) }
    ensures added { P.added patterns.new ≡ P.added patterns.old }
    ensures refused { P.refused patterns.new ≡ P.refused patterns.old }
    ensures refusals { P.refusals patterns.new ≡ P.refusals patterns.old }
{
    sm_service::laws::stays_servable();
    match fill_defaults(alloc, &mut service.table, patterns) {
        Ok(()) => Ok(service),
        Err(NoMemory) => Err(NoMemory),
    }
}

/// The service with this id in the model of these model files, with the defaults that count, by which messages can be read and written. The
/// graph of the model is dropped.
///
/// # Errors
///
/// In this order: those of `load_models`; an id of no service; a pattern that the store refuses. At any step memory may run out.
pub fn load_service<F: Files, P: Patterns>(
    alloc: Global,
    files: &mut F,
    models: &[Text],
    service: &str,
    patterns: &mut P,
) -> Result<Service, CommandStop>
    requires { (name : List ℕ) → Contains models.now name → F.lets_read files.old name }
    ensures loads { LoadsService
        (files_seen (F.held files.old) (F.read_faults files.old) (F.write_faults files.old))
        (files_seen (F.held files.new) (F.read_faults files.new) (F.write_faults files.new))
        P.test (seen_store (P.added patterns.old) (P.refused patterns.old) (P.refusals patterns.old))
        (seen_store (P.added patterns.new) (P.refused patterns.new) (P.refusals patterns.new)) models.now service.now result }
    ensures served { IfOk result (λ made. CanBeServed (service_data made) P.test (P.added patterns.new)) }
    ensures held { F.held files.new ≡ F.held files.old }
    ensures read_faults { F.read_faults files.old ≤ F.read_faults files.new }
    ensures write_faults { F.write_faults files.new ≡ F.write_faults files.old }
    ensures same_reads { LetsSame (F.lets_read files.old) (F.lets_read files.new) }
    ensures same_writes { LetsSame (F.lets_write files.old) (F.lets_write files.new) }
    ensures added { OnlyAdds (P.added patterns.old) (P.added patterns.new) }
{
    let Model { graph, events } = match load_models(alloc, Shown::Errors, files, models) {
        Ok(model) => model,
        Err(stop) => return Err(stop),
    };
    drop(events);
    sm_asked_shape::sm_load::laws::sound_models();
    let made = service_named(alloc, &graph, service, patterns);
    drop(graph);
    match made {
        Ok(one) => match with_defaults(alloc, one, patterns) {
            Ok(service) => Ok(service),
            Err(NoMemory) => Err(CommandStop::NoMemory),
        },
        Err(stop) => Err(stop),
    }
}
