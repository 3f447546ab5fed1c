// The gateway of a service of model files, between two protocols.
ghost use Rattle.std.specs.Prelude.{◌≡◌, ◌≤◌, List, ℕ, Contains, IfOk};
ghost use Rattle.sm_io.specs.Files.{LetsSame};
ghost use Rattle.sm_io.specs.Seen.{files_seen};
ghost use Rattle.sm_shapes.specs.InOrder.{AreStored};
ghost use Rattle.sm_compile.specs.Answers.{seen_store};
ghost use Rattle.sm_asked_service.specs.asked.CommandAsked.{OnlyAdds};
ghost use Rattle.sm_gateway.specs.GatewayData.{IsHost, ServesBoth};
ghost use Rattle.sm_gateway.specs.GatewayView.{KeepsBoth, gateway_data};
ghost use Rattle.sm_asked_gateway.specs.GatewayView.{gateway_asked};
ghost use Rattle.sm_asked_gateway.specs.MakesGateway.{MakesGateway};

use crate::words::GatewayWords;
use sm_asked_service::load_service;
use sm_asked_service::sm_asked::CommandStop;
use sm_gateway::Gateway;
use sm_io::Files;
use sm_shapes::Patterns;
use sm_tree::NoMemory;
use std::alloc::Global;

/// The gateway that the words tell of: of the service with this id in the model of these model files, between these protocols.
///
/// # Errors
///
/// Those of `load_service`. At any step memory may run out.
pub fn make_gateway<F: Files, P: Patterns>(
    alloc: Global,
    words: GatewayWords<'_>,
    files: &mut F,
    patterns: &mut P,
) -> Result<Gateway, CommandStop>
    requires host { IsHost words.host.now }
    requires models { (name : List ℕ) → Contains words.models.now name → F.lets_read files.old name }
    ensures makes { MakesGateway
        (files_seen (F.held files.old) (F.read_faults files.old) (F.write_faults files.old))
        (files_seen (F.held files.new) (F.read_faults files.new) (F.write_faults files.new))
        P.test (seen_store (P.added patterns.old) (P.refused patterns.old) (P.refusals patterns.old))
        (seen_store (P.added patterns.new) (P.refused patterns.new) (P.refusals patterns.new)) (gateway_asked words.entry) result }
    ensures serves { IfOk result (λ gateway. ServesBoth (gateway_data gateway) P.test) }
    ensures kept { IfOk result KeepsBoth }
    ensures stored { IfOk result (λ gateway. AreStored (gateway_data gateway).service.table.patterns (P.added patterns.new)) }
    ensures held { F.held files.new ≡ F.held files.old }
    ensures read_faults { F.read_faults files.old ≤ F.read_faults files.new }
    ensures write_faults { F.write_faults files.new ≡ F.write_faults files.old }
    ensures same_reads { LetsSame (F.lets_read files.old) (F.lets_read files.new) }
    ensures same_writes { LetsSame (F.lets_write files.old) (F.lets_write files.new) }
    ensures added { OnlyAdds (P.added patterns.old) (P.added patterns.new) }
{
    sm_gateway::sm_rest::laws::target_texts();
    match load_service(alloc, files, words.models, words.service, patterns) {
        Ok(service) => match Gateway::new(alloc, service, words.front, words.back, words.host) {
            Ok(gateway) => Ok(gateway),
            Err(NoMemory) => Err(CommandStop::NoMemory),
        },
        Err(stop) => Err(stop),
    }
}
