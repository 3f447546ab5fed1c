// The gateway that the words of `serve` ask for, or the status of what stands before it.
ghost use Rattle.std.specs.Prelude.{◌≡◌, ◌≤◌, IfOk};
ghost use Rattle.sm_io.specs.Files.{LetsSame};
ghost use Rattle.sm_io.specs.Seen.{files_seen};
ghost use Rattle.sm_shapes.specs.InOrder.{AreStored};
ghost use Rattle.sm_compile.specs.Answers.{seen_store};
ghost use Rattle.sm_asked_gateway.specs.asked.CommandAsked.{OnlyAdds};
ghost use Rattle.sm_asked_gateway.specs.gateway.GatewayData.{ServesBoth};
ghost use Rattle.sm_asked_gateway.specs.gateway.GatewayView.{KeepsBoth, gateway_data};
ghost use Rattle.sm_serve.specs.ServeWords.{LetsServe};
ghost use Rattle.sm_serve.specs.Starts.{Starts};
ghost use Rattle.sm_serve.specs.steps.StopStatuses.{stop_status as the_stop_status};

use crate::words::serve_words;
use sm_asked_gateway::make_gateway;
use sm_asked_gateway::sm_asked::{CommandStop, Status};
use sm_asked_gateway::sm_gateway::Gateway;
use sm_io::Files;
use sm_shapes::Patterns;
use sm_tree::Text;
use std::alloc::Global;

// The status of what ends a command before its work. Its line isn't printed.
fn stop_status(stop: CommandStop) -> Status
    ensures { result ≡ the_stop_status stop }
{
    match stop {
        CommandStop::Refused(_) => Status::Refused,
        CommandStop::Pattern(_) => Status::Pattern,
        CommandStop::Limit(_) => Status::Limit,
        CommandStop::ReadFault => Status::ReadFault,
        CommandStop::NoMemory => Status::NoMemory,
    }
}

/// The gateway that the words ask for: of the service in the model of their model files, between their protocols and with their host. To the
/// store patterns are only added.
///
/// # Errors
///
/// A status. 2: the words aren't of the form of `serve`. 3: a model file can't be read; its count of failed reads rose. 1, 6, 7: what `cross`
/// says of the same models, service and protocols before it reads its BACKFILE. 5: memory ran out.
pub fn start<F: Files, P: Patterns>(
    alloc: Global,
    words: &[Text],
    files: &mut F,
    patterns: &mut P,
) -> Result<Gateway, u8>
    requires reads { LetsServe (F.lets_read files.old) words.now }
    ensures starts { Starts words.now
        (files_seen (F.held files.old) (F.read_faults files.old) (F.write_faults files.old))
        (files_seen (F.held files.new) (F.read_faults files.new) (F.write_faults files.new))
        P.test (seen_store (P.added patterns.old) (P.refused patterns.old) (P.refusals patterns.old))
        (seen_store (P.added patterns.new) (P.refused patterns.new) (P.refusals patterns.new)) result }
    ensures serves { IfOk result (λ gateway. ServesBoth (gateway_data gateway) P.test) }
    ensures kept { IfOk result KeepsBoth }
    ensures stored { IfOk result (λ gateway. AreStored (gateway_data gateway).service.table.patterns (P.added patterns.new)) }
    ensures held { F.held files.new ≡ F.held files.old }
    ensures read_faults { F.read_faults files.old ≤ F.read_faults files.new }
    ensures write_faults { F.write_faults files.new ≡ F.write_faults files.old }
    ensures same_reads { LetsSame (F.lets_read files.old) (F.lets_read files.new) }
    ensures same_writes { LetsSame (F.lets_write files.old) (F.lets_write files.new) }
    ensures added { OnlyAdds (P.added patterns.old) (P.added patterns.new) }
{
    let Some(form) = serve_words(words) else {
        return Err(Status::Usage.code());
    };
    match make_gateway(alloc, form.gateway, files, patterns) {
        Ok(gateway) => Ok(gateway),
        Err(stop) => Err(stop_status(stop).code()),
    }
}
