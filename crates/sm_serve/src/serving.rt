// The whole of `serve`: a gateway is made, doors listen, and links are served.
ghost use Rattle.std.specs.Prelude.{◌≡◌, ◌≤◌};
ghost use Rattle.sm_io.specs.Files.{LetsSame};
ghost use Rattle.sm_io.specs.Seen.{files_seen};
ghost use Rattle.sm_shapes.specs.InOrder.{AreStored};
ghost use Rattle.sm_compile.specs.Answers.{seen_store};
ghost use Rattle.sm_asked_gateway.specs.asked.CommandAsked.{OnlyAdds};
ghost use Rattle.sm_doors.specs.DoorsSeen.{IsPhase};
ghost use Rattle.sm_doors.specs.declared.doors.Phase.TheVariants.{Shut};
ghost use Rattle.sm_asked_gateway.specs.gateway.GatewayData.{ServesBoth};
ghost use Rattle.sm_asked_gateway.specs.gateway.GatewayView.{KeepsBoth, gateway_data};
ghost use Rattle.sm_serve.specs.ServeView.{serve_said};
ghost use Rattle.sm_serve.specs.ServeWords.{LetsLinks, LetsServe};
ghost use Rattle.sm_serve.specs.Serves.{ListensAndServes, Serves};

use crate::links::serve_links;
use crate::starting::start;
use crate::words::{ServeWords, serve_words};
use sm_asked_gateway::sm_asked::Status;
use sm_asked_gateway::sm_gateway::Gateway;
use sm_doors::Doors;
use sm_io::{Failed, Files};
use sm_shapes::Patterns;
use sm_tree::Text;
use std::alloc::Global;

// Listens, and serves the links that come.
fn listen_and_serve<D: Doors, P: Patterns>(
    alloc: Global,
    gateway: &Gateway,
    words: ServeWords<'_>,
    doors: &mut D,
    patterns: &mut P,
) -> u8
    requires serves { ServesBoth (gateway_data gateway.now) P.test }
    requires kept { KeepsBoth gateway.now }
    requires stored { AreStored (gateway_data gateway.now).service.table.patterns (P.added patterns.old) }
    requires lets { D.lets doors.old words.listen.now words.connect.now }
    requires shut { IsPhase (D.seen doors.old) Shut }
    ensures serves { ListensAndServes (gateway_data gateway.now) P.test (serve_said words.entry)
        (D.seen doors.old) (D.seen doors.new) (D.faults doors.old) (D.faults doors.new) result }
    ensures later { D.faults doors.old ≤ D.faults doors.new }
    ensures added { P.added patterns.new ≡ P.added patterns.old }
    ensures refused { P.refused patterns.new ≡ P.refused patterns.old }
    ensures refusals { P.refusals patterns.new ≡ P.refusals patterns.old }
{
    match doors.listen(words.listen, words.connect) {
        Ok(()) => serve_links(alloc, gateway, patterns, doors, words.count),
        Err(Failed) => Status::ReadFault.code(),
    }
}

/// Does `serve MODEL+ SERVICE FRONT BACK HOST LISTEN CONNECT COUNT`: makes the gateway that the words ask for, listens, and serves so many
/// links, one after the other. Nothing is printed. To the store patterns are only added.
///
/// The status is that of `start`, where it gives no gateway; 3 where the doors can't listen; else that of `serve_links`.
pub fn serve<F: Files, D: Doors, P: Patterns>(
    alloc: Global,
    words: &[Text],
    files: &mut F,
    doors: &mut D,
    patterns: &mut P,
) -> u8
    requires reads { LetsServe (F.lets_read files.old) words.now }
    requires lets { LetsLinks (D.lets doors.old) words.now }
    requires shut { IsPhase (D.seen doors.old) Shut }
    ensures serves { Serves words.now
        (files_seen (F.held files.old) (F.read_faults files.old) (F.write_faults files.old))
        (files_seen (F.held files.new) (F.read_faults files.new) (F.write_faults files.new))
        P.test (seen_store (P.added patterns.old) (P.refused patterns.old) (P.refusals patterns.old))
        (seen_store (P.added patterns.new) (P.refused patterns.new) (P.refusals patterns.new))
        (D.seen doors.old) (D.seen doors.new) (D.faults doors.old) (D.faults doors.new) result }
    ensures held { F.held files.new ≡ F.held files.old }
    ensures read_faults { F.read_faults files.old ≤ F.read_faults files.new }
    ensures write_faults { F.write_faults files.new ≡ F.write_faults files.old }
    ensures same_reads { LetsSame (F.lets_read files.old) (F.lets_read files.new) }
    ensures same_writes { LetsSame (F.lets_write files.old) (F.lets_write files.new) }
    ensures later { D.faults doors.old ≤ D.faults doors.new }
    ensures added { OnlyAdds (P.added patterns.old) (P.added patterns.new) }
{
    match start(alloc, words, files, patterns) {
        Ok(gateway) => match serve_words(words) {
            Some(form) => listen_and_serve(alloc, &gateway, form, doors, patterns),
            None => Status::Usage.code(),
        },
        Err(status) => status,
    }
}
