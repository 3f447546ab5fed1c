// The command `cross`: a session of a gateway between the input with the output, and two files.
ghost use Rattle.std.specs.Prelude.{◌≡◌, ◌≤◌, List, ℕ, Contains, IfOk};
ghost use Rattle.sm_io.specs.Files.{KeepsOthers, LetsSame};
ghost use Rattle.sm_io.specs.Reading.{LosesPrefix};
ghost use Rattle.sm_io.specs.Seen.{files_seen, stream};
ghost use Rattle.sm_shapes.specs.InOrder.{AreStored};
ghost use Rattle.sm_compile.specs.Answers.{seen_store};
ghost use Rattle.sm_asked_gateway.specs.service.Servable.{Servable};
ghost use Rattle.sm_asked_gateway.specs.service.ServiceView.{service_data};
ghost use Rattle.sm_asked_ends.specs.asked.CommandAsked.{OnlyAdds};
ghost use Rattle.sm_asked_ends.specs.asked.Outside.{inputs_seen, outside};
ghost use Rattle.sm_asked_ends.specs.asked.steps.FileSteps.{OpensFile};
ghost use Rattle.sm_asked_ends.specs.AskedEnds.{AskedEnds};
ghost use Rattle.sm_asked_gateway.specs.gateway.GatewayData.{IsHost, ServesBoth};
ghost use Rattle.sm_asked_gateway.specs.gateway.GatewayView.{KeepsBoth, gateway_data};
ghost use Rattle.sm_cross_command.specs.Cross.{cross_asked};
ghost use Rattle.sm_cross_command.specs.CrossView.{cross_said};
ghost use Rattle.sm_cross_command.specs.steps.CrossSteps.{OpensCross, OpensService, RunsAndWrites};

use crate::status::status_after;
use crate::words::CrossWords;
use sm_asked_ends::print_stop;
use sm_asked_ends::sm_asked::{CommandStop, Status, limit_line, past};
use sm_asked_gateway::sm_asked_service::load_service;
use sm_asked_gateway::sm_gateway::{Gateway, serve_session};
use sm_asked_gateway::sm_service::Service;
use sm_io::{CalmSink, CalmSource, FileRefusal, Files, Sink, Source};
use sm_shapes::Patterns;
use sm_tree::NoMemory;
use std::alloc::Global;

/// The greatest length of the back's file, in bytes.
const FILE_LIMIT: u64 = 4_194_304;

// What a session needs: a gateway, and the bytes that the back answers.
#[derive(Drop)]
struct Opened {
    gateway: Gateway,
    back: Vec<u8>,
}

// The bytes that the back answers, or the line of a file that is too long.
fn read_back<F: Files>(alloc: Global, files: &mut F, name: &str) -> Result<Vec<u8>, CommandStop>
    requires { F.lets_read files.old name.now }
    ensures opens { OpensFile
        (files_seen (F.held files.old) (F.read_faults files.old) (F.write_faults files.old))
        (files_seen (F.held files.new) (F.read_faults files.new) (F.write_faults files.new))
        name.now result }
    ensures held { F.held files.new ≡ F.held files.old }
    ensures read_faults { F.read_faults files.old ≤ F.read_faults files.new }
    ensures write_faults { F.write_faults files.new ≡ F.write_faults files.old }
    ensures same_reads { LetsSame (F.lets_read files.old) (F.lets_read files.new) }
    ensures same_writes { LetsSame (F.lets_write files.old) (F.lets_write files.new) }
{
    match files.read(name, FILE_LIMIT) {
        Ok(back) => Ok(back),
        Err(FileRefusal::Failed) => Err(CommandStop::ReadFault),
        Err(FileRefusal::TooLong) => Err(past(limit_line(alloc, "file", FILE_LIMIT))),
        Err(FileRefusal::NoMemory) => Err(CommandStop::NoMemory),
    }
}

// A gateway of the service, and the bytes of its back; or why there is none.
fn open_service<F: Files>(
    alloc: Global,
    words: CrossWords<'_>,
    service: Service,
    files: &mut F,
) -> Result<Opened, CommandStop>
    requires servable { Servable (service_data service) }
    requires host { IsHost words.host.now }
    requires reads { F.lets_read files.old words.back_file.now }
    ensures opens { OpensService
        (files_seen (F.held files.old) (F.read_faults files.old) (F.write_faults files.old))
        (files_seen (F.held files.new) (F.read_faults files.new) (F.write_faults files.new))
        (cross_said words.entry) (service_data service) result }
    ensures kept { IfOk result (λ o. KeepsBoth o.gateway) }
    ensures held { F.held files.new ≡ F.held files.old }
    ensures read_faults { F.read_faults files.old ≤ F.read_faults files.new }
    ensures write_faults { F.write_faults files.new ≡ F.write_faults files.old }
    ensures same_reads { LetsSame (F.lets_read files.old) (F.lets_read files.new) }
    ensures same_writes { LetsSame (F.lets_write files.old) (F.lets_write files.new) }
{
    match read_back(alloc, files, words.back_file) {
        Ok(back) => match Gateway::new(alloc, service, words.front, words.back, words.host) {
            Ok(gateway) => Ok(Opened { gateway, back }),
            Err(NoMemory) => Err(CommandStop::NoMemory),
        },
        Err(stop) => Err(stop),
    }
}

// What a session needs, or what stands before it.
fn open<F: Files, P: Patterns>(
    alloc: Global,
    words: CrossWords<'_>,
    files: &mut F,
    patterns: &mut P,
) -> Result<Opened, CommandStop>
    requires host { IsHost words.host.now }
    requires models { (name : List ℕ) → Contains words.models.now name → F.lets_read files.old name }
    requires reads { F.lets_read files.old words.back_file.now }
    ensures opens { OpensCross
        (files_seen (F.held files.old) (F.read_faults files.old) (F.write_faults files.old))
        (files_seen (F.held files.new) (F.read_faults files.new) (F.write_faults files.new))
        P.test (seen_store (P.added patterns.old) (P.refused patterns.old) (P.refusals patterns.old))
        (seen_store (P.added patterns.new) (P.refused patterns.new) (P.refusals patterns.new)) (cross_said words.entry) result }
    ensures serves { IfOk result (λ o. ServesBoth (gateway_data o.gateway) P.test) }
    ensures kept { IfOk result (λ o. KeepsBoth o.gateway) }
    ensures stored { IfOk result (λ o. AreStored (gateway_data o.gateway).service.table.patterns (P.added patterns.new)) }
    ensures held { F.held files.new ≡ F.held files.old }
    ensures read_faults { F.read_faults files.old ≤ F.read_faults files.new }
    ensures write_faults { F.write_faults files.new ≡ F.write_faults files.old }
    ensures same_reads { LetsSame (F.lets_read files.old) (F.lets_read files.new) }
    ensures same_writes { LetsSame (F.lets_write files.old) (F.lets_write files.new) }
    ensures added { OnlyAdds (P.added patterns.old) (P.added patterns.new) }
{
    sm_asked_gateway::sm_rest::laws::target_texts();
    match load_service(alloc, files, words.models, words.service, patterns) {
        Ok(service) => open_service(alloc, words, service, files),
        Err(stop) => Err(stop),
    }
}

// Runs the session, and writes what was put to the back, whatever its end.
fn run_opened<F: Files, S: Source, K: Sink, P: Patterns>(
    alloc: Global,
    opened: Opened,
    out_file: &str,
    files: &mut F,
    input: &mut S,
    out: &mut K,
    patterns: &mut P,
) -> Status
    requires serves { ServesBoth (gateway_data opened.gateway) P.test }
    requires kept { KeepsBoth opened.gateway }
    requires stored { AreStored (gateway_data opened.gateway).service.table.patterns (P.added patterns.old) }
    requires writes { F.lets_write files.old out_file.now }
    ensures runs { RunsAndWrites (gateway_data opened.gateway) P.test opened.back.items out_file.now
        (files_seen (F.held files.old) (F.read_faults files.old) (F.write_faults files.old))
        (files_seen (F.held files.new) (F.read_faults files.new) (F.write_faults files.new))
        (stream (S.left input.old) (S.faults input.old)) (stream (S.left input.new) (S.faults input.new))
        (stream (K.written out.old) (K.faults out.old)) (stream (K.written out.new) (K.faults out.new)) result }
    ensures others { KeepsOthers (F.held files.old) (F.held files.new) out_file.now }
    ensures read_faults { F.read_faults files.new ≡ F.read_faults files.old }
    ensures write_faults { F.write_faults files.old ≤ F.write_faults files.new }
    ensures same_reads { LetsSame (F.lets_read files.old) (F.lets_read files.new) }
    ensures same_writes { LetsSame (F.lets_write files.old) (F.lets_write files.new) }
    ensures prefix { LosesPrefix (S.left input.old) (S.left input.new) }
    ensures input_faults { S.faults input.old ≤ S.faults input.new }
    ensures output_faults { K.faults out.old ≤ K.faults out.new }
    ensures added { P.added patterns.new ≡ P.added patterns.old }
    ensures refused { P.refused patterns.new ≡ P.refused patterns.old }
    ensures refusals { P.refusals patterns.new ≡ P.refusals patterns.old }
{
    let Opened { gateway, back } = opened;
    let mut back_in = CalmSource::new(back, Vec::new(alloc));
    let mut back_out = CalmSink::new(alloc);
    let end = serve_session(
        alloc,
        &gateway,
        patterns,
        input,
        out,
        &mut back_in,
        &mut back_out,
    );
    let written = files.write(out_file, back_out.bytes());
    status_after(end, written)
}

/// Runs the session whose front is the input and the output, over the gateway of a service of these model files, with the answers of the back
/// in a file; and writes the requests to the back to another. Answers are put as they come, and no line is printed once the session began.
///
/// # Errors
///
/// In this order, each told by its line and status: those of `load_service`; a file of the back that is too long. Then the status is that
/// of the session's end, but where its requests can't be written.
pub fn cross<F: Files, S: Source, K: Sink, P: Patterns>(
    alloc: Global,
    words: CrossWords<'_>,
    files: &mut F,
    input: &mut S,
    out: &mut K,
    patterns: &mut P,
) -> Status
    requires host { IsHost words.host.now }
    requires models { (name : List ℕ) → Contains words.models.now name → F.lets_read files.old name }
    requires reads { F.lets_read files.old words.back_file.now }
    requires writes { F.lets_write files.old words.out_file.now }
    ensures ends { let before = inputs_seen (files_seen (F.held files.old) (F.read_faults files.old) (F.write_faults files.old))
        (stream (S.left input.old) (S.faults input.old))
        P.test (seen_store (P.added patterns.old) (P.refused patterns.old) (P.refusals patterns.old)) in
        let after = inputs_seen (files_seen (F.held files.new) (F.read_faults files.new) (F.write_faults files.new))
        (stream (S.left input.new) (S.faults input.new))
        P.test (seen_store (P.added patterns.new) (P.refused patterns.new) (P.refusals patterns.new)) in
        AskedEnds (outside before (stream (K.written out.old) (K.faults out.old)))
        (outside after (stream (K.written out.new) (K.faults out.new))) (cross_asked (cross_said words.entry)) result }
    ensures others { KeepsOthers (F.held files.old) (F.held files.new) words.entry.out_file.now }
    ensures read_faults { F.read_faults files.old ≤ F.read_faults files.new }
    ensures write_faults { F.write_faults files.old ≤ F.write_faults files.new }
    ensures same_reads { LetsSame (F.lets_read files.old) (F.lets_read files.new) }
    ensures same_writes { LetsSame (F.lets_write files.old) (F.lets_write files.new) }
    ensures prefix { LosesPrefix (S.left input.old) (S.left input.new) }
    ensures input_faults { S.faults input.old ≤ S.faults input.new }
    ensures output_faults { K.faults out.old ≤ K.faults out.new }
    ensures added { OnlyAdds (P.added patterns.old) (P.added patterns.new) }
{
    sm_asked_gateway::sm_service::laws::one_service();
    sm_asked_ends::sm_load::laws::sound_models();
    match open(alloc, words, files, patterns) {
        Ok(opened) => run_opened(alloc, opened, words.out_file, files, input, out, patterns),
        Err(stop) => print_stop(out, stop),
    }
}
