// Http.Code: status codes of operations and of errors.
ghost use Rattle.std.specs.Prelude.{◌≡◌, ◌↔◌, OnOk, length, true};
ghost use Rattle.std.specs.Fmt.{signed_decimal};
ghost use Rattle.std.specs.Option.{option_copied};
ghost use Rattle.sm_model.specs.GraphView.{IsShapeNumber, entries_of, maps_of};
ghost use Rattle.sm_model.specs.Reaching.{AreMarks, id_of_number};
ghost use Rattle.sm_select.specs.Ways.{AreWays};
ghost use Rattle.sm_rules.specs.Http.{HasOutputBody, HasWrongStatusCode, forbids_body, is_from_to, is_status_of};
ghost use Rattle.sm_rules.specs.RuleEvents.{IsEventAt, IsEventOf, Puts, rule_event};
ghost use Rattle.sm_rules.specs.declared.rule.Rule.TheVariants.{HttpCode};
ghost use Rattle.sm_http_rules.specs.steps.Codes.{TellsCode, TellsStatus, is_wrong_code, is_wrong_status};
ghost use Rattle.sm_passes.specs.Putting.{IsWhere};

use crate::in_body::with_output_body;
use itoa::Buffer;
use sm_http_traits::errors::{status_of, whose_error};
use sm_http_traits::http::code_of;
use sm_model::Graph;
use sm_passes::each::{AtEach, put_each};
use sm_passes::putting::{Events, Put, put_if};
use sm_rules::Rule;
use sm_select::Ways;
use std::alloc::Global;

#[derive(Drop)]
struct Codes<'a> {
    // The operations whose output has a member in the body.
    bodied: &'a [bool],
}

impl AtEach for Codes<'_> {
    ghost tells = { λ rule g id. IsEventAt HttpCode (HasWrongStatusCode g) id };

    ghost knows = { λ rule g. AreMarks (length (entries_of g)) (λ k. HasOutputBody (maps_of g) (id_of_number g k)) rule.bodied.now };

    fn put_at(&self, alloc: Global, graph: &Graph, number: u32, events: &mut Events) -> Put {
        put_code(alloc, graph, number, self.bodied[number as usize], events)?;
        put_status(alloc, graph, number, events)?;
        Ok(())
    }
}

/// Puts the events of the rule, by the ways of the graph.
pub fn put_codes(alloc: Global, graph: &Graph, ways: &Ways, events: &mut Events) -> Put
    requires { AreWays graph.now ways.now }
    ensures { OnOk result
        (Puts (IsEventOf HttpCode (HasWrongStatusCode (maps_of graph.now))) events.old.items events.new.items) }
{
    let bodied = with_output_body(alloc, graph, ways)?;
    put_each(alloc, graph, &Codes { bodied: &bodied }, events)?;
    Ok(())
}

// Puts an event where an operation's code is wrong; `bodied` says whether its output has a member in the body.
fn put_code(alloc: Global, graph: &Graph, number: u32, bodied: bool, events: &mut Events) -> Put
    requires number { IsShapeNumber graph.now number }
    requires bodied { (bodied ≡ true) ↔ HasOutputBody (maps_of graph.now) (id_of_number graph.now number) }
    ensures { OnOk result
        (Puts (TellsCode (maps_of graph.now) (id_of_number graph.now number)) events.old.items events.new.items) }
{
    match code_of(graph, number) {
        Some(code) => {
            let wrong = is_wrong_code(bodied, code);
            put_number_if(alloc, graph, number, wrong, code, events)?;
            Ok(())
        }
        None => Ok(()),
    }
}

fn is_wrong_code(bodied: bool, code: i64) -> bool
    ensures { result ≡ is_wrong_code bodied code }
{
    !is_from_to(200, 299, code) || (forbids_body(code) && bodied)
}

// Puts an event where the status of an error is wrong.
fn put_status(alloc: Global, graph: &Graph, number: u32, events: &mut Events) -> Put
    requires { IsShapeNumber graph.now number }
    ensures { OnOk result
        (Puts (TellsStatus (maps_of graph.now) (id_of_number graph.now number)) events.old.items events.new.items) }
{
    match status_of(graph, number) {
        Some(status) => {
            let wrong = is_wrong_status(graph, number, status);
            put_number_if(alloc, graph, number, wrong, status, events)?;
            Ok(())
        }
        None => Ok(()),
    }
}

fn is_wrong_status(graph: &Graph, number: u32, status: i64) -> bool
    requires { IsShapeNumber graph.now number }
    ensures { result ≡ is_wrong_status (maps_of graph.now) (id_of_number graph.now number) status }
{
    !is_status_of(whose_error(graph, number), status)
}

// Puts an event with a number where it is wrong.
fn put_number_if(
    alloc: Global,
    graph: &Graph,
    number: u32,
    wrong: bool,
    value: i64,
    events: &mut Events,
) -> Put
    requires { IsShapeNumber graph.now number }
    ensures { OnOk result
        (Puts (IsWhere wrong (rule_event HttpCode (id_of_number graph.now number) (signed_decimal value)))
        events.old.items events.new.items) }
{
    let mut digits = Buffer::new();
    put_if(
        alloc,
        graph,
        Rule::HttpCode,
        number,
        wrong,
        digits.format(value),
        events,
    )?;
    Ok(())
}

fn is_from_to(low: i64, high: i64, code: i64) -> bool
    ensures { result ≡ is_from_to low high code }
{
    low <= code && code <= high
}

fn forbids_body(code: i64) -> bool
    ensures { result ≡ forbids_body code }
{
    code == 204 || code == 205
}

// Whether it is a status of an error of the client, or of the server.
fn is_status_of(who: Option<&str>, status: i64) -> bool
    ensures { result ≡ is_status_of (option_copied who.entry) status }
{
    match who {
        Some(who) => {
            (who != "client" || is_from_to(400, 499, status))
                && (who != "server" || is_from_to(500, 599, status))
        }
        None => true,
    }
}
