// What the entries of the trait `examples` say.
ghost use Rattle.std.specs.Prelude.{◌≡◌, ◌<◌, IfOk, Some, codes, length};
ghost use Rattle.std.specs.Option.{option_map, unwrap_or};
ghost use Rattle.sm_tree.specs.Node.{no_members, no_nodes, nodes_of, object};
ghost use Rattle.sm_tree.specs.Parts.{entries_in as the_entries_in};
ghost use Rattle.sm_tree.specs.View.{node_of, nodes_view};
ghost use Rattle.sm_model.specs.GraphView.{maps_of};
ghost use Rattle.sm_shapes.specs.InOrder.{Built};
ghost use Rattle.sm_shapes.specs.TableData.{shape_count};
ghost use Rattle.sm_shapes.specs.ValueView.{val_of};
ghost use Rattle.sm_compile.specs.TraitNodes.{field_of as the_field, text_of};
ghost use Rattle.sm_messages.specs.service.Servable.{Servable};
ghost use Rattle.sm_messages.specs.service.ServiceView.{service_data};
ghost use Rattle.sm_messages.specs.Goals.{HasGoal, goal_of, the_error, the_input};
ghost use Rattle.sm_examples.specs.Entries.{content_said, entries_said, entries_there, error_said, error_told, example_said, example_with};
ghost use Rattle.sm_examples.specs.Entries.{field_value as the_field_value, node_value as the_node_value, output_said, reply_said};
ghost use Rattle.sm_examples.specs.ExampleView.{example_data, reply_data};

use crate::error_ids::error_with_id;
use crate::example::Example;
use sm_codec::{NodeLeaves, Refusal, decode};
use sm_compile::{field_of, is_object, text_in_trait, trait_node};
use sm_messages::sm_service::Service;
use sm_messages::{Reply, error_at, input_shape, operation_at, output_shape};
use sm_model::Graph;
use sm_shapes::Patterns;
use sm_shapes::values::Value;
use sm_tree::{NoMemory, Pairs, Tree, entries_of};
use std::alloc::Global;

/// The id of the trait.
const EXAMPLES: &str = "smithy.api#examples";

// The entries of a list: none of any other tree.
fn entries_in(tree: &Tree) -> &[Tree]
    ensures { nodes_of (nodes_view result.now) ≡ unwrap_or (the_entries_in (node_of tree.now)) no_nodes }
{
    match entries_of(tree) {
        Some(entries) => entries,
        None => &[],
    }
}

// The entries in the value of the trait: none where it is no list, or isn't there.
fn entries_there(value: Option<&Tree>) -> &[Tree]
    ensures { nodes_of (nodes_view result.now) ≡ entries_there (option_map (λ t. node_of t.now) value.entry) }
{
    match value {
        Some(value) => entries_in(value),
        None => &[],
    }
}

/// The entries of the trait `examples` of the operation with this id, in order: none where it doesn't carry the trait. No memory.
pub fn operation_entries<'a>(graph: &'a Graph, operation: &str) -> &'a [Tree]
    ensures { nodes_of (nodes_view result.now) ≡ entries_said (maps_of graph.now) operation.now }
{
    match graph.number(operation) {
        Some(number) => entries_there(trait_node(graph, number, EXAMPLES)),
        None => &[],
    }
}

// The value that a node spells of the structure with this number, if it has no fault. The store isn't changed.
fn node_value<P: Patterns>(
    alloc: Global,
    service: &Service,
    shape: u32,
    node: &Tree,
    patterns: &mut P,
) -> Result<Option<Value>, NoMemory>
    requires servable { Servable (service_data service.now) }
    requires built { Built (service_data service.now).table (P.added patterns.old) P.test }
    requires shape { shape < shape_count (service_data service.now).table }
    ensures value { IfOk result (λ value. option_map val_of value
        ≡ the_node_value (service_data service.now) P.test shape (node_of node.now)) }
    ensures added { P.added patterns.new ≡ P.added patterns.old }
    ensures refused { P.refused patterns.new ≡ P.refused patterns.old }
    ensures refusals { P.refusals patterns.new ≡ P.refusals patterns.old }
{
    let leaves = NodeLeaves { raw_blobs: false };
    match decode(alloc, &service.table, shape, node, &leaves, patterns) {
        Ok(value) => Ok(Some(value)),
        Err(refusal) => match refusal {
            Refusal::Fault(_) => Ok(None),
            Refusal::NoMemory => Err(NoMemory),
        },
    }
}

// The value that a field spells so. A field that is missing is the empty object.
fn field_value<P: Patterns>(
    alloc: Global,
    service: &Service,
    shape: u32,
    field: Option<&Tree>,
    patterns: &mut P,
) -> Result<Option<Value>, NoMemory>
    requires servable { Servable (service_data service.now) }
    requires built { Built (service_data service.now).table (P.added patterns.old) P.test }
    requires shape { shape < shape_count (service_data service.now).table }
    ensures value { IfOk result (λ value. option_map val_of value ≡ the_node_value (service_data service.now) P.test shape
        (unwrap_or (option_map (λ t. node_of t.now) field.entry) (object no_members))) }
    ensures added { P.added patterns.new ≡ P.added patterns.old }
    ensures refused { P.refused patterns.new ≡ P.refused patterns.old }
    ensures refusals { P.refusals patterns.new ≡ P.refusals patterns.old }
{
    match field {
        Some(field) => node_value(alloc, service, shape, field, patterns),
        None => {
            let empty = Tree::Object(Pairs::new(Vec::new(alloc)));
            node_value(alloc, service, shape, &empty, patterns)
        }
    }
}

// The output that an entry says.
fn output_reply<P: Patterns>(
    alloc: Global,
    service: &Service,
    operation: u32,
    entry: &Tree,
    patterns: &mut P,
) -> Result<Option<Reply>, NoMemory>
    requires servable { Servable (service_data service.now) }
    requires number { operation < length (service_data service.now).operations }
    requires built { Built (service_data service.now).table (P.added patterns.old) P.test }
    ensures reply { IfOk result (λ reply. option_map reply_data reply
        ≡ output_said (service_data service.now) P.test operation (node_of entry.now)) }
    ensures added { P.added patterns.new ≡ P.added patterns.old }
    ensures refused { P.refused patterns.new ≡ P.refused patterns.old }
    ensures refusals { P.refusals patterns.new ≡ P.refusals patterns.old }
{
    let shape = output_shape(service, operation);
    let output = field_value(alloc, service, shape, field_of(entry, "output"), patterns)?;
    match output {
        Some(value) => Ok(Some(Reply::Output(value))),
        None => Ok(None),
    }
}

// The error at this place, with the content that an entry's `error` says.
fn content_reply<P: Patterns>(
    alloc: Global,
    service: &Service,
    operation: u32,
    place: u32,
    error: &Tree,
    patterns: &mut P,
) -> Result<Option<Reply>, NoMemory>
    requires servable { Servable (service_data service.now) }
    requires goal { HasGoal (service_data service.now) (goal_of operation (the_error place)) }
    requires built { Built (service_data service.now).table (P.added patterns.old) P.test }
    ensures reply { IfOk result (λ reply. option_map reply_data reply
        ≡ content_said (service_data service.now) P.test operation (node_of error.now) (Some place)) }
    ensures added { P.added patterns.new ≡ P.added patterns.old }
    ensures refused { P.refused patterns.new ≡ P.refused patterns.old }
    ensures refusals { P.refusals patterns.new ≡ P.refusals patterns.old }
{
    let shape = error_at(service, operation, place).shape;
    let content = field_value(alloc, service, shape, field_of(error, "content"), patterns)?;
    match content {
        Some(value) => Ok(Some(Reply::Error(place, value))),
        None => Ok(None),
    }
}

// The place of the error whose id an entry's `error` tells.
fn error_place(service: &Service, operation: u32, error: &Tree) -> Option<u32>
    requires servable { Servable (service_data service.now) }
    requires number { operation < length (service_data service.now).operations }
    ensures { result
        ≡ error_told (service_data service.now) operation (text_of (the_field (codes "shapeId") (node_of error.now))) }
{
    match text_in_trait(field_of(error, "shapeId")) {
        Some(id) => error_with_id(&operation_at(service, operation).errors, id),
        None => None,
    }
}

// The error that an entry's `error` says.
fn error_reply<P: Patterns>(
    alloc: Global,
    service: &Service,
    operation: u32,
    error: &Tree,
    patterns: &mut P,
) -> Result<Option<Reply>, NoMemory>
    requires servable { Servable (service_data service.now) }
    requires number { operation < length (service_data service.now).operations }
    requires built { Built (service_data service.now).table (P.added patterns.old) P.test }
    ensures reply { IfOk result (λ reply. option_map reply_data reply
        ≡ error_said (service_data service.now) P.test operation (node_of error.now)) }
    ensures added { P.added patterns.new ≡ P.added patterns.old }
    ensures refused { P.refused patterns.new ≡ P.refused patterns.old }
    ensures refusals { P.refusals patterns.new ≡ P.refusals patterns.old }
{
    match error_place(service, operation, error) {
        Some(place) => content_reply(alloc, service, operation, place, error, patterns),
        None => Ok(None),
    }
}

// The reply that an entry says: where it has `error`, that error, else an output.
fn entry_reply<P: Patterns>(
    alloc: Global,
    service: &Service,
    operation: u32,
    entry: &Tree,
    patterns: &mut P,
) -> Result<Option<Reply>, NoMemory>
    requires servable { Servable (service_data service.now) }
    requires number { operation < length (service_data service.now).operations }
    requires built { Built (service_data service.now).table (P.added patterns.old) P.test }
    ensures reply { IfOk result (λ reply. option_map reply_data reply ≡ reply_said (service_data service.now) P.test operation
        (node_of entry.now) (the_field (codes "error") (node_of entry.now))) }
    ensures added { P.added patterns.new ≡ P.added patterns.old }
    ensures refused { P.refused patterns.new ≡ P.refused patterns.old }
    ensures refusals { P.refusals patterns.new ≡ P.refusals patterns.old }
{
    match field_of(entry, "error") {
        Some(error) => error_reply(alloc, service, operation, error, patterns),
        None => output_reply(alloc, service, operation, entry, patterns),
    }
}

// The example with this input and the reply that an entry says.
fn with_reply<P: Patterns>(
    alloc: Global,
    service: &Service,
    operation: u32,
    input: Value,
    entry: &Tree,
    patterns: &mut P,
) -> Result<Option<Example>, NoMemory>
    requires servable { Servable (service_data service.now) }
    requires number { operation < length (service_data service.now).operations }
    requires built { Built (service_data service.now).table (P.added patterns.old) P.test }
    ensures example { IfOk result (λ example. option_map example_data example ≡ example_with operation (Some (val_of input))
        (reply_said (service_data service.now) P.test operation (node_of entry.now) (the_field (codes "error") (node_of entry.now)))) }
    ensures added { P.added patterns.new ≡ P.added patterns.old }
    ensures refused { P.refused patterns.new ≡ P.refused patterns.old }
    ensures refusals { P.refusals patterns.new ≡ P.refusals patterns.old }
{
    let told = entry_reply(alloc, service, operation, entry, patterns)?;
    match told {
        Some(reply) => Ok(Some(Example {
            operation,
            input,
            reply,
        })),
        None => Ok(None),
    }
}

// The example that an entry says, which is an object.
fn object_example<P: Patterns>(
    alloc: Global,
    service: &Service,
    operation: u32,
    entry: &Tree,
    patterns: &mut P,
) -> Result<Option<Example>, NoMemory>
    requires servable { Servable (service_data service.now) }
    requires number { operation < length (service_data service.now).operations }
    requires built { Built (service_data service.now).table (P.added patterns.old) P.test }
    ensures example { IfOk result (λ example. option_map example_data example ≡ example_with operation
        (the_field_value (service_data service.now) P.test operation the_input (the_field (codes "input") (node_of entry.now)))
        (reply_said (service_data service.now) P.test operation (node_of entry.now) (the_field (codes "error") (node_of entry.now)))) }
    ensures added { P.added patterns.new ≡ P.added patterns.old }
    ensures refused { P.refused patterns.new ≡ P.refused patterns.old }
    ensures refusals { P.refusals patterns.new ≡ P.refusals patterns.old }
{
    let shape = input_shape(service, operation);
    let told = field_value(alloc, service, shape, field_of(entry, "input"), patterns)?;
    match told {
        Some(input) => with_reply(alloc, service, operation, input, entry, patterns),
        None => Ok(None),
    }
}

/// The example that an entry of the trait `examples` says of the operation with this number; `None` where the entry doesn't count. The store
/// must have the patterns of the service's table, and isn't changed.
///
/// # Errors
///
/// `NoMemory`.
pub fn example_of_entry<P: Patterns>(
    alloc: Global,
    service: &Service,
    operation: u32,
    entry: &Tree,
    patterns: &mut P,
) -> Result<Option<Example>, NoMemory>
    requires servable { Servable (service_data service.now) }
    requires number { operation < length (service_data service.now).operations }
    requires built { Built (service_data service.now).table (P.added patterns.old) P.test }
    ensures example { IfOk result (λ example. option_map example_data example
        ≡ example_said (service_data service.now) P.test operation (node_of entry.now)) }
    ensures added { P.added patterns.new ≡ P.added patterns.old }
    ensures refused { P.refused patterns.new ≡ P.refused patterns.old }
    ensures refusals { P.refusals patterns.new ≡ P.refusals patterns.old }
{
    if is_object(entry) {
        object_example(alloc, service, operation, entry, patterns)
    } else {
        Ok(None)
    }
}
