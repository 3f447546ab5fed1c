// What a whole body comes to that is one tree, at the address of its head.
ghost use Rattle.std.specs.Prelude.{◌≡◌, ◌<◌, ◌&&◌, ℕ, List, Option, length};
ghost use Rattle.std.specs.Option.{option_map};
ghost use Rattle.sm_tree.specs.Node.{Node, no_members, object};
ghost use Rattle.sm_tree.specs.Syntax.{Reads};
ghost use Rattle.sm_tree.specs.View.{node_of};
ghost use Rattle.sm_shapes.specs.InOrder.{AreStored, DefaultsPass, Shaped};
ghost use Rattle.sm_shapes.specs.TableData.{shape_count};
ghost use Rattle.sm_shapes.specs.TableView.{table_data};
ghost use Rattle.sm_codec.specs.Codec.{codec_of};
ghost use Rattle.sm_bodies.specs.Sides.{side_of};
ghost use Rattle.sm_service.specs.Servable.{Servable};
ghost use Rattle.sm_service.specs.ServiceView.{service_data};
ghost use Rattle.sm_messages.specs.Answers.{AnswersRequest, AnswersResponse};
ghost use Rattle.sm_messages.specs.Goals.{Goal, goal_of, goal_shape, the_input};
ghost use Rattle.sm_messages.specs.HeadAnswers.{to_goal, to_named_error};
ghost use Rattle.sm_messages.specs.Heads.{is_empty};
ghost use Rattle.sm_messages.specs.TreeAnswers.{AnswersGoal, HasAddress, NamesReply, TreeAnswers, TreeComesTo, address_of, body_refusal, syntax_refusal, told_under};
ghost use Rattle.sm_messages.specs.Messages.{place_told};
ghost use Rattle.sm_messages.specs.TreeBodies.{is_unit};

use crate::goals::{error_at, input_shape, operation_at, output_shape};
use crate::heads::is_empty;
use crate::judging::ResponseAddress;
use crate::names::{error_told, text_under, told_by_body};
use crate::refusal::MessageRefusal;
use crate::reply::Reply;
use sm_bodies::{BodyForm, BodyRefusal, body_value};
use sm_codec::{Leaves, Refusal, decode};
use sm_service::Service;
use sm_shapes::Patterns;
use sm_shapes::values::Value;
use sm_tree::{Pairs, SyntaxRefusal, Tree};
use std::alloc::Global;

/// A refusal of bytes as one of a message. No memory.
pub fn syntax_refused(refusal: SyntaxRefusal) -> MessageRefusal
    ensures { result ≡ syntax_refusal refusal }
{
    match refusal {
        SyntaxRefusal::Bad(at) => MessageRefusal::Syntax(SyntaxRefusal::Bad(at)),
        SyntaxRefusal::Ended => MessageRefusal::Syntax(SyntaxRefusal::Ended),
        SyntaxRefusal::TooDeep(at) => MessageRefusal::Syntax(SyntaxRefusal::TooDeep(at)),
        SyntaxRefusal::KeyKind(at) => MessageRefusal::Syntax(SyntaxRefusal::KeyKind(at)),
        SyntaxRefusal::NoMemory => MessageRefusal::NoMemory,
    }
}

/// A refusal of a body as one of its message. No memory.
pub fn body_refused(refusal: BodyRefusal) -> MessageRefusal
    ensures { result ≡ body_refusal refusal }
{
    match refusal {
        BodyRefusal::Syntax(refusal) => MessageRefusal::Syntax(refusal),
        BodyRefusal::Fault(fault) => MessageRefusal::Fault(fault),
        BodyRefusal::NoMemory => MessageRefusal::NoMemory,
    }
}

// The tree of bytes of this form.
fn tree_of(alloc: Global, form: BodyForm, bytes: &[u8]) -> Result<Tree, SyntaxRefusal>
    ensures { Reads (side_of form).syntax bytes.now result }
{
    match form {
        BodyForm::Json => sm_json::read_tree(alloc, bytes),
        BodyForm::Cbor => sm_cbor::read_tree(alloc, bytes),
    }
}

// The value that a tree spells.
fn tree_value<L: Leaves, P: Patterns>(
    alloc: Global,
    service: &Service,
    shape: u32,
    tree: &Tree,
    leaves: &L,
    patterns: &mut P,
) -> Result<Value, MessageRefusal>
    requires number { shape < shape_count (table_data service.now.table) }
    requires shaped { Shaped (table_data service.now.table) }
    requires stored { AreStored (table_data service.now.table).patterns (P.added patterns.old) }
    requires pass { DefaultsPass (table_data service.now.table) P.test }
    ensures value { TreeComesTo (codec_of (table_data service.now.table) (L.convention leaves.now) P.test) shape (node_of tree.now) result }
    ensures added { P.added patterns.new ≡ P.added patterns.old }
    ensures refused { P.refused patterns.new ≡ P.refused patterns.old }
    ensures refusals { P.refusals patterns.new ≡ P.refusals patterns.old }
{
    match decode(alloc, &service.table, shape, tree, leaves, patterns) {
        Ok(value) => Ok(value),
        Err(Refusal::Fault(fault)) => Err(MessageRefusal::Fault(fault)),
        Err(Refusal::NoMemory) => Err(MessageRefusal::NoMemory),
    }
}

// The value of the empty object.
fn empty_value<L: Leaves, P: Patterns>(
    alloc: Global,
    service: &Service,
    shape: u32,
    leaves: &L,
    patterns: &mut P,
) -> Result<Value, MessageRefusal>
    requires number { shape < shape_count (table_data service.now.table) }
    requires shaped { Shaped (table_data service.now.table) }
    requires stored { AreStored (table_data service.now.table).patterns (P.added patterns.old) }
    requires pass { DefaultsPass (table_data service.now.table) P.test }
    ensures value { TreeComesTo (codec_of (table_data service.now.table) (L.convention leaves.now) P.test) shape (object no_members) result }
    ensures added { P.added patterns.new ≡ P.added patterns.old }
    ensures refused { P.refused patterns.new ≡ P.refused patterns.old }
    ensures refusals { P.refusals patterns.new ≡ P.refusals patterns.old }
{
    let tree = Tree::Object(Pairs::new(Vec::new(alloc)));
    tree_value(alloc, service, shape, &tree, leaves, patterns)
}

// Whether bytes stand for the empty object, where none do if so.
fn is_empty_object(unit: bool, bytes: &[u8]) -> bool
    ensures { result ≡ (is_empty bytes.now && unit) }
{
    if unit { is_empty(bytes) } else { false }
}

/// The value of a goal of this shape of which these bytes are the body. Where it is the prelude's `Unit`, no bytes are the empty object. The
/// store must have the patterns of the service's table, and isn't changed.
///
/// # Errors
///
/// `Syntax`, `Fault`, in this order; `NoMemory`.
pub fn whole_value<L: Leaves, P: Patterns>(
    alloc: Global,
    form: BodyForm,
    service: &Service,
    shape: u32,
    unit: bool,
    bytes: &[u8],
    leaves: &L,
    patterns: &mut P,
) -> Result<Value, MessageRefusal>
    requires number { shape < shape_count (table_data service.now.table) }
    requires shaped { Shaped (table_data service.now.table) }
    requires stored { AreStored (table_data service.now.table).patterns (P.added patterns.old) }
    requires pass { DefaultsPass (table_data service.now.table) P.test }
    ensures value { (g : Goal) (told : Node → Option (List ℕ)) → goal_shape (service_data service.now) g ≡ shape
        → is_unit (service_data service.now) shape g.role ≡ unit
        → AnswersGoal (TreeAnswers (side_of form).syntax (codec_of (table_data service.now.table) (L.convention leaves.now) P.test)
        (service_data service.now) told (to_goal g) bytes.now) g result }
    ensures added { P.added patterns.new ≡ P.added patterns.old }
    ensures refused { P.refused patterns.new ≡ P.refused patterns.old }
    ensures refusals { P.refusals patterns.new ≡ P.refusals patterns.old }
{
    if is_empty_object(unit, bytes) {
        return empty_value(alloc, service, shape, leaves, patterns);
    }
    match body_value(
        alloc,
        form,
        &service.table,
        shape,
        leaves,
        patterns,
        bytes,
        usize::MAX,
    ) {
        Ok(value) => Ok(value),
        Err(refusal) => Err(body_refused(refusal)),
    }
}

// The text that a tree tells an error with.
fn text_told(tree: &Tree, by_code: bool) -> Option<&str>
    ensures { option_map (λ text. text.now) result ≡ told_under by_code (node_of tree.now) }
{
    if by_code {
        told_by_body(tree)
    } else {
        text_under(tree, "__type")
    }
}

// The error that a text tells, if there is one.
fn place_told(service: &Service, operation: u32, told: Option<&str>) -> Option<u32>
    requires servable { Servable (service_data service.now) }
    requires number { operation < length (service_data service.now).operations }
    ensures { result ≡ place_told (service_data service.now) operation (option_map (λ text. text.now) told.entry) }
{
    let text = told?;
    match error_told(&operation_at(service, operation).errors, text.as_bytes()) {
        Some(place) => Some(place as u32),
        None => None,
    }
}

// What a tree comes to that is to name an error.
fn tree_reply<L: Leaves, P: Patterns>(
    alloc: Global,
    service: &Service,
    operation: u32,
    by_code: bool,
    tree: &Tree,
    leaves: &L,
    patterns: &mut P,
) -> Result<Reply, MessageRefusal>
    requires servable { Servable (service_data service.now) }
    requires number { operation < length (service_data service.now).operations }
    requires stored { AreStored (table_data service.now.table).patterns (P.added patterns.old) }
    requires pass { DefaultsPass (table_data service.now.table) P.test }
    ensures reply { NamesReply (codec_of (table_data service.now.table) (L.convention leaves.now) P.test) (service_data service.now)
        (told_under by_code) operation (node_of tree.now) result }
    ensures added { P.added patterns.new ≡ P.added patterns.old }
    ensures refused { P.refused patterns.new ≡ P.refused patterns.old }
    ensures refusals { P.refusals patterns.new ≡ P.refusals patterns.old }
{
    let Some(place) = place_told(service, operation, text_told(tree, by_code)) else {
        return Err(MessageRefusal::UnknownError);
    };
    let shape = error_at(service, operation, place).shape;
    match tree_value(alloc, service, shape, tree, leaves, patterns) {
        Ok(value) => Ok(Reply::Error(place, value)),
        Err(refusal) => Err(refusal),
    }
}

// What the response of an error comes to that its body names.
fn named_reply<L: Leaves, P: Patterns>(
    alloc: Global,
    form: BodyForm,
    service: &Service,
    operation: u32,
    by_code: bool,
    bytes: &[u8],
    leaves: &L,
    patterns: &mut P,
) -> Result<Reply, MessageRefusal>
    requires servable { Servable (service_data service.now) }
    requires number { operation < length (service_data service.now).operations }
    requires stored { AreStored (table_data service.now.table).patterns (P.added patterns.old) }
    requires pass { DefaultsPass (table_data service.now.table) P.test }
    ensures reply { AnswersResponse operation (TreeAnswers (side_of form).syntax
        (codec_of (table_data service.now.table) (L.convention leaves.now) P.test) (service_data service.now)
        (told_under by_code) (to_named_error operation) bytes.now) result }
    ensures added { P.added patterns.new ≡ P.added patterns.old }
    ensures refused { P.refused patterns.new ≡ P.refused patterns.old }
    ensures refusals { P.refusals patterns.new ≡ P.refusals patterns.old }
{
    match tree_of(alloc, form, bytes) {
        Ok(tree) => tree_reply(alloc, service, operation, by_code, &tree, leaves, patterns),
        Err(refusal) => Err(syntax_refused(refusal)),
    }
}

/// What a response comes to whose head has this address, and whose body has these bytes: an error that its body names is told under `__type`,
/// or else under `code` where that is looked at. The store must have the patterns of the service's table, and isn't changed.
///
/// # Errors
///
/// `Syntax`, `UnknownError`, `Fault`, in this order; `NoMemory`.
pub fn whole_reply<L: Leaves, P: Patterns>(
    alloc: Global,
    form: BodyForm,
    service: &Service,
    operation: u32,
    there: ResponseAddress,
    by_code: bool,
    bytes: &[u8],
    leaves: &L,
    patterns: &mut P,
) -> Result<Reply, MessageRefusal>
    requires servable { Servable (service_data service.now) }
    requires number { operation < length (service_data service.now).operations }
    requires address { HasAddress (service_data service.now) operation there }
    requires stored { AreStored (table_data service.now.table).patterns (P.added patterns.old) }
    requires pass { DefaultsPass (table_data service.now.table) P.test }
    ensures reply { AnswersResponse operation (TreeAnswers (side_of form).syntax
        (codec_of (table_data service.now.table) (L.convention leaves.now) P.test) (service_data service.now)
        (told_under by_code) (address_of operation there) bytes.now) result }
    ensures added { P.added patterns.new ≡ P.added patterns.old }
    ensures refused { P.refused patterns.new ≡ P.refused patterns.old }
    ensures refusals { P.refusals patterns.new ≡ P.refusals patterns.old }
{
    match there {
        ResponseAddress::Output => {
            let shape = output_shape(service, operation);
            let unit = service.table.is_unit(shape);
            match whole_value(alloc, form, service, shape, unit, bytes, leaves, patterns) {
                Ok(value) => Ok(Reply::Output(value)),
                Err(refusal) => Err(refusal),
            }
        }
        ResponseAddress::Error(place) => {
            let shape = error_at(service, operation, place).shape;
            match whole_value(alloc, form, service, shape, false, bytes, leaves, patterns) {
                Ok(value) => Ok(Reply::Error(place, value)),
                Err(refusal) => Err(refusal),
            }
        }
        ResponseAddress::Named => named_reply(
            alloc, form, service, operation, by_code, bytes, leaves, patterns,
        ),
    }
}

/// What a request for an operation comes to whose body has these bytes. The store must have the patterns of the service's table, and isn't
/// changed.
///
/// # Errors
///
/// `Syntax`, `Fault`, in this order; `NoMemory`.
pub fn whole_request<L: Leaves, P: Patterns>(
    alloc: Global,
    form: BodyForm,
    service: &Service,
    operation: u32,
    bytes: &[u8],
    leaves: &L,
    patterns: &mut P,
) -> Result<(u32, Value), MessageRefusal>
    requires servable { Servable (service_data service.now) }
    requires number { operation < length (service_data service.now).operations }
    requires stored { AreStored (table_data service.now.table).patterns (P.added patterns.old) }
    requires pass { DefaultsPass (table_data service.now.table) P.test }
    ensures request { (told : Node → Option (List ℕ)) → AnswersRequest (TreeAnswers (side_of form).syntax
        (codec_of (table_data service.now.table) (L.convention leaves.now) P.test) (service_data service.now) told
        (to_goal (goal_of operation the_input)) bytes.now) result }
    ensures added { P.added patterns.new ≡ P.added patterns.old }
    ensures refused { P.refused patterns.new ≡ P.refused patterns.old }
    ensures refusals { P.refusals patterns.new ≡ P.refusals patterns.old }
{
    let shape = input_shape(service, operation);
    let unit = service.table.is_unit(shape);
    match whole_value(alloc, form, service, shape, unit, bytes, leaves, patterns) {
        Ok(value) => Ok((operation, value)),
        Err(refusal) => Err(refusal),
    }
}
