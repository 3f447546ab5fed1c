// The trees of integers (RFC 8949, section 3.1): major types 0 and 1.
ghost use Rattle.std.specs.Prelude.{◌≡◌, ◌<◌, ◌^◌, IfOk, IsOk, pos, negsuc};
ghost use Rattle.std.specs.Fmt.{signed_decimal};
ghost use Rattle.sm_tree.specs.Node.{number};
ghost use Rattle.sm_tree.specs.View.{node_of};
ghost use Rattle.sm_cbor.specs.steps.Reading.{integer_node, integer_event};
ghost use Rattle.sm_tree.specs.EventView.{event_of};

use itoa::Buffer;
use sm_tree::{Event, NoMemory, Text, Tree};
use std::alloc::Global;

// The tree of an integer past the range of 64 bits: its text in decimal.
fn number_tree(alloc: Global, value: i128) -> Result<Tree, NoMemory>
    ensures { IfOk result (λ tree. node_of tree ≡ number (signed_decimal value)) }
{
    let mut digits = Buffer::new();
    Ok(Tree::Number(Text::copy(alloc, digits.format(value))?))
}

/// The integer `value`, a tree. One that 64 bits hold takes no memory.
pub fn unsigned_tree(alloc: Global, value: u64) -> Result<Tree, NoMemory>
    ensures tree { IfOk result (λ tree. node_of tree ≡ integer_node value (pos value)) }
    ensures small { value < 2 ^ 63 → IsOk result }
{
    if value < 1 << 63 {
        Ok(Tree::Int(value as i64))
    } else {
        number_tree(alloc, i128::from(value))
    }
}

/// The integer -1 less `value`, a tree. One that 64 bits hold takes no memory.
pub fn negative_tree(alloc: Global, value: u64) -> Result<Tree, NoMemory>
    ensures tree { IfOk result (λ tree. node_of tree ≡ integer_node value (negsuc value)) }
    ensures small { value < 2 ^ 63 → IsOk result }
{
    if value < 1 << 63 {
        Ok(Tree::Int(-1 - (value as i64)))
    } else {
        number_tree(alloc, -1 - i128::from(value))
    }
}

/// The integer `value` as an event. One that 64 bits hold takes no memory.
pub fn unsigned_event(alloc: Global, value: u64) -> Result<Event, NoMemory>
    ensures { IfOk result (λ event. event_of event ≡ integer_event value (pos value)) }
{
    if value < 1 << 63 {
        return Ok(Event::Int(value as i64));
    }
    let mut digits = Buffer::new();
    Ok(Event::Number(Text::copy(alloc, digits.format(i128::from(value)))?))
}

/// The integer -1 less `value` as an event. One that 64 bits hold takes no memory.
pub fn negative_event(alloc: Global, value: u64) -> Result<Event, NoMemory>
    ensures { IfOk result (λ event. event_of event ≡ integer_event value (negsuc value)) }
{
    if value < 1 << 63 {
        return Ok(Event::Int(-1 - (value as i64)));
    }
    let mut digits = Buffer::new();
    Ok(Event::Number(Text::copy(alloc, digits.format(-1 - i128::from(value)))?))
}
