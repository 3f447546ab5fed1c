// What is said on standard error behind `serve`, which prints no line itself.
use sm_doors::DoorsFault;
use sm_tree::{NoMemory, Text};
use std::alloc::Global;

/// What is said where the models, the service or a protocol is refused.
pub const NO_GATEWAY: &str =
    "serve: there is no gateway; cross with the same models, service, protocols and host says why";

// Where the words of `serve` have the address to listen on and that of the back, counted from their end.
const LISTEN: usize = 3;

const CONNECT: usize = 2;

// The word at this place from the end.
fn word_from_end(words: &[Text], place: usize) -> &str {
    let Some(at) = words.len().checked_sub(place) else {
        return "";
    };
    match words.get(at) {
        Some(word) => word.as_str(),
        None => "",
    }
}

/// Whether the words name this command.
pub fn is_serve(words: &[Text]) -> bool {
    match words.first() {
        Some(word) => word.as_str() == "serve",
        None => false,
    }
}

/// What is said of doors that failed.
pub fn doors_fault(alloc: Global, words: &[Text], fault: DoorsFault) -> Result<String, NoMemory> {
    let (what, address, kind) = match fault {
        DoorsFault::Listen(kind) => ("listen ", word_from_end(words, LISTEN), kind),
        DoorsFault::Connect(kind) => ("connect ", word_from_end(words, CONNECT), kind),
        DoorsFault::Accept(kind) => ("accept", "", kind),
    };
    Ok(format!(in alloc; "read fault: {what}{address}: {kind}")?)
}
