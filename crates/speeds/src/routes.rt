// The verb `route`: the operations of requests are found many times over.
mod turns;

use crate::given::Given;
use turns::found_after;

/// Makes the routes of the input, finds the operation of each of its requests as often as the word says, and prints how often there was one.
/// Whether the word is a number.
///
/// # Errors
///
/// Where the input can't be read, or is no routes and requests; where the output takes nothing; where memory runs out.
pub fn measure(rt: &HostRuntime, words: &str, given: Given<'_>) -> anyhow::Result<bool> {
    let Ok(turns) = words.parse::<u32>() else {
        return Ok(false);
    };
    let bytes = given.bytes(rt)?;
    let Ok(text) = std::str::from_utf8(&bytes) else {
        anyhow::bail!("the input is no text in UTF-8");
    };
    match found_after(rt.alloc(), text, turns) {
        Ok(Some(found)) => println!(rt; "{found}")?,
        Ok(None) => anyhow::bail!("these are no routes and requests"),
        Err(_) => anyhow::bail!("out of memory"),
    }
    Ok(true)
}
