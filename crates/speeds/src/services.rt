// The verb `service`: a service of a model is compiled many times over.
mod turns;

use crate::given::Given;
use turns::operation_count;

/// Compiles the service that the words tell, as often as they say, and prints how many operations it has. Whether they tell one.
///
/// # Errors
///
/// Where the input can't be read, or the service isn't compiled; where the output takes nothing; where memory runs out.
pub fn measure(rt: &HostRuntime, words: &str, given: Given<'_>) -> anyhow::Result<bool> {
    let Some((service, turns)) = asked(words) else {
        return Ok(false);
    };
    match operation_count(rt.alloc(), given.bytes(rt)?, service, turns) {
        Some(count) => println!(rt; "{count}")?,
        None => anyhow::bail!("no such service is compiled"),
    }
    Ok(true)
}

// What the words ask for: a service's id, and how many times it is compiled.
fn asked(words: &str) -> Option<(&str, u32)> {
    let (service, turns) = words.split_once(' ')?;
    Some((service, turns.parse::<u32>().ok()?))
}
