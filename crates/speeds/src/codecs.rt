// The verb `codec`: one body is carried from a convention to another many times over, through the reader, the decoder and the writer of
// bodies.
mod carry;

use crate::given::{Given, first_line};
use carry::{Carriage, carried};
use sm_tree::Tree;

/// Carries the body behind a table as the words say, and prints how many bytes it has on the other side. Whether they say anything.
///
/// # Errors
///
/// Where the input can't be read, or the body isn't carried; where the output takes nothing; where memory runs out.
pub fn measure(rt: &HostRuntime, words: &str, given: Given<'_>) -> anyhow::Result<bool> {
    let alloc = rt.alloc();
    let Some((shape, carriage)) = asked(words) else {
        return Ok(false);
    };
    let input = given.bytes(rt)?;
    let (shapes, body) = first_line(&input);
    let Ok(Tree::Object(pairs)) = sm_json::read_tree(alloc, shapes) else {
        anyhow::bail!("the first line is no object of shapes");
    };
    match carried(alloc, pairs.as_slice(), shape, carriage, body) {
        Ok(len) => println!(rt; "{len}")?,
        Err(_) => anyhow::bail!("the body isn't carried"),
    }
    Ok(true)
}

// What the words ask for: a shape's name, and how its body is carried.
fn asked(words: &str) -> Option<(&str, Carriage)> {
    let mut words = words.split(' ');
    let shape = words.next()?;
    let carriage = Carriage::of(words.next()?, words.next()?, words.next()?)?;
    Some((shape, carriage))
}
