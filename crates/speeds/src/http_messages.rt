// The verb `http`: one HTTP message is read or written many times over.
pub mod command;
pub mod turns;

use crate::given::Given;
use command::{Command, Work};
use sm_http::Message;

// What the words ask for.
fn asked(words: &str) -> Option<Command> {
    let mut words = words.split(' ');
    let (work, side, count) = (words.next()?, words.next()?, words.next()?);
    if words.next().is_some() {
        return None;
    }
    Command::of(work, side, count.parse::<u32>().ok()?)
}

fn message_read(
    rt: &HostRuntime,
    command: Command,
    bytes: &[u8],
    count: u32,
) -> anyhow::Result<Message> {
    match turns::read_times(rt.alloc(), bytes, command.side, count) {
        Ok(Some(message)) => Ok(message),
        Ok(None) => anyhow::bail!("the input is empty"),
        Err(refusal) => anyhow::bail!("{refusal}"),
    }
}

// Does the work, and gives the number that shows that it was done.
fn measured(rt: &HostRuntime, command: Command, bytes: &[u8]) -> anyhow::Result<u64> {
    let alloc = rt.alloc();
    let (side, count) = (command.side, command.count);
    match command.work {
        Work::Read => {
            let message = message_read(rt, command, bytes, count)?;
            Ok(message.body.as_slice().len() as u64)
        }
        Work::Pieces => match turns::pieces_times(alloc, bytes, side, count) {
            Ok(sum) => Ok(sum),
            Err(refusal) => anyhow::bail!("{refusal}"),
        },
        Work::Head => Ok(turns::head_times(bytes, side, count)),
        Work::Write => {
            let message = message_read(rt, command, bytes, 1)?;
            match turns::write_times(alloc, &message, count) {
                Ok(written) => Ok(written.len() as u64),
                Err(_) => anyhow::bail!("out of memory"),
            }
        }
        Work::Copy => match turns::copy_times(alloc, bytes, count) {
            Ok(copied) => Ok(copied.len() as u64),
            Err(_) => anyhow::bail!("out of memory"),
        },
    }
}

/// Does what the words ask for, prints the number that shows that it was done, and says whether they ask for anything.
///
/// # Errors
///
/// Where the input can't be read, or is no message; where the output takes nothing; where memory runs out.
pub fn measure(rt: &HostRuntime, words: &str, given: Given<'_>) -> anyhow::Result<bool> {
    let Some(command) = asked(words) else {
        return Ok(false);
    };
    let bytes = given.bytes(rt)?;
    println!(rt; "{}", measured(rt, command, &bytes)?)?;
    Ok(true)
}
