// The verb `format`: one text is read or written many times over, in JSON, in CBOR, or as tokens of the IDL.
ghost use Rattle.std.specs.Prelude.{◌≡◌, ◌<◌, IfOk};
ghost use Rattle.sm_tree.specs.Json.{IsJson};
ghost use Rattle.sm_tree.specs.View.{node_of};

mod command;
mod events;
mod item_events;
mod turns;

use crate::given::Given;
use command::{Command, MeasuredFormat, Work};
use sm_io::{Sink, StdSink};
use sm_tree::Tree;
use std::alloc::Global;

/// How many bytes of a text or an item come at a time, where it comes in pieces.
const PIECE: usize = 4096;

// What the words ask for.
fn asked(words: &str) -> Option<Command> {
    let mut words = words.split(' ');
    let (format, work) = (words.next()?, words.next()?);
    let count = words.next();
    if words.next().is_some() {
        return None;
    }
    match count {
        Some(count) => Command::of(format, work, Some(count.parse::<u32>().ok()?)),
        None => Command::of(format, work, None),
    }
}

// How many events come of the item of a JSON text that is read many times over, in pieces of so many bytes.
fn events_of(alloc: Global, text: Vec<u8>, size: usize, turns: u32) -> anyhow::Result<u64>
    requires { 0 < size }
{
    let item = in_format(alloc, MeasuredFormat::Cbor, text)?;
    match item_events::item_events(alloc, &item, size, turns) {
        Ok(count) => Ok(count),
        Err(_) => anyhow::bail!("the item can't be read"),
    }
}

// The bytes of a JSON text in a format: those of the text, or the item of its tree.
fn in_format(alloc: Global, format: MeasuredFormat, text: Vec<u8>) -> anyhow::Result<Vec<u8>> {
    match format {
        MeasuredFormat::Json => Ok(text),
        MeasuredFormat::Cbor => {
            let Ok(tree) = sm_json::read_tree(alloc, &text) else {
                anyhow::bail!("the input is no JSON text that can be read");
            };
            written(alloc, MeasuredFormat::Cbor, &tree, 1)
        }
    }
}

fn tree_of(alloc: Global, format: MeasuredFormat, bytes: &[u8], turns: u32) -> anyhow::Result<Tree>
    ensures { IfOk result (λ tree. format ≡ MeasuredFormat.Json → IsJson (node_of tree)) }
{
    match turns::read_times(alloc, format, bytes, turns) {
        Ok(tree) => Ok(tree),
        Err(_) => anyhow::bail!("the input is no text that can be read"),
    }
}

fn written(
    alloc: Global,
    format: MeasuredFormat,
    tree: &Tree,
    turns: u32,
) -> anyhow::Result<Vec<u8>>
    requires { format ≡ MeasuredFormat.Json → IsJson (node_of tree.now) }
{
    if !turns::can_write(format, tree) {
        anyhow::bail!("the input has a number that isn't written in this format");
    }
    match turns::write_times(alloc, format, tree, turns) {
        Ok(written) => Ok(written),
        Err(_) => anyhow::bail!("out of memory"),
    }
}

// One format, read or written many times over, from a JSON text.
fn measured(
    rt: &HostRuntime,
    format: MeasuredFormat,
    work: Work,
    text: Vec<u8>,
) -> anyhow::Result<()> {
    let alloc = rt.alloc();
    let bytes = in_format(alloc, format, text)?;
    let tree = tree_of(alloc, format, &bytes, work.reads())?;
    match work {
        Work::Read(_) => println!(rt; "ok")?,
        Work::Write(count) => println!(rt; "{}", written(alloc, format, &tree, count)?.len())?,
        Work::Copy => StdSink::new(rt.stdout()).put(&written(alloc, format, &tree, 1)?)?,
    }
    Ok(())
}

// The events of a JSON text, counted many times over.
fn counted(alloc: Global, text: &[u8], piece: usize, turns: u32) -> anyhow::Result<u64>
    requires { 0 < piece }
{
    match events::count_times(alloc, text, piece, turns) {
        Ok(count) => Ok(count),
        Err(_) => anyhow::bail!("the input is no JSON text that can be read"),
    }
}

/// Does what the words ask for, and says whether they ask for anything.
///
/// # Errors
///
/// Where the input can't be read, or is none that is asked for; where the output takes nothing; where memory runs out.
pub fn measure(rt: &HostRuntime, words: &str, given: Given<'_>) -> anyhow::Result<bool> {
    let alloc = rt.alloc();
    let Some(command) = asked(words) else {
        return Ok(false);
    };
    let text = given.bytes(rt)?;
    match command {
        Command::Tree(format, work) => measured(rt, format, work, text)?,
        Command::Tokens(count) => {
            let Ok(text) = std::str::from_utf8(&text) else {
                anyhow::bail!("the input is no text in UTF-8");
            };
            let Ok(count) = turns::token_count(alloc, text, count) else {
                anyhow::bail!("the input has no tokens");
            };
            println!(rt; "{count}")?;
        }
        Command::Events(turns) => println!(rt; "{}", counted(alloc, &text, usize::MAX, turns)?)?,
        Command::Pieces(turns) => println!(rt; "{}", counted(alloc, &text, PIECE, turns)?)?,
        Command::ItemEvents(turns) => println!(rt;
            "{}",
            events_of(alloc, text, usize::MAX, turns)?
        )?,
        Command::ItemPieces(turns) => println!(rt; "{}", events_of(alloc, text, PIECE, turns)?)?,
    }
    Ok(true)
}
