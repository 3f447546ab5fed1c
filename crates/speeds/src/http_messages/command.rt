// What the program is asked to do.
ghost use Rattle.speeds.specs.HttpCommands.{AsksWork, AsksSide, AsksCommand};

use sm_http::MessageSide;

/// What is done with a message.
#[derive(Clone, Copy, Debug, PartialEq, Eq, Drop)]
pub enum Work {
    /// `read`: `read_message`.
    Read,
    /// `pieces`: `read_head`, and `read_piece` up to the body's end.
    Pieces,
    /// `head`: httparse alone on its head.
    Head,
    /// `write`: it is read once, and then `write_message`.
    Write,
    /// `copy`: its bytes are copied.
    Copy,
}

impl Work {
    fn of(word: &str) -> Option<Self>
        ensures { AsksWork word.now result }
    {
        match word {
            "read" => Some(Work::Read),
            "pieces" => Some(Work::Pieces),
            "head" => Some(Work::Head),
            "write" => Some(Work::Write),
            "copy" => Some(Work::Copy),
            _ => None,
        }
    }
}

/// The side that a word names: `request` or `response`.
pub fn side_of(word: &str) -> Option<MessageSide>
    ensures { AsksSide word.now result }
{
    match word {
        "request" => Some(MessageSide::Request),
        "response" => Some(MessageSide::Response),
        _ => None,
    }
}

/// What is measured: some work, on a message of a side, so many times.
#[derive(Clone, Copy, Debug, PartialEq, Eq, Drop)]
pub struct Command {
    pub work: Work,
    pub side: MessageSide,
    pub count: u32,
}

impl Command {
    /// The command of these words and this count, or `None` where there is none such.
    pub fn of(work: &str, side: &str, count: u32) -> Option<Self>
        ensures { AsksCommand work.now side.now count result }
    {
        Some(Command {
            work: Work::of(work)?,
            side: side_of(side)?,
            count,
        })
    }
}
