// What the program is asked to do.
ghost use Rattle.std.specs.Prelude.{◌≡◌};
ghost use Rattle.speeds.specs.FormatCommands.{AsksFormat, AsksWork, AsksCommand, reads_asked};

/// A format of trees.
#[derive(Clone, Copy, Debug, PartialEq, Eq, Drop)]
pub enum MeasuredFormat {
    /// `json`.
    Json,
    /// `cbor`: the input is a JSON text, and its tree is written as CBOR first, so that both are measured on the same values.
    Cbor,
}

impl MeasuredFormat {
    fn of(word: &str) -> Option<Self>
        ensures { AsksFormat word.now result }
    {
        match word {
            "json" => Some(MeasuredFormat::Json),
            "cbor" => Some(MeasuredFormat::Cbor),
            _ => None,
        }
    }
}

/// What is done with the text of a tree.
#[derive(Clone, Copy, Debug, PartialEq, Eq, Drop)]
pub enum Work {
    /// `read N`: it is read N times.
    Read(u32),
    /// `write N`: it is read once and written N times.
    Write(u32),
    /// `copy`: it is read and written once, and comes out.
    Copy,
}

impl Work {
    fn of(word: &str, count: Option<u32>) -> Option<Self>
        ensures { AsksWork word.now count result }
    {
        match (word, count) {
            ("read", Some(count)) => Some(Work::Read(count)),
            ("write", Some(count)) => Some(Work::Write(count)),
            ("copy", None) => Some(Work::Copy),
            _ => None,
        }
    }

    /// How many times the text is read.
    pub fn reads(self) -> u32
        ensures { result ≡ reads_asked self }
    {
        match self {
            Work::Read(count) => count,
            Work::Write(_) | Work::Copy => 1,
        }
    }
}

/// What is measured.
#[derive(Clone, Copy, Debug, PartialEq, Eq, Drop)]
pub enum Command {
    /// `json ..` or `cbor ..`: the reader or the writer of a format.
    Tree(MeasuredFormat, Work),
    /// `tokens read N`: the text is cut into tokens N times.
    Tokens(u32),
    /// `events read N`: a JSON text is read N times, by events.
    Events(u32),
    /// `pieces read N`: the same, the text in pieces of 4,096 bytes.
    Pieces(u32),
    /// `item-events read N`: the item of CBOR is read N times by events, in one piece.
    ItemEvents(u32),
    /// `item-pieces read N`: the same, in pieces of 4,096 bytes.
    ItemPieces(u32),
}

impl Command {
    /// The command of these words and this count, or `None` where there is none such.
    pub fn of(format: &str, work: &str, count: Option<u32>) -> Option<Self>
        ensures { AsksCommand format.now work.now count result }
    {
        let work = Work::of(work, count)?;
        if let Some(format) = MeasuredFormat::of(format) {
            return Some(Command::Tree(format, work));
        }
        match (format, work) {
            ("tokens", Work::Read(count)) => Some(Command::Tokens(count)),
            ("events", Work::Read(count)) => Some(Command::Events(count)),
            ("pieces", Work::Read(count)) => Some(Command::Pieces(count)),
            ("item-events", Work::Read(count)) => Some(Command::ItemEvents(count)),
            ("item-pieces", Work::Read(count)) => Some(Command::ItemPieces(count)),
            _ => None,
        }
    }
}
