// What a row asks for: its first word says of what, and in which notation the bytes stand.
use crate::given::Notation;
use sm_time::Format;
use sm_tree::number::Phase;

/// What is asked of the bytes of a case.
#[derive(Clone, Copy, Debug, PartialEq, Eq, Drop)]
pub enum Question {
    /// To read them as a JSON text; the answer is the text that is written for its tree.
    Json,
    /// The events of a JSON text, as its bytes come one after the other.
    JsonEvents,
    /// To read them as a CBOR item; the answer is its tree, and the item that is written for it.
    Cbor,
    /// The events of a CBOR item, as its bytes come one after the other.
    CborEvents,
    /// How many items all two bytes make that stand between these.
    CborTwo,
    /// To read them as a shape id.
    Id,
    /// To read them as a shape id, of whose parts only the lengths are told.
    IdLengths,
    /// Whether two texts fold to each other: the strings of a JSON list.
    Fold,
    /// To read them as a stamp.
    Stamp(Format),
    /// To write the stamp of so many milliseconds.
    WriteStamp(Format),
    /// In which order two stamps stand: the milliseconds of a JSON list.
    StampOrder,
    /// To cut them into tokens of the IDL.
    Tokens,
    /// The text of the documentation comments there.
    Docs,
    /// The JSON Pointer of a path: a JSON list of names and indices.
    Pointer,
    /// Whether two trees are equal, or the same with objects as sets of pairs: the entries of a JSON list.
    Same,
    /// Which bytes may come next in a JSON text that they begin, and with which of them they are one.
    JsonNext,
    /// How many of them go on with a number of JSON that has come so far, and how far it has come behind them.
    NumberRun(Phase),
    /// Whether they are an identifier, and whether a namespace.
    Part,
    /// In which order two shape ids stand: the strings of a JSON list.
    Order,
}

fn format_of(word: &str) -> Option<Format> {
    match word {
        "date-time" => Some(Format::DateTime),
        "http-date" => Some(Format::HttpDate),
        "epoch-seconds" => Some(Format::EpochSeconds),
        _ => None,
    }
}

fn phase_of(word: &str) -> Option<Phase> {
    match word {
        "start" => Some(Phase::Start),
        "minus" => Some(Phase::Minus),
        "zero" => Some(Phase::Zero),
        "whole" => Some(Phase::Whole),
        "point" => Some(Phase::Point),
        "fraction" => Some(Phase::Fraction),
        "exponent" => Some(Phase::Exponent),
        "exponent-sign" => Some(Phase::ExponentSign),
        "exponent-digits" => Some(Phase::ExponentDigits),
        _ => None,
    }
}

/// What a word asks for, and the rest of its row. `None` where the word asks for nothing.
pub fn question_of<'a>(word: &str, rest: &'a str) -> Option<(Question, &'a str)> {
    let plain = match word {
        "json" => Question::Json,
        "json-events" => Question::JsonEvents,
        "cbor" => Question::Cbor,
        "cbor-events" => Question::CborEvents,
        "cbor-two" => Question::CborTwo,
        "id" => Question::Id,
        "id-lengths" => Question::IdLengths,
        "fold" => Question::Fold,
        "tokens" => Question::Tokens,
        "docs" => Question::Docs,
        "pointer" => Question::Pointer,
        "same" => Question::Same,
        "json-next" => Question::JsonNext,
        "part" => Question::Part,
        "order" => Question::Order,
        "stamp-order" => Question::StampOrder,
        "stamp" => {
            let (format, rest) = rest.split_once(' ')?;
            return Some((Question::Stamp(format_of(format)?), rest));
        }
        "write-stamp" => {
            let (format, rest) = rest.split_once(' ')?;
            return Some((Question::WriteStamp(format_of(format)?), rest));
        }
        "number-run" => {
            let (phase, rest) = rest.split_once(' ').unwrap_or((rest, ""));
            return Some((Question::NumberRun(phase_of(phase)?), rest));
        }
        _ => return None,
    };
    Some((plain, rest))
}

/// How the bytes are written down behind this word, and the word by itself. An item of CBOR stands in pairs of digits.
pub fn notation_of(word: &str) -> (Notation, &str) {
    if let Some(word) = word.strip_suffix("-quoted") {
        return (Notation::Quoted, word);
    }
    if let Some(word) = word.strip_suffix("-bytes") {
        return (Notation::Pairs, word);
    }
    if word == "cbor" || word == "cbor-events" {
        return (Notation::Pairs, word);
    }
    (Notation::Plain, word)
}
