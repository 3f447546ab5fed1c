// What a row asks for: its first words say of what.
use sm_http::MessageSide;

/// What is asked of the bytes of a case.
#[derive(Clone, Copy, Debug, PartialEq, Eq, Drop)]
pub enum StreamAsked<'a> {
    /// Which message they begin with, and how many bytes are left behind it.
    One,
    /// Which messages they are.
    All,
    /// What each of their prefixes is read as.
    Prefixes,
    /// Whether the message that they are, so many times in a row, is read so many times as the first, over cuts that begin
    /// with a seed.
    Many { seed: u64, count: u32 },
    /// Something of the message that they begin with.
    Message(MessageAsked<'a>),
}

/// What is asked of a message.
#[derive(Clone, Copy, Debug, PartialEq, Eq, Drop)]
pub enum MessageAsked<'a> {
    /// As which text it is written.
    Written,
    /// How many fields have a name, the value of the first, and that of the only one.
    Field { name: &'a str },
    /// Whether a token stands in the lists that the fields of a name are.
    Token { name: &'a str, token: &'a str },
    /// Whether it says that its connection ends.
    Closes,
    /// As which text it is written where it says that its connection ends.
    Closing,
    /// As which text it is written as the answer to a request of a method.
    Answer { method: &'a str },
}

/// A question on a side.
#[derive(Clone, Copy, Debug, PartialEq, Eq, Drop)]
pub struct Question<'a> {
    pub asked: StreamAsked<'a>,
    pub side: MessageSide,
}

// The side of which a word asks.
fn side_of(word: &str) -> Option<MessageSide> {
    let asks_requests = word.starts_with("request")
        || word.ends_with("-request")
        || word.ends_with("-requests");
    let asks_responses = word.starts_with("response")
        || word.ends_with("-response")
        || word.ends_with("-responses")
        || word == "answer";
    if asks_requests {
        return Some(MessageSide::Request);
    }
    if asks_responses {
        return Some(MessageSide::Response);
    }
    None
}

fn many_of<'a>(text: &'a str) -> Option<(StreamAsked<'a>, &'a str)> {
    let (seed, rest) = text.split_once(' ')?;
    let (count, rest) = rest.split_once(' ')?;
    let asked = StreamAsked::Many {
        seed: seed.parse::<u64>().ok()?,
        count: count.parse::<u32>().ok()?,
    };
    Some((asked, rest))
}

// What a word asks of a message, and the text of the bytes behind the words.
fn message_asked<'a>(word: &str, text: &'a str) -> Option<(MessageAsked<'a>, &'a str)> {
    match word {
        "write-request" | "write-response" => Some((MessageAsked::Written, text)),
        "request-closes" | "response-closes" => Some((MessageAsked::Closes, text)),
        "closing-request" | "closing-response" => Some((MessageAsked::Closing, text)),
        "request-field" | "response-field" => {
            let (name, rest) = text.split_once(' ')?;
            Some((MessageAsked::Field { name }, rest))
        }
        "request-token" | "response-token" => {
            let (name, rest) = text.split_once(' ')?;
            let (token, rest) = rest.split_once(' ')?;
            Some((MessageAsked::Token { name, token }, rest))
        }
        "answer" => {
            let (method, rest) = text.split_once(' ')?;
            Some((MessageAsked::Answer { method }, rest))
        }
        _ => None,
    }
}

/// The question of a row, and the text of its bytes, or `None` where it is none.
pub fn question_of<'a>(row: &'a str) -> Option<(Question<'a>, &'a str)> {
    let (word, text) = match row.split_once(' ') {
        Some((word, text)) => (word, text),
        None => (row, ""),
    };
    let side = side_of(word)?;
    let (asked, text) = match word {
        "request" | "response" => (StreamAsked::One, text),
        "requests" | "responses" => (StreamAsked::All, text),
        "request-prefixes" | "response-prefixes" => (StreamAsked::Prefixes, text),
        "many-requests" | "many-responses" => many_of(text)?,
        _ => {
            let (asked, text) = message_asked(word, text)?;
            (StreamAsked::Message(asked), text)
        }
    };
    Some((Question { asked, side }, text))
}
