// What a printed line means, in one sentence: of a model file, of the input, of the words, or of an event.
use crate::rules::rule_said;

/// Where the sentence looks.
#[derive(Debug, Clone, Copy, PartialEq, Eq)]
pub enum Spot {
    /// Nowhere in a text.
    Nowhere,
    /// At the byte of this number, counted from 0.
    Byte(usize),
    /// The same, and what stands there is named first.
    Token(usize),
    /// At its end.
    End,
}

/// A sentence: where it looks, the path that it names, and what it says.
#[derive(Debug, Clone, Copy)]
pub struct Said<'a> {
    /// Where it looks.
    pub spot: Spot,
    /// A path or a name in what is refused; empty where there is none.
    pub path: &'a str,
    /// What is wrong.
    pub text: &'static str,
}

impl<'a> Said<'a> {
    // A sentence without a place.
    fn plain(path: &'a str, text: &'static str) -> Self {
        Said {
            spot: Spot::Nowhere,
            path,
            text,
        }
    }

    // A sentence at a place.
    fn at(spot: Spot, text: &'static str) -> Self {
        Said {
            spot,
            path: "",
            text,
        }
    }
}

// The number of a byte.
fn byte_of(number: &str) -> Option<usize> {
    number.parse::<usize>().ok()
}

/// What a line says of a model file, without the file's name.
pub fn said_of_file(line: &str) -> Option<Said<'_>> {
    match line.split_once(' ') {
        Some(("Json", reason)) => said_of_syntax(reason),
        Some(("Ast", reason)) => said_of_ast(reason),
        Some(("Idl", reason)) => said_of_idl(reason),
        Some(("Utf8", number)) => Some(Said::at(
            Spot::Byte(byte_of(number)?),
            "the file isn't UTF-8 from here on",
        )),
        _ => None,
    }
}

/// What a reason says of a text in JSON or CBOR.
pub fn said_of_syntax(reason: &str) -> Option<Said<'_>> {
    if reason == "Ended" {
        return Some(Said::at(Spot::End, "the text ends too early"));
    }
    match reason.split_once(' ') {
        Some(("Bad", number)) => Some(Said::at(Spot::Token(byte_of(number)?), "can't stand here")),
        Some(("TooDeep", number)) => Some(Said::at(
            Spot::Byte(byte_of(number)?),
            "more than 100 levels are open here",
        )),
        Some(("KeyKind", number)) => Some(Said::at(
            Spot::Byte(byte_of(number)?),
            "a key that is no text begins here",
        )),
        _ => None,
    }
}

// Of a tree that is no model.
fn said_of_ast(reason: &str) -> Option<Said<'_>> {
    if reason == "Version" {
        return Some(Said::plain("", "smithy must be there, and be \"2.0\" or \"2\""));
    }
    match reason.split_once(' ') {
        Some(("Field", path)) => Some(Said::plain(path, "a field is missing, unknown or repeated")),
        Some(("Type", path)) => Some(Said::plain(path, "a value of another kind stands here")),
        Some(("BadId", path)) => Some(Said::plain(
            path,
            "this is no shape id, or no name of a member",
        )),
        _ => None,
    }
}

// Of a text that is no model.
fn said_of_idl(reason: &str) -> Option<Said<'_>> {
    if reason == "Version" {
        return Some(Said::plain("", "$version must be there, and be \"2\" or \"2.0\""));
    }
    match reason.split_once(' ') {
        Some(("Syntax", number)) => Some(Said::at(
            Spot::Token(byte_of(number)?),
            "can't stand here",
        )),
        Some(("Lex", reason)) => said_of_lex(reason),
        _ => None,
    }
}

// Of a text without tokens.
fn said_of_lex(reason: &str) -> Option<Said<'_>> {
    let (word, number) = reason.split_once(' ')?;
    let at = byte_of(number)?;
    match word {
        "Bad" => Some(Said::at(Spot::Token(at), "begins no token")),
        "UnclosedString" => Some(Said::at(
            Spot::Byte(at),
            "the string that begins here isn't closed",
        )),
        "UnclosedBlock" => Some(Said::at(
            Spot::Byte(at),
            "the text block that begins here isn't closed",
        )),
        "BadEscape" => Some(Said::at(Spot::Byte(at), "this is no escape")),
        _ => None,
    }
}

/// What a line says of a body.
pub fn said_of_body(line: &str) -> Option<Said<'_>> {
    match line.split_once(' ') {
        Some(("Syntax", reason)) => said_of_syntax(reason),
        Some(("Fault", fault)) => {
            let (path, kind) = fault.rsplit_once(' ')?;
            Some(Said::plain(path, fault_said(kind)?))
        }
        _ => None,
    }
}

// What a fault of a body says.
fn fault_said(kind: &str) -> Option<&'static str> {
    match kind {
        "Type" => Some("a value of another type stands here"),
        "Null" => Some("null may not stand here"),
        "Repeated" => Some("the name stands twice"),
        "Missing" => Some("a required member is missing"),
        "Width" => Some("the number is out of the range of its type"),
        "Base64" => Some("the text is no Base64"),
        "Time" => Some("this is no timestamp of the member's format"),
        "Length" => Some("the length isn't as the model asks"),
        "Pattern" => Some("the text doesn't have the model's pattern"),
        "Enum" => Some("this is none of the enum's values"),
        "Range" => Some("the number isn't in the model's range"),
        "Unique" => Some("two entries are equal"),
        "UnionCount" => Some("a union must have exactly one member"),
        "NotCarried" => Some("the other form can't say this value"),
        _ => None,
    }
}

/// What any other line says: of the words, of a limit, or of an event.
pub fn said_of_words(line: &str) -> Option<Said<'_>> {
    if line == "Namespace" {
        return Some(Said::plain(
            "rename",
            "the first namespace has no shapes or is smithy.api, or the model knows the second",
        ));
    }
    let (word, rest) = line.split_once(' ')?;
    match word {
        "NoShape" => Some(Said::plain(rest, "the model has no shape of this id that has values")),
        "NoService" => Some(Said::plain(rest, "the model has no service of this id")),
        "Unserved" => Some(Said::plain(
            rest,
            "values of the shape can't be carried, because of what stands here",
        )),
        "Pattern" => Some(Said::plain(
            rest,
            "its pattern is no regular expression that is known here",
        )),
        "Limit" => limit_said(rest),
        "Selector" => selector_said(rest),
        "ERROR" | "DANGER" | "WARNING" | "NOTE" => event_said(rest),
        _ => None,
    }
}

// What a limit says.
fn limit_said(rest: &str) -> Option<Said<'_>> {
    let (word, number) = rest.split_once(' ')?;
    match word {
        "files" => Some(Said::plain(number, "there are more model files than this")),
        "file" => Some(Said::plain(number, "a file has more bytes than this")),
        "bytes" => Some(Said::plain(number, "the model files have more bytes together than this")),
        "body" => Some(Said::plain(number, "the input has more bytes than this")),
        "shapes" => Some(Said::plain(number, "the model has more shapes than this")),
        "members" => Some(Said::plain(number, "a shape has more members than this")),
        "allmembers" => Some(Said::plain(number, "the model has more members than this")),
        "traits" => Some(Said::plain(number, "the values of traits are larger than this")),
        _ => None,
    }
}

// What a text that is no selector says.
fn selector_said(rest: &str) -> Option<Said<'_>> {
    match rest.split_once(' ') {
        Some(("Syntax", number)) => Some(Said::plain(
            number,
            "the selector can't go on at this byte, counted from 0",
        )),
        Some(("OutOfProfile", number)) => {
            Some(Said::plain(
                number,
                "a form that isn't read begins at this byte of the selector, counted from 0",
            ))
        }
        _ => None,
    }
}

// What an event says.
fn event_said(rest: &str) -> Option<Said<'_>> {
    let (id, shape) = rest.split_once(' ')?;
    Some(Said::plain(shape, rule_said(id)?))
}
