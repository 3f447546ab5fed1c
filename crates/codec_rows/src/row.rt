// What a line of text says.

use codec_bodies::BodyWay;

/// An object that is written for the fields of a structure.
#[derive(Debug, Clone, Copy)]
pub struct AskedObject<'a> {
    /// The convention by which it is written.
    pub way: BodyWay,
    /// The pair before the fields, as `NAME=TEXT`; any other word is none.
    pub pair: &'a str,
    /// The names of the members that are written, with commas between, or `-` where all are.
    pub members: &'a str,
}

/// What is shown of a body's value.
#[derive(Debug, Clone, Copy)]
pub enum Far<'a> {
    /// The value, as rows write values down.
    Value,
    /// What is written for it.
    Body(BodyWay),
    /// How the two entries of a list stand.
    Order,
    /// The events of the object that is written for its fields.
    Object(AskedObject<'a>),
    /// The events of what is written for its first field, at the place of the field's member.
    Field(BodyWay),
}

/// A row.
#[derive(Debug, Clone, Copy)]
pub enum CodecRow<'a> {
    /// `table`: a new table, in which the shapes of these words stand alone.
    Table,
    /// `shape NAME OBJECT`: one shape more.
    Shape(&'a str, &'a str),
    /// `defaults`: which defaults count.
    Defaults,
    /// `NEAR FAR SHAPE BODY`: to decode a body, and to show its value, or what is written for it or for parts of it.
    Body(BodyWay, Far<'a>, &'a str, &'a str),
    /// Any other line.
    Unknown,
}

// What is shown by one word.
fn far_of(word: &str) -> Option<Far<'static>> {
    match word {
        "value" => Some(Far::Value),
        "order" => Some(Far::Order),
        _ => match BodyWay::named(word) {
            Some(way) => Some(Far::Body(way)),
            None => None,
        },
    }
}

// What a line says that begins with this word, if it is that of a convention.
fn body_row<'a>(word: &str, rest: &'a str) -> CodecRow<'a> {
    let Some(near) = BodyWay::named(word) else {
        return CodecRow::Unknown;
    };
    let Some((word, rest)) = rest.split_once(' ') else {
        return CodecRow::Unknown;
    };
    match word {
        "object" => object_row(near, rest),
        "field" => field_row(near, rest),
        _ => match far_of(word) {
            Some(far) => shape_row(near, far, rest),
            None => CodecRow::Unknown,
        },
    }
}

// `SHAPE BODY`.
fn shape_row<'a>(near: BodyWay, far: Far<'a>, rest: &'a str) -> CodecRow<'a> {
    match rest.split_once(' ') {
        Some((shape, body)) => CodecRow::Body(near, far, shape, body),
        None => CodecRow::Unknown,
    }
}

// `CONVENTION SHAPE BODY`.
fn field_row<'a>(near: BodyWay, rest: &'a str) -> CodecRow<'a> {
    let Some((word, rest)) = rest.split_once(' ') else {
        return CodecRow::Unknown;
    };
    match BodyWay::named(word) {
        Some(way) => shape_row(near, Far::Field(way), rest),
        None => CodecRow::Unknown,
    }
}

// `CONVENTION PAIR MEMBERS SHAPE BODY`.
fn object_row<'a>(near: BodyWay, rest: &'a str) -> CodecRow<'a> {
    let Some((word, rest)) = rest.split_once(' ') else {
        return CodecRow::Unknown;
    };
    let Some(way) = BodyWay::named(word) else {
        return CodecRow::Unknown;
    };
    let Some((pair, rest)) = rest.split_once(' ') else {
        return CodecRow::Unknown;
    };
    let Some((members, rest)) = rest.split_once(' ') else {
        return CodecRow::Unknown;
    };
    let asked = AskedObject { way, pair, members };
    shape_row(near, Far::Object(asked), rest)
}

impl<'a> CodecRow<'a> {
    /// What a line says.
    pub fn of(line: &'a str) -> Self {
        match line {
            "table" => return CodecRow::Table,
            "defaults" => return CodecRow::Defaults,
            _ => {}
        }
        let Some((word, rest)) = line.split_once(' ') else {
            return CodecRow::Unknown;
        };
        match word {
            "shape" => match rest.split_once(' ') {
                Some((name, said)) => CodecRow::Shape(name, said),
                None => CodecRow::Unknown,
            },
            _ => body_row(word, rest),
        }
    }
}
