// What a line of text says.
use crate::judged::ShapeQuestion;

/// A row.
#[derive(Debug, Clone, Copy)]
pub enum ModelRow<'a> {
    /// `ast TEXT`: to read the text as a model.
    Ast(&'a str),
    /// `part TEXT`: the text goes behind those of the rows `part` before.
    Part(&'a str),
    /// `parts`: to read what these rows make as a model. The next such row begins anew.
    Parts,
    /// `selector TEXT`: to read the text as a selector.
    Selector(&'a str),
    /// `idl TEXT`: to read the text as a model in the IDL.
    Idl(&'a str),
    /// `quoted "TEXT"`: to read the text that a JSON string holds as a model in the IDL.
    Quoted(&'a str),
    /// `line TEXT`: the text and a line feed go behind those of the rows `line` before.
    Line(&'a str),
    /// `lines`: to read what these rows make as a model in the IDL. The next such row begins anew.
    Lines,
    /// `cuts TEXT`: to read the text as a model in the IDL, cut behind each of its tokens.
    Cuts(&'a str),
    /// `uri TEXT`: to read the text as a pattern of URIs.
    Uri(&'a str),
    /// `sound ID TEXT`, `table ID TEXT`, `refusing N ID TEXT`: what is asked of the shape with this id, in the model that the text
    /// says.
    Shape(ShapeQuestion, &'a str, &'a str),
    /// Any other line.
    Unknown,
}

impl<'a> ModelRow<'a> {
    /// What a line says.
    pub fn of(line: &'a str) -> Self {
        if line == "parts" {
            return ModelRow::Parts;
        }
        if line == "lines" {
            return ModelRow::Lines;
        }
        match line.split_once(' ') {
            Some(("ast", text)) => ModelRow::Ast(text),
            Some(("part", text)) => ModelRow::Part(text),
            Some(("selector", text)) => ModelRow::Selector(text),
            Some(("idl", text)) => ModelRow::Idl(text),
            Some(("quoted", text)) => ModelRow::Quoted(text),
            Some(("line", text)) => ModelRow::Line(text),
            Some(("cuts", text)) => ModelRow::Cuts(text),
            Some(("uri", text)) => ModelRow::Uri(text),
            Some(("sound", text)) => ModelRow::asked(ShapeQuestion::Sound, text),
            Some(("table", text)) => ModelRow::asked(ShapeQuestion::Table(None), text),
            Some(("refusing", text)) => ModelRow::refusing(text),
            _ => ModelRow::Unknown,
        }
    }

    // An id and a model.
    fn asked(asked: ShapeQuestion, line: &'a str) -> Self {
        match line.split_once(' ') {
            Some((id, text)) => ModelRow::Shape(asked, id, text),
            None => ModelRow::Unknown,
        }
    }

    // The number of the call that refuses, and then these.
    fn refusing(line: &'a str) -> Self {
        let Some((number, rest)) = line.split_once(' ') else {
            return ModelRow::Unknown;
        };
        match number.parse::<u64>() {
            Ok(call) => ModelRow::asked(ShapeQuestion::Table(Some(call)), rest),
            Err(_) => ModelRow::Unknown,
        }
    }
}
