// What a line of text says.

/// What is done with a model.
#[derive(Debug, Clone, Copy)]
pub enum Verb {
    /// `include SELECTOR`.
    Include,
    /// `exclude SELECTOR`.
    Exclude,
    /// `rename A=B`.
    Rename,
}

/// A row.
#[derive(Debug, Clone, Copy)]
pub enum TransformRow<'a> {
    /// `model NAMESPACE TEXT`: from now on the model is one file in the IDL, of this namespace and these shapes.
    Model(&'a str, &'a str),
    /// `and NAMESPACE TEXT`: and one such file more.
    And(&'a str, &'a str),
    /// A verb and its argument: what the model is transformed to.
    Ask(Verb, &'a str),
    /// Any other line.
    Unknown,
}

impl<'a> TransformRow<'a> {
    /// What a line says.
    pub fn of(line: &'a str) -> Self {
        match line.split_once(' ') {
            Some(("model", rest)) => match rest.split_once(' ') {
                Some((namespace, text)) => TransformRow::Model(namespace, text),
                None => TransformRow::Unknown,
            },
            Some(("and", rest)) => match rest.split_once(' ') {
                Some((namespace, text)) => TransformRow::And(namespace, text),
                None => TransformRow::Unknown,
            },
            Some(("include", text)) => TransformRow::Ask(Verb::Include, text),
            Some(("exclude", text)) => TransformRow::Ask(Verb::Exclude, text),
            Some(("rename", text)) => TransformRow::Ask(Verb::Rename, text),
            _ => TransformRow::Unknown,
        }
    }
}
