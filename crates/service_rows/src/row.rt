// What a line of text says.

/// What is asked of a service.
#[derive(Debug, Clone, Copy)]
pub enum ServiceQuestion {
    /// `service ID`: its operations.
    Operations,
    /// `table ID`: its table.
    Table,
}

/// A row.
#[derive(Debug, Clone, Copy)]
pub enum ServiceRow<'a> {
    /// `model NAMESPACE TEXT`: from now on the model is one file in the IDL, of this namespace and these shapes.
    Model(&'a str, &'a str),
    /// `and NAMESPACE TEXT`: and one such file more.
    And(&'a str, &'a str),
    /// `ast TEXT`: from now on the model is one file in the JSON AST.
    Ast(&'a str),
    /// `refuse N`: the store of patterns of the next question refuses the Nth text that is added.
    Refuse(u64),
    /// `service ID`, `table ID`: what is asked of the service with this id.
    Ask(ServiceQuestion, &'a str),
    /// Any other line.
    Unknown,
}

impl<'a> ServiceRow<'a> {
    /// What a line says.
    pub fn of(line: &'a str) -> Self {
        match line.split_once(' ') {
            Some(("model", rest)) => match rest.split_once(' ') {
                Some((namespace, text)) => ServiceRow::Model(namespace, text),
                None => ServiceRow::Unknown,
            },
            Some(("and", rest)) => match rest.split_once(' ') {
                Some((namespace, text)) => ServiceRow::And(namespace, text),
                None => ServiceRow::Unknown,
            },
            Some(("ast", text)) => ServiceRow::Ast(text),
            Some(("refuse", number)) => match number.parse::<u64>() {
                Ok(call) => ServiceRow::Refuse(call),
                Err(_) => ServiceRow::Unknown,
            },
            Some(("service", id)) => ServiceRow::Ask(ServiceQuestion::Operations, id),
            Some(("table", id)) => ServiceRow::Ask(ServiceQuestion::Table, id),
            _ => ServiceRow::Unknown,
        }
    }
}
