// What a line of text says.
use crate::given::{AskedOfRun, asked_by};
use crate::large::Size;

/// How an input is written down.
#[derive(Debug, Clone, Copy)]
pub enum Input<'a> {
    /// `< TEXT`: the rest of the row, as it stands.
    Plain(&'a str),
    /// `<| TEXT`: the rest of the row, where `|` is CR LF.
    Heads(&'a str),
    /// `<x PAIRS`: pairs of hexadecimal digits, as `bytes_shown` reads them.
    Pairs(&'a str),
}

/// A row.
#[derive(Debug, Clone, Copy)]
pub enum CommandRow<'a> {
    /// `pad N`: what the next row gives, a file's text or an input, is padded with blanks up to so many bytes.
    Pad(usize),
    /// `cut N`, `fail read N`, `fail write N`, `fail take N`, `fail put N`: something is asked of the next run.
    Next(AskedOfRun),
    /// `file NAME TEXT`: from now on the name stands for a file of this text.
    File(&'a str, &'a str),
    /// `heads NAME TEXT`: the same, where `|` is CR LF. The text may be empty.
    Heads(&'a str, &'a str),
    /// `pairs NAME PAIRS`: the same of the bytes that pairs of hexadecimal digits show.
    Pairs(&'a str, &'a str),
    /// `shows NAME`: what the name stands for comes out.
    Shows(&'a str),
    /// `line NAME TEXT`: this text and a line feed go behind what the name stands for.
    Line(&'a str, &'a str),
    /// `model NAME SHAPES MEMBERS`, `mixed NAME SHAPES MEMBERS`: from now on the name stands for a file of a model of this size.
    Model(&'a str, Size),
    /// `change N NAME TEXT`: before the Nth read of the next run the name comes to stand for a file of this text.
    Change(u64, &'a str, &'a str),
    /// `run WORDS < INPUT`: a run of these words, and its input. `run < INPUT` has no words.
    Run(Option<&'a str>, Input<'a>),
    /// Any other line.
    Unknown,
}

impl<'a> CommandRow<'a> {
    /// What a line says.
    pub fn of(line: &'a str) -> Self {
        if let Some(rest) = line.strip_prefix("run") {
            return CommandRow::run(rest);
        }
        match line.split_once(' ') {
            Some(("file", rest)) => CommandRow::file(rest),
            Some(("heads", rest)) => CommandRow::heads(rest),
            Some(("pairs", rest)) => CommandRow::pairs(rest),
            Some(("shows", name)) => CommandRow::Shows(name),
            Some(("line", rest)) => CommandRow::line(rest),
            Some(("model", rest)) => CommandRow::model(rest, false),
            Some(("mixed", rest)) => CommandRow::model(rest, true),
            Some(("change", rest)) => CommandRow::change(rest),
            Some(("pad", length)) => match length.parse::<usize>() {
                Ok(length) => CommandRow::Pad(length),
                Err(_) => CommandRow::Unknown,
            },
            _ => CommandRow::asking(line),
        }
    }

    // A row that asks something of the next run.
    fn asking(line: &'a str) -> Self {
        match line.rsplit_once(' ') {
            Some((words, number)) => match asked_by(words, number) {
                Some(asked) => CommandRow::Next(asked),
                None => CommandRow::Unknown,
            },
            None => CommandRow::Unknown,
        }
    }

    // A row `run`, without this word.
    fn run(rest: &'a str) -> Self {
        let (words, input) = if let Some((words, text)) = rest.split_once(" <| ") {
            (words, Input::Heads(text))
        } else if let Some((words, text)) = rest.split_once(" < ") {
            (words, Input::Plain(text))
        } else if let Some((words, pairs)) = rest.split_once(" <x ") {
            (words, Input::Pairs(pairs))
        } else {
            return CommandRow::Unknown;
        };
        CommandRow::Run(words.strip_prefix(' '), input)
    }

    // A row `file`, without this word.
    fn file(rest: &'a str) -> Self {
        match rest.split_once(' ') {
            Some((name, text)) => CommandRow::File(name, text),
            None => CommandRow::Unknown,
        }
    }

    // A row `heads`, without this word. The text may be empty.
    fn heads(rest: &'a str) -> Self {
        match rest.split_once(' ') {
            Some((name, text)) => CommandRow::Heads(name, text),
            None => CommandRow::Heads(rest, ""),
        }
    }

    // A row `pairs`, without this word.
    fn pairs(rest: &'a str) -> Self {
        match rest.split_once(' ') {
            Some((name, pairs)) => CommandRow::Pairs(name, pairs),
            None => CommandRow::Unknown,
        }
    }

    // A row `change`, without this word.
    fn change(rest: &'a str) -> Self {
        let Some((number, rest)) = rest.split_once(' ') else {
            return CommandRow::Unknown;
        };
        match (number.parse::<u64>(), rest.split_once(' ')) {
            (Ok(read), Some((name, text))) => CommandRow::Change(read, name, text),
            _ => CommandRow::Unknown,
        }
    }

    // A row `line`, without this word. The text may be empty.
    fn line(rest: &'a str) -> Self {
        match rest.split_once(' ') {
            Some((name, text)) => CommandRow::Line(name, text),
            None => CommandRow::Line(rest, ""),
        }
    }

    // A row `model` or `mixed`, without this word.
    fn model(rest: &'a str, mixed: bool) -> Self {
        match rest.split_once(' ') {
            Some((name, size)) => match Size::of(size, mixed) {
                Some(size) => CommandRow::Model(name, size),
                None => CommandRow::Unknown,
            },
            None => CommandRow::Unknown,
        }
    }
}
