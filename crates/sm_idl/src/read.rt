// A model's text: its statements, or why it has none.
ghost use Rattle.std.specs.Prelude.{◌≡◌, ◌↔◌, [], IsTrue, IfOk, All, List, length, map, Some};
ghost use Rattle.sm_lex.specs.Answers.{IsWhole};
ghost use Rattle.sm_lex.specs.Tokens.{lexeme_of, TokensSpell};
ghost use Rattle.sm_model.specs.Formed.{AreFormed};
ghost use Rattle.sm_model.specs.SaidView.{statements_view};
ghost use Rattle.sm_idl.specs.Answers.{ReadsIdl};
ghost use Rattle.sm_idl.specs.Productions.{spaced};
ghost use Rattle.sm_idl.specs.Nodes.{Pair};
ghost use Rattle.sm_idl.specs.steps.FileClasses.{Namespace};
ghost use Rattle.sm_idl.specs.steps.FileSteps.{no_namespace, BeginSaid, InSection, LexedAs, StoppedAs, ReadsFile};
ghost use Rattle.sm_idl.specs.steps.Firm.{HeadIs};
ghost use Rattle.sm_idl.specs.steps.HomeView.{home_of_file};
ghost use Rattle.sm_idl.specs.steps.ReaderView.{left};

use crate::file::{Beginning, File, has_version, metadata_statements, suffixes};
use crate::home::FileHome;
use crate::reader::{ReadStop, Reader};
use crate::refusal::IdlRefusal;
use crate::unknown::{AnyHome, NoHome};
use sm_lex::{LexRefusal, Token, tokens};
use sm_model::{Statement, Uses};
use std::alloc::Global;

/// A refusal of the lexer.
fn lex_refusal(refusal: LexRefusal) -> IdlRefusal
    ensures { LexedAs refusal result }
{
    match refusal {
        LexRefusal::Bad(at) => IdlRefusal::Lex(LexRefusal::Bad(at)),
        LexRefusal::UnclosedString(at) => IdlRefusal::Lex(LexRefusal::UnclosedString(at)),
        LexRefusal::UnclosedBlock(at) => IdlRefusal::Lex(LexRefusal::UnclosedBlock(at)),
        LexRefusal::BadEscape(at) => IdlRefusal::Lex(LexRefusal::BadEscape(at)),
        LexRefusal::NoMemory => IdlRefusal::NoMemory,
    }
}

impl<'t, 'a> Reader<'t, 'a> {
    /// A reader that stands before a text's first token.
    fn new(text: &'a str, tokens: &'t [Token<'a>]) -> Self
        requires whole { All (IsWhole text.now) (map lexeme_of tokens.now) }
        requires spell { TokensSpell (map lexeme_of tokens.now) text.now }
        ensures { left result ≡ spaced text.now (map lexeme_of tokens.now) }
    {
        Reader {
            text,
            behind: 0,
            tokens,
            at: 0,
        }
    }

    /// Whether no token is left.
    fn is_at_end(&self) -> bool
        ensures { IsTrue result ↔ (left self.now ≡ []) }
    {
        self.next().is_none()
    }

    /// Reads a file without a namespace.
    fn without_namespace(&mut self, alloc: Global) -> Result<File, ReadStop>
        ensures { (cs ms : List Pair) → BeginSaid (Some no_namespace) cs ms (left self.old) []
            → ReadsFile (left self.old) (left self.new) result }
    {
        let Beginning { controls, metadata } = match self.beginning(alloc, &NoHome) {
            Ok(beginning) => beginning,
            Err(stop) => return Err(stop),
        };
        match metadata_statements(alloc, metadata) {
            Ok(statements) => Ok(File {
                controls,
                statements,
            }),
            Err(_) => Err(ReadStop::NoMemory),
        }
    }

    /// Reads the statements behind the ids that are used, and what stands before the namespace once more, from the start.
    fn rest(
        &mut self,
        alloc: Global,
        start: Reader<'t, 'a>,
        home: &FileHome<'_>,
    ) -> Result<File, ReadStop>
        ensures { InSection (home_of_file home.now) (left start.entry) (left self.old)
            → ReadsFile (left start.entry) (left self.new) result }
    {
        let mut again = start;
        let Beginning { controls, metadata } = match again.beginning(alloc, home) {
            Ok(beginning) => beginning,
            Err(stop) => {
                *self = again;
                return Err(stop);
            }
        };
        let endings = match suffixes(alloc, controls.as_slice()) {
            Ok(endings) => endings,
            Err(_) => return Err(ReadStop::NoMemory),
        };
        let mut statements = match metadata_statements(alloc, metadata) {
            Ok(statements) => statements,
            Err(_) => return Err(ReadStop::NoMemory),
        };
        match self.statements(alloc, home, &endings, &mut statements) {
            Ok(()) => {}
            Err(stop) => return Err(stop),
        }
        if self.is_at_end() {
            return Ok(File {
                controls,
                statements,
            });
        }
        Err(ReadStop::Syntax)
    }

    /// Reads a file from its namespace on.
    fn with_namespace(&mut self, alloc: Global, start: Reader<'t, 'a>) -> Result<File, ReadStop>
        ensures { (cs ms : List Pair) → BeginSaid (Some no_namespace) cs ms (left start.entry) (left self.old)
            → HeadIs Namespace (left self.old)
            → ReadsFile (left start.entry) (left self.new) result }
    {
        match self.the_word("namespace") {
            Ok(()) => {}
            Err(stop) => return Err(stop),
        }
        let namespace = match self.namespace() {
            Ok(namespace) => namespace,
            Err(stop) => return Err(stop),
        };
        let uses = match self.uses(alloc) {
            Ok(uses) => uses,
            Err(stop) => return Err(stop),
        };
        let shared = match Uses::new(alloc, uses) {
            Ok(shared) => shared,
            Err(_) => return Err(ReadStop::NoMemory),
        };
        let home = FileHome {
            namespace,
            uses: &shared,
        };
        self.rest(alloc, start, &home)
    }

    /// Reads a file.
    fn file(&mut self, alloc: Global) -> Result<File, ReadStop>
        ensures { ReadsFile (left self.old) (left self.new) result }
    {
        let start = *self;
        match self.beginning(alloc, &AnyHome) {
            Ok(_) => {}
            Err(stop) => return Err(stop),
        }
        if self.is_at_end() {
            *self = start;
            return self.without_namespace(alloc);
        }
        if self.is_at_word("namespace") {
            return self.with_namespace(alloc, start);
        }
        Err(ReadStop::Syntax)
    }
}

/// Why reading stops, as the refusal of this text.
fn stopped(stop: ReadStop, reader: &Reader<'_, '_>, text: &str) -> IdlRefusal
    ensures { StoppedAs (length text.now) (left reader.now) stop result }
{
    match stop {
        ReadStop::Syntax => match reader.next() {
            Some(token) => IdlRefusal::Syntax(token.start),
            None => IdlRefusal::Syntax(text.len() as u64),
        },
        ReadStop::NoMemory => IdlRefusal::NoMemory,
    }
}

/// The statements that the tokens of a text say.
fn statements_of<'a>(
    alloc: Global,
    text: &'a str,
    tokens: &[Token<'a>],
) -> Result<Vec<Statement>, IdlRefusal>
    requires whole { All (IsWhole text.now) (map lexeme_of tokens.now) }
    requires spell { TokensSpell (map lexeme_of tokens.now) text.now }
    ensures { ReadsIdl text.now result }
{
    let mut reader = Reader::new(text, tokens);
    let File {
        controls,
        statements,
    } = match reader.file(alloc) {
        Ok(file) => file,
        Err(stop) => return Err(stopped(stop, &reader, text)),
    };
    if has_version(controls.as_slice()) {
        return Ok(statements);
    }
    Err(IdlRefusal::Version)
}

/// The statements that a model's text says, in order: metadata, and then shapes and apply statements, each structure that an
/// operation defines in place behind its operation.
///
/// # Errors
///
/// `Lex`, where the text has no tokens. `Syntax`, where they are no file's: the place of the first token through which the grammar
/// isn't begun, or the text's length. `Version`, where the file has no control `version`, or another than `"2"` and `"2.0"`.
/// `NoMemory`, where the allocator refuses.
pub fn read_idl(alloc: Global, text: &str) -> Result<Vec<Statement>, IdlRefusal>
    ensures reads { ReadsIdl text.now result }
    ensures formed { IfOk result (λ ss. AreFormed (statements_view ss.items)) }
{
    match tokens(alloc, text) {
        Ok(tokens) => statements_of(alloc, text, tokens.as_slice()),
        Err(refusal) => Err(lex_refusal(refusal)),
    }
}
